//! The definition of a step of the processor comes to what the manual says: steps worked out by hand from UM0080, proved by computing.
#![tactic(auto)]

pub mod lines;
pub mod manual;
