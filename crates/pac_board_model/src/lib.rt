//! What the board does: its step, its walks and its trace, told by all that happened and told by what it keeps, with the laws
//! that join the two. Definitions and laws alone; the crate above is the board itself.
#![tactic(auto)]

pub mod laws;
