//! Tests of what neither the built library nor the built program can show: each module is named
//! like the crate that it tests.
#![tactic(auto)]

#[cfg(test)]
mod board;
#[cfg(test)]
mod cpu;
#[cfg(test)]
mod picture;
