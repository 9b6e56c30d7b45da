//! Window scaling (RFC 7323) between the two connections of a flow: which shift each side's windows have, and how a
//! window that one side gives is told to the other.
#![tactic(auto)]

mod scales;
mod windows;

pub use scales::{OWN_SHIFT, Shifts};
pub use windows::{restate, shifts, told_is_greatest};

#[cfg(test)]
mod tests;
