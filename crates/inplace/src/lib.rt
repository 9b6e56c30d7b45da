//! The headers of a packet that is passed on are rewritten where they stand, and its data is left as it is: the checksum is
//! carried on from the old one (RFC 1624), so that the data is not summed again. So is the front of a packet written from the
//! one that it was made of.
#![tactic(auto)]

mod change;
mod rewriting;
mod sums;
mod writing;

pub use change::Change;
pub use rewriting::{rewrite, what_is_read_fits};
pub use writing::{Place, write_front};

#[cfg(test)]
mod tests;
