//! Bounded inboxes from one thread to another: a giver gives items and at last the end, and a taker takes them. What is
//! taken is a prefix of what was given, in order, and all of it once the end is taken.
//!
//! An inbox is a `RuledArrayQueue` of `crossbeam_queue`. `rule.rt` has what its two sides know of it, and
//! `specs/Rule.antt` what holds between any two steps of them.
#![tactic(auto)]

mod giver;
mod rule;
mod sides;
mod taker;

pub use giver::Giver;
pub use sides::pair;
pub use taker::{Taker, Took};

#[cfg(test)]
mod tests;
