//! Which connection of a client a segment belongs to. A client's address and port has up to eight connections, one after
//! the other: its lives, numbered from 0. A chain is the part of the handling table that finds the life, ask by ask.
#![tactic(auto)]

mod answer;
mod chain;
mod found;
mod laws;
mod stage;

pub use answer::Answer;
pub use chain::Chain;
pub use found::Found;
pub use laws::{continued_lives, opened_lives, short_chains};

#[cfg(test)]
mod tests;
