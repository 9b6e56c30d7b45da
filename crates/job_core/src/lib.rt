//! What one segment makes the balancer do: whom it comes from, what is asked of the store and in which order, and what
//! is sent when all is answered. A job is one segment's way through the handling table, from its first ask to its verdict.
#![tactic(auto)]

mod aim;
mod answers;
mod asking;
mod client;
mod ending;
mod forged;
mod held;
mod job;
mod laws;
mod mark;
mod moves;
mod owners;
mod phase;
mod ports;
mod server;
mod step;
mod verdict;

pub use aim::{Aim, aim_of};
pub use forged::ForgedNumbers;
pub use job::Job;
pub use laws::table_laws;
pub use mark::JobMark;
pub use moves::{Answer, HeldChange, Move, Next};
pub use verdict::{Verdict, Why};

#[cfg(test)]
mod tests;
