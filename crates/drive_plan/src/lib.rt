//! The plan of a generated run: a generator of numbers, the turns that are drawn from it, and the bytes that clients
//! and servers write. One number tells all of it, so that a run can be made again.
#![tactic(auto)]

mod generator;
mod streams;

pub use generator::{Plan, Turn};
pub use streams::{client_byte, head_of, server_byte};

#[cfg(test)]
mod tests;
