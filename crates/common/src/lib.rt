//! What several crates share: numbers in network byte order, addresses as text, and in `specs/` the words in which
//! contracts speak of causes and of faults in their order.
#![tactic(auto)]

mod address;
mod fields;

pub use address::{Address, Endpoint};
pub use fields::{u16_at, u32_at};

#[cfg(test)]
mod tests;
