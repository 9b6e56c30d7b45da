//! The replicated store: an ask goes down the list of cells, one cell at each step, and ends behind the last one with
//! what is decided. Steps of several asks and failures of cells fall between each other in any order.
#![tactic(auto)]

mod laws;
mod step;

pub use laws::{ask_laws, store_laws};
pub use replica_cell::{Stepped, Walk, start};
pub use step::{Noted, noted_step, undo_step, walk_step};

#[cfg(test)]
mod tests;
