//! What an instance keeps of flows that it opened or passed on: the records by which it answers its own asks. The list
//! has its entries in the order of their last use.
#![tactic(auto)]

mod entry;
mod list;
mod owners;

pub use entry::Kept;
pub use list::{ENTRY_LIMIT, KeptList};

#[cfg(test)]
mod tests;
