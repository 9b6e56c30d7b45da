//! Files by name: what a command reads from and writes to.
//!
//! [`Shelf`] is the outside as a command sees it. It has three meanings: what each name holds, where the shelf tells
//! that; for each kind of call and each name a count of faults, which never falls; and which names are sure to be
//! read. A call fails only where the count of its kind and its name rose, so code over any shelf cannot claim a fault
//! that did not happen. [`MemoryShelf`] keeps its files in memory and fails where it is told to; [`FileShelf`] is the
//! thin edge over real files.
#![tactic(auto)]

mod counters;
mod file;
mod memory;
mod outside;

pub use file::FileShelf;
pub use memory::MemoryShelf;
pub use outside::{Failed, Kind, Shelf};

#[cfg(test)]
mod tests;
