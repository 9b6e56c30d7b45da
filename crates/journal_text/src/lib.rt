//! The text of a journal: the histories of the locks that guard the benches of a run, with a line for each call.
#![tactic(auto)]

mod laws;
mod writing;

pub use laws::journal_shows;
pub use writing::journal;

#[cfg(test)]
mod tests;
