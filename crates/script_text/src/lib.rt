//! The fault script: which instance a record goes to, which instances crash and come back, and which replicas fail.
//!
//! A script is a text of lines of four forms. It is read whole, or refused at its first faulty line. A script that was
//! read tells which instances live at a record and which of them the record goes to.
#![tactic(auto)]

mod fault;
mod index;
mod laws;
mod line;
mod lives;
mod script;
mod text;
mod words;

pub use fault::ScriptFault;
pub use laws::assignments;
pub use line::{LAST_ITEM, Line, MOST_STEPS};
pub use script::{Script, script_of};

#[cfg(test)]
mod tests;
