//! The rules file: a TOML document that says a balancer's setup.
//!
//! `rules_of` answers the setup, or the first fault in the order in which faults are looked for: the fields in the order of
//! the file's format, then fields too many, then servers that come twice, then what rules say of servers, and their weights
//! last. docs/RULES.md has the format and each fault's text.
#![tactic(auto)]

mod build;
mod checks;
mod document;
mod fault;
mod forms;
mod laws;
mod lists;
mod name;
mod values;
mod written;

pub use document::rules_of;
pub use fault::RuleFault;
pub use laws::rules_say;
pub use name::Name;

#[cfg(test)]
mod tests;
