//! The balancer's setup: its sizes, the service, the servers, and the rules by which a request is given to a server.
//!
//! A rule has conditions on the request's host, path and cookies, and a list of servers with weights. The first rule all
//! of whose conditions hold is the one that matches, and it admits the servers that it gives a weight above 0.
#![tactic(auto)]

mod cookies;
mod hashing;
mod laws;
mod matching;
mod setup;
mod types;

pub use laws::matches;
pub use setup::Setup;
pub use types::{Choices, Rule, Server, Service, Sizes, Text};

#[cfg(test)]
mod tests;
