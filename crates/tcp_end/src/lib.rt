//! One end of a TCP connection, as a pure machine without timers (after the stream rules of RFC 9293, simpler): it is
//! told to write, to close and to abort, it takes segments in any order and any number of times, and it says which
//! segment it sends. What it has is its state, `EndState`; taking, closing and aborting are functions of it, and what it
//! may send is a relation of it, of which what it does send is one case.
#![tactic(auto)]

mod connection;
mod laws;
mod near_position;
mod sent;

pub use connection::End;
pub use laws::{ends_agree, received_is_a_prefix, sent_is_allowed};
pub use sent::{EndFault, Sent};

#[cfg(test)]
mod tests;
