//! The server's side of a handshake (RFC 9293, 3.5): which server a flow is given to, the SYN that opens the connection
//! to it, and how its SYN-ACK is answered.
#![tactic(auto)]

mod choosing;
mod handshake;
mod laws;

pub use choosing::choose;
pub use handshake::{opening, server_syn};
pub use laws::{chosen_is_admitted, opening_numbers, server_syn_numbers};

#[cfg(test)]
mod tests;
