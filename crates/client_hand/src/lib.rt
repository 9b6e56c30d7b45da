//! The client's side of a handshake (RFC 9293, 3.5): what is kept of a client's SYN, and the SYN-ACK by which the
//! balancer answers it in place of a server.
#![tactic(auto)]

mod handshake;

pub use handshake::{syn_ack, syn_ack_numbers, syn_record};

#[cfg(test)]
mod tests;
