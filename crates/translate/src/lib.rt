//! Translation of segments between the two connections of a flow (RFC 9293, 3.4): what the client sends goes on to the
//! server with its acknowledgment in the server's numbers, and what the server sends goes on to the client with the
//! sequence number that the balancer's own SYN promised.
#![tactic(auto)]

mod laws;
mod passing;

pub use laws::{to_client_numbers, to_server_numbers, translations};
pub use passing::{to_client, to_server};

#[cfg(test)]
mod tests;
