//! IPv4 packets (RFC 791) and the Internet checksum (RFC 1071): bytes are read to where a packet's payload stands, and
//! a payload is written as a packet.
#![tactic(auto)]

mod checksum;
mod packet;
mod reading;
mod writing;

pub use checksum::{add_words, add_words_blanked, sum};
pub use packet::{IpFault, PAYLOAD_LIMIT, Packet};
pub use reading::read;
pub use writing::{packet_header, write, written_packet_is_read};

#[cfg(test)]
mod tests;
