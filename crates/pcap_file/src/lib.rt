//! Captures in the classic pcap format: a file header, and then for each frame a record head and the frame's bytes. A
//! `Reader` walks through a file record by record, in either byte order and with fractions in microseconds or
//! nanoseconds; a capture of raw IP packets is written.
#![tactic(auto)]

mod capture;
mod ethernet;
mod numbers;
mod reading;
mod writing;

pub use capture::{FILE_LIMIT, Frame, Link, PcapFault, RECORD_LIMIT, Settings};
pub use ethernet::network;
pub use reading::{Reader, capture_is_its_frames};
pub use writing::{write_header, write_record, write_record_head, written_capture_is_read};

#[cfg(test)]
mod tests;
