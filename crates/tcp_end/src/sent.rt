use seq_space::Num;
use tcp_segment::Bytes;

/// What an end sends: the fields of a segment that its stream determines, and where they stand in the stream.
#[derive(Debug, Drop)]
pub struct Sent {
    /// The position of the first byte, of the SYN, or of the close, counted without end: the SYN stands at 0, the byte
    /// at offset o of the stream at o + 1, and the close behind the last byte.
    pub position: u64,
    /// The flags, as in a segment's header.
    pub flags: u8,
    /// The number of `position`.
    pub seq: Num,
    /// The number of the position that is expected next of the peer, where the flag ACK is set, and else 0.
    pub ack: Num,
    /// The bytes of the stream from `position` on.
    pub body: Bytes,
}

/// Why bytes were not written.
#[derive(Clone, Copy, Debug, PartialEq, Eq)]
pub enum EndFault {
    /// The stream was closed or aborted, or the peer reset the connection.
    Closed,
    /// Want of memory.
    Memory,
}
