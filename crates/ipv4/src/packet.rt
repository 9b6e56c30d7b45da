/// The most bytes of payload behind a header without options: the length field has 16 bits, and counts the header's 20.
pub const PAYLOAD_LIMIT: usize = 65_515;

/// An IPv4 packet as it stands in the bytes that it was read from.
#[derive(Clone, Copy, Debug, PartialEq, Eq)]
pub struct Packet {
    /// The source address.
    pub source: u32,
    /// The destination address.
    pub target: u32,
    /// The place of the payload's first byte, behind the header and its options.
    pub start: usize,
    /// The place behind the payload's last byte. What stands there is padding.
    pub end: usize,
}

/// Why bytes are no packet that is taken (RFC 791, 3.1). The faults are looked for in this order.
#[derive(Clone, Copy, Debug, PartialEq, Eq)]
pub enum IpFault {
    /// Fewer bytes than a header has at least, which is `need`.
    Short { need: u32, have: u32 },
    /// Another version than 4.
    Version(u8),
    /// The header's length in words of four bytes is below 5, or goes past the bytes.
    HeaderLength(u8),
    /// The packet's length in bytes is below its header's, or goes past the bytes.
    TotalLength(u16),
    /// The checksum that the header keeps is not the one that its bytes give.
    BadSum { kept: u16, computed: u16 },
    /// A part of a packet that was cut into fragments.
    Fragment,
    /// Another protocol than TCP, which is 6.
    Protocol(u8),
}
