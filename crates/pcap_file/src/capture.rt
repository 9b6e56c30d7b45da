/// The most bytes of a file that is read.
pub const FILE_LIMIT: usize = 67_108_864;

/// The most bytes that a record keeps.
pub const RECORD_LIMIT: u32 = 262_144;

/// What a frame begins with.
#[derive(Clone, Copy, Debug, PartialEq, Eq)]
pub enum Link {
    /// Link type 1: a head of 14 bytes, the last two of which name the protocol of what follows.
    Ethernet,
    /// Link type 101: the frame is an IP packet.
    Raw,
}

/// What the file header says of all records.
#[derive(Clone, Copy, Debug, PartialEq, Eq)]
pub struct Settings {
    /// The numbers of file and record heads have their lowest byte first.
    pub little: bool,
    /// Fractions of a second are in nanoseconds, and not in microseconds.
    pub nano: bool,
    pub link: Link,
}

/// A captured frame.
#[derive(Clone, Copy, Debug, PartialEq, Eq)]
pub struct Frame {
    /// The place of the frame's first byte in the file.
    pub at: usize,
    /// When it was captured: seconds, as the record says.
    pub seconds: u32,
    /// The fraction of the second in microseconds; nanoseconds are rounded down.
    pub micros: u32,
    /// How many of its bytes stand in the file.
    pub kept: u32,
    /// How many bytes it had.
    pub original: u32,
    pub link: Link,
}

/// Why bytes are no capture that is taken. The faults of the file header are looked for in this order, and then from
/// record to record those of a record: its head is cut, it is too large, its bytes are cut.
#[derive(Clone, Copy, Debug, PartialEq, Eq)]
pub enum PcapFault {
    /// The file has only so many bytes, fewer than the 24 of a file header.
    HeaderCut(u32),
    /// The first four bytes, the highest first, are no magic number.
    Magic(u32),
    /// Another version than 2.4.
    Version { major: u16, minor: u16 },
    /// Another link type than Ethernet and raw IP.
    Link(u32),
    /// At this place of the file begins a record whose head or bytes go past the end.
    RecordCut(u32),
    /// At this place of the file begins a record that keeps more than 262,144 bytes.
    TooLarge { at: u32, kept: u32 },
}
