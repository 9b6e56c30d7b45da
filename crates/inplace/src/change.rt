// What rewritten headers get.
ghost use Rattle.std.specs.Prelude.{◌≡◌};
ghost use Rattle.inplace.specs.Rewriting.{change_of};

use seq_space::Num;
use tcp_segment::Segment;

/// The fields that are given to headers that are rewritten (RFC 791, 3.1; RFC 9293, 3.1). What else is new in them is the
/// same for each change.
#[derive(Clone, Copy, Debug, PartialEq, Eq)]
pub struct Change {
    /// The source address.
    pub source: u32,
    /// The destination address.
    pub target: u32,
    pub source_port: u16,
    pub target_port: u16,
    /// The number of the first byte of the data.
    pub seq: Num,
    /// The number that is acknowledged. It is written where the flag ACK is set, and 0 elsewhere.
    pub ack: Num,
    pub window: u16,
}

impl Change {
    /// The segment's fields. It takes no memory.
    pub fn of(seg: &Segment) -> Change
        ensures { result ≡ change_of seg.now }
    {
        Change {
            source: seg.source,
            target: seg.target,
            source_port: seg.head.source_port,
            target_port: seg.head.target_port,
            seq: seg.head.seq,
            ack: seg.head.ack,
            window: seg.head.window,
        }
    }
}
