ghost use Rattle.std.specs.Prelude.{◌≡◌};
ghost use Rattle.flow_close.specs.Closing.{fin_record_of, reset_at, reset_of, turned_segment};

use flow_id::{Flow, Side};
use flow_record::Record;
use rule_table::Setup;
use seq_space::{Num, number};
use std::alloc::Global;
use tcp_segment::{Bytes, Head, Options, RST, Segment};

/// The reset that answers a segment which belongs to nothing known: it goes back to the sender, at the number that the
/// segment acknowledges (RFC 9293, 3.10.7.1). None exactly where the segment is a reset, or acknowledges nothing. It
/// takes no memory.
#[tactic(auto, unfolding(crate::specs::Closing::reset_back))]
pub fn reset_for(alloc: Global, seg: &Segment) -> Option<Segment>
    ensures { result ≡ reset_of seg.now }
{
    let head = &seg.head;
    if head.has_rst() || !head.has_ack() {
        return None;
    }
    Some(Segment {
        source: seg.target,
        target: seg.source,
        head: reset_head(head.target_port, head.source_port, head.ack),
        body: Bytes::new(Vec::new(alloc)),
    })
}

/// The reset of a client whose server has refused the connection. It goes from the service to the client, behind the
/// SYN-ACK with the forged number. It takes no memory.
#[tactic(auto, unfolding(crate::specs::Closing::turned_segment))]
pub fn turned(alloc: Global, setup: &Setup, flow: &Flow, forged: Num) -> Segment
    ensures { result ≡ turned_segment setup.now flow.now forged.0 }
{
    let service = setup.service();
    Segment {
        source: service.address,
        target: flow.address,
        head: reset_head(service.port, flow.port, number(forged, 1)),
        body: Bytes::new(Vec::new(alloc)),
    }
}

/// The record of a segment with FIN of this side: the number of the FIN itself, which stands behind the data.
pub fn fin_record(side: Side, seg: &Segment) -> Record
    ensures { result ≡ fin_record_of side seg.now }
{
    Record::Fin {
        side,
        number: number(seg.head.seq, seg.body.as_slice().len() as u64),
    }
}

/// The header of a reset without ACK.
fn reset_head(source_port: u16, target_port: u16, seq: Num) -> Head
    ensures { result ≡ (reset_at 0 source_port 0 target_port seq.0).head }
{
    Head {
        source_port,
        target_port,
        seq,
        ack: Num(0),
        flags: RST,
        window: 0,
        urgent: 0,
        options: Options::none(),
    }
}
