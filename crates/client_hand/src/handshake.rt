ghost use Rattle.std.specs.Prelude.{◌≡◌, IsTrue};
ghost use Rattle.flow_id.specs.declared.key.Flow.{Flow};
ghost use Rattle.flow_record.specs.Records.{is_syn};
ghost use Rattle.flow_record.specs.declared.record.Record.{Record};
ghost use Rattle.rule_table.specs.Setups.{SetupView};
ghost use Rattle.client_hand.specs.SynAck.{AnswersSyn, syn_ack_segment, syn_record_of};

use flow_id::{Flow, marks_of};
use flow_record::Record;
use rule_table::Setup;
use seq_space::{Num, number};
use std::alloc::Global;
use tcp_segment::{ACK, Bytes, Head, Options, SYN, Segment};
use window_scale::OWN_SHIFT;

/// The maximum segment size of a client that gives none (RFC 9293, 3.7.1).
const DEFAULT_MSS: u16 = 536;

/// The maximum segment size that the balancer offers to clients.
const OFFERED_MSS: u16 = 1460;

/// The window that the balancer offers to clients.
const OFFERED_WINDOW: u16 = 14600;

/// The record of a client's SYN: its number, its maximum segment size, 536 where it gives none, its window, by how many
/// bits it shifts its windows, and whether it takes selective acknowledgments.
#[tactic(auto, using(crate::proofs::Scales::scales))]
pub fn syn_record(head: &Head) -> Record
    ensures record { result ≡ syn_record_of head.now }
    ensures syn { IsTrue (is_syn result) }
{
    Record::Syn {
        number: head.seq,
        mss: head.options.mss.unwrap_or(DEFAULT_MSS),
        window: head.window,
        scale: head.options.shift(),
        sack: head.options.sack_permitted,
    }
}

/// The answer to the SYN that the record is of (RFC 9293, 3.5). It goes from the service to the client, has the number
/// that the flow's hash gives and acknowledges the SYN; it offers a window of 14600 and segments of 1460 bytes, scales
/// later windows where the client scales its own, and takes selective acknowledgments where the client does. It takes no
/// memory.
#[tactic(auto, unfolding(crate::specs::SynAck::syn_ack_segment))]
pub fn syn_ack(alloc: Global, setup: &Setup, flow: &Flow, item: &Record) -> Segment
    requires { IsTrue (is_syn item.now) }
    ensures { result ≡ syn_ack_segment setup.now flow.now item.now }
{
    let service = setup.service();
    let Record::Syn {
        number: first,
        scale,
        sack,
        ..
    } = *item
    else {
        unreachable!()
    };
    Segment {
        source: service.address,
        target: flow.address,
        head: Head {
            source_port: service.port,
            target_port: flow.port,
            seq: Num(marks_of(setup.secret(), flow).forged),
            ack: number(first, 1),
            flags: SYN | ACK,
            window: OFFERED_WINDOW,
            urgent: 0,
            options: Options {
                mss: Some(OFFERED_MSS),
                scale: if scale.is_some() {
                    Some(OWN_SHIFT)
                } else {
                    None
                },
                sack_permitted: sack,
                ..Options::none()
            },
        },
        body: Bytes::new(Vec::new(alloc)),
    }
}

/// A law: from where and to where the answer to a SYN goes, and its numbers, flags and data.
#[tactic(auto, unfolding(crate::specs::SynAck::syn_ack_segment))]
pub fn syn_ack_numbers()
    ensures { (setup : SetupView) (flow : Flow) (syn : Record) → AnswersSyn setup flow syn (syn_ack_segment setup flow syn) }
{}
