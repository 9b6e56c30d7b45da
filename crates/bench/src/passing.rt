//! A segment of a flow that an instance keeps: it is passed on in the call that takes it, without a job. It takes no memory.

ghost use Rattle.std.specs.Prelude.{◌≡◌, ◌∷◌, [], IfSome};
ghost use Rattle.bench.specs.JobLaws.{IsRecordOf};
ghost use Rattle.bench.specs.Passing.{IsFor, IsMidway, flow_for as flow_of, found_in, passed_on};
ghost use Rattle.bench.specs.declared.call.Reply.TheVariants.{Done};
ghost use Rattle.flow_id.specs.declared.key.Key.TheVariants as key;
ghost use Rattle.job_core.specs.Rooms.{IsReady};
ghost use Rattle.job_core.specs.declared.verdict.Verdict.TheVariants.{Forwarded};
ghost use Rattle.tcp_segment.specs.Sending.{outs_of};

use crate::call::Reply;
use flow_id::Flow;
use job_core::{Aim, ForgedNumbers, Verdict};
use kept_records::{Kept, KeptList};
use rule_table::Setup;
use seq_space::Num;
use tcp_segment::{Head, Outs, Segment};
use translate::{to_client, to_server};

/// The flow that a segment of this aim is of, as far as the entries tell.
fn flow_for(kept: &KeptList, aim: Aim) -> Option<Flow>
    ensures { result ≡ flow_of kept.now aim }
{
    match aim {
        Aim::Client(flow) => Some(flow),
        Aim::Server { server, port } => kept.owner(server, port),
        Aim::Odd(_) | Aim::NotOurs => None,
    }
}

/// What is kept of the flow of a segment that neither opens nor ends a connection; the entry goes to the front. None where
/// nothing is kept, and for a segment with SYN, FIN or RST (RFC 9293, 3.1).
#[tactic(auto, using(crate::proofs::AtOnce::front_none))]
pub(crate) fn find_for(kept: &mut KeptList, aim: Aim, head: &Head) -> Option<(Flow, Kept)>
    ensures found { IfSome result (IsFor kept.old aim) }
    ensures midway { IfSome result (λ e. IsMidway head.now.flags) }
    ensures front { kept.new ≡ found_in result kept.old }
{
    if head.has_syn() || head.has_fin() || head.has_rst() {
        return None;
    }
    let flow = flow_for(kept, aim)?;
    let found = kept.find(&flow)?;
    Some((flow, found))
}

/// Passes the segment on to the other side of its flow's connection, in the room that is lent.
pub(crate) fn pass_on(
    setup: &Setup,
    forged: &ForgedNumbers,
    room: &mut Outs,
    aim: Aim,
    seg: Segment,
    flow: Flow,
    found: &Kept,
) -> Reply
    requires secret { forged.now ≡ setup.now.secret }
    requires room { IsReady room.old }
    requires syn { IsRecordOf setup.now (key.Syn flow) found.now.syn }
    requires opened { IsRecordOf setup.now (key.Open flow) found.now.opened }
    ensures { result ≡ Done Forwarded (outs_of (passed_on setup.now aim seg found.now flow ∷ [])) }
{
    let number = Num(forged.look(&flow));
    let passed = match aim {
        Aim::Client(_) => to_server(setup, seg, number, &found.syn, &found.opened),
        _ => to_client(setup, seg, number, &found.syn, &found.opened, &flow),
    };
    let outs = room.fill(passed);
    Reply::Done {
        verdict: Verdict::Forwarded,
        outs,
    }
}
