//! What the balancer sends with the reply of a bench, and of which flow it is.
ghost use Rattle.std.specs.Prelude.{◌≡◌, ◌+◌, ◌≤◌, ◌++◌, [], List, Some, length, vec_capacity, slice_get, option_and_then, option_map};
ghost use Rattle.bench.specs.declared.call.Reply.TheVariants.{Done};
ghost use Rattle.job_core.specs.Jobs.{flow_by};
ghost use Rattle.job_core.specs.declared.verdict.Verdict.TheVariants.{Opened};
ghost use Rattle.tcp_segment.specs.Sending.{OutsView};
ghost use Rattle.world_model.specs.Outs.{handled_sends};
ghost use Rattle.world_model.specs.Placed.{first_by, sending, total};
ghost use Rattle.world_model.specs.Told.{flow_to, flow_told, is_to_client, told_sends};
ghost use Rattle.world_model.specs.World.{ServerEnd as ServerEndView};

use crate::client_list::ClientList;
use crate::laying::{Place, add_outs, place_by};
use crate::posted::Posted;
use crate::serving::{entry, is_honest};
use bench::Reply;
use flow_id::Flow;
use job_core::{Aim, Verdict};
use rule_table::Setup;
use tcp_segment::{Outs, Segment};

/// The flow that the handling of a segment with this aim is known to be of at first: a client's is its own.
pub(crate) fn flow_before(aim: &Aim) -> Option<Flow>
    ensures { result ≡ flow_by aim.now [] }
{
    match aim {
        Aim::Client(flow) => Some(*flow),
        _ => None,
    }
}

/// The flow of the client to which a segment goes.
fn flow_to(setup: &Setup, segment: &Segment) -> Flow
    ensures { result ≡ flow_to setup.now segment.now }
{
    Flow {
        service: setup.service().number,
        address: segment.target,
        port: segment.head.target_port,
        life: 0,
    }
}

/// Whether what is sent with this verdict for a server's segment goes to the client.
fn is_to_client(verdict: &Verdict) -> bool
    ensures { result ≡ is_to_client verdict.now }
{
    matches!(verdict, Verdict::Forwarded | Verdict::TurnedAway)
}

/// The flow of what is sent with this verdict: the one that the handling was known to be of, or that of the client to which
/// it goes. A handling tells its flow too late where an instance keeps the flow's records and asks nobody for them.
fn flow_told(setup: &Setup, before: Option<Flow>, verdict: &Verdict, outs: &Outs) -> Option<Flow>
    ensures { result ≡ flow_told setup.now before verdict.now outs.now.list }
{
    if before.is_some() {
        return before;
    }
    if !is_to_client(verdict) {
        return None;
    }
    match outs.as_slice().first() {
        Some(segment) => Some(flow_to(setup, segment)),
        None => None,
    }
}

/// The segment with this index, if there is an index.
fn entry_at(sent: &[Posted], index: Option<u64>) -> Option<&Posted>
    ensures { option_map (λ x. x.now) result ≡ option_and_then (slice_get sent.now) index }
{
    match index {
        Some(index) => entry(sent, index),
        None => None,
    }
}

/// Where the segments of a handling with this verdict begin to stand, which took the segment with this index.
fn first_place(verdict: &Verdict, honest: bool, sent: &[Posted], index: Option<u64>) -> Place
    ensures { result ≡ first_by verdict.now honest (option_and_then (slice_get sent.now) index) }
{
    match entry_at(sent, index) {
        Some(x) => place_by(verdict, honest, x.position, x.acknowledged),
        None => place_by(verdict, honest, None, None),
    }
}

/// Adds what the balancer sends where it handled the segment with this index with this verdict, and the handling was known
/// to be of this flow.
fn add_handled(
    setup: &Setup,
    clients: &ClientList,
    sent: &mut Vec<Posted>,
    before: Option<Flow>,
    index: Option<u64>,
    verdict: &Verdict,
    outs: Outs,
)
    requires room { length sent.old.items + 11 ≤ vec_capacity sent.old }
    requires short { verdict.now ≡ Opened → total outs.list ≤ 14600 }
    ensures { (servers : List ServerEndView) → sent.new.items ≡ sent.old.items ++ handled_sends (sending setup.now clients.now servers sent.old.items) (flow_told setup.now before verdict.now outs.list) (option_and_then (slice_get sent.old.items) index) verdict.now outs.list }
{
    let flow = flow_told(setup, before, verdict, &outs);
    let honest = is_honest(setup, clients, &flow);
    let first = first_place(verdict, honest, sent.as_slice(), index);
    outs.known();
    add_outs(sent, flow, first, outs.into_vec());
}

/// Adds what the balancer sends with this reply of a bench, whose instance took the segment with this index last, and whose
/// handling was known to be of this flow. There is room for it.
pub(crate) fn add_reply(
    setup: &Setup,
    clients: &ClientList,
    sent: &mut Vec<Posted>,
    before: Option<Flow>,
    index: Option<u64>,
    reply: Reply,
)
    requires room { length sent.old.items + 11 ≤ vec_capacity sent.old }
    requires short { (outs : OutsView) → reply ≡ Done Opened outs → total outs.list ≤ 14600 }
    ensures { (servers : List ServerEndView) → sent.new.items ≡ sent.old.items ++ told_sends (sending setup.now clients.now servers sent.old.items) before index reply }
{
    match reply {
        Reply::Done { verdict, outs } => {
            add_handled(setup, clients, sent, before, index, &verdict, outs)
        }
        _ => {}
    }
}
