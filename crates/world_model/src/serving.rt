//! The calls of the shards' benches, whose replies tell what the balancer sends then.
ghost use Rattle.std.specs.Prelude.{◌≡◌, ◌≤◌, ◌<◌, ◌++◌, ℕ, List, Some, None, is_some, length, slice_get, slice_set, find, option_and_then, option_map, ◌==◌, ◌&&◌, IsTrue, IfOk, OnOk, OnErr};
ghost use Rattle.bench.specs.Bench.{job_at, served};
ghost use Rattle.bench.specs.Calls.{IsCall};
ghost use Rattle.bench.specs.Histories.{flow_of_job};
ghost use Rattle.bench.specs.declared.call.Call.TheVariants.{Take, Step};
ghost use Rattle.rule_table.specs.Setups.{SetupView};
ghost use Rattle.world_model.specs.declared.client.ClientSpec.{ClientSpec};
ghost use Rattle.world_model.specs.Enabled.{home};
ghost use Rattle.world_model.specs.Flows.{aim_of, flow_made, flow_sent};
ghost use Rattle.world_model.specs.Outs.{index_taken};
ghost use Rattle.world_model.specs.Placed.{honest_client, is_of, sending};
ghost use Rattle.job_core.specs.Jobs.{is_taken};
ghost use Rattle.world_model.specs.Shape.{IsShard};
ghost use Rattle.world_model.specs.Posted.{Posted as PostedView};
ghost use Rattle.world_model.specs.Told.{IsTold, shard_sends};
ghost use Rattle.world_model.specs.World.{end_of_server, is_end};
ghost use Rattle.world_model.specs.World.{ServerEnd as ServerEndView};
ghost use Rattle.world_model.specs.World.{Shard as ShardView};

use crate::client_list::ClientList;
use crate::posted::{Posted, Sender};
use crate::replying::{add_reply, flow_before};
use crate::server_ends::ServerEnds;
use crate::shard::Shard;
use bench::Reply;
use flow_id::{Flow, port_shard, shard};
use job_core::Aim;
use rule_table::Setup;
use std::alloc::AllocError;
use tcp_segment::Segment;

/// The shard that handles segments with this aim.
pub(crate) fn home(setup: &Setup, aim: &Aim) -> u8
    ensures { result ≡ home setup.now aim.now }
{
    setup.known();
    match aim {
        Aim::Client(flow) => shard(flow, setup.shards()),
        Aim::Server { port, .. } => port_shard(*port, setup.shards()),
        _ => 0,
    }
}

/// Whom a sent segment comes from, for the balancer.
pub(crate) fn aim_of(setup: &Setup, segment: &Segment) -> Aim
    ensures { result ≡ aim_of setup.now segment.now }
{
    job_core::aim_of(setup, segment.source, segment.target, &segment.head)
}

/// The flow by which the balancer sent a segment.
fn flow_sent(by: &Sender) -> Option<Flow>
    ensures { result ≡ flow_sent by.now }
{
    match by {
        Sender::Balancer(flow) => *flow,
        _ => None,
    }
}

/// The index of the SYN that made the end of a server.
fn maker(servers: &ServerEnds, server: u16, port: u16) -> Option<u64>
    ensures { result ≡ option_map (λ s. s.maker) (find (is_end server port) servers.now) }
{
    match servers.get(server, port) {
        Some(found) => Some(found.maker),
        None => None,
    }
}

/// The flow by which the balancer sent the segment with this index.
fn flow_at(sent: &[Posted], index: Option<u64>) -> Option<Flow>
    ensures { result ≡ option_and_then (λ n. option_and_then (λ x. flow_sent x.by) (slice_get sent.now n)) index }
{
    match index {
        Some(index) => match sent.get(index as usize) {
            Some(x) => flow_sent(&x.by),
            None => None,
        },
        None => None,
    }
}

/// The flow by whose SYN the end of a server was made.
#[tactic(auto, using(crate::proofs::Laid::made_by))]
pub(crate) fn flow_behind(
    servers: &ServerEnds,
    sent: &[Posted],
    server: u16,
    port: u16,
) -> Option<Flow>
    ensures { (setup : SetupView) (clients : List ClientSpec) → let w = sending setup clients servers.now sent.now in result ≡ option_and_then (flow_made w) (end_of_server w server port) }
{
    flow_at(sent, maker(servers, server, port))
}

/// Whether one of the clients has this flow.
fn has_client(service: u16, clients: &ClientList, flow: &Flow) -> bool
    ensures { result ≡ is_some (find (is_of service flow.now) clients.now) }
{
    if service != flow.service {
        return false;
    }
    if flow.life != 0 {
        return false;
    }
    clients.has(flow.address, flow.port)
}

/// Whether the flow is an honest client's.
pub(crate) fn is_honest(setup: &Setup, clients: &ClientList, flow: &Option<Flow>) -> bool
    ensures { result ≡ is_some (option_and_then (honest_client setup.now clients.now) flow.now) }
{
    match flow {
        Some(flow) => has_client(setup.service().number, clients, flow),
        None => false,
    }
}

/// The segment with this index.
pub(crate) fn entry(sent: &[Posted], index: u64) -> Option<&Posted>
    ensures { option_map (λ x. x.now) result ≡ slice_get sent.now index }
{
    match sent.get(index as usize) {
        Some(x) => Some(x),
        None => None,
    }
}

/// The instance takes the segment with this index at the bench of a shard.
pub(crate) fn take_at(
    shards: &mut [Shard],
    shard: u8,
    instance: u16,
    index: u64,
    aim: Aim,
    segment: Segment,
) -> Result<Reply, AllocError>
    requires within { shard < length shards.old }
    requires may { (s : ShardView) → slice_get shards.old shard ≡ Some s → IsCall s.bench.setup s.bench.shard (Take instance 0 aim segment) × (instance < length s.taken) }
    ensures ok { OnOk result ((s : ShardView) → slice_get shards.old shard ≡ Some s → shards.new ≡ slice_set shards.old shard (record { bench = (served s.bench (Take instance 0 aim segment)).0; taken = slice_set s.taken instance (Some index) })) }
    ensures reply { IfOk result (λ r. (s : ShardView) → slice_get shards.old shard ≡ Some s → IsTold s (Take instance 0 aim segment) r) }
    ensures err { OnErr result (shards.new ≡ shards.old) }
{
    shards[shard as usize].take(instance, index, aim, segment)
}

/// The instance's job makes a step at the bench of a shard.
pub(crate) fn step_at(shards: &mut [Shard], shard: u8, instance: u16) -> Result<Reply, AllocError>
    requires within { shard < length shards.old }
    requires may { (s : ShardView) → slice_get shards.old shard ≡ Some s → IsCall s.bench.setup s.bench.shard (Step instance) }
    ensures ok { OnOk result ((s : ShardView) → slice_get shards.old shard ≡ Some s → shards.new ≡ slice_set shards.old shard (record { bench = (served s.bench (Step instance)).0; taken = s.taken })) }
    ensures reply { IfOk result (λ r. (s : ShardView) → slice_get shards.old shard ≡ Some s → IsTold s (Step instance) r) }
    ensures err { OnErr result (shards.new ≡ shards.old) }
{
    shards[shard as usize].step(instance)
}

/// The instance takes the segment with this index at the bench of its shard, and what the balancer sends then is added. The
/// room for it is made first.
pub(crate) fn take_in(
    setup: &Setup,
    clients: &ClientList,
    shards: &mut [Shard],
    sent: &mut Vec<Posted>,
    instance: u16,
    index: u64,
) -> Result<(), AllocError>
    requires own { (g : ℕ) (s : ShardView) → slice_get shards.old g ≡ Some s → IsShard setup.now g s }
    requires count { length shards.old ≡ setup.now.shards }
    requires instance { instance < setup.now.instances }
    requires taken { (x : PostedView) → slice_get sent.old.items index ≡ Some x → IsTrue (is_taken (aim_of setup.now x.segment)) }
    ensures ok_shards { OnOk result ((x : PostedView) (s : ShardView) → slice_get sent.old.items index ≡ Some x → slice_get shards.old (home setup.now (aim_of setup.now x.segment)) ≡ Some s
        → shards.new ≡ slice_set shards.old (home setup.now (aim_of setup.now x.segment)) (record { bench = (served s.bench (Take instance 0 (aim_of setup.now x.segment) x.segment)).0; taken = slice_set s.taken instance (Some index) })) }
    ensures ok_sent { OnOk result ((x : PostedView) (s : ShardView) → slice_get sent.old.items index ≡ Some x → slice_get shards.old (home setup.now (aim_of setup.now x.segment)) ≡ Some s
        → (servers : List ServerEndView) → sent.new.items ≡ sent.old.items ++ shard_sends (sending setup.now clients.now servers sent.old.items) s (Take instance 0 (aim_of setup.now x.segment) x.segment) (Some index)) }
    ensures err_shards { OnErr result (shards.new ≡ shards.old) }
    ensures err_sent { OnErr result (sent.new.items ≡ sent.old.items) }
{
    let Some(x) = entry(sent.as_slice(), index) else {
        return Ok(());
    };
    setup.known();
    let aim = aim_of(setup, &x.segment);
    let segment = x.segment.copy()?;
    sent.reserve(11)?;
    let shard = home(setup, &aim);
    let flow = flow_before(&aim);
    let reply = take_at(shards, shard, instance, index, aim, segment)?;
    add_reply(setup, clients, sent, flow, Some(index), reply);
    Ok(())
}

/// The instance's job makes a step at the bench of a shard, and what the balancer sends then is added. The room for it is
/// made first.
pub(crate) fn step_in(
    setup: &Setup,
    clients: &ClientList,
    shards: &mut [Shard],
    sent: &mut Vec<Posted>,
    instance: u16,
    shard: u8,
) -> Result<(), AllocError>
    requires own { (s : ShardView) → slice_get shards.old shard ≡ Some s → IsShard setup.now shard s }
    requires within { shard < length shards.old }
    requires instance { instance < setup.now.instances }
    ensures ok_shards { OnOk result ((s : ShardView) → slice_get shards.old shard ≡ Some s → shards.new ≡ slice_set shards.old shard (record { bench = (served s.bench (Step instance)).0; taken = s.taken })) }
    ensures ok_sent { OnOk result ((s : ShardView) → slice_get shards.old shard ≡ Some s
        → (servers : List ServerEndView) → sent.new.items ≡ sent.old.items ++ shard_sends (sending setup.now clients.now servers sent.old.items) s (Step instance) (index_taken s.taken instance)) }
    ensures err_shards { OnErr result (shards.new ≡ shards.old) }
    ensures err_sent { OnErr result (sent.new.items ≡ sent.old.items) }
{
    sent.reserve(11)?;
    let index = index_at(shards, shard, instance);
    let flow = flow_of_job(shards, shard, instance);
    let reply = step_at(shards, shard, instance)?;
    add_reply(setup, clients, sent, flow, index, reply);
    Ok(())
}

/// The index of the segment that the instance took last at a shard.
fn index_at(shards: &[Shard], shard: u8, instance: u16) -> Option<u64>
    requires { shard < length shards.now }
    ensures { (s : ShardView) → slice_get shards.now shard ≡ Some s → result ≡ index_taken s.taken instance }
{
    shards[shard as usize].index(instance)
}

/// The flow that the instance's job at a shard is known to be of.
fn flow_of_job(shards: &[Shard], shard: u8, instance: u16) -> Option<Flow>
    requires within { shard < length shards.now }
    requires may { (s : ShardView) → slice_get shards.now shard ≡ Some s → instance < s.bench.setup.instances }
    ensures { (s : ShardView) → slice_get shards.now shard ≡ Some s → result ≡ option_and_then flow_of_job (job_at s.bench.desks instance) }
{
    shards[shard as usize].flow(instance)
}
