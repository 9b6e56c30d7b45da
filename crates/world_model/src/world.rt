ghost use Rattle.std.specs.Prelude.{◌≡◌, ℕ, length, replicate, map, slice_get, find, option_map, option_and_then, is_some, if◌then◌else◌, IfOk, OnOk, OnErr, None};
ghost use Rattle.std.specs.List.{range_with_len};
ghost use Rattle.world_model.specs.Clients.{AreClients};
ghost use Rattle.world_model.specs.Reached.{IsReached};
ghost use Rattle.world_model.specs.Safety.{IsSafeNow};
ghost use Rattle.tcp_end.specs.EndState.{closed_end};
ghost use Rattle.world_model.specs.Steps.{stepped};
ghost use Rattle.world_model.specs.declared.at.At.TheVariants.{Client};
ghost use Rattle.world_model.specs.declared.event.Event.TheVariants.{Step, Take};
ghost use Rattle.world_model.specs.declared.event.Happened.TheVariants.{Done, NotEnabled};
ghost use Rattle.world_model.specs.World.{end_at, first_shard, is_end, start};

use crate::at::At;
use crate::client::ClientSpec;
use crate::client_list::ClientList;
use crate::event::{Event, Happened};
use crate::laws::{steps_are_events, streams_agree};
use crate::server_end::ServerEnd;
use crate::server_ends::ServerEnds;
use crate::shard::Shard;
use crate::state::State;
use rule_table::Setup;
use std::alloc::{AllocError, Global};
use std::marker::Model;
use tcp_end::End;
use tcp_segment::Segment;

/// The ends of the connections, the balancer's shards between them, and all segments that were ever sent.
#[derive(Drop)]
pub struct World {
    state: State,
}

impl Model for World {
    ghost use Rattle.world_model.specs.World.{World};
    ghost use Rattle.world_model.specs.Reached.{IsReached};

    ghost Value = { World };

    ghost view = { λ w. w.state };

    ghost invariant = { λ w. IsReached w.state };
}

/// So many clients that are not open. The one error is want of memory.
fn no_ends(alloc: Global, count: usize) -> Result<Vec<Option<End>>, AllocError>
    ensures { IfOk result (λ v. v.items ≡ replicate count None) }
{
    let mut ends = Vec::with_capacity(alloc, count)?;
    for _client in 0..count {
        ends.push(None)?;
    }
    Ok(ends)
}

/// The shards of a setup. The one error is want of memory.
#[tactic(auto, using(crate::proofs::Begins::shard_more))]
fn new_shards(alloc: Global, setup: &Setup) -> Result<Vec<Shard>, AllocError>
    ensures { IfOk result (λ v. v.items ≡ map (first_shard setup.now) (range_with_len 0 setup.now.shards)) }
{
    let count = setup.shards();
    let mut shards = Vec::with_capacity(alloc, count as usize)?;
    for number in 0..count {
        shards.push(Shard::new(alloc, setup, number)?)?;
    }
    Ok(shards)
}

impl World {
    /// The world before anything has happened. The one error is want of memory.
    pub fn new(alloc: Global, setup: Setup, clients: Vec<ClientSpec>) -> Result<World, AllocError>
        requires { AreClients setup clients.items }
        ensures { IfOk result (λ w. w ≡ start setup clients.items) }
    {
        let ends = no_ends(alloc, clients.len())?;
        let clients = ClientList::new(alloc, clients)?;
        let shards = new_shards(alloc, &setup)?;
        setup.known();
        Ok(World {
            state: State {
                setup,
                clients,
                ends,
                servers: ServerEnds::new(alloc),
                shards,
                sent: Vec::new(alloc),
            },
        })
    }

    /// What is known of every world: a run leads to it, and as long as each list of replicas keeps a living member it is safe
    /// by the calls of any run that does. It does nothing.
    pub fn known(&self)
        ensures reached { IsReached self.now }
        ensures safe { IsSafeNow self.now }
    {
        streams_agree();
        let _ = &self.state;
    }

    /// The number of segments that were ever sent.
    pub fn sent(&self) -> u64
        ensures { result ≡ length self.now.sent }
    {
        self.state.count()
    }

    /// The segment with this index, None exactly where there are no so many.
    pub fn segment(&self, index: u64) -> Option<&Segment>
        ensures { option_map (λ s. s.now) result ≡ option_map (λ x. x.segment) (slice_get self.now.sent index) }
    {
        self.state.segment(index)
    }

    /// Makes the event. It answers NotEnabled exactly where the event cannot happen, and then the world is as before, as it
    /// is after want of memory, which is the one error.
    #[tactic(auto, using(crate::proofs::Shapes::reached_shape, crate::proofs::Makes::stepped_true, crate::proofs::Makes::stepped_false, crate::proofs::Reaching::safe_now))]
    pub fn step(&mut self, event: &Event) -> Result<Happened, AllocError>
        ensures state { OnOk result (self.new ≡ (stepped self.old event.now).0) }
        ensures answer { IfOk result (λ h. h ≡ (stepped self.old event.now).1) }
        ensures err { OnErr result (self.new ≡ self.old) }
        ensures safe { IsSafeNow self.new }
    {
        steps_are_events();
        streams_agree();
        self.state.fits(event);
        if !self.state.can(event) {
            return Ok(Happened::NotEnabled);
        }
        self.state.make(event)?;
        Ok(Happened::Done)
    }

    /// Where its memory comes from.
    pub(crate) fn allocator(&self) -> Global {
        self.state.allocator()
    }

    /// The balancer's setup.
    pub(crate) fn setup(&self) -> &Setup
        ensures { result.now ≡ self.now.setup }
    {
        self.state.setup()
    }

    /// The ends of the servers, in the order in which they were made.
    pub(crate) fn servers(&self) -> &[ServerEnd]
        ensures { result.now ≡ self.now.servers }
    {
        self.state.servers()
    }

    /// The end there, None exactly where it has not opened or was not made.
    pub fn end(&self, at: &At) -> Option<&End>
        ensures { option_map (λ e. e.now) result ≡ end_at self.now at.now }
    {
        self.state.end(at)
    }
}

/// The end of a client, where it has opened.
pub(crate) fn end_of_client(ends: &[Option<End>], client: u32) -> Option<&End>
    ensures { option_map (λ e. e.now) result ≡ option_and_then (λ e. e) (slice_get ends.now client) }
{
    match ends.get(client as usize) {
        Some(Some(end)) => Some(end),
        _ => None,
    }
}

/// The end of a server towards this port, where it was made.
pub(crate) fn end_of_server(servers: &ServerEnds, server: u16, port: u16) -> Option<&End>
    ensures { option_map (λ e. e.now) result ≡ option_map (λ s. s.state) (find (is_end server port) servers.now) }
{
    match servers.get(server, port) {
        Some(found) => Some(&found.state),
        None => None,
    }
}
