//! Whether an event can happen.
ghost use Rattle.std.specs.Prelude.{◌≡◌, ◌≤◌, ◌-◌, ◌^◌, ℕ, Bool, is_none, is_some, option_map, slice_get};
ghost use Rattle.std.specs.List.{list_any};
ghost use Rattle.job_core.specs.Jobs.{is_taken};
ghost use Rattle.seq_space.specs.declared.Num.{Num};
ghost use Rattle.world_model.specs.Enabled.{is_from, is_out, is_within, makes_end, may_handle, may_receive};
ghost use Rattle.world_model.specs.Steps.{is_enabled};
ghost use Rattle.world_model.specs.World.{World as WorldView};
ghost use Rattle.world_model.specs.declared.at.At.{At as AtView};
ghost use Rattle.world_model.specs.declared.event.Event.TheVariants.{Abort, Close, Crash, Fail, Open, Refuse, Send, Step, Stray, Take, TakeAt, Write};

use crate::at::At;
use crate::event::Event;
use crate::posted::{Posted, Sender};
use crate::route::route_of;
use crate::serving::{aim_of, entry};
use crate::state::State;
use crate::world::end_of_client;
use job_core::Aim;
use rule_table::Setup;
use tcp_end::End;
use tcp_segment::Segment;

impl State {
    /// The event can happen.
    pub(crate) fn can(&self, event: &Event) -> bool
        ensures { result ≡ is_enabled self.now event.now }
    {
        match event {
            Event::Open(client) => self.can_open(*client),
            Event::Write(at, _) => self.can_write(at),
            Event::Close(at) => self.can_close(at),
            Event::Send(at, _) => self.can_send(at),
            Event::TakeAt { at, index, .. } => self.can_take_at(at, *index),
            Event::Refuse {
                server,
                port,
                index,
            } => self.can_refuse(*server, *port, *index),
            Event::Abort(at) => self.can_abort(at),
            Event::Stray(segment) => self.can_stray(segment),
            Event::Take { instance, index } => self.can_take(*instance, *index),
            Event::Step { instance, shard } => self.can_step(*instance, *shard),
            Event::Crash { instance } => self.can_crash(*instance),
            Event::Fail { replica } => self.can_fail(*replica),
        }
    }

    /// The client is there and has not opened.
    #[tactic(auto, unfolding(crate::specs::Steps::is_enabled))]
    fn can_open(&self, client: u32) -> bool
        ensures { result ≡ is_enabled self.now (Open client) }
    {
        if client as usize >= self.clients.as_slice().len() {
            return false;
        }
        match end_of_client(self.ends.as_slice(), client) {
            Some(_) => false,
            None => true,
        }
    }

    /// The end is there, and neither closed nor dead.
    #[tactic(auto, unfolding(crate::specs::Steps::is_enabled))]
    fn can_write(&self, at: &At) -> bool
        ensures { (bytes : _) → result ≡ is_enabled self.now (Write at.now bytes) }
    {
        match self.end(at) {
            Some(end) => !end.closed() && !end.dead(),
            None => false,
        }
    }

    /// The end is there.
    #[tactic(auto, unfolding(crate::specs::Steps::is_enabled))]
    fn can_close(&self, at: &At) -> bool
        ensures { result ≡ is_enabled self.now (Close at.now) }
    {
        match self.end(at) {
            Some(_) => true,
            None => false,
        }
    }

    /// The end is there and not dead.
    #[tactic(auto, unfolding(crate::specs::Steps::is_enabled))]
    fn can_send(&self, at: &At) -> bool
        ensures { (size : ℕ) → result ≡ is_enabled self.now (Send at.now size) }
    {
        match self.end(at) {
            Some(end) => !end.dead(),
            None => false,
        }
    }

    /// The end is there and not dead.
    #[tactic(auto, unfolding(crate::specs::Steps::is_enabled))]
    fn can_abort(&self, at: &At) -> bool
        ensures { result ≡ is_enabled self.now (Abort at.now) }
    {
        match self.end(at) {
            Some(end) => !end.dead(),
            None => false,
        }
    }

    /// The segment is the balancer's and goes to the end, which takes it.
    #[tactic(auto, unfolding(crate::specs::Steps::is_enabled))]
    fn can_take_at(&self, at: &At, index: u64) -> bool
        ensures { (isn : Num) → result ≡ is_enabled self.now (TakeAt at.now index isn) }
    {
        match entry(self.sent.as_slice(), index) {
            Some(x) => {
                is_out(&x.by)
                    && route_of(&self.setup, self.clients.as_slice(), at).is_back(&x.segment)
                    && may_receive(&self.setup, at, x, self.end(at))
            }
            None => false,
        }
    }

    /// The segment is a SYN of the balancer's and goes to the server's end, which is not there.
    #[tactic(auto, unfolding(crate::specs::Steps::is_enabled))]
    fn can_refuse(&self, server: u16, port: u16, index: u64) -> bool
        ensures { result ≡ is_enabled self.now (Refuse server port index) }
    {
        let at = At::Server { server, port };
        match entry(self.sent.as_slice(), index) {
            Some(x) => {
                is_out(&x.by)
                    && route_of(&self.setup, self.clients.as_slice(), &at).is_back(&x.segment)
                    && makes_end(&self.setup, &at, &x.segment)
                    && self.end(&at).is_none()
            }
            None => false,
        }
    }

    /// The segment comes neither from a server nor from a client.
    #[tactic(auto, unfolding(crate::specs::Steps::is_enabled))]
    fn can_stray(&self, segment: &Segment) -> bool
        ensures { result ≡ is_enabled self.now (Stray segment.now) }
    {
        match self
            .setup
            .server_at(segment.source, segment.head.source_port)
        {
            Some(_) => false,
            None => !self.clients.has(segment.source, segment.head.source_port),
        }
    }

    /// The instance is there, and the segment is one that it may handle.
    #[tactic(auto, unfolding(crate::specs::Steps::is_enabled))]
    fn can_take(&self, instance: u16, index: u64) -> bool
        ensures { result ≡ is_enabled self.now (Take instance index) }
    {
        instance < self.setup.instances() && may_handle(&self.setup, self.sent.as_slice(), index)
    }

    /// The instance is there, and so is the shard.
    #[tactic(auto, unfolding(crate::specs::Steps::is_enabled))]
    fn can_step(&self, instance: u16, shard: u8) -> bool
        ensures { result ≡ is_enabled self.now (Step instance shard) }
    {
        instance < self.setup.instances() && shard < self.setup.shards()
    }

    /// The instance is there.
    #[tactic(auto, unfolding(crate::specs::Steps::is_enabled))]
    fn can_crash(&self, instance: u16) -> bool
        ensures { result ≡ is_enabled self.now (Crash instance) }
    {
        instance < self.setup.instances()
    }

    /// The replica is there.
    #[tactic(auto, unfolding(crate::specs::Steps::is_enabled))]
    fn can_fail(&self, replica: u8) -> bool
        ensures { result ≡ is_enabled self.now (Fail replica) }
    {
        replica < self.setup.replicas()
    }
}

/// Whether the balancer sent it.
fn is_out(by: &Sender) -> bool
    ensures { result ≡ is_out by.now }
{
    matches!(by, Sender::Balancer(_))
}

/// Whether the position is less than 2^31 from the one that is expected, or none.
pub(crate) fn is_within(expected: u64, position: Option<u64>) -> bool
    ensures { result ≡ is_within expected position }
{
    match position {
        Some(position) if position < expected => expected - position < 0x8000_0000,
        Some(position) => position - expected < 0x8000_0000,
        None => true,
    }
}

/// Whether the segment is a SYN that goes to a server.
fn makes_end(setup: &Setup, at: &At, segment: &Segment) -> bool
    ensures { result ≡ makes_end setup.now at.now segment.now }
{
    match at {
        At::Client(_) => false,
        At::Server { server, .. } => { setup.server(*server).is_some() && segment.head.has_syn() }
    }
}

/// Whether the end there, or the one that it makes, takes the segment.
fn may_receive(setup: &Setup, at: &At, x: &Posted, end: Option<&End>) -> bool
    ensures { (w : WorldView) → w.setup ≡ setup.now → result ≡ may_receive w at.now x.now (option_map (λ e. e.now) end.entry) }
{
    match end {
        Some(end) => is_within(end.next_expected(), x.position),
        None => makes_end(setup, at, &x.segment),
    }
}

/// The segment with this index is not the balancer's, and is aimed at it.
fn may_handle(setup: &Setup, sent: &[Posted], index: u64) -> bool
    ensures { (w : WorldView) → w.setup ≡ setup.now → result ≡ may_handle w (slice_get sent.now index) }
{
    let Some(x) = entry(sent, index) else {
        return false;
    };
    match x.by {
        Sender::Balancer(_) => false,
        _ => is_taken(&aim_of(setup, &x.segment)),
    }
}

/// Whether a segment with this aim is handled.
fn is_taken(aim: &Aim) -> bool
    ensures { result ≡ is_taken aim.now }
{
    matches!(aim, Aim::Client(_) | Aim::Server { .. })
}
