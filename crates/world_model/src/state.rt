//! What the world is made of, and what each event makes of it.
ghost use Rattle.std.specs.Prelude.{◌≡◌, ◌<◌, ◌^◌, ℕ, true, is_some, option_map, Some, length, slice_get, slice_set, IfOk, OnOk, OnErr};
ghost use Rattle.seq_space.specs.declared.Num.{Num};
ghost use Rattle.world_model.specs.Runs.{after_all};
ghost use Rattle.world_model.specs.Sending.{next_sent};
ghost use Rattle.world_model.specs.Shape.{HasShape};
ghost use Rattle.world_model.specs.Steps.{IsEvent, events_of, is_enabled};
ghost use Rattle.world_model.specs.World.{end_at, with_end};
ghost use Rattle.world_model.specs.declared.event.Event.TheVariants.{Abort, Close, Crash, Fail, Open, Refuse, Send, Step, Stray, Take, TakeAt, Write};

use crate::aborting::abort_at;
use crate::at::At;
use crate::client_list::ClientList;
use crate::crashing::crash_all;
use crate::delivery::{deliver_to_client, deliver_to_server};
use crate::event::Event;
use crate::failing::fail_all;
use crate::posted::{Posted, Sender};
use crate::posting::{next_sent, nowhere, refusal_of};
use crate::route::{client_in, route_of};
use crate::server_end::ServerEnd;
use crate::server_ends::ServerEnds;
use crate::serving::{entry, step_in, take_in};
use crate::shard::Shard;
use crate::swapping::{swap_client, swap_named};
use crate::world::{end_of_client, end_of_server};
use rule_table::Setup;
use seq_space::Num;
use std::alloc::{AllocError, Global};
use std::marker::Model;
use tcp_end::End;
use tcp_segment::{Bytes, Segment};

/// What the world is made of.
#[derive(Drop)]
pub(crate) struct State {
    pub(crate) setup: Setup,
    pub(crate) clients: ClientList,
    pub(crate) ends: Vec<Option<End>>,
    pub(crate) servers: ServerEnds,
    pub(crate) shards: Vec<Shard>,
    pub(crate) sent: Vec<Posted>,
}

impl Model for State {
    ghost use Rattle.world_model.specs.World.{World};

    ghost Value = { World };

    ghost view = { λ w. record { setup = w.setup; clients = w.clients; ends = w.ends.items; servers = w.servers; shards = w.shards.items; sent = w.sent.items } };
}

impl State {
    /// The numbers of an event are of their types, and so are the clients' first numbers. It does nothing.
    pub(crate) fn fits(&self, event: &Event)
        ensures { IsEvent self.now event.now }
    {
        match event {
            Event::Open(client) => fits_number(client_in(self.clients.as_slice(), *client).isn),
            Event::Send(_, size) => fits_size(*size),
            Event::TakeAt { isn, .. } => fits_number(*isn),
            _ => {}
        }
    }

    /// Makes an event that can happen. After an `Err` the world is as before.
    pub(crate) fn make(&mut self, event: &Event) -> Result<(), AllocError>
        requires shape { HasShape self.old }
        requires can { is_enabled self.old event.now ≡ true }
        ensures ok { OnOk result (self.new ≡ after_all self.old (events_of self.old event.now)) }
        ensures err { OnErr result (self.new ≡ self.old) }
    {
        match event {
            Event::Open(client) => self.open(*client),
            Event::Write(at, bytes) => self.write(at, bytes),
            Event::Close(at) => self.close(at),
            Event::Send(at, size) => self.send(at, *size),
            Event::TakeAt { at, index, isn } => self.take_at(at, *index, *isn),
            Event::Refuse {
                server,
                port,
                index,
            } => self.refuse(*server, *port, *index),
            Event::Abort(at) => self.abort(at),
            Event::Stray(segment) => self.stray(segment),
            Event::Take { instance, index } => self.take(*instance, *index),
            Event::Step { instance, shard } => self.step(*instance, *shard),
            Event::Crash { instance } => self.crash(*instance),
            Event::Fail { replica } => self.fail(*replica),
        }
    }

    /// A client opens its connection. It takes no memory.
    fn open(&mut self, client: u32) -> Result<(), AllocError>
        requires shape { HasShape self.old }
        requires can { is_enabled self.old (Open client) ≡ true }
        ensures ok { OnOk result (self.new ≡ after_all self.old (events_of self.old (Open client))) }
        ensures err { OnErr result (self.new ≡ self.old) }
    {
        let alloc = *self.sent.allocator();
        let isn = client_in(self.clients.as_slice(), client).isn;
        set_end(&mut self.ends, client, End::client(alloc, isn));
        Ok(())
    }

    /// Puts an end in the place of the one there, which is handed back.
    fn swap(&mut self, at: &At, end: &mut End)
        requires shape { HasShape self.old }
        requires there { is_some (end_at self.old at.now) ≡ true }
        ensures world { self.new ≡ with_end self.old at.now end.old }
        ensures end { Some end.new ≡ end_at self.old at.now }
    {
        match at {
            At::Client(client) => swap_client(&mut self.ends, *client, end),
            At::Server { server, port } => swap_named(&mut self.servers, *server, *port, end),
        }
    }

    /// The end writes these bytes. After an `Err` the world is as before.
    #[tactic(auto, using(crate::proofs::Swaps::end_made, crate::proofs::Swaps::end_same, crate::proofs::Swaps::swap_there, crate::proofs::Shapes::with_end_shape, crate::proofs::Making::write_there))]
    fn write(&mut self, at: &At, bytes: &Bytes) -> Result<(), AllocError>
        requires shape { HasShape self.old }
        requires can { is_enabled self.old (Write at.now bytes.now) ≡ true }
        ensures ok { OnOk result (self.new ≡ after_all self.old (events_of self.old (Write at.now bytes.now))) }
        ensures err { OnErr result (self.new ≡ self.old) }
    {
        let mut end = End::client(*self.sent.allocator(), Num(0));
        self.swap(at, &mut end);
        let done = end.write(bytes.as_slice());
        self.swap(at, &mut end);
        match done {
            Ok(()) => Ok(()),
            Err(_) => Err(AllocError),
        }
    }

    /// The end closes its stream. It takes no memory.
    #[tactic(auto, using(crate::proofs::Swaps::end_made, crate::proofs::Swaps::swap_there, crate::proofs::Shapes::with_end_shape, crate::proofs::Making::close_there))]
    fn close(&mut self, at: &At) -> Result<(), AllocError>
        requires shape { HasShape self.old }
        requires can { is_enabled self.old (Close at.now) ≡ true }
        ensures ok { OnOk result (self.new ≡ after_all self.old (events_of self.old (Close at.now))) }
        ensures err { OnErr result (self.new ≡ self.old) }
    {
        let mut end = End::client(*self.sent.allocator(), Num(0));
        self.swap(at, &mut end);
        end.close();
        self.swap(at, &mut end);
        Ok(())
    }

    /// The end sends a segment with so many bytes at most. After an `Err` the world is as before.
    fn send(&mut self, at: &At, size: u16) -> Result<(), AllocError>
        requires can { is_enabled self.old (Send at.now size) ≡ true }
        ensures ok { OnOk result (self.new ≡ after_all self.old (events_of self.old (Send at.now size))) }
        ensures err { OnErr result (self.new ≡ self.old) }
    {
        let Some(x) = self.next_sent(at, size)? else {
            return Ok(());
        };
        self.sent.push(x)?;
        Ok(())
    }

    /// The end takes the segment with this index. After an `Err` the world is as before.
    fn take_at(&mut self, at: &At, index: u64, isn: Num) -> Result<(), AllocError>
        requires shape { HasShape self.old }
        requires can { is_enabled self.old (TakeAt at.now index isn) ≡ true }
        ensures ok { OnOk result (self.new ≡ after_all self.old (events_of self.old (TakeAt at.now index isn))) }
        ensures err { OnErr result (self.new ≡ self.old) }
    {
        let sent = self.sent.as_slice();
        match at {
            At::Client(client) => deliver_to_client(&mut self.ends, sent, *client, index),
            At::Server { server, port } => {
                deliver_to_server(&mut self.servers, sent, *server, *port, index, isn)
            }
        }
    }

    /// The server refuses the SYN with this index. After an `Err` the world is as before.
    fn refuse(&mut self, server: u16, port: u16, index: u64) -> Result<(), AllocError>
        ensures ok { OnOk result (self.new ≡ after_all self.old (events_of self.old (Refuse server port index))) }
        ensures err { OnErr result (self.new ≡ self.old) }
    {
        let Some(x) = entry(self.sent.as_slice(), index) else {
            return Ok(());
        };
        let at = At::Server { server, port };
        let part = refusal_of(*self.sent.allocator(), &x.segment);
        let segment = route_of(&self.setup, self.clients.as_slice(), &at).segment(part);
        self.sent.push(nowhere(Sender::End(at), segment))?;
        Ok(())
    }

    /// The end aborts its connection. After an `Err` the world is as before.
    fn abort(&mut self, at: &At) -> Result<(), AllocError>
        requires shape { HasShape self.old }
        requires can { is_enabled self.old (Abort at.now) ≡ true }
        ensures ok { OnOk result (self.new ≡ after_all self.old (events_of self.old (Abort at.now))) }
        ensures err { OnErr result (self.new ≡ self.old) }
    {
        self.sent.reserve(1)?;
        let reset = abort_at(&mut self.ends, &mut self.servers, at);
        let Some(part) = reset else {
            return Ok(());
        };
        let segment = route_of(&self.setup, self.clients.as_slice(), at).segment(part);
        self.sent.push_reserved(nowhere(Sender::End(*at), segment));
        Ok(())
    }

    /// Somebody else sends a copy of this. After an `Err` the world is as before.
    fn stray(&mut self, segment: &Segment) -> Result<(), AllocError>
        ensures ok { OnOk result (self.new ≡ after_all self.old (events_of self.old (Stray segment.now))) }
        ensures err { OnErr result (self.new ≡ self.old) }
    {
        let segment = segment.copy()?;
        self.sent.push(nowhere(Sender::Stranger, segment))?;
        Ok(())
    }

    /// An instance takes a segment, and handles it where it needs to ask no replica. After an `Err` the world is as before.
    fn take(&mut self, instance: u16, index: u64) -> Result<(), AllocError>
        requires shape { HasShape self.old }
        requires can { is_enabled self.old (Take instance index) ≡ true }
        ensures ok { OnOk result (self.new ≡ after_all self.old (events_of self.old (Take instance index))) }
        ensures err { OnErr result (self.new ≡ self.old) }
    {
        take_in(
            &self.setup,
            &self.clients,
            &mut self.shards,
            &mut self.sent,
            instance,
            index,
        )
    }

    /// An instance's job makes a step at a shard. After an `Err` the world is as before.
    fn step(&mut self, instance: u16, shard: u8) -> Result<(), AllocError>
        requires shape { HasShape self.old }
        requires can { is_enabled self.old (Step instance shard) ≡ true }
        ensures ok { OnOk result (self.new ≡ after_all self.old (events_of self.old (Step instance shard))) }
        ensures err { OnErr result (self.new ≡ self.old) }
    {
        step_in(
            &self.setup,
            &self.clients,
            &mut self.shards,
            &mut self.sent,
            instance,
            shard,
        )
    }

    /// An instance loses its jobs, what it holds and what it keeps, at every shard. It takes no memory.
    fn crash(&mut self, instance: u16) -> Result<(), AllocError>
        requires shape { HasShape self.old }
        requires can { is_enabled self.old (Crash instance) ≡ true }
        ensures ok { OnOk result (self.new ≡ after_all self.old (events_of self.old (Crash instance))) }
        ensures err { OnErr result (self.new ≡ self.old) }
    {
        crash_all(&self.setup, &mut self.shards, instance);
        Ok(())
    }

    /// A replica fails, at every shard whose list holds it. It takes no memory.
    fn fail(&mut self, replica: u8) -> Result<(), AllocError>
        requires shape { HasShape self.old }
        requires can { is_enabled self.old (Fail replica) ≡ true }
        ensures ok { OnOk result (self.new ≡ after_all self.old (events_of self.old (Fail replica))) }
        ensures err { OnErr result (self.new ≡ self.old) }
    {
        fail_all(&self.setup, &mut self.shards, replica);
        Ok(())
    }

    /// What the end there sends, with so many bytes at most.
    fn next_sent(&self, at: &At, size: u16) -> Result<Option<Posted>, AllocError>
        ensures { IfOk result (λ o. o ≡ next_sent self.now at.now size) }
    {
        match self.end(at) {
            Some(end) => next_sent(
                &self.setup,
                &self.clients,
                &self.servers,
                self.sent.as_slice(),
                at,
                end,
                size,
            ),
            None => Ok(None),
        }
    }

    /// The end there, None exactly where it has not opened or was not made.
    pub(crate) fn end(&self, at: &At) -> Option<&End>
        ensures { option_map (λ e. e.now) result ≡ end_at self.now at.now }
    {
        match at {
            At::Client(client) => end_of_client(self.ends.as_slice(), *client),
            At::Server { server, port } => end_of_server(&self.servers, *server, *port),
        }
    }

    /// Where its memory comes from.
    pub(crate) fn allocator(&self) -> Global {
        *self.sent.allocator()
    }

    /// The balancer's setup.
    pub(crate) fn setup(&self) -> &Setup
        ensures { result.now ≡ self.now.setup }
    {
        &self.setup
    }

    /// The ends of the servers, in the order in which they were made.
    pub(crate) fn servers(&self) -> &[ServerEnd]
        ensures { result.now ≡ self.now.servers }
    {
        self.servers.as_slice()
    }

    /// The number of segments that were ever sent.
    pub(crate) fn count(&self) -> u64
        ensures { result ≡ length self.now.sent }
    {
        self.sent.len() as u64
    }

    /// The segment with this index, None exactly where there are no so many.
    pub(crate) fn segment(&self, index: u64) -> Option<&Segment>
        ensures { option_map (λ s. s.now) result ≡ option_map (λ x. x.segment) (slice_get self.now.sent index) }
    {
        match self.sent.get(index as usize) {
            Some(x) => Some(&x.segment),
            None => None,
        }
    }
}

/// A number is below 2^32. It does nothing.
fn fits_number(number: Num)
    ensures { number.0 < 2 ^ 32 }
{
    let _ = number.0;
}

/// A size is below 2^16. It does nothing.
fn fits_size(size: u16)
    ensures { size < 2 ^ 16 }
{
    let _ = size;
}

/// Puts an end in the place of that of the client with this index.
fn set_end(ends: &mut Vec<Option<End>>, client: u32, end: End)
    requires { client < length ends.old.items }
    ensures { ends.new.items ≡ slice_set ends.old.items client (Some end) }
{
    ends[client as usize] = Some(end);
}
