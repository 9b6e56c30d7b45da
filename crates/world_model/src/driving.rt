//! What happens in a generated run: events that are skipped where they cannot happen, and what follows at once where an end
//! takes a segment.
ghost use Rattle.std.specs.Prelude.{◌≡◌, ◌-◌, ◌++◌, IfOk, OnOk, is_some, map};
ghost use Rattle.std.specs.List.{range_with_len};
ghost use Rattle.drive_plan.specs.Streams.{client_byte_at};
ghost use Rattle.world_model.specs.DrivenSetup.{client_text, server_text};
ghost use Rattle.world_model.specs.Schedule.{answered, began, closed_back, delivered, end_for, end_named, followed, is_half_closed, made};
ghost use Rattle.world_model.specs.World.{end_at};

use crate::at::At;
use crate::event::Event;
use crate::world::World;
use drive_plan::{client_byte, head_of, server_byte};
use rule_table::Setup;
use seq_space::Num;
use std::alloc::{AllocError, Global};
use tcp_segment::{Bytes, Segment};

/// The most flows of a generated run.
pub const MOST_FLOWS: u32 = 1000;

/// The most bytes that each stream of a generated run has.
pub const MOST_BYTES: u32 = 100_000;

/// With how many bytes of data at most an end sends.
pub(crate) const SIZE: u16 = 1460;

/// The event happens, if it can. The one error is want of memory.
#[tactic(auto, using(crate::proofs::Scheduled::made_is))]
pub(crate) fn happen(world: &mut World, event: &Event) -> Result<(), AllocError>
    ensures { OnOk result (world.new ≡ made world.old event.now) }
{
    world.step(event)?;
    Ok(())
}

/// Adds so many bytes of a client's stream behind its head. The one error is want of memory.
#[tactic(auto, using(crate::proofs::Ranges::added_next))]
fn add_client_bytes(text: &mut Vec<u8>, client: u32, bytes: u32) -> Result<(), AllocError>
    ensures { OnOk result (text.new.items ≡ text.old.items ++ map (client_byte_at client) (range_with_len 0 bytes)) }
{
    for place in 0..bytes {
        text.push(client_byte(client, place))?;
    }
    Ok(())
}

/// What a client writes: its request head and so many bytes. The one error is want of memory.
#[tactic(auto, unfolding(crate::specs::DrivenSetup::client_text))]
fn client_text(alloc: Global, client: u32, bytes: u32) -> Result<Bytes, AllocError>
    ensures { IfOk result (λ text. text ≡ client_text bytes client) }
{
    let mut text = Vec::new(alloc);
    head_of(client, &mut text)?;
    add_client_bytes(&mut text, client, bytes)?;
    Ok(Bytes::new(text))
}

/// What a server writes: so many bytes. The one error is want of memory.
#[tactic(auto, using(crate::proofs::Ranges::map_next), unfolding(crate::specs::DrivenSetup::server_text))]
fn server_text(alloc: Global, bytes: u32) -> Result<Bytes, AllocError>
    ensures { IfOk result (λ text. text ≡ server_text bytes) }
{
    let mut text = Vec::with_capacity(alloc, bytes as usize)?;
    for place in 0..bytes {
        text.push(server_byte(place))?;
    }
    Ok(Bytes::new(text))
}

/// The client opens its connection, writes all that it writes, and closes. The one error is want of memory.
#[tactic(auto, unfolding(crate::specs::Schedule::began))]
pub(crate) fn begin(world: &mut World, client: u32, bytes: u32) -> Result<(), AllocError>
    ensures { OnOk result (world.new ≡ began bytes world.old client) }
{
    let at = At::Client(client);
    happen(world, &Event::Open(client))?;
    let text = client_text(world.allocator(), client, bytes)?;
    happen(world, &Event::Write(at, text))?;
    happen(world, &Event::Close(at))?;
    Ok(())
}

/// The index of the client with this port.
fn client_with(port: u16) -> u32
    ensures { result ≡ port - 20000 }
{
    (port as u32).saturating_sub(20000)
}

/// The end that a segment goes to. None where it goes to the balancer.
#[tactic(auto, unfolding(crate::specs::Schedule::end_named))]
fn end_named(setup: &Setup, segment: &Segment) -> Option<At>
    ensures { result ≡ end_named setup.now segment.now }
{
    if segment.target == setup.service().address {
        return None;
    }
    match setup.server_at(segment.target, segment.head.target_port) {
        Some(server) => Some(At::Server {
            server,
            port: segment.head.source_port,
        }),
        None => Some(At::Client(client_with(segment.head.target_port))),
    }
}

/// The end that the segment with this index goes to. None where it goes to the balancer, or there is none.
pub(crate) fn end_for(world: &World, index: u64) -> Option<At>
    ensures { result ≡ end_for world.now index }
{
    match world.segment(index) {
        Some(segment) => end_named(world.setup(), segment),
        None => None,
    }
}

/// The end is there.
fn is_there(world: &World, at: &At) -> bool
    ensures { result ≡ is_some (end_at world.now at.now) }
{
    world.end(at).is_some()
}

/// The end has seen its peer's close and is not closed.
fn is_half_closed(world: &World, at: &At) -> bool
    ensures { result ≡ is_half_closed (end_at world.now at.now) }
{
    match world.end(at) {
        Some(end) => end.saw_close() && !end.closed(),
        None => false,
    }
}

/// A server's end that was made writes. The one error is want of memory.
fn answer(world: &mut World, at: &At, bytes: u32) -> Result<(), AllocError>
    ensures { OnOk result (world.new ≡ answered bytes world.old at.now) }
{
    if !is_there(world, at) {
        return Ok(());
    }
    let text = server_text(world.allocator(), bytes)?;
    happen(world, &Event::Write(*at, text))?;
    Ok(())
}

/// A server's end closes that has seen its peer's close. The one error is want of memory.
fn close_back(world: &mut World, at: &At) -> Result<(), AllocError>
    ensures { OnOk result (world.new ≡ closed_back world.old at.now) }
{
    if !is_half_closed(world, at) {
        return Ok(());
    }
    happen(world, &Event::Close(*at))?;
    Ok(())
}

/// What follows at once where an end has taken a segment. The one error is want of memory.
#[tactic(auto, unfolding(crate::specs::Schedule::followed))]
fn follow(world: &mut World, at: &At, was_there: bool, bytes: u32) -> Result<(), AllocError>
    ensures { OnOk result (world.new ≡ followed bytes was_there world.old at.now) }
{
    match at {
        At::Client(_) => Ok(()),
        At::Server { .. } => {
            if !was_there {
                answer(world, at, bytes)?;
            }
            close_back(world, at)
        }
    }
}

/// The end takes the segment with this index, and what follows at once happens. The one error is want of memory.
#[tactic(auto, unfolding(crate::specs::Schedule::delivered))]
pub(crate) fn deliver(
    world: &mut World,
    at: &At,
    index: u64,
    number: u32,
    bytes: u32,
) -> Result<(), AllocError>
    ensures { OnOk result (world.new ≡ delivered bytes world.old at.now index number) }
{
    let was_there = is_there(world, at);
    happen(
        world,
        &Event::TakeAt {
            at: *at,
            index,
            isn: Num(number),
        },
    )?;
    follow(world, at, was_there, bytes)?;
    Ok(())
}
