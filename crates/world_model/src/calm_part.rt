//! The calm part of a generated run: rounds in which each end sends, and what it sent is handled at once.
ghost use Rattle.std.specs.Prelude.{◌≡◌, ◌<◌, ◌≤◌, ◌+◌, ◌*◌, ◌/◌, ◌-◌, ◌%◌, ℕ, IfOk, OnOk, length, option_map, slice_get};
ghost use Rattle.tcp_end.specs.EndState.{EndState};
ghost use Rattle.bench.specs.Blocks.{budget};
ghost use Rattle.world_model.specs.Enabled.{is_living};
ghost use Rattle.world_model.specs.Schedule.{calmed, clients_exchanged, exchanged, exchanged_by, handled, is_closed, is_finished, is_over, is_reset, end_for, moment, out_by, out_taken, outs_taken, round_made, server_named, servers_exchanged, shard_for, stepped_on, stepped_out};
ghost use Rattle.world_model.specs.Steps.{stepped};
ghost use Rattle.world_model.specs.World.{end_at, end_of_client};
ghost use Rattle.world_model.specs.declared.event.Event.TheVariants.{Take};

use crate::at::At;
use crate::driving::{MOST_BYTES, SIZE, deliver, end_for, happen};
use crate::event::{Event, Happened};
use crate::rough_part::server_at;
use crate::serving::{aim_of, home};
use crate::world::World;
use drive_plan::Plan;
use std::alloc::AllocError;

/// The shard that handles the segment with this index, 0 where there is none.
fn shard_for(world: &World, index: u64) -> u8
    ensures { result ≡ shard_for world.now index }
{
    match world.segment(index) {
        Some(segment) => home(world.setup(), &aim_of(world.setup(), segment)),
        None => 0,
    }
}

/// The instance's job at this shard makes a step. Without a job nothing happens. The one error is want of memory.
#[tactic(auto, using(crate::proofs::Scheduled::step_on_is))]
fn step_on(world: &mut World, instance: u16, shard: u8) -> Result<(), AllocError>
    ensures { OnOk result (world.new ≡ stepped_on instance shard world.old) }
{
    happen(world, &Event::Step { instance, shard })?;
    Ok(())
}

/// The instance's job at this shard makes so many steps, or ends before. The one error is want of memory.
#[tactic(auto, using(crate::proofs::Ranges::fold_next), unfolding(crate::specs::Schedule::stepped_out))]
fn step_out(world: &mut World, most: u32, instance: u16, shard: u8) -> Result<(), AllocError>
    ensures { OnOk result (world.new ≡ stepped_out most instance shard world.old) }
{
    for _step in 0..most {
        step_on(world, instance, shard)?;
    }
    Ok(())
}

/// The most steps of a handling.
fn most_steps(world: &World) -> u32
    ensures { result ≡ budget world.now.setup }
{
    11 * world.setup().copies() as u32
}

/// The instance takes the segment with this index, if it can. The one error is want of memory.
fn take(world: &mut World, instance: u16, index: u64) -> Result<Happened, AllocError>
    ensures state { OnOk result (world.new ≡ (stepped world.old (Take instance index)).0) }
    ensures answer { IfOk result (λ h. h ≡ (stepped world.old (Take instance index)).1) }
{
    world.step(&Event::Take { instance, index })
}

/// The instance takes the segment with this index, if it can, and handles it to its end. The one error is want of memory.
#[tactic(auto, using(crate::proofs::Scheduled::handled_done, crate::proofs::Scheduled::handled_not))]
fn handle(world: &mut World, instance: u16, index: u64) -> Result<(), AllocError>
    ensures { OnOk result (world.new ≡ handled world.old instance index) }
{
    let most = most_steps(world);
    let shard = shard_for(world, index);
    match take(world, instance, index)? {
        Happened::Done => {
            step_out(world, most, instance, shard)?;
            Ok(())
        }
        Happened::NotEnabled => Ok(()),
    }
}

/// The end that the segment with this index names takes it, if it names one. The one error is want of memory.
fn take_out(world: &mut World, index: u64, number: u32, bytes: u32) -> Result<(), AllocError>
    ensures { OnOk result (world.new ≡ out_by bytes world.old index number (end_for world.old index)) }
{
    match end_for(world, index) {
        Some(at) => {
            deliver(world, &at, index, number, bytes)?;
            Ok(())
        }
        None => Ok(()),
    }
}

/// The end that the segment with this index names takes it, with a draw as number. The one error is want of memory.
fn deliver_out(world: &mut World, plan: &mut Plan, index: u64, bytes: u32) -> Result<(), AllocError>
    ensures { OnOk result (moment world.new plan.new ≡ out_taken bytes (moment world.old plan.old) index) }
{
    let number = plan.draw();
    take_out(world, index, number, bytes)?;
    Ok(())
}

/// Each segment from this index on is taken by the end that it names. The one error is want of memory.
#[tactic(auto, using(crate::proofs::Ranges::fold_from), unfolding(crate::specs::Schedule::outs_taken))]
fn deliver_outs(world: &mut World, plan: &mut Plan, from: u64, bytes: u32) -> Result<(), AllocError>
    ensures { OnOk result (moment world.new plan.new ≡ outs_taken bytes from (moment world.old plan.old)) }
{
    let count = world.sent().saturating_sub(from);
    for place in 0..count {
        deliver_out(world, plan, from + place, bytes)?;
    }
    Ok(())
}

/// The end is there and not dead.
fn is_living(world: &World, at: &At) -> bool
    ensures { result ≡ is_living (end_at world.now at.now) }
{
    match world.end(at) {
        Some(end) => !end.dead(),
        None => false,
    }
}

/// An end sends, the instance handles it, and the outs are taken. The one error is want of memory.
#[tactic(auto, using(crate::proofs::Scheduled::exchanged_living, crate::proofs::Scheduled::exchanged_dead))]
fn exchange(
    world: &mut World,
    plan: &mut Plan,
    at: &At,
    instance: u16,
    bytes: u32,
) -> Result<(), AllocError>
    ensures { OnOk result (moment world.new plan.new ≡ exchanged bytes at.now instance (moment world.old plan.old)) }
{
    if !is_living(world, at) {
        return Ok(());
    }
    let index = world.sent();
    happen(world, &Event::Send(*at, SIZE))?;
    let from = world.sent();
    handle(world, instance, index)?;
    deliver_outs(world, plan, from, bytes)?;
    Ok(())
}

/// Each client's part of a round, in order. The one error is want of memory.
#[tactic(auto, using(crate::proofs::Ranges::fold_next), unfolding(crate::specs::Schedule::clients_exchanged))]
fn clients_round(
    world: &mut World,
    plan: &mut Plan,
    flows: u32,
    bytes: u32,
) -> Result<(), AllocError>
    ensures { OnOk result (moment world.new plan.new ≡ clients_exchanged flows bytes (moment world.old plan.old)) }
{
    for client in 0..flows {
        exchange(world, plan, &At::Client(client), (client % 4) as u16, bytes)?;
    }
    Ok(())
}

/// The part of a round of the server's end at this place. The one error is want of memory.
fn exchange_server(
    world: &mut World,
    plan: &mut Plan,
    place: usize,
    bytes: u32,
) -> Result<(), AllocError>
    ensures { OnOk result (moment world.new plan.new ≡ exchanged_by bytes place (moment world.old plan.old) (server_named world.old place)) }
{
    match server_at(world, place) {
        Some(at) => {
            exchange(world, plan, &at, (place % 4) as u16, bytes)?;
            Ok(())
        }
        None => Ok(()),
    }
}

/// Each server end's part of a round, in the order of making. The one error is want of memory.
#[tactic(auto, using(crate::proofs::Ranges::fold_next), unfolding(crate::specs::Schedule::servers_exchanged))]
fn servers_round(world: &mut World, plan: &mut Plan, bytes: u32) -> Result<(), AllocError>
    ensures { OnOk result (moment world.new plan.new ≡ servers_exchanged bytes (moment world.old plan.old)) }
{
    for place in 0..world.servers().len() {
        exchange_server(world, plan, place, bytes)?;
    }
    Ok(())
}

/// The client has seen its peer's close, and its own is acknowledged.
pub(crate) fn is_closed(world: &World, client: u32) -> bool
    ensures { result ≡ is_closed (end_of_client world.now client) }
{
    match world.end(&At::Client(client)) {
        Some(end) => end.saw_close() && end.close_acknowledged(),
        None => false,
    }
}

/// The client is dead.
pub(crate) fn is_reset(world: &World, client: u32) -> bool
    ensures { result ≡ is_reset (end_of_client world.now client) }
{
    match world.end(&At::Client(client)) {
        Some(end) => end.dead(),
        None => false,
    }
}

/// The client is closed or reset.
pub(crate) fn is_finished(world: &World, client: u32) -> bool
    ensures { result ≡ is_finished (end_of_client world.now client) }
{
    is_closed(world, client) || is_reset(world, client)
}

/// Each client is closed or reset.
#[tactic(auto, using(crate::proofs::Ranges::all_next, crate::proofs::Ranges::one_fails), unfolding(crate::specs::Schedule::is_over))]
fn is_over(world: &World, flows: u32) -> bool
    ensures { result ≡ is_over flows world.now }
{
    for client in 0..flows {
        if !is_finished(world, client) {
            return false;
        }
    }
    true
}

/// A round, unless each client is closed or reset, which it tells. The one error is want of memory.
#[tactic(auto, using(crate::proofs::Scheduled::round_over, crate::proofs::Scheduled::round_on))]
fn make_round(world: &mut World, plan: &mut Plan, flows: u32, bytes: u32) -> Result<(), AllocError>
    ensures { OnOk result (moment world.new plan.new ≡ round_made flows bytes (moment world.old plan.old)) }
{
    if is_over(world, flows) {
        return Ok(());
    }
    clients_round(world, plan, flows, bytes)?;
    servers_round(world, plan, bytes)?;
    Ok(())
}

/// The calm part. The one error is want of memory.
#[tactic(auto, using(crate::proofs::Ranges::fold_next), unfolding(crate::specs::Schedule::calmed))]
pub(crate) fn calm_part(
    world: &mut World,
    plan: &mut Plan,
    flows: u32,
    bytes: u32,
) -> Result<(), AllocError>
    requires { bytes ≤ MOST_BYTES }
    ensures { OnOk result (moment world.new plan.new ≡ calmed flows bytes (moment world.old plan.old)) }
{
    for _round in 0..20 + 2 * (bytes / 1460 + 2) {
        make_round(world, plan, flows, bytes)?;
    }
    Ok(())
}
