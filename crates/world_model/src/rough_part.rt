//! The rough part of a generated run: one drawn event a turn.
ghost use Rattle.std.specs.Prelude.{◌≡◌, ◌<◌, ◌≤◌, ◌*◌, OnOk, IfOk, length, option_map, slice_get};
ghost use Rattle.world_model.specs.Schedule.{end_for, moment, roughened, sent_by_any, sent_by_drawn, server_named, taken_by, taken_drawn, turn_made, turned};

use crate::at::At;
use crate::driving::{MOST_FLOWS, SIZE, deliver, end_for, happen};
use crate::event::Event;
use crate::world::World;
use drive_plan::{Plan, Turn};
use std::alloc::AllocError;

/// How many turns there are for each flow.
const TURNS: u32 = 40;

/// The server's end at this place in the order of making.
pub(crate) fn server_at(world: &World, place: usize) -> Option<At>
    ensures { result ≡ server_named world.now place }
{
    match world.servers().get(place) {
        Some(end) => Some(At::Server {
            server: end.server,
            port: end.port,
        }),
        None => None,
    }
}

/// A drawn server's end sends, if there is one. The one error is want of memory.
#[tactic(auto, using(crate::proofs::Scheduled::none_sends, crate::proofs::Scheduled::one_sends))]
fn send_server(world: &mut World, a: u32) -> Result<(), AllocError>
    ensures { OnOk result (world.new ≡ sent_by_drawn world.old a) }
{
    let count = world.servers().len();
    if count == 0 {
        return Ok(());
    }
    send_any(world, a as usize % count)?;
    Ok(())
}

/// The server's end at this place sends, if there is one. The one error is want of memory.
fn send_any(world: &mut World, place: usize) -> Result<(), AllocError>
    ensures { OnOk result (world.new ≡ sent_by_any world.old (server_named world.old place)) }
{
    match server_at(world, place) {
        Some(at) => {
            happen(world, &Event::Send(at, SIZE))?;
            Ok(())
        }
        None => Ok(()),
    }
}

/// The segment with this index is taken by the one that it goes to. The one error is want of memory.
fn take(world: &mut World, index: u64, d: u32, bytes: u32) -> Result<(), AllocError>
    ensures { OnOk result (world.new ≡ taken_by bytes world.old index d (end_for world.old index)) }
{
    match end_for(world, index) {
        Some(at) => {
            deliver(world, &at, index, d, bytes)?;
            Ok(())
        }
        None => {
            let instance = (d % 4) as u16;
            happen(world, &Event::Take { instance, index })?;
            Ok(())
        }
    }
}

/// A drawn segment is taken, if there is one. The one error is want of memory.
#[tactic(auto, using(crate::proofs::Scheduled::none_taken, crate::proofs::Scheduled::one_taken))]
fn take_any(world: &mut World, c: u32, d: u32, bytes: u32) -> Result<(), AllocError>
    ensures { OnOk result (world.new ≡ taken_drawn bytes world.old c d) }
{
    let count = world.sent();
    if count == 0 {
        return Ok(());
    }
    take(world, c as u64 % count, d, bytes)?;
    Ok(())
}

/// What these draws say. The one error is want of memory.
#[tactic(auto, using(crate::proofs::Scheduled::client_sends, crate::proofs::Scheduled::server_sends, crate::proofs::Scheduled::one_takes, crate::proofs::Scheduled::one_steps, crate::proofs::Scheduled::one_crashes, crate::proofs::Scheduled::one_fails))]
fn turn(world: &mut World, turn: Turn, bytes: u32) -> Result<(), AllocError>
    ensures { OnOk result (world.new ≡ turned bytes world.old turn) }
{
    let instance = (turn.c % 4) as u16;
    let shard = (turn.d % 4) as u8;
    if turn.b < 4 {
        happen(world, &Event::Send(At::Client(turn.a), SIZE))?;
        Ok(())
    } else if turn.b < 7 {
        send_server(world, turn.a)?;
        Ok(())
    } else if turn.b < 11 {
        take_any(world, turn.c, turn.d, bytes)?;
        Ok(())
    } else if turn.b < 14 {
        happen(world, &Event::Step { instance, shard })?;
        Ok(())
    } else if turn.b == 14 {
        happen(world, &Event::Crash { instance })?;
        Ok(())
    } else {
        happen(world, &Event::Fail { replica: 0 })?;
        Ok(())
    }
}

/// A turn: its draws and what they say. The one error is want of memory.
#[tactic(auto, using(crate::proofs::Scheduled::turn_is))]
fn make_turn(world: &mut World, plan: &mut Plan, flows: u32, bytes: u32) -> Result<(), AllocError>
    requires { 0 < flows }
    ensures { OnOk result (moment world.new plan.new ≡ turn_made flows bytes (moment world.old plan.old)) }
{
    let drawn = plan.turn(flows);
    turn(world, drawn, bytes)?;
    Ok(())
}

/// The rough part. The one error is want of memory.
#[tactic(auto, using(crate::proofs::Ranges::fold_next), unfolding(crate::specs::Schedule::roughened))]
pub(crate) fn rough_part(
    world: &mut World,
    plan: &mut Plan,
    flows: u32,
    bytes: u32,
) -> Result<(), AllocError>
    requires some { 0 < flows }
    requires few { flows ≤ MOST_FLOWS }
    ensures { OnOk result (moment world.new plan.new ≡ roughened flows bytes (moment world.old plan.old)) }
{
    for _turn in 0..TURNS * flows {
        make_turn(world, plan, flows, bytes)?;
    }
    Ok(())
}
