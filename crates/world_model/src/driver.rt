//! A generated run of the world, and its summary.
ghost use Rattle.std.specs.Prelude.{◌≡◌, ◌<◌, ◌≤◌, ◌+◌, IfOk, OnOk, cond, count_by, length, not};
ghost use Rattle.std.specs.List.{range_with_len, sum_by};
ghost use Rattle.world_model.specs.Acks.{AcksAreBacked};
ghost use Rattle.world_model.specs.Reached.{IsReached};
ghost use Rattle.world_model.specs.Schedule.{all_began, driven, is_closed, is_finished, is_reset};
ghost use Rattle.world_model.specs.Streams.{StreamsAgree};
ghost use Rattle.world_model.specs.Summaries.{received_by, summary_of, told};
ghost use Rattle.world_model.specs.World.{ServerEnd as ServerEndView};
ghost use Rattle.world_model.specs.World.{end_of_client};

use crate::at::At;
use crate::calm_part::{calm_part, is_closed, is_finished, is_reset};
use crate::driven_world::first_world;
use crate::driving::{MOST_BYTES, MOST_FLOWS, begin};
use crate::rough_part::rough_part;
use crate::server_end::ServerEnd;
use crate::summary::Summary;
use crate::world::World;
use drive_plan::Plan;
use std::alloc::{AllocError, Global};

/// Each client opens, writes and closes. The one error is want of memory.
#[tactic(auto, using(crate::proofs::Ranges::fold_next), unfolding(crate::specs::Schedule::all_began))]
fn begin_all(world: &mut World, flows: u32, bytes: u32) -> Result<(), AllocError>
    ensures { OnOk result (world.new ≡ all_began flows bytes world.old) }
{
    for client in 0..flows {
        begin(world, client, bytes)?;
    }
    Ok(())
}

/// The world after the schedule. The one error is want of memory.
#[tactic(auto, unfolding(crate::specs::Schedule::driven))]
fn driven_world(alloc: Global, flows: u32, bytes: u32, number: u64) -> Result<World, AllocError>
    requires some { 0 < flows }
    requires few { flows ≤ MOST_FLOWS }
    requires short { bytes ≤ MOST_BYTES }
    ensures { IfOk result (λ w. w ≡ driven flows bytes number) }
{
    let mut plan = Plan::new(number);
    let mut world = first_world(alloc, flows, &mut plan)?;
    begin_all(&mut world, flows, bytes)?;
    rough_part(&mut world, &mut plan, flows, bytes)?;
    calm_part(&mut world, &mut plan, flows, bytes)?;
    Ok(world)
}

/// How many bytes the client's end has received.
fn received_by(world: &World, client: u32) -> u64
    ensures { result ≡ received_by (end_of_client world.now client) }
{
    match world.end(&At::Client(client)) {
        Some(end) => end.received().len() as u64,
        None => 0,
    }
}

/// How many bytes the server ends have received, as far as 64 bits tell.
fn to_servers(servers: &[ServerEnd]) -> u64
    ensures { result ≡ told (sum_by (λ (s : ServerEndView). length s.state.received) servers.now) }
{
    let mut total = 0u64;
    for server in servers {
        total = total.saturating_add(server.state.received().len() as u64);
    }
    total
}

/// How many bytes the client ends have received, as far as 64 bits tell.
#[tactic(auto, using(crate::proofs::Ranges::sum_next))]
fn to_clients(world: &World, flows: u32) -> u64
    ensures { result ≡ told (sum_by (λ k. received_by (end_of_client world.now k)) (range_with_len 0 flows)) }
{
    let mut total = 0u64;
    for client in 0..flows {
        total = total.saturating_add(received_by(world, client));
    }
    total
}

/// One more, where there is one.
fn counted(count: u32, more: bool) -> u32
    requires { count < MOST_FLOWS }
    ensures { result ≡ count + cond more 1 0 }
{
    if more { count + 1 } else { count }
}

/// How many clients are closed.
#[tactic(auto, using(crate::proofs::Ranges::count_next))]
fn count_closed(world: &World, flows: u32) -> u32
    requires { flows ≤ MOST_FLOWS }
    ensures { result ≡ count_by (λ k. is_closed (end_of_client world.now k)) (range_with_len 0 flows) }
{
    let mut count = 0;
    for client in 0..flows {
        count = counted(count, is_closed(world, client));
    }
    count
}

/// How many clients are neither closed nor reset.
#[tactic(auto, using(crate::proofs::Ranges::count_next))]
fn count_open(world: &World, flows: u32) -> u32
    requires { flows ≤ MOST_FLOWS }
    ensures { result ≡ count_by (λ k. not (is_finished (end_of_client world.now k))) (range_with_len 0 flows) }
{
    let mut count = 0;
    for client in 0..flows {
        count = counted(count, !is_finished(world, client));
    }
    count
}

/// How many clients are reset.
#[tactic(auto, using(crate::proofs::Ranges::count_next))]
fn count_reset(world: &World, flows: u32) -> u32
    requires { flows ≤ MOST_FLOWS }
    ensures { result ≡ count_by (λ k. is_reset (end_of_client world.now k)) (range_with_len 0 flows) }
{
    let mut count = 0;
    for client in 0..flows {
        count = counted(count, is_reset(world, client));
    }
    count
}

/// The summary of a world with so many clients.
#[tactic(auto, unfolding(crate::specs::Summaries::summary_of))]
fn summary_of(world: &World, flows: u32) -> Summary
    requires { flows ≤ MOST_FLOWS }
    ensures { result ≡ summary_of flows world.now }
{
    Summary {
        flows,
        closed: count_closed(world, flows),
        open: count_open(world, flows),
        reset: count_reset(world, flows),
        to_servers: to_servers(world.servers()),
        to_clients: to_clients(world, flows),
    }
}

/// Makes the generated run with so many flows and so many bytes a stream whose draws come from this number, and sums up the
/// world that it leads to. That is the world that the schedule tells; a run leads to it, and in it the streams of both ends
/// agree and what is acknowledged is backed. The one error is want of memory.
pub fn drive(alloc: Global, flows: u32, bytes: u32, number: u64) -> Result<Summary, AllocError>
    requires some { 0 < flows }
    requires few { flows ≤ MOST_FLOWS }
    requires short { bytes ≤ MOST_BYTES }
    ensures summary { IfOk result (λ s. s ≡ summary_of flows (driven flows bytes number)) }
    ensures reached { IfOk result (λ s. IsReached (driven flows bytes number)) }
    ensures agree { IfOk result (λ s. StreamsAgree (driven flows bytes number)) }
    ensures backed { IfOk result (λ s. AcksAreBacked (driven flows bytes number)) }
{
    let world = driven_world(alloc, flows, bytes, number)?;
    world.known();
    Ok(summary_of(&world, flows))
}
