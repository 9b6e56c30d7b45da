//! Calls that a worker makes of the benches of all shards.
ghost use Rattle.std.specs.Prelude.{◌≡◌, ℕ, ◌+◌, ◌%◌, ◌<◌, ◌==◌, [], ◌∷◌, if◌then◌else◌, OnOk};
ghost use Rattle.bench.specs.Calls.{IsCall};
ghost use Rattle.bench.specs.declared.call.Call.TheVariants.{Crash, Fail};
ghost use Rattle.bench.specs.Blocks.{fail_at, fail_calls, crash_calls};
ghost use Rattle.run_threads.specs.Crews.{IsCrew, CrewMakes};
ghost use Rattle.run_threads.specs.Named.{Names, GoesOnNaming};

use crate::object::BenchObject;
use crate::seat::call;
use bench::Call;
use rule_table::Setup;
use seen_lock::{SeenLock, SeenSeat};
use std::alloc::AllocError;
use std::sync::Wait;

/// Makes a call of a shard's bench. The one error is want of memory, and then the call was not made.
fn call_at<R: Wait>(
    rt: &R,
    setup: &Setup,
    locks: &[SeenLock<BenchObject>],
    seats: &mut [SeenSeat<BenchObject>],
    shard: u8,
    item: Call,
) -> Result<(), AllocError>
    requires crew { IsCrew setup.now locks.now seats.old }
    requires shard { shard < setup.now.shards }
    requires allowed { IsCall setup.now shard item }
    ensures crew { IsCrew setup.now locks.now seats.new }
    ensures named { (i : ℕ) → Names i item → GoesOnNaming i locks.now seats.old seats.new }
    ensures made { OnOk result (CrewMakes locks.now seats.old seats.new (record { shard = shard; call = item } ∷ [])) }
{
    let _ = setup;
    let place = shard as usize;
    match call(rt, &locks[place], &mut seats[place], item) {
        Ok(_) => Ok(()),
        Err(refused) => Err(refused),
    }
}

/// The instance crashes: at each bench, in the order of the shards. The one error is want of memory.
pub(crate) fn crash_all<R: Wait>(
    rt: &R,
    setup: &Setup,
    locks: &[SeenLock<BenchObject>],
    seats: &mut [SeenSeat<BenchObject>],
    instance: u16,
) -> Result<(), AllocError>
    requires crew { IsCrew setup.now locks.now seats.old }
    requires instance { instance < setup.now.instances }
    ensures crew { IsCrew setup.now locks.now seats.new }
    ensures named { GoesOnNaming instance locks.now seats.old seats.new }
    ensures made { OnOk result (CrewMakes locks.now seats.old seats.new (crash_calls setup.now instance)) }
{
    for shard in 0..setup.shards() {
        call_at(rt, setup, locks, seats, shard, Call::Crash { instance })?;
    }
    Ok(())
}

/// The cell at this place of a shard's list fails, where it is this replica's. The one error is want of memory.
fn fail_place<R: Wait>(
    rt: &R,
    setup: &Setup,
    locks: &[SeenLock<BenchObject>],
    seats: &mut [SeenSeat<BenchObject>],
    replica: u8,
    shard: u8,
    place: u8,
) -> Result<(), AllocError>
    requires crew { IsCrew setup.now locks.now seats.old }
    requires shard { shard < setup.now.shards }
    requires place { place < setup.now.copies }
    ensures crew { IsCrew setup.now locks.now seats.new }
    ensures named { (i : ℕ) → GoesOnNaming i locks.now seats.old seats.new }
    ensures made { OnOk result (CrewMakes locks.now seats.old seats.new
        (if (shard + place) % setup.now.replicas == replica then record { shard = shard; call = Fail place } ∷ [] else [])) }
{
    setup.known();
    if (shard as u16 + place as u16) % setup.replicas() as u16 == replica as u16 {
        call_at(rt, setup, locks, seats, shard, Call::Fail { place })?;
    }
    Ok(())
}

/// The replica fails at each place of a shard's list that is its own. The one error is want of memory.
fn fail_shard<R: Wait>(
    rt: &R,
    setup: &Setup,
    locks: &[SeenLock<BenchObject>],
    seats: &mut [SeenSeat<BenchObject>],
    replica: u8,
    shard: u8,
) -> Result<(), AllocError>
    requires crew { IsCrew setup.now locks.now seats.old }
    requires shard { shard < setup.now.shards }
    ensures crew { IsCrew setup.now locks.now seats.new }
    ensures named { (i : ℕ) → GoesOnNaming i locks.now seats.old seats.new }
    ensures made { OnOk result (CrewMakes locks.now seats.old seats.new (fail_at setup.now replica shard)) }
{
    for place in 0..setup.copies() {
        fail_place(rt, setup, locks, seats, replica, shard, place)?;
    }
    Ok(())
}

/// The replica fails: at each bench whose list holds it, in the order of the shards. The one error is want of memory.
pub(crate) fn fail_all<R: Wait>(
    rt: &R,
    setup: &Setup,
    locks: &[SeenLock<BenchObject>],
    seats: &mut [SeenSeat<BenchObject>],
    replica: u8,
) -> Result<(), AllocError>
    requires crew { IsCrew setup.now locks.now seats.old }
    ensures crew { IsCrew setup.now locks.now seats.new }
    ensures named { (i : ℕ) → GoesOnNaming i locks.now seats.old seats.new }
    ensures made { OnOk result (CrewMakes locks.now seats.old seats.new (fail_calls setup.now replica)) }
{
    for shard in 0..setup.shards() {
        fail_shard(rt, setup, locks, seats, replica, shard)?;
    }
    Ok(())
}
