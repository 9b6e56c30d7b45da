//! The locks of a run, and the seats that workers get and give back.
ghost use Rattle.std.specs.Prelude.{◌≡◌, ◌≤◌, ◌+◌, length, map, IfOk, OnOk};
ghost use Rattle.run_threads.specs.Pool.{AreSeats, JoinsFrom, AllIn, AreHistories, AreLocks, AreFresh, AreCrews};

use crate::locks::Crew;
use crate::object::{BenchObject, BoxedBench};
use bench::{Bench, Call};
use rule_table::Setup;
use seen_lock::{Entry, SeenLock, SeenSeat};
use std::alloc::{AllocError, Global};

/// A worker, and its seats at the locks.
#[derive(Drop)]
pub(crate) struct Worker {
    pub(crate) worker: u16,
    pub(crate) crew: Crew,
}

/// A lock for each shard, and its seat number 0.
pub(crate) fn open_locks(
    alloc: Global,
    setup: &Setup,
) -> Result<(Vec<SeenLock<BenchObject>>, Vec<SeenSeat<BenchObject>>), AllocError>
    ensures locks { IfOk result (λ r. AreLocks setup.now setup.now.shards r.0.items) }
    ensures seats { IfOk result (λ r. AreFresh 0 0 setup.now.shards r.0.items r.1.items) }
{
    let mut locks = Vec::with_capacity(alloc, setup.shards() as usize)?;
    let mut seats = Vec::with_capacity(alloc, setup.shards() as usize)?;
    for shard in 0..setup.shards() {
        let bench = BoxedBench::new(alloc, Bench::new(alloc, setup.copy()?, shard)?)?;
        let (lock, seat) = SeenLock::new(alloc, bench)?;
        locks.push(lock)?;
        seats.push(seat)?;
    }
    Ok((locks, seats))
}

/// A crew for the next worker.
fn next_crew(
    alloc: Global,
    locks: &[SeenLock<BenchObject>],
    first: &mut [SeenSeat<BenchObject>],
    worker: u16,
) -> Result<Crew, AllocError>
    requires locks { length locks.now ≤ 64 }
    requires first { AreFresh 0 worker (length locks.now) locks.now first.old }
    ensures seats { IfOk result (λ seats. AreFresh (worker + 1) 0 (length locks.now) locks.now seats) }
    ensures first { OnOk result (AreFresh 0 (worker + 1) (length locks.now) locks.now first.new) }
{
    let mut seats = Vec::with_capacity(alloc, locks.len())?;
    for place in 0..locks.len() {
        seats.push(locks[place].split(&mut first[place])?)?;
    }
    Ok(Crew { items: seats })
}

/// A crew for each worker.
pub(crate) fn crews_of(
    alloc: Global,
    setup: &Setup,
    locks: &[SeenLock<BenchObject>],
    first: &mut [SeenSeat<BenchObject>],
) -> Result<Vec<Worker>, AllocError>
    requires locks { length locks.now ≡ setup.now.shards }
    requires first { AreFresh 0 0 (length locks.now) locks.now first.old }
    ensures crews { IfOk result (λ crews. AreCrews setup.now.shards setup.now.instances locks.now crews.items) }
    ensures first { OnOk result (AreFresh 0 setup.now.instances setup.now.shards locks.now first.new) }
{
    setup.known();
    let mut crews = Vec::with_capacity(alloc, setup.instances() as usize)?;
    for worker in 0..setup.instances() {
        let crew = next_crew(alloc, locks, first, worker)?;
        crews.push(Worker { worker, crew })?;
    }
    Ok(crews)
}

/// Joins each of the seats into the first one of its lock.
pub(crate) fn join_all(
    locks: &[SeenLock<BenchObject>],
    first: &mut [SeenSeat<BenchObject>],
    mut seats: Vec<SeenSeat<BenchObject>>,
)
    requires first { AreSeats locks.now first.old }
    requires seats { AreSeats locks.now seats.items }
    ensures { JoinsFrom 0 locks.now first.old first.new seats.items }
{
    while let Some(seat) = seats.pop() {
        let place = seats.len();
        locks[place].join(&mut first[place], seat);
    }
}

/// Ends the locks, and hands out their histories. The one error is want of memory.
pub(crate) fn close_all(
    alloc: Global,
    setup: &Setup,
    mut locks: Vec<SeenLock<BenchObject>>,
    mut first: Vec<SeenSeat<BenchObject>>,
) -> Result<Vec<Vec<Entry<Call>>>, AllocError>
    requires { AllIn setup.now.instances setup.now.shards locks.items first.items }
    ensures { IfOk result (λ h. AreHistories setup.now.instances setup.now.shards 0 first.items (map (λ x. x.items) h.items)) }
{
    let _ = setup;
    let mut histories = Vec::with_capacity(alloc, locks.len())?;
    while let Some(lock) = locks.pop() {
        let seat = first.pop().unwrap();
        let (history, _bench) = lock.close(seat);
        histories.insert(0, history)?;
    }
    Ok(histories)
}
