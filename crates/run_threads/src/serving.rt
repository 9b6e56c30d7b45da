//! A worker that is fed the numbers of its records.
ghost use Rattle.std.specs.Prelude.{◌≡◌, ◌≤◌, ◌<◌, ◌+◌, ◌++◌, ◌∷◌, ◌&&◌, ℕ, [], true, nat_le, min, max, IfOk, OnOk};
ghost use Rattle.std.specs.List.{filter};
ghost use Rattle.bench.specs.Inputs.{IsInputs};
ghost use Rattle.run_threads.specs.Crews.{IsCrew};
ghost use Rattle.run_threads.specs.Due.{due_at, is_due};
ghost use Rattle.run_threads.specs.Named.{CrewNames, GoesOnNaming};
ghost use Rattle.run_threads.specs.Served.{is_record, if_counts, GoesOnServing, IsServed};
ghost use Rattle.run_threads.specs.Work.{numbered};

use crate::block::do_block;
use crate::due::Due;
use crate::gate::Gate;
use crate::locks::{Crew, Locks};
use crate::made::Made;
use crate::object::BenchObject;
use crate::outcome::Outcome;
use bench::input::Inputs;
use inbox::{Taker, Took};
use seen_lock::{SeenLock, SeenSeat};
use std::alloc::{AllocError, Global};
use std::sync::Wait;
use std::thread;

/// Adds what became of a record, if anything is to be told of it.
fn add_made(made: &mut Made, item: u32, outcome: Option<Outcome>) -> Result<(), AllocError>
    ensures { OnOk result (made.new ≡ made.old ++ numbered item (outcome ∷ [])) }
{
    match outcome {
        Some(outcome) => made.add(item, outcome),
        None => Ok(()),
    }
}

/// Does all that is to be done at the record with this number, which was taken or was not, and adds what became of it.
fn serve_record<G: Gate, R: Wait>(
    rt: &R,
    alloc: Global,
    inputs: &Inputs,
    locks: &[SeenLock<BenchObject>],
    seats: &mut [SeenSeat<BenchObject>],
    worker: u16,
    item: u32,
    taken: bool,
    due: &Due,
    made: &mut Made,
    gate: &G,
) -> Result<(), AllocError>
    requires inputs { IsInputs inputs.now }
    requires worker { worker < inputs.now.setup.instances }
    requires crew { IsCrew inputs.now.setup locks.now seats.old }
    requires due { (item : ℕ) → item < inputs.now.records → due_at due.now item ≡ filter (is_due item) inputs.now.script.lines }
    requires item { item < inputs.now.records }
    ensures crew { IsCrew inputs.now.setup locks.now seats.new }
    ensures named { GoesOnNaming worker locks.now seats.old seats.new }
    ensures goes_on { OnOk result (GoesOnServing inputs.now worker item (item + 1) (if_counts (taken && is_record inputs.now worker item) item) locks.now seats.old seats.new made.old made.new) }
{
    inputs.known();
    let frame = &inputs.frames.as_slice()[item as usize];
    let outcome = do_block(
        rt,
        alloc,
        inputs,
        locks,
        seats,
        worker,
        item,
        taken,
        due.at(item),
        frame,
        gate,
    )?;
    add_made(made, item, outcome)
}

/// Does what is to be done at the records from this one on and before that one, of which none was taken.
pub(crate) fn serve_gap<G: Gate, R: Wait>(
    rt: &R,
    alloc: Global,
    inputs: &Inputs,
    locks: &[SeenLock<BenchObject>],
    seats: &mut [SeenSeat<BenchObject>],
    worker: u16,
    from: u32,
    to: u32,
    due: &Due,
    made: &mut Made,
    gate: &G,
) -> Result<(), AllocError>
    requires inputs { IsInputs inputs.now }
    requires worker { worker < inputs.now.setup.instances }
    requires crew { IsCrew inputs.now.setup locks.now seats.old }
    requires due { (item : ℕ) → item < inputs.now.records → due_at due.now item ≡ filter (is_due item) inputs.now.script.lines }
    requires order { from ≤ to }
    requires end { to ≤ inputs.now.records }
    ensures crew { IsCrew inputs.now.setup locks.now seats.new }
    ensures named { GoesOnNaming worker locks.now seats.old seats.new }
    ensures goes_on { OnOk result (GoesOnServing inputs.now worker from to [] locks.now seats.old seats.new made.old made.new) }
{
    for item in from..to {
        serve_record(
            rt, alloc, inputs, locks, seats, worker, item, false, due, made, gate,
        )?;
    }
    Ok(())
}

/// Comes to the record whose number was taken, where it was not passed, and answers the record that is next then.
pub(crate) fn serve_taken<G: Gate, R: Wait>(
    rt: &R,
    alloc: Global,
    inputs: &Inputs,
    locks: &[SeenLock<BenchObject>],
    seats: &mut [SeenSeat<BenchObject>],
    worker: u16,
    next: u32,
    item: u32,
    due: &Due,
    made: &mut Made,
    gate: &G,
) -> Result<u32, AllocError>
    requires inputs { IsInputs inputs.now }
    requires worker { worker < inputs.now.setup.instances }
    requires crew { IsCrew inputs.now.setup locks.now seats.old }
    requires due { (item : ℕ) → item < inputs.now.records → due_at due.now item ≡ filter (is_due item) inputs.now.script.lines }
    requires next { next ≤ inputs.now.records }
    ensures crew { IsCrew inputs.now.setup locks.now seats.new }
    ensures named { GoesOnNaming worker locks.now seats.old seats.new }
    ensures next { IfOk result (λ to. to ≡ min inputs.now.records (max next (item + 1))) }
    ensures goes_on { IfOk result (λ to. GoesOnServing inputs.now worker next to (if_counts (nat_le next item && is_record inputs.now worker item) item) locks.now seats.old seats.new made.old made.new) }
{
    let end = inputs.records;
    if item < next {
        return Ok(next);
    }
    if end <= item {
        serve_gap(
            rt, alloc, inputs, locks, seats, worker, next, end, due, made, gate,
        )?;
        return Ok(end);
    }
    serve_gap(
        rt, alloc, inputs, locks, seats, worker, next, item, due, made, gate,
    )?;
    serve_record(
        rt, alloc, inputs, locks, seats, worker, item, true, due, made, gate,
    )?;
    Ok(item + 1)
}

/// Takes the numbers of records up to the end, and does the worker's items as they come.
fn serve_all<G: Gate, R: Wait>(
    rt: &R,
    alloc: Global,
    inputs: &Inputs,
    locks: &[SeenLock<BenchObject>],
    seats: &mut [SeenSeat<BenchObject>],
    worker: u16,
    taker: &mut Taker<u32>,
    made: &mut Made,
    gate: &G,
) -> Result<(), AllocError>
    requires inputs { IsInputs inputs.now }
    requires worker { worker < inputs.now.setup.instances }
    requires crew { IsCrew inputs.now.setup locks.now seats.old }
    requires nothing_taken { taker.old.taken ≡ [] }
    requires nothing_made { made.old ≡ [] }
    ensures crew { IsCrew inputs.now.setup locks.now seats.new }
    ensures named { GoesOnNaming worker locks.now seats.old seats.new }
    ensures inbox { taker.new.inbox ≡ taker.old.inbox }
    ensures ended { OnOk result (taker.new.ended ≡ true) }
    ensures served { OnOk result (IsServed inputs.now worker taker.new.taken locks.now seats.old seats.new made.new) }
{
    let due = Due::of(alloc, inputs.script.lines(), inputs.records)?;
    let mut next = 0;
    for _ in rt.forever() {
        match taker.try_take(rt) {
            Took::Item(item) => {
                next = serve_taken(
                    rt, alloc, inputs, locks, seats, worker, next, item, &due, made, gate,
                )?;
            }
            Took::Empty => thread::yield_now(),
            Took::Ended => {
                return serve_gap(
                    rt,
                    alloc,
                    inputs,
                    locks,
                    seats,
                    worker,
                    next,
                    inputs.records,
                    &due,
                    made,
                    gate,
                );
            }
        }
    }
    unreachable!()
}

/// Takes what is left up to the end, and does nothing with it.
fn drain<R: Wait>(rt: &R, taker: &mut Taker<u32>)
    ensures ended { taker.new.ended ≡ true }
    ensures inbox { taker.new.inbox ≡ taker.old.inbox }
{
    for _ in rt.forever() {
        match taker.try_take(rt) {
            Took::Item(_) => {}
            Took::Empty => thread::yield_now(),
            Took::Ended => return,
        }
    }
    unreachable!()
}

/// Does all that a worker does that is fed the numbers of its records, over the locks with the crew's seats, and answers what it
/// made of the records. Its items are the script's lines for its instance and the numbers that it takes, in the order of
/// records; for one record replicas fail first, then the record is handled, then the instance crashes. A number is passed over
/// where it is not above all that were taken before it, or where the worker's instance does not handle its record.
///
/// It may wait: for other callers of a lock, and for the giver, since it takes up to the end. The one error is want of memory,
/// for a failure, a crash or the lists; what is left is taken then, and nothing is done with it. A record whose own memory was
/// refused is told as [`job_core::Verdict::NoMemory`], with the number of its bench calls that were made.
pub fn serve<G: Gate, R: Wait>(
    rt: &R,
    alloc: Global,
    inputs: &Inputs,
    worker: u16,
    locks: &Locks,
    crew: &mut Crew,
    taker: &mut Taker<u32>,
    gate: &G,
) -> Result<Made, AllocError>
    requires inputs { IsInputs inputs.now }
    requires worker { worker < inputs.now.setup.instances }
    // A lock for each shard's new bench, and a seat of each.
    requires crew { IsCrew inputs.now.setup locks.now crew.old }
    requires nothing_taken { taker.old.taken ≡ [] }
    // The end was taken, and no call names another instance, also where memory was refused.
    ensures ended { taker.new.ended ≡ true }
    ensures inbox { taker.new.inbox ≡ taker.old.inbox }
    ensures named { CrewNames worker locks.now crew.old crew.new }
    ensures crew { IsCrew inputs.now.setup locks.now crew.new }
    // On each lock the seat's calls are the blocks of the worker's items, and what is told of records is read from their replies.
    ensures served { IfOk result (λ made. IsServed inputs.now worker taker.new.taken locks.now crew.old crew.new made) }
{
    let mut made = Made::new(alloc);
    match serve_all(
        rt,
        alloc,
        inputs,
        &locks.items,
        &mut crew.items,
        worker,
        taker,
        &mut made,
        gate,
    ) {
        Ok(()) => Ok(made),
        Err(refused) => {
            drain(rt, taker);
            Err(refused)
        }
    }
}
