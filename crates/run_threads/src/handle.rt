//! A worker as the caller of a run has it: a thread and its inbox, or what the caller does for it itself.
ghost use Rattle.std.specs.Prelude.{◌≡◌, ℕ, ◌+◌, ◌<◌, ◌++◌, ◌∷◌, List, [], false, IsTrue, IfOk};
ghost use Rattle.std.specs.Thread.{IsSync};
ghost use Rattle.bench.specs.Inputs.{IsInputs};
ghost use Rattle.bench.specs.declared.input.inputs.Inputs.{Inputs as InputsOf};
ghost use Rattle.run_threads.specs.Handles.{IsBack, IsFed, IsHandle, IsKept, IsOpen, MayBegin};
ghost use Rattle.run_threads.specs.Pool.{AreLocks, HasWorked};
ghost use Rattle.run_threads.specs.Seats.{BenchLock};
ghost use Rattle.run_threads.specs.Served.{is_record};

use crate::due::Due;
use crate::gate::Gate;
use crate::locks::{Crew, Locks};
use crate::made::Made;
use crate::pool::Worker;
use crate::serving::{serve, serve_gap, serve_taken};
use crate::thread::{Back, BackOf, Served, run_thread};
use bench::input::Inputs;
use inbox::{Giver, pair};
use std::alloc::{AllocError, Global};
use std::snapshot::Snapshot;
use std::sync::Wait;
use std::sync::atomic::{AtomicU32, Ordering};
use std::thread;
use std::thread::{PromisedHandle, Scope, Threads};

/// How many numbers an inbox holds.
const INBOX_ITEMS: u32 = 64;

/// A worker's thread, and the giving side of its inbox.
#[derive(Drop)]
pub(crate) struct Fed<'a> {
    giver: Giver<u32>,
    thread: PromisedHandle<Back, BackOf<'a>>,
}

/// What the caller has done for a worker: its items before the next record.
#[derive(Drop)]
pub(crate) struct Kept {
    crew: Crew,
    made: Made,
    due: Due,
    next: u32,
}

/// A worker as the caller of a run has it.
#[derive(Drop)]
pub(crate) enum Handle<'a> {
    /// A thread takes its numbers from an inbox.
    Thread(Fed<'a>),
    /// No thread could be made: the caller does its items.
    Caller(Kept),
    /// There was no memory for it.
    NoMemory,
}

/// A worker's seats once it has done all its items, and what it made.
#[derive(Drop)]
pub(crate) struct Worked {
    pub(crate) crew: Crew,
    pub(crate) made: Made,
}

/// Gives a number to an inbox, and waits while it is full.
fn give<R: Wait>(rt: &R, giver: &mut Giver<u32>, item: u32)
    requires { giver.old.ended ≡ false }
    ensures given { giver.new.given ≡ giver.old.given ++ item ∷ [] }
    ensures same { (giver.new.inbox ≡ giver.old.inbox) × (giver.new.ended ≡ false) }
{
    for _ in rt.forever() {
        match giver.try_give(rt, item) {
            Ok(()) => return,
            Err(_) => thread::yield_now(),
        }
    }
    unreachable!()
}

/// Gives the end to an inbox, and waits while it is full.
fn give_end<R: Wait>(rt: &R, giver: &mut Giver<u32>)
    requires { giver.old.ended ≡ false }
    ensures { (giver.new.inbox ≡ giver.old.inbox) × (giver.new.given ≡ giver.old.given) }
{
    for _ in rt.forever() {
        if giver.end(rt) {
            return;
        }
        thread::yield_now();
    }
    unreachable!()
}

/// What the caller has of a worker for which no thread could be made.
fn keep<'a>(
    alloc: Global,
    inputs: &Inputs,
    locks: &Locks,
    worker: u16,
    giver: Giver<u32>,
    back: Back,
) -> Handle<'a>
    requires locks { AreLocks inputs.now.setup inputs.now.setup.shards locks.now }
    requires back { IsBack inputs.now worker locks.now giver.inbox back }
    requires open { giver.ended ≡ false }
    ensures handle { IsHandle inputs.now worker 0 locks.now result }
    ensures open { IsOpen result }
{
    let _ = locks;
    let _ = worker;
    let Back {
        crew,
        mut taker,
        served,
    } = back;
    taker.take_in(giver);
    match served {
        Served::NotBegun => match Due::of(alloc, inputs.script.lines(), inputs.records) {
            Ok(due) => Handle::Caller(Kept {
                crew,
                made: Made::new(alloc),
                due,
                next: 0,
            }),
            Err(_) => Handle::NoMemory,
        },
        // Who was served took the end, which was not given.
        Served::NoMemory | Served::Made(_) => unreachable!(),
    }
}

/// Begins a worker, in a thread of the scope where one can be made.
pub(crate) fn begin<'s, E, G: Gate + Sync, R: Threads + Wait + Sync>(
    rt: &'s R,
    alloc: Global,
    scope: &Scope<'s, E>,
    inputs: &'s Inputs,
    locks: &'s Locks,
    worker: Worker,
    gate: &'s G,
    unmade: &'s AtomicU32,
) -> Handle<'s>
    requires { MayBegin inputs.now locks.now worker }
    ensures handle { IsHandle inputs.now worker.worker 0 locks.now result }
    ensures open { IsOpen result }
{
    let Ok((giver, taker)) = pair(alloc, INBOX_ITEMS) else {
        return Handle::NoMemory;
    };
    let number = worker.worker;
    let promise = BackOf {
        inputs,
        locks,
        worker: number,
        taker: Snapshot::of(&taker),
    };
    match scope.spawn_with(
        promise,
        move || -> Back
            requires { IsSync R.row × IsSync G.row × MayBegin inputs.now locks.now worker × (taker.taken ≡ []) }
            ensures { IsBack inputs.entry.now worker.worker locks.entry.now taker.inbox result }
        { run_thread(rt, alloc, inputs, locks, worker, taker, gate, unmade) },
    ) {
        Ok(thread) => Handle::Thread(Fed { giver, thread }),
        Err(refused) => {
            unmade.store(number as u32 + 1, Ordering::SeqCst);
            keep(alloc, inputs, locks, number, giver, (refused.value)())
        }
    }
}

/// Does the items of a worker up to a record of its own, and this one. The one error is want of memory.
fn keep_on<G: Gate, R: Wait>(
    rt: &R,
    alloc: Global,
    inputs: &Inputs,
    locks: &Locks,
    kept: Kept,
    worker: u16,
    item: u32,
    gate: &G,
) -> Result<Kept, AllocError>
    requires inputs { IsInputs inputs.now }
    requires worker { worker < inputs.now.setup.instances }
    requires item { item < inputs.now.records }
    requires own { IsTrue (is_record inputs.now worker item) }
    requires kept { IsKept inputs.now worker item locks.now kept }
    ensures { IfOk result (λ kept. IsKept inputs.now worker (item + 1) locks.now kept) }
{
    let Kept {
        mut crew,
        mut made,
        due,
        next,
    } = kept;
    let next = serve_taken(
        rt,
        alloc,
        inputs,
        &locks.items,
        &mut crew.items,
        worker,
        next,
        item,
        &due,
        &mut made,
        gate,
    )?;
    Ok(Kept {
        crew,
        made,
        due,
        next,
    })
}

/// Gives a worker the number of a record of its own, or does its items up to it.
pub(crate) fn feed<'a, G: Gate, R: Wait>(
    rt: &R,
    alloc: Global,
    inputs: &Inputs,
    locks: &Locks,
    handle: Handle<'a>,
    worker: u16,
    item: u32,
    gate: &G,
) -> Handle<'a>
    requires inputs { IsInputs inputs.now }
    requires worker { worker < inputs.now.setup.instances }
    requires item { item < inputs.now.records }
    requires own { IsTrue (is_record inputs.now worker item) }
    requires handle { IsHandle inputs.now worker item locks.now handle }
    requires open { IsOpen handle }
    ensures handle { IsHandle inputs.now worker (item + 1) locks.now result }
    ensures open { IsOpen result }
{
    match handle {
        Handle::Thread(mut fed) => {
            gate.fed(worker, item);
            give(rt, &mut fed.giver, item);
            Handle::Thread(fed)
        }
        Handle::Caller(kept) => {
            match keep_on(rt, alloc, inputs, locks, kept, worker, item, gate) {
                Ok(kept) => Handle::Caller(kept),
                Err(_) => Handle::NoMemory,
            }
        }
        Handle::NoMemory => Handle::NoMemory,
    }
}

/// Gives a worker the end, where it has an inbox.
pub(crate) fn end<'a, R: Wait>(rt: &R, handle: Handle<'a>) -> Handle<'a>
    requires { IsOpen handle }
    ensures { (inputs : InputsOf) (worker n : ℕ) (locks : List BenchLock) → IsHandle inputs worker n locks handle.entry → IsHandle inputs worker n locks result }
{
    match handle {
        Handle::Thread(mut fed) => {
            give_end(rt, &mut fed.giver);
            Handle::Thread(fed)
        }
        other => other,
    }
}

/// What a worker's thread has made by its end. The one error is want of memory.
fn join<G: Gate, R: Threads + Wait>(
    rt: &R,
    alloc: Global,
    inputs: &Inputs,
    locks: &Locks,
    fed: Fed<'_>,
    worker: u16,
    gate: &G,
) -> Result<Worked, AllocError>
    requires inputs { IsInputs inputs.now }
    requires locks { AreLocks inputs.now.setup inputs.now.setup.shards locks.now }
    requires worker { worker < inputs.now.setup.instances }
    requires fed { IsFed inputs.now worker inputs.now.records locks.now fed }
    ensures { IfOk result (λ worked. HasWorked inputs.now worker locks.now worked.crew worked.made) }
{
    let Fed { giver, thread } = fed;
    let Back {
        mut crew,
        mut taker,
        served,
    } = thread.join(rt);
    let made = match served {
        Served::Made(made) => made,
        Served::NoMemory => return Err(AllocError),
        Served::NotBegun => serve(
            rt, alloc, inputs, worker, locks, &mut crew, &mut taker, gate,
        )?,
    };
    taker.take_in(giver);
    Ok(Worked { crew, made })
}

/// Does what is left of a worker's items behind its last record. The one error is want of memory.
fn keep_to_end<G: Gate, R: Wait>(
    rt: &R,
    alloc: Global,
    inputs: &Inputs,
    locks: &Locks,
    kept: Kept,
    worker: u16,
    gate: &G,
) -> Result<Worked, AllocError>
    requires inputs { IsInputs inputs.now }
    requires locks { AreLocks inputs.now.setup inputs.now.setup.shards locks.now }
    requires worker { worker < inputs.now.setup.instances }
    requires kept { IsKept inputs.now worker inputs.now.records locks.now kept }
    ensures { IfOk result (λ worked. HasWorked inputs.now worker locks.now worked.crew worked.made) }
{
    let Kept {
        mut crew,
        mut made,
        due,
        next,
    } = kept;
    serve_gap(
        rt,
        alloc,
        inputs,
        &locks.items,
        &mut crew.items,
        worker,
        next,
        inputs.records,
        &due,
        &mut made,
        gate,
    )?;
    Ok(Worked { crew, made })
}

/// Waits for a worker that was given the end, or does what is left of its items, and answers what it made. The one error is
/// want of memory.
pub(crate) fn finish<G: Gate, R: Threads + Wait>(
    rt: &R,
    alloc: Global,
    inputs: &Inputs,
    locks: &Locks,
    handle: Handle<'_>,
    worker: u16,
    gate: &G,
) -> Result<Worked, AllocError>
    requires inputs { IsInputs inputs.now }
    requires locks { AreLocks inputs.now.setup inputs.now.setup.shards locks.now }
    requires worker { worker < inputs.now.setup.instances }
    requires handle { IsHandle inputs.now worker inputs.now.records locks.now handle }
    ensures { IfOk result (λ worked. HasWorked inputs.now worker locks.now worked.crew worked.made) }
{
    match handle {
        Handle::Thread(fed) => join(rt, alloc, inputs, locks, fed, worker, gate),
        Handle::Caller(kept) => keep_to_end(rt, alloc, inputs, locks, kept, worker, gate),
        Handle::NoMemory => Err(AllocError),
    }
}
