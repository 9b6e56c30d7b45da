//! A whole run: a lock for each shard's bench, a worker for each instance, and what is left of them.
ghost use Rattle.std.specs.Prelude.{◌≡◌, ◌<◌, ◌≤◌, ◌*◌, ℕ, List, length, map, slice_set, IfOk};
ghost use Rattle.std.specs.List.{AllByRecursion};
ghost use Rattle.std.specs.Thread.{IsSync};
ghost use Rattle.bench.specs.Fitting.{IsSent};
ghost use Rattle.bench.specs.Inputs.{IsInputs};
ghost use Rattle.bench.specs.declared.input.inputs.Inputs.{Inputs as InputsOf};
ghost use Rattle.run_threads.specs.Handles.{AreHandles, AreOpen, MayFeed};
ghost use Rattle.run_threads.specs.Owners.{AreOwners};
ghost use Rattle.run_threads.specs.Pool.{AreJoined, AreLocks, AreFresh, AreCrews};
ghost use Rattle.run_threads.specs.Run.{AreDone, IsThreadRun};
ghost use Rattle.run_threads.specs.Seats.{BenchLock};

use crate::gate::Gate;
use crate::handle::{Handle, Worked, begin, end, feed, finish};
use crate::locks::{Crew, Locks};
use crate::made::Made;
use crate::merge::merge;
use crate::object::BenchObject;
use crate::owner::{Owner, owners};
use crate::pool::{Worker, close_all, crews_of, join_all, open_locks};
use bench::Call;
use bench::input::{Inputs, Result1};
use script_text::assignments;
use seen_lock::{Entry, SeenSeat};
use std::alloc::{AllocError, Global};
use std::sync::Wait;
use std::sync::atomic::AtomicU32;
use std::thread::{Scope, Threads};
use std::{mem, thread};

/// What is left of a run: what became of the records, and the history of each shard's bench.
#[derive(Drop)]
pub struct RunResult {
    pub result: Result1,
    pub histories: Vec<Vec<Entry<Call>>>,
}

/// The first seats of the locks, into which those of all workers were joined, and what the workers made, the last one first.
#[derive(Drop)]
pub(crate) struct Joined {
    first: Vec<SeenSeat<BenchObject>>,
    all: Vec<Made>,
}

/// A place for each worker's handle. The one error is want of memory.
fn places<'a>(alloc: Global, inputs: &Inputs, locks: &Locks) -> Result<Vec<Handle<'a>>, AllocError>
    ensures handles { IfOk result (λ handles. AreHandles inputs.now 0 locks.now handles.items) }
    ensures open { IfOk result (λ handles. AreOpen handles.items) }
{
    let _ = locks;
    let count = inputs.setup.instances();
    let mut handles = Vec::with_capacity(alloc, count as usize)?;
    for _ in 0..count {
        handles.push(Handle::NoMemory)?;
    }
    Ok(handles)
}

/// Puts a handle at its place.
fn put<'a>(handles: &mut [Handle<'a>], place: usize, handle: Handle<'a>)
    requires { place < length handles.old }
    ensures { handles.new ≡ slice_set handles.old place handle.entry }
{
    handles[place] = handle;
}

/// Begins each worker, in a thread of the scope where one can be made.
fn begin_all<'s, E, G: Gate + Sync, R: Threads + Wait + Sync>(
    rt: &'s R,
    alloc: Global,
    scope: &Scope<'s, E>,
    inputs: &'s Inputs,
    locks: &'s Locks,
    mut workers: Vec<Worker>,
    handles: &mut [Handle<'s>],
    gate: &'s G,
    unmade: &'s AtomicU32,
)
    requires inputs { IsInputs inputs.now }
    requires locks { AreLocks inputs.now.setup inputs.now.setup.shards locks.now }
    requires workers { AreCrews inputs.now.setup.shards inputs.now.setup.instances locks.now workers.items }
    requires handles { AreHandles inputs.now 0 locks.now handles.old }
    requires open { AreOpen handles.old }
    ensures handles { AreHandles inputs.now 0 locks.now handles.new }
    ensures open { AreOpen handles.new }
{
    while let Some(worker) = workers.pop() {
        let place = workers.len();
        let begun = begin(rt, alloc, scope, inputs, locks, worker, gate, unmade);
        put(handles, place, begun);
    }
}

/// Gives each worker the numbers of its records, in their order, while the workers run.
fn feed_all<G: Gate, R: Wait>(
    rt: &R,
    alloc: Global,
    inputs: &Inputs,
    locks: &Locks,
    owners: &[Owner],
    handles: &mut [Handle<'_>],
    gate: &G,
)
    requires inputs { IsInputs inputs.now }
    requires owners { AreOwners inputs.now inputs.now.frames owners.now }
    requires handles { AreHandles inputs.now 0 locks.now handles.old }
    requires open { AreOpen handles.old }
    ensures handles { AreHandles inputs.now inputs.now.records locks.now handles.new }
    ensures open { AreOpen handles.new }
{
    for item in 0..inputs.records {
        match owners[item as usize] {
            Owner::Worker(worker) => {
                let place = worker as usize;
                let handle = mem::replace(&mut handles[place], Handle::NoMemory);
                let fed = feed(rt, alloc, inputs, locks, handle, worker, item, gate);
                put(handles, place, fed);
            }
            Owner::Nobody(_) => {}
        }
    }
}

/// Gives each worker the end.
fn end_all<R: Wait>(rt: &R, handles: &mut [Handle<'_>])
    requires { AreOpen handles.old }
    ensures { (inputs : InputsOf) (n : ℕ) (locks : List BenchLock) → AreHandles inputs n locks handles.old → AreHandles inputs n locks handles.new }
{
    for place in 0..handles.len() {
        let handle = mem::replace(&mut handles[place], Handle::NoMemory);
        let ended = end(rt, handle);
        put(handles, place, ended);
    }
}

/// Takes the seats of all workers in again, and hands out what the workers made, the last one first. The one error is want of
/// memory.
fn take_in<G: Gate, R: Threads + Wait>(
    rt: &R,
    alloc: Global,
    inputs: &Inputs,
    locks: &Locks,
    first: &mut [SeenSeat<BenchObject>],
    mut handles: Vec<Handle<'_>>,
    gate: &G,
) -> Result<Vec<Made>, AllocError>
    requires inputs { IsInputs inputs.now }
    requires locks { AreLocks inputs.now.setup inputs.now.setup.shards locks.now }
    requires first { AreFresh 0 inputs.now.setup.instances inputs.now.setup.shards locks.now first.old }
    requires handles { AreHandles inputs.now inputs.now.records locks.now handles.items }
    ensures { IfOk result (λ all. AreJoined inputs.now 0 locks.now first.new all.items) }
{
    let mut all = Vec::with_capacity(alloc, handles.len())?;
    let mut left = inputs.setup.instances();
    while let Some(handle) = handles.pop() {
        left -= 1;
        let worked = finish(rt, alloc, inputs, locks, handle, left, gate)?;
        let Worked { crew, made } = worked;
        let Crew { items } = crew;
        join_all(&locks.items, first, items);
        all.push(made)?;
    }
    Ok(all)
}

/// Lets the workers do all their items, in threads of the scope where these can be made, and takes their seats in again. The one
/// error is want of memory, and then all inboxes have their end.
fn run_workers<'s, E, G: Gate + Sync, R: Threads + Wait + Sync>(
    rt: &'s R,
    alloc: Global,
    scope: &Scope<'s, E>,
    inputs: &'s Inputs,
    locks: &'s Locks,
    owners: &[Owner],
    workers: Vec<Worker>,
    mut first: Vec<SeenSeat<BenchObject>>,
    gate: &'s G,
    unmade: &'s AtomicU32,
) -> Result<Joined, AllocError>
    requires { MayFeed inputs.now locks.now owners.now workers.items first.items }
    ensures { IfOk result (λ joined. AreJoined inputs.now 0 locks.now joined.first.items joined.all.items) }
{
    let mut handles = places(alloc, inputs, locks)?;
    begin_all(
        rt,
        alloc,
        scope,
        inputs,
        locks,
        workers,
        &mut handles,
        gate,
        unmade,
    );
    feed_all(rt, alloc, inputs, locks, owners, &mut handles, gate);
    end_all(rt, &mut handles);
    let all = take_in(rt, alloc, inputs, locks, &mut first, handles, gate)?;
    Ok(Joined { first, all })
}

/// Lets the workers do all their items over these locks, and takes their seats in again. The one error is want of memory.
fn run_scoped<G: Gate + Sync, R: Threads + Wait + Sync>(
    rt: &R,
    alloc: Global,
    inputs: &Inputs,
    locks: &Locks,
    owners: &[Owner],
    workers: Vec<Worker>,
    first: Vec<SeenSeat<BenchObject>>,
    gate: &G,
) -> Result<Joined, AllocError>
    requires { MayFeed inputs.now locks.now owners.now workers.items first.items }
    ensures { IfOk result (λ joined. AreJoined inputs.now 0 locks.now joined.first.items joined.all.items) }
{
    // The number, and one, of the worker whose thread could not be made.
    let unmade = AtomicU32::new(0);
    let unmade = &unmade;
    thread::scope(
        thread::scope_env(),
        rt,
        move |scope| -> Result<Joined, AllocError>
            requires { IsSync R.row × IsSync G.row × MayFeed inputs.now locks.now owners.now workers.items first.items }
            ensures { IfOk result (λ joined. AreJoined inputs.entry.now 0 locks.entry.now joined.first.items joined.all.items) }
        {
            run_workers(
                rt, alloc, scope, inputs, locks, owners, workers, first, gate, unmade,
            )
        },
    )
}

/// Lets the workers do all their items, over a lock for each shard, and hands out what they made, the last one first, and the
/// histories of the closed locks. The one error is want of memory.
fn run_locked<G: Gate + Sync, R: Threads + Wait + Sync>(
    rt: &R,
    alloc: Global,
    inputs: &Inputs,
    owners: &[Owner],
    gate: &G,
) -> Result<(Vec<Made>, Vec<Vec<Entry<Call>>>), AllocError>
    requires inputs { IsInputs inputs.now }
    requires owners { AreOwners inputs.now inputs.now.frames owners.now }
    ensures { IfOk result (λ r. AreDone inputs.now r.0.items (map (λ h. h.items) r.1.items)) }
{
    inputs.setup.known();
    let (items, mut first) = open_locks(alloc, &inputs.setup)?;
    let workers = crews_of(alloc, &inputs.setup, &items, &mut first)?;
    let locks = Locks { items };
    let Joined { first, all } = run_scoped(
        rt, alloc, inputs, &locks, owners, workers, first, gate,
    )?;
    let Locks { items } = locks;
    let histories = close_all(alloc, &inputs.setup, items, first)?;
    Ok((all, histories))
}

/// Handles the records of the trace with one worker for each instance, over a lock for each shard's bench, with what the script
/// does before and in them. A worker is a thread, which is given the numbers of its records through an inbox while all run; where
/// no thread can be made the caller does the worker's items as it comes to them. It may wait, for other callers of a lock, for an
/// inbox with no room and for the threads.
///
/// The one error is want of memory, for the locks, the lists, the inboxes, or a crash or a failure. A record whose own memory
/// was refused ends with [`job_core::Verdict::NoMemory`] and the number of its bench calls that were made.
pub fn run_all<G: Gate + Sync, R: Threads + Wait + Sync>(
    rt: &R,
    alloc: Global,
    inputs: &Inputs,
    gate: &G,
) -> Result<RunResult, AllocError>
    requires { IsInputs inputs.now }
    // The lines and the segments are those of a run whose histories these are.
    ensures run { IfOk result (λ r. IsThreadRun inputs.now r.result.lines r.result.outs (map (λ h. h.items) r.histories.items)) }
    // Each segment that is sent fits a packet, and has the number of a record.
    ensures sent { IfOk result (λ r. AllByRecursion (IsSent inputs.now.records) r.result.outs) }
    ensures lines { IfOk result (λ r. length r.result.lines ≡ inputs.now.records) }
    ensures few { IfOk result (λ r. length r.result.outs ≤ 11 * inputs.now.records) }
{
    assignments();
    inputs.known();
    inputs.setup.known();
    let owners = owners(rt, alloc, inputs)?;
    let (all, histories) = run_locked(rt, alloc, inputs, &owners, gate)?;
    let result = merge(alloc, inputs, &owners, all)?;
    Ok(RunResult { result, histories })
}
