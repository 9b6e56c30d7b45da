//! A worker's thread: what it does, and what its caller knows of what it gives back.
ghost use Rattle.std.specs.Prelude.{◌≡◌, []};
ghost use Rattle.run_threads.specs.Handles.{IsBack, MayBegin};

use crate::gate::Gate;
use crate::locks::{Crew, Locks};
use crate::made::Made;
use crate::pool::Worker;
use crate::serving::serve;
use bench::input::Inputs;
use inbox::Taker;
use std::alloc::Global;
use std::snapshot::Snapshot;
use std::sync::Wait;
use std::sync::atomic::{AtomicU32, Ordering};
use std::thread::Promise;

/// What became of a worker that was to be served from its inbox.
#[derive(Drop)]
pub(crate) enum Served {
    /// It has not begun: it is the one whose thread could not be made.
    NotBegun,
    /// There was no memory for a crash, a failure or the lists.
    NoMemory,
    /// It has done its items up to the end, and made this.
    Made(Made),
}

/// What a worker's thread gives back.
#[derive(Drop)]
pub(crate) struct Back {
    pub(crate) crew: Crew,
    pub(crate) taker: Taker<u32>,
    pub(crate) served: Served,
}

/// What the caller of a worker's thread knows of what it gives back.
#[derive(Drop)]
pub(crate) struct BackOf<'a> {
    pub(crate) inputs: &'a Inputs,
    pub(crate) locks: &'a Locks,
    pub(crate) worker: u16,
    pub(crate) taker: Snapshot<Taker<u32>>,
}

impl<'a> Promise<Back> for BackOf<'a> {
    ghost use Rattle.run_threads.specs.Handles.{IsBack};

    ghost kept_by = { λ p back. IsBack p.inputs.now p.worker p.locks.now p.taker.value.inbox back };
}

/// Serves a worker from its inbox, unless it is the one for which no thread could be made: its number and one is in `unmade`.
pub(crate) fn run_thread<G: Gate, R: Wait>(
    rt: &R,
    alloc: Global,
    inputs: &Inputs,
    locks: &Locks,
    worker: Worker,
    mut taker: Taker<u32>,
    gate: &G,
    unmade: &AtomicU32,
) -> Back
    requires may { MayBegin inputs.now locks.now worker }
    requires nothing_taken { taker.taken ≡ [] }
    ensures { IsBack inputs.now worker.worker locks.now taker.inbox result }
{
    let Worker { worker, mut crew } = worker;
    if unmade.load(Ordering::SeqCst) == worker as u32 + 1 {
        return Back {
            crew,
            taker,
            served: Served::NotBegun,
        };
    }
    let served = match serve(
        rt, alloc, inputs, worker, locks, &mut crew, &mut taker, gate,
    ) {
        Ok(made) => Served::Made(made),
        Err(_) => Served::NoMemory,
    };
    Back {
        crew,
        taker,
        served,
    }
}
