//! What a worker does at a record that may be its own: it was taken, or it was not.
ghost use Rattle.std.specs.Prelude.{◌≡◌, ◌≤◌, ◌+◌, ◌<◌, ◌&&◌, is_some, if◌then◌else◌, None, Some, length, IfOk, OnOk};
ghost use Rattle.bench.specs.Blocks.{crash_after};
ghost use Rattle.bench.specs.Inputs.{IsInputs};
ghost use Rattle.run_threads.specs.Crews.{IsCrew, CrewDoes};
ghost use Rattle.run_threads.specs.Items.{unprepared};
ghost use Rattle.run_threads.specs.Named.{GoesOnNaming};
ghost use Rattle.run_threads.specs.Served.{is_work, IsHandledOrPassed, IsBlock};

use crate::gate::Gate;
use crate::item::{crash_after, fail_before, pass, take_turn};
use crate::object::BenchObject;
use crate::outcome::{Outcome, ended};
use bench::input::{Inputs, Judged, Prepared, judge, prepare};
use job_core::Verdict;
use pcap_file::Frame;
use script_text::Line as ScriptLine;
use seen_lock::{SeenLock, SeenSeat};
use std::alloc::{AllocError, Global};
use std::sync::Wait;

/// Whether the worker's instance handles the record. It takes no memory.
fn is_work(inputs: &Inputs, worker: u16, item: u32, frame: &Frame) -> bool
    requires inputs { IsInputs inputs.now }
    requires inside { frame.now.at + frame.now.kept ≤ length inputs.now.trace }
    ensures { result ≡ is_work inputs.now worker item frame.now }
{
    match judge(inputs, item, frame) {
        Judged::Work { instance, .. } => instance == worker,
        Judged::Ended(_) => false,
    }
}

/// What is told of a record for which there was no memory to begin with, where it is one to be told of.
fn unprepared(alloc: Global, told: bool) -> Option<Outcome>
    ensures { result ≡ (if told then Some unprepared else None) }
{
    if told {
        Some(ended(alloc, Verdict::NoMemory { calls: 0 }))
    } else {
        None
    }
}

/// Handles the segment of a record where the worker's instance does, and crashes where the script has it so. The one error is
/// want of memory for the crash.
fn handle_taken<G: Gate, R: Wait>(
    rt: &R,
    alloc: Global,
    inputs: &Inputs,
    locks: &[SeenLock<BenchObject>],
    seats: &mut [SeenSeat<BenchObject>],
    worker: u16,
    item: u32,
    lines: &[ScriptLine],
    frame: &Frame,
    gate: &G,
) -> Result<Option<Outcome>, AllocError>
    requires inputs { IsInputs inputs.now }
    requires worker { worker < inputs.now.setup.instances }
    requires crew { IsCrew inputs.now.setup locks.now seats.old }
    requires inside { frame.now.at + frame.now.kept ≤ length inputs.now.trace }
    ensures crew { IsCrew inputs.now.setup locks.now seats.new }
    ensures named { GoesOnNaming worker locks.now seats.old seats.new }
    ensures told { IfOk result (λ o. is_some o ≡ is_work inputs.now worker item frame.now) }
    ensures done { IfOk result (λ o. CrewDoes locks.now seats.old seats.new (IsHandledOrPassed inputs.now worker item lines.now frame.now o)) }
{
    let setup = &inputs.setup;
    let after = crash_after(lines, worker, item);
    match prepare(alloc, inputs, item, frame) {
        Ok(
            Prepared::Work {
                aim,
                seg,
                instance,
                shard,
            },
        ) => {
            if instance != worker {
                return pass(rt, setup, locks, seats, worker, after, None);
            }
            gate.enter(worker, item);
            let turn = take_turn(
                rt, alloc, setup, locks, seats, instance, item, aim, seg, shard, after,
            );
            gate.leave(worker, item);
            match turn {
                Ok(outcome) => Ok(Some(outcome)),
                Err(refused) => Err(refused),
            }
        }
        Ok(Prepared::Ended(_)) => pass(rt, setup, locks, seats, worker, after, None),
        Err(_) => {
            let told = unprepared(alloc, is_work(inputs, worker, item, frame));
            pass(rt, setup, locks, seats, worker, after, told)
        }
    }
}

/// Handles the segment of a record that was taken, where the worker's instance does; one that was not taken is passed over.
fn handle_if<G: Gate, R: Wait>(
    rt: &R,
    alloc: Global,
    inputs: &Inputs,
    locks: &[SeenLock<BenchObject>],
    seats: &mut [SeenSeat<BenchObject>],
    worker: u16,
    item: u32,
    taken: bool,
    lines: &[ScriptLine],
    frame: &Frame,
    gate: &G,
) -> Result<Option<Outcome>, AllocError>
    requires inputs { IsInputs inputs.now }
    requires worker { worker < inputs.now.setup.instances }
    requires crew { IsCrew inputs.now.setup locks.now seats.old }
    requires inside { frame.now.at + frame.now.kept ≤ length inputs.now.trace }
    ensures crew { IsCrew inputs.now.setup locks.now seats.new }
    ensures named { GoesOnNaming worker locks.now seats.old seats.new }
    ensures told { IfOk result (λ o. is_some o ≡ (taken && is_work inputs.now worker item frame.now)) }
    ensures done { IfOk result (λ o. CrewDoes locks.now seats.old seats.new (IsHandledOrPassed inputs.now worker item lines.now frame.now o)) }
{
    if taken {
        return handle_taken(
            rt, alloc, inputs, locks, seats, worker, item, lines, frame, gate,
        );
    }
    let after = crash_after(lines, worker, item);
    pass(rt, &inputs.setup, locks, seats, worker, after, None)
}

/// Does all that a worker does at a record, for which the script has these lines: replicas fail before it, its segment is handled
/// where it was taken and the worker's instance does, and that instance crashes where the script has it so. The one error is
/// want of memory for a failure or a crash.
pub(crate) fn do_block<G: Gate, R: Wait>(
    rt: &R,
    alloc: Global,
    inputs: &Inputs,
    locks: &[SeenLock<BenchObject>],
    seats: &mut [SeenSeat<BenchObject>],
    worker: u16,
    item: u32,
    taken: bool,
    lines: &[ScriptLine],
    frame: &Frame,
    gate: &G,
) -> Result<Option<Outcome>, AllocError>
    requires inputs { IsInputs inputs.now }
    requires worker { worker < inputs.now.setup.instances }
    requires crew { IsCrew inputs.now.setup locks.now seats.old }
    requires inside { frame.now.at + frame.now.kept ≤ length inputs.now.trace }
    ensures crew { IsCrew inputs.now.setup locks.now seats.new }
    ensures named { GoesOnNaming worker locks.now seats.old seats.new }
    ensures told { IfOk result (λ o. is_some o ≡ (taken && is_work inputs.now worker item frame.now)) }
    ensures done { IfOk result (λ o. CrewDoes locks.now seats.old seats.new (IsBlock inputs.now worker item lines.now frame.now o)) }
{
    fail_before(rt, &inputs.setup, locks, seats, worker, item, lines)?;
    handle_if(
        rt, alloc, inputs, locks, seats, worker, item, taken, lines, frame, gate,
    )
}
