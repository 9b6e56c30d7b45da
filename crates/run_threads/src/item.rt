//! What a worker does at one record.
ghost use Rattle.std.specs.Prelude.{◌≡◌, ℕ, ◌<◌, ◌≤◌, ◌+◌, ◌%◌, ◌==◌, length, OnOk, IfOk};
ghost use Rattle.bench.specs.Calls.{IsAimedHere};
ghost use Rattle.bench.specs.Inputs.{IsInputs};
ghost use Rattle.bench.specs.Prepared.{IsPrepared};
ghost use Rattle.bench.specs.declared.input.prepared.Prepared.TheVariants.{Work};
ghost use Rattle.run_threads.specs.Crews.{IsCrew, CrewDoes, CrewMakes};
ghost use Rattle.run_threads.specs.Handling.{refused_by, end_of};
ghost use Rattle.run_threads.specs.Named.{GoesOnNaming};
ghost use Rattle.bench.specs.Blocks.{crash_of, crash_after};
ghost use Rattle.run_threads.specs.Items.{IsHandledAt, IsTurn, IsPassed, IsDone, IsItem, failing, fails_of, fails_before, owner};

use crate::crew::{crash_all, fail_all};
use crate::gate::Gate;
use crate::handling::{Refused, handle, in_time, most_steps};
use crate::object::BenchObject;
use crate::outcome::{Outcome, ended, outcome_of};
use bench::Reply;
use bench::input::{Inputs, Prepared, prepare};
use job_core::{Aim, Verdict};
use pcap_file::Frame;
use rule_table::Setup;
use script_text::Line as ScriptLine;
use seen_lock::{SeenLock, SeenSeat};
use std::alloc::{AllocError, Global};
use std::sync::Wait;
use tcp_segment::Segment;

/// Handles a segment at the bench of its shard.
fn handle_at<R: Wait>(
    rt: &R,
    setup: &Setup,
    locks: &[SeenLock<BenchObject>],
    seats: &mut [SeenSeat<BenchObject>],
    instance: u16,
    item: u32,
    aim: Aim,
    seg: Segment,
    shard: u8,
    after: Option<u16>,
) -> Result<Reply, Refused>
    requires crew { IsCrew setup.now locks.now seats.old }
    requires instance { instance < setup.now.instances }
    requires shard { shard < setup.now.shards }
    requires aimed { IsAimedHere setup.now shard aim seg }
    ensures crew { IsCrew setup.now locks.now seats.new }
    ensures named { GoesOnNaming instance locks.now seats.old seats.new }
    ensures does { CrewDoes locks.now seats.old seats.new (IsHandledAt setup.now instance item aim seg shard after (refused_by result) (end_of result)) }
{
    let place = shard as usize;
    let most = most_steps(setup, after);
    let end = handle(
        rt,
        &locks[place],
        &mut seats[place],
        instance,
        item,
        aim,
        seg,
        most,
    );
    in_time(rt, after, end)
}

/// The instance crashes, where it does. The one error is want of memory.
pub(crate) fn crash_if<R: Wait>(
    rt: &R,
    setup: &Setup,
    locks: &[SeenLock<BenchObject>],
    seats: &mut [SeenSeat<BenchObject>],
    instance: u16,
    after: Option<u16>,
) -> Result<(), AllocError>
    requires crew { IsCrew setup.now locks.now seats.old }
    requires instance { instance < setup.now.instances }
    ensures crew { IsCrew setup.now locks.now seats.new }
    ensures named { GoesOnNaming instance locks.now seats.old seats.new }
    ensures made { OnOk result (CrewMakes locks.now seats.old seats.new (crash_of setup.now instance after)) }
{
    match after {
        Some(_) => crash_all(rt, setup, locks, seats, instance),
        None => Ok(()),
    }
}

/// Handles a segment at the bench of its shard, and crashes where the script has it so. The one error is want of memory for
/// the crash.
pub(crate) fn take_turn<R: Wait>(
    rt: &R,
    alloc: Global,
    setup: &Setup,
    locks: &[SeenLock<BenchObject>],
    seats: &mut [SeenSeat<BenchObject>],
    instance: u16,
    item: u32,
    aim: Aim,
    seg: Segment,
    shard: u8,
    after: Option<u16>,
) -> Result<Outcome, AllocError>
    requires crew { IsCrew setup.now locks.now seats.old }
    requires fits { IsPrepared setup.now (Work aim seg instance shard) }
    ensures crew { IsCrew setup.now locks.now seats.new }
    ensures named { GoesOnNaming instance locks.now seats.old seats.new }
    ensures turn { IfOk result (λ o. CrewDoes locks.now seats.old seats.new (IsTurn setup.now instance item aim seg shard after o)) }
{
    let end = handle_at(
        rt, setup, locks, seats, instance, item, aim, seg, shard, after,
    );
    crash_if(rt, setup, locks, seats, instance, after)?;
    Ok(outcome_of(alloc, instance, end))
}

/// The replica that the line has fail before the record, where the record's number modulo the instances is the worker's.
fn failing(setup: &Setup, worker: u16, item: u32, line: &ScriptLine) -> Option<u8>
    ensures { result ≡ failing setup.now worker item line.now }
{
    setup.known();
    match *line {
        ScriptLine::Fail { replica, item: at }
            if at == item && item % setup.instances() as u32 == worker as u32 => { Some(replica) }
        _ => None,
    }
}

/// The replica fails, if there is one. The one error is want of memory.
fn fail_if<R: Wait>(
    rt: &R,
    setup: &Setup,
    locks: &[SeenLock<BenchObject>],
    seats: &mut [SeenSeat<BenchObject>],
    replica: Option<u8>,
) -> Result<(), AllocError>
    requires crew { IsCrew setup.now locks.now seats.old }
    ensures crew { IsCrew setup.now locks.now seats.new }
    ensures named { (i : ℕ) → GoesOnNaming i locks.now seats.old seats.new }
    ensures made { OnOk result (CrewMakes locks.now seats.old seats.new (fails_of setup.now replica)) }
{
    match replica {
        Some(replica) => fail_all(rt, setup, locks, seats, replica),
        None => Ok(()),
    }
}

/// The replicas fail that these lines have fail before the record, where its number modulo the instances is the worker's. The
/// one error is want of memory.
pub(crate) fn fail_before<R: Wait>(
    rt: &R,
    setup: &Setup,
    locks: &[SeenLock<BenchObject>],
    seats: &mut [SeenSeat<BenchObject>],
    worker: u16,
    item: u32,
    lines: &[ScriptLine],
) -> Result<(), AllocError>
    requires crew { IsCrew setup.now locks.now seats.old }
    ensures crew { IsCrew setup.now locks.now seats.new }
    ensures named { (i : ℕ) → GoesOnNaming i locks.now seats.old seats.new }
    ensures made { OnOk result (CrewMakes locks.now seats.old seats.new (fails_before setup.now worker item lines.now)) }
{
    for line in lines {
        fail_if(rt, setup, locks, seats, failing(setup, worker, item, line))?;
    }
    Ok(())
}

/// After how many steps the instance crashes in the record `item`, if it does.
pub(crate) fn crash_after(lines: &[ScriptLine], instance: u16, item: u32) -> Option<u16>
    ensures { result ≡ crash_after lines.now instance item }
{
    for line in lines {
        match *line {
            ScriptLine::Crash {
                instance: crashing,
                item: at,
                after,
            } if crashing == instance && at == item => return Some(after),
            _ => {}
        }
    }
    None
}

/// What a worker does at a record that has an end already: its instance crashes where the script has it so.
pub(crate) fn pass<R: Wait>(
    rt: &R,
    setup: &Setup,
    locks: &[SeenLock<BenchObject>],
    seats: &mut [SeenSeat<BenchObject>],
    worker: u16,
    after: Option<u16>,
    told: Option<Outcome>,
) -> Result<Option<Outcome>, AllocError>
    requires crew { IsCrew setup.now locks.now seats.old }
    requires worker { worker < setup.now.instances }
    ensures crew { IsCrew setup.now locks.now seats.new }
    ensures named { GoesOnNaming worker locks.now seats.old seats.new }
    ensures told { IfOk result (λ o. o ≡ told) }
    ensures passed { OnOk result (CrewDoes locks.now seats.old seats.new (IsPassed setup.now worker after)) }
{
    crash_if(rt, setup, locks, seats, worker, after)?;
    Ok(told)
}
