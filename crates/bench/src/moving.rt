//! The moves of an instance's work in one call: of a work that begins, and of one whose ask makes a step.

ghost use Rattle.std.specs.Prelude.{◌≡◌, ◌<◌, ◌≤◌, ◌^◌, ℕ, [], ◌∷◌, ◌++◌, length, true, IfOk, OnOk, OnErr, Some, None};
ghost use Rattle.bench.specs.Bench.{Held, IsPassedAtOnce, answer_of as answer_said, entry_by as entry_of, moved, stepped, taken};
ghost use Rattle.bench.specs.Desks.{Agrees, CellsKnown, HeldWithin, IsKeptIfAny, IsOf, IsTurn, IsWork, IsWorkIfAny, KeptFit, cells_stepped, desk_of, desk_stepped, left, left_by, shown, shown_job, shown_work};
ghost use Rattle.bench.specs.Laws.{Asks};
ghost use Rattle.bench.specs.declared.call.Reply.TheVariants.{Going};
ghost use Rattle.job_core.specs.Jobs.{IsTaken, KnowsServers, MayAnswer};
ghost use Rattle.job_core.specs.Rooms.{IsReady};
ghost use Rattle.replica_cell.specs.Walks.{cells_after, replicas};
ghost use Rattle.rule_table.specs.Setups.{IsSetup};

use crate::call::Reply;
use crate::desk::Work;
use crate::held::{bytes_of, change};
use crate::keeping::{add_entry, entry_by, is_kept, take_back};
use crate::passing::{find_for, pass_on};
use crate::settling::settle_on;
use flow_id::{Flow, Keyed};
use indexmap::IndexMap;
use job_core::{Aim, Answer, ForgedNumbers, Job, Next};
use kept_records::KeptList;
use replica_cell::Cell;
use rule_table::Setup;
use std::alloc::{AllocError, Global};
use store_walk::{Stepped, noted_step, start, undo_step};
use tcp_segment::{Bytes, Outs, Segment};

/// A segment that an instance takes.
#[derive(Drop)]
pub(crate) struct Taking {
    pub(crate) instance: u16,
    /// The number of the record that it came in with.
    pub(crate) item: u32,
    pub(crate) aim: Aim,
    pub(crate) seg: Segment,
}

/// The answer of an ask, where it has ended.
fn answer_of(said: Stepped) -> Option<Answer>
    ensures { result ≡ answer_said said }
{
    match said {
        Stepped::Going => None,
        Stepped::Decided(found) => Some(Answer::Decided(found)),
        Stepped::Absent => Some(Answer::Absent),
        Stepped::Down => Some(Answer::Down),
    }
}

/// Whether the work goes on after this reply.
fn goes(reply: &Reply) -> bool
    ensures on { result ≡ true → reply.now ≡ Going }
    ensures ends { (result ≡ true → ⊥) → reply.now ≡ Going → ⊥ }
{
    match reply {
        Reply::Going => true,
        Reply::Done { .. } | Reply::Idle | Reply::Noted => false,
    }
}

/// What is left of a work after this reply: nothing where its handling has ended.
fn left_after(reply: &Reply, work: Work) -> Option<Work>
    ensures job { IsTurn reply.now → shown_job result ≡ left_by reply.now (shown_work work) }
    ensures agrees { (i : ℕ) → (reply.now ≡ Going → IsOf i work) → Agrees i result }
{
    match reply {
        Reply::Going => Some(work),
        Reply::Done { .. } | Reply::Idle | Reply::Noted => None,
    }
}

/// Makes the move of the work's job after this answer to its ask, with what is held of its flow. The room for what may be
/// held, and for an entry that may be kept, is made first. An `Err` changes nothing.
fn move_on(
    setup: &Setup,
    forged: &mut ForgedNumbers,
    work: &mut Work,
    held: &mut IndexMap<Flow, Bytes, Keyed>,
    kept: &mut KeptList,
    got: Answer,
) -> Result<Reply, AllocError>
    requires good { IsSetup setup.now }
    requires secret { forged.old ≡ setup.now.secret }
    requires may { MayAnswer setup.now work.old.job.ask got }
    requires servers { KnowsServers setup.now work.old.job }
    requires held { HeldWithin held.old.entries }
    requires few { length kept.old ≤ 256 }
    requires entry { IsKeptIfAny (entry_of work.old.job.aim (work.old.job.answers ++ got ∷ [])) }
    ensures moved { IfOk result (λ r. left r work.new held.new.entries kept.new ≡ moved setup.now work.old.job.instance (shown_work work.old) got (desk_of work.old held.old.entries kept.old)) }
    ensures stands { IfOk result (λ r. r ≡ Going → work.new.job.ask ≡ work.new.walk.ask) }
    ensures asks { IfOk result (λ r. r ≡ Going → Asks setup.now work.old.job.instance work.new.job.aim work.new.job.segment work.new.job.answers work.new.job.ask) }
    ensures instance { IfOk result (λ r. r ≡ Going → work.new.job.instance ≡ work.old.job.instance) }
    ensures kept { IfOk result (λ r. r ≡ Going → kept.new ≡ kept.old) }
    ensures kind { IfOk result IsTurn }
    ensures err { OnErr result (work.new ≡ work.old) }
    ensures err_held { OnErr result (held.new.entries ≡ held.old.entries) }
    ensures err_kept { OnErr result (kept.new ≡ kept.old) }
    ensures forged { forged.new ≡ forged.old }
{
    let flow = work.job.flow();
    held.reserve(1)?;
    let entry = entry_by(work.job.aim(), work.job.answers(), got);
    let added = add_entry(forged, kept, entry)?;
    let bytes = bytes_of(held, flow);
    let made = match work.job.answer_with(setup, forged, got, bytes) {
        Ok(made) => made,
        Err(refused) => {
            take_back(kept, added);
            return Err(refused);
        }
    };
    change(held, flow, made.held);
    match made.next {
        Next::Ask(ask) => {
            take_back(kept, added);
            work.walk = start(ask);
            Ok(Reply::Going)
        }
        Next::End { verdict, outs } => {
            if is_kept(&verdict) {
                kept.settle();
            } else {
                take_back(kept, added);
            }
            Ok(Reply::Done { verdict, outs })
        }
    }
}

/// Makes one step of the instance's work: the step of its walk, and where that ends the ask the job's move, by which it is
/// settled. The room that is lent is taken where a segment is passed on by what is known. An `Err` changes nothing but
/// counts of faults.
fn go_on(
    setup: &Setup,
    forged: &mut ForgedNumbers,
    cells: &mut [Cell],
    work: &mut Work,
    held: &mut IndexMap<Flow, Bytes, Keyed>,
    kept: &mut KeptList,
    room: &mut Outs,
) -> Result<Reply, AllocError>
    requires good { IsSetup setup.now }
    requires secret { forged.old ≡ setup.now.secret }
    requires few { length cells.old < 2 ^ 32 }
    requires known { CellsKnown setup.now (replicas cells.old) }
    requires work { IsWork setup.now (length cells.old) work.old }
    requires held { HeldWithin held.old.entries }
    requires entries { length kept.old ≤ 256 }
    requires fits { KeptFit setup.now kept.old }
    requires room { IsReady room.old }
    ensures cells { OnOk result (replicas cells.new ≡ cells_after work.old.walk (replicas cells.old)) }
    ensures stepped { IfOk result (λ r. left r work.new held.new.entries kept.new ≡ stepped setup.now work.old.job.instance (replicas cells.old) (shown_work work.old) (desk_of work.old held.old.entries kept.old)) }
    ensures stands { IfOk result (λ r. r ≡ Going → work.new.job.ask ≡ work.new.walk.ask) }
    ensures instance { IfOk result (λ r. r ≡ Going → work.new.job.instance ≡ work.old.job.instance) }
    ensures kind { IfOk result IsTurn }
    ensures err { OnErr result (work.new ≡ work.old) }
    ensures err_held { OnErr result (held.new.entries ≡ held.old.entries) }
    ensures err_kept { OnErr result (kept.new ≡ kept.old) }
    ensures err_cells { OnErr result (replicas cells.new ≡ replicas cells.old) }
    ensures forged { forged.new ≡ forged.old }
{
    let before = work.walk;
    let noted = noted_step(&mut work.walk, cells)?;
    let Some(got) = answer_of(noted.said) else {
        return Ok(Reply::Going);
    };
    let reply = match move_on(setup, forged, work, held, kept, got) {
        Ok(reply) => reply,
        Err(refused) => {
            undo_step(&mut work.walk, cells, &before, noted.stored);
            return Err(refused);
        }
    };
    if goes(&reply) {
        Ok(settle_on(setup, forged, work, kept, room))
    } else {
        Ok(reply)
    }
}

/// Makes one step of the instance's work, if it has one; a work whose handling has ended is dropped. The room that is lent
/// is taken where a segment is passed on by what is known. An `Err` changes nothing but counts of faults.
pub(crate) fn step_any(
    setup: &Setup,
    forged: &mut ForgedNumbers,
    cells: &mut [Cell],
    work: &mut Option<Work>,
    held: &mut IndexMap<Flow, Bytes, Keyed>,
    kept: &mut KeptList,
    room: &mut Outs,
) -> Result<Reply, AllocError>
    requires good { IsSetup setup.now }
    requires secret { forged.old ≡ setup.now.secret }
    requires few { length cells.old < 2 ^ 32 }
    requires known { CellsKnown setup.now (replicas cells.old) }
    requires work { IsWorkIfAny setup.now (length cells.old) work.old }
    requires held { HeldWithin held.old.entries }
    requires entries { length kept.old ≤ 256 }
    requires fits { KeptFit setup.now kept.old }
    requires room { IsReady room.old }
    ensures cells { OnOk result (replicas cells.new ≡ cells_stepped (replicas cells.old) (shown_job work.old)) }
    ensures stepped { IfOk result (λ r. (i : ℕ) → Agrees i work.old → (shown work.new held.new.entries kept.new, r) ≡ desk_stepped setup.now i (replicas cells.old) (shown work.old held.old.entries kept.old)) }
    ensures agrees { OnOk result ((i : ℕ) → Agrees i work.old → Agrees i work.new) }
    ensures err { OnErr result (work.new ≡ work.old) }
    ensures err_held { OnErr result (held.new.entries ≡ held.old.entries) }
    ensures err_kept { OnErr result (kept.new ≡ kept.old) }
    ensures err_cells { OnErr result (replicas cells.new ≡ replicas cells.old) }
    ensures forged { forged.new ≡ forged.old }
{
    let Some(some) = work else {
        return Ok(Reply::Idle);
    };
    let reply = go_on(setup, forged, cells, some, held, kept, room)?;
    if !goes(&reply) {
        *work = None;
    }
    Ok(reply)
}

/// Begins the job of the segment in place of the instance's work, and settles it. It takes no memory.
fn begin_on(
    alloc: Global,
    setup: &Setup,
    forged: &ForgedNumbers,
    work: &mut Option<Work>,
    kept: &mut KeptList,
    room: &mut Outs,
    taking: Taking,
) -> Reply
    requires good { IsSetup setup.now }
    requires secret { forged.now ≡ setup.now.secret }
    requires taken { IsTaken setup.now taking.aim taking.seg }
    requires fits { KeptFit setup.now kept.old }
    requires room { IsReady room.old }
    ensures taken { (held : Held) → (shown work.new held kept.new, result) ≡ taken setup.now taking.instance taking.item taking.aim taking.seg (shown work.old held kept.old) }
    ensures agrees { Agrees taking.instance work.new }
    ensures room { (IsPassedAtOnce (Some result) → ⊥) → room.new ≡ room.old }
{
    let job = Job::begin(alloc, setup, taking.instance, taking.aim, taking.seg);
    let walk = start(job.ask());
    let mut begun = Work {
        item: taking.item,
        job,
        walk,
    };
    let reply = settle_on(setup, forged, &mut begun, kept, room);
    *work = left_after(&reply, begun);
    reply
}

/// Takes the segment at the desk of its instance, in place of the work that is there: it is passed on where its flow is kept,
/// and else its job begins and is settled. The room that is lent is taken where it is passed on. It takes no memory.
pub(crate) fn take_on(
    alloc: Global,
    setup: &Setup,
    forged: &ForgedNumbers,
    work: &mut Option<Work>,
    kept: &mut KeptList,
    room: &mut Outs,
    taking: Taking,
) -> Reply
    requires good { IsSetup setup.now }
    requires secret { forged.now ≡ setup.now.secret }
    requires taken { IsTaken setup.now taking.aim taking.seg }
    requires fits { KeptFit setup.now kept.old }
    requires room { IsReady room.old }
    ensures taken { (held : Held) → (shown work.new held kept.new, result) ≡ taken setup.now taking.instance taking.item taking.aim taking.seg (shown work.old held kept.old) }
    ensures agrees { Agrees taking.instance work.new }
    ensures room { (IsPassedAtOnce (Some result) → ⊥) → room.new ≡ room.old }
{
    match find_for(kept, taking.aim, &taking.seg.head) {
        Some((flow, found)) => {
            *work = None;
            pass_on(setup, forged, room, taking.aim, taking.seg, flow, &found)
        }
        None => begin_on(alloc, setup, forged, work, kept, room, taking),
    }
}
