//! What the workers made, put into one list for all records.
ghost use Rattle.std.specs.Prelude.{◌≡◌, ◌≢◌, ◌<◌, ◌≤◌, ◌*◌, ℕ, List, [], length, reverse, slice_index_or, IfOk, OnOk};
ghost use Rattle.bench.specs.Inputs.{IsInputs};
ghost use Rattle.run_threads.specs.Outcomes.{OutcomeView};
ghost use Rattle.run_threads.specs.Owners.{AreOwners};
ghost use Rattle.run_threads.specs.Run.{AreMade, IsMerged, AreGathered};
ghost use Rattle.run_threads.specs.Sent.{TakesLast};

use crate::made::Made;
use crate::owner::Owner;
use bench::input::{Inputs, Line, Lines, Result1, Sent};
use std::alloc::{AllocError, Global};
use tcp_segment::Segment;

/// Takes the last record out of what the worker at this place made, and adds what is sent for it to the list, the last segment
/// first.
fn take_last(
    all: &mut [Made],
    place: usize,
    sent: &mut Vec<(u32, Segment)>,
) -> Result<Line, AllocError>
    requires place { place < length all.old }
    requires some { (d : List (ℕ × OutcomeView)) → 0 < length (slice_index_or all.old place d) }
    ensures many { length all.new ≡ length all.old }
    ensures others { (k : ℕ) (d : List (ℕ × OutcomeView)) → k ≢ place → slice_index_or all.new k d ≡ slice_index_or all.old k d }
    ensures last { IfOk result (λ line. (d : List (ℕ × OutcomeView)) → TakesLast (slice_index_or all.old place d) (slice_index_or all.new place d) sent.old.items sent.new.items line) }
{
    all[place].take_last(sent)
}

/// Puts the lines of all records and what is sent for them into the lists, from the last record on: each is told by the worker
/// whose record it is, or has its verdict already. The one error is want of memory.
fn gather(
    inputs: &Inputs,
    owners: &[Owner],
    all: &mut [Made],
    lines: &mut Vec<Line>,
    sent: &mut Vec<(u32, Segment)>,
) -> Result<(), AllocError>
    requires inputs { IsInputs inputs.now }
    requires owners { AreOwners inputs.now inputs.now.frames owners.now }
    requires made { AreMade inputs.now inputs.now.frames all.old }
    requires no_lines { lines.old.items ≡ [] }
    requires none_sent { sent.old.items ≡ [] }
    ensures { OnOk result (AreGathered inputs.now inputs.now.frames all.old lines.new.items sent.new.items) }
{
    let _ = inputs;
    let mut left = owners.len();
    while left > 0 {
        left -= 1;
        let line = match owners[left] {
            Owner::Nobody(verdict) => Line {
                instance: None,
                verdict,
            },
            Owner::Worker(worker) => {
                let place = all.len() - 1 - worker as usize;
                take_last(all, place, sent)?
            }
        };
        lines.push(line)?;
    }
    Ok(())
}

/// The lines and the segments in the order of the records, where they stand the other way round.
fn turned(mut lines: Vec<Line>, mut sent: Vec<(u32, Segment)>) -> Result1
    ensures lines { result.lines ≡ reverse lines.items }
    ensures sent { result.outs ≡ reverse sent.items }
{
    lines.reverse();
    sent.reverse();
    Result1 {
        lines: Lines::new(lines),
        outs: Sent::new(sent),
    }
}

/// Puts what the workers made into one list for all records, in their order. The one error is want of memory.
pub(crate) fn merge(
    alloc: Global,
    inputs: &Inputs,
    owners: &[Owner],
    mut all: Vec<Made>,
) -> Result<Result1, AllocError>
    requires inputs { IsInputs inputs.now }
    requires owners { AreOwners inputs.now inputs.now.frames owners.now }
    requires made { AreMade inputs.now inputs.now.frames all.items }
    ensures merged { IfOk result (λ r. IsMerged inputs.now inputs.now.frames all.items r.lines r.outs) }
    ensures few { IfOk result (λ r. length r.outs ≤ 11 * length inputs.now.frames) }
{
    let mut lines = Vec::with_capacity(alloc, owners.len())?;
    let mut sent = Vec::with_capacity(alloc, owners.len())?;
    gather(inputs, owners, &mut all, &mut lines, &mut sent)?;
    Ok(turned(lines, sent))
}
