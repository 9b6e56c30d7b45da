ghost use Rattle.std.specs.Prelude.{◌≡◌, ◌<◌, ◌^◌, List, length, IfOk, OnOk, OnErr, slice_get, ◌↔◌, if◌then◌else◌};
ghost use Rattle.flow_record.specs.Records.{asked_key};
ghost use Rattle.replica_cell.specs.Cells.{Replica, taken_back};
ghost use Rattle.replica_cell.specs.Walks.{CarriedFits, CarriesAsAsked, EndsAbsent, EndsDown, standing, changed, walk_after, cells_after, views_after, replicas, stores};
ghost use Rattle.store_walk.specs.Steps.{SaidFits, view_taken_back};

use replica_cell::{Cell, Stepped, Walk};
use std::alloc::AllocError;

/// What a step of a walk came to.
#[derive(Clone, Copy, Debug, PartialEq, Eq)]
pub struct Noted {
    /// Where the ask stands.
    pub said: Stepped,
    /// Whether the cell stored what the walk carried.
    pub stored: bool,
}

/// Makes a step as `walk_step` does, and says also whether it stored, so that `undo_step` can take it back.
pub fn noted_step(walk: &mut Walk, cells: &mut [Cell]) -> Result<Noted, AllocError>
    requires few { length cells.old < 2 ^ 32 }
    requires left { walk.old.place < length cells.old }
    requires fits { CarriedFits walk.old }
    requires carries { CarriesAsAsked walk.old }
    ensures says { IfOk result (λ n. n.said ≡ standing (length cells.old) walk.new) }
    ensures walk { OnOk result (walk.new ≡ walk_after walk.old (replicas cells.old)) }
    ensures cells { OnOk result (replicas cells.new ≡ cells_after walk.old (replicas cells.old)) }
    // The count of faults of the cell rises where it had failed.
    ensures views { OnOk result (cells.new ≡ views_after walk.old cells.old) }
    ensures stored { IfOk result (λ n. n.stored ≡ stores walk.old (replicas cells.old)) }
    // Absent comes exactly where the first living cell that a Get meets is this one, and it lacks the key.
    ensures absent { IfOk result (λ n. (n.said ≡ Stepped.Absent) ↔ EndsAbsent walk.old (slice_get (replicas cells.old) walk.old.place)) }
    // Down comes exactly where this is the last cell, it had failed, and so had each before it at its step.
    ensures down { IfOk result (λ n. (n.said ≡ Stepped.Down) ↔ EndsDown (length cells.old) walk.old (slice_get (replicas cells.old) walk.old.place)) }
    ensures decided_fits { IfOk result (λ n. SaidFits (asked_key walk.old.ask) n.said) }
    ensures fits { OnOk result (CarriedFits walk.new) }
    ensures carries { IfOk result (λ n. n.said ≡ Stepped.Going → CarriesAsAsked walk.new) }
    ensures err { OnErr result (walk.new ≡ walk.old) }
    ensures err_cells { OnErr result (cells.new ≡ cells.old) }
{
    let count = cells.len();
    let stored = walk.step(&mut cells[walk.place as usize])?;
    Ok(Noted {
        said: walk.standing(count),
        stored,
    })
}

/// Makes the one operation of a walk at the cell of its place, and moves it. An `Err` changes nothing.
pub fn walk_step(walk: &mut Walk, cells: &mut [Cell]) -> Result<Stepped, AllocError>
    requires few { length cells.old < 2 ^ 32 }
    requires left { walk.old.place < length cells.old }
    requires fits { CarriedFits walk.old }
    requires carries { CarriesAsAsked walk.old }
    ensures says { IfOk result (λ a. a ≡ standing (length cells.old) walk.new) }
    ensures walk { OnOk result (walk.new ≡ walk_after walk.old (replicas cells.old)) }
    ensures cells { OnOk result (replicas cells.new ≡ cells_after walk.old (replicas cells.old)) }
    // The count of faults of the cell rises where it had failed.
    ensures views { OnOk result (cells.new ≡ views_after walk.old cells.old) }
    // Absent comes exactly where the first living cell that a Get meets is this one, and it lacks the key.
    ensures absent { IfOk result (λ a. (a ≡ Stepped.Absent) ↔ EndsAbsent walk.old (slice_get (replicas cells.old) walk.old.place)) }
    // Down comes exactly where this is the last cell, it had failed, and so had each before it at its step.
    ensures down { IfOk result (λ a. (a ≡ Stepped.Down) ↔ EndsDown (length cells.old) walk.old (slice_get (replicas cells.old) walk.old.place)) }
    ensures decided_fits { IfOk result (SaidFits (asked_key walk.old.ask)) }
    ensures fits { OnOk result (CarriedFits walk.new) }
    ensures carries { IfOk result (λ a. a ≡ Stepped.Going → CarriesAsAsked walk.new) }
    ensures err { OnErr result (walk.new ≡ walk.old) }
    ensures err_cells { OnErr result (cells.new ≡ cells.old) }
{
    Ok(noted_step(walk, cells)?.said)
}

/// Takes one step of a walk back: the walk is `before` again, and where the step `stored`, the ask's key is taken back
/// from the cell at the place of `before`. Counts of faults stay as they are.
pub fn undo_step(walk: &mut Walk, cells: &mut [Cell], before: &Walk, stored: bool)
    requires { before.now.place < length cells.old }
    ensures walk { walk.new ≡ before.now }
    ensures views { cells.new ≡ (if stored then changed before.now.place (view_taken_back (asked_key before.now.ask)) cells.old else cells.old) }
    ensures back { replicas cells.new ≡ (if stored then changed before.now.place (taken_back (asked_key before.now.ask)) (replicas cells.old) else replicas cells.old) }
    // Where the cells are what one step of `before` made of some cells, and `stored` says whether it stored, they are those again.
    ensures cells { (was : List Replica) → replicas cells.old ≡ cells_after before.now was → stored ≡ stores before.now was → replicas cells.new ≡ was }
{
    if stored {
        cells[before.place as usize].take_back(&before.ask.key());
    }
    *walk = *before;
}
