// The command `dump`.
ghost use Rattle.std.specs.Prelude.{◌≡◌, [], ◌∷◌, IfOk, IfErr, OnOk, None};
ghost use Rattle.std.specs.String.{string_bytes};
ghost use Rattle.shelf.specs.Changes.{change, held, AreTold};
ghost use Rattle.shelf.specs.Shelf.{SameContents, SameOthers, NoneFell, StaysSure};
ghost use Rattle.yoda_app.specs.DumpCommand.{dump_over};
ghost use Rattle.yoda_app.specs.Ends.{IsStop, IsEnd};

use crate::ending::{Stop, stop_of};
use crate::output::append_output;
use crate::windows::dump_of;
use shelf::Shelf;
use std::alloc::Global;

const OUTPUT: &str = "-";

// Reads the trace, judges it, and makes the text.
fn prepare<'a, H: Shelf>(alloc: Global, shelf: &mut H, trace: &'a str) -> Result<String, Stop<'a>>
    ensures accepted { OnOk result (AreTold (H.content shelf.old) (dump_over trace.now).inputs
        → (dump_over trace.now).refusal (held (H.content shelf.old)) ≡ None) }
    ensures text { IfOk result (λ t. AreTold (H.content shelf.old) (dump_over trace.now).inputs
        → (dump_over trace.now).Gives (held (H.content shelf.old)) (string_bytes t ∷ [])) }
    ensures stop { IfErr result (IsStop (dump_over trace.now) (change H.content H.faults H.sure shelf.old shelf.new)) }
    ensures same { SameContents (H.content shelf.old) (H.content shelf.new) }
    ensures counts { NoneFell (H.faults shelf.old) (H.faults shelf.new) }
    ensures stays { StaysSure (H.sure shelf.old) (H.sure shelf.new) }
{
    match dump_of(alloc, shelf, trace) {
        Ok(text) => Ok(text),
        Err(fault) => Err(stop_of(alloc, fault)),
    }
}

/// Reads the trace, and adds a line for each of its frames to standard output.
pub fn dump<'a, H: Shelf>(alloc: Global, shelf: &mut H, trace: &'a str) -> Result<(), Stop<'a>>
    ensures end { IsEnd (dump_over trace.now) (change H.content H.faults H.sure shelf.old shelf.new) result }
    ensures others { SameOthers OUTPUT.now (H.content shelf.old) (H.content shelf.new) }
    ensures counts { NoneFell (H.faults shelf.old) (H.faults shelf.new) }
    ensures stays { StaysSure (H.sure shelf.old) (H.sure shelf.new) }
{
    let text = prepare(alloc, shelf, trace)?;
    append_output(shelf, OUTPUT, text.as_bytes())
}
