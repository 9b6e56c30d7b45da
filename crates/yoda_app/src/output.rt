// The outputs of a command, each with what stops the command there.
ghost use Rattle.std.specs.Prelude.{◌≡◌, [], IfErr, OnOk, OnErr};
ghost use Rattle.shelf.specs.Changes.{change};
ghost use Rattle.shelf.specs.Shelf.{SameOthers, NoneFell, StaysSure};
ghost use Rattle.yoda_app.specs.Ends.{StopsWriting};
ghost use Rattle.yoda_app.specs.Spliced.{IsSpliced, text_of};
ghost use Rattle.yoda_app.specs.Written.{longer, AddsPart, written, HoldsPart};

use crate::ending::Stop;
use crate::spliced::Spliced;
use crate::writing::{append_all, write_spliced, write_whole};
use shelf::Shelf;

/// Starts an output and writes its text.
pub fn write_output<'a, H: Shelf>(shelf: &mut H, name: &'a str, text: &[u8]) -> Result<(), Stop<'a>>
    ensures all { OnOk result (H.content shelf.new name.now ≡ written name.now (H.content shelf.old name.now) text.now) }
    ensures part { OnErr result (HoldsPart name.now (H.content shelf.old name.now) (H.content shelf.new name.now) text.now) }
    ensures stop { IfErr result (StopsWriting (change H.content H.faults H.sure shelf.old shelf.new) name.now) }
    ensures others { SameOthers name.now (H.content shelf.old) (H.content shelf.new) }
    ensures counts { NoneFell (H.faults shelf.old) (H.faults shelf.new) }
    ensures stays { StaysSure (H.sure shelf.old) (H.sure shelf.new) }
{
    match write_whole(shelf, name, text) {
        Ok(()) => Ok(()),
        Err(_) => Err(Stop::Write(name)),
    }
}

/// Starts an output and writes its text, of which parts stand in the trace, by way of the buffer.
pub fn write_spliced_output<'a, H: Shelf>(
    shelf: &mut H,
    name: &'a str,
    trace: &[u8],
    text: &Spliced,
    buffer: &mut Vec<u8>,
) -> Result<(), Stop<'a>>
    requires spliced { IsSpliced trace.now text.now }
    requires empty { buffer.old.items ≡ [] }
    ensures all { OnOk result (H.content shelf.new name.now ≡ written name.now (H.content shelf.old name.now) (text_of trace.now text.now)) }
    ensures part { OnErr result (HoldsPart name.now (H.content shelf.old name.now) (H.content shelf.new name.now) (text_of trace.now text.now)) }
    ensures stop { IfErr result (StopsWriting (change H.content H.faults H.sure shelf.old shelf.new) name.now) }
    ensures others { SameOthers name.now (H.content shelf.old) (H.content shelf.new) }
    ensures counts { NoneFell (H.faults shelf.old) (H.faults shelf.new) }
    ensures stays { StaysSure (H.sure shelf.old) (H.sure shelf.new) }
{
    match write_spliced(shelf, name, trace, text, buffer) {
        Ok(()) => Ok(()),
        Err(_) => Err(Stop::Write(name)),
    }
}

/// Adds a text to standard output, or to standard error, which are not started.
pub fn append_output<'a, H: Shelf>(
    shelf: &mut H,
    name: &'a str,
    text: &[u8],
) -> Result<(), Stop<'a>>
    ensures all { OnOk result (H.content shelf.new name.now ≡ longer (H.content shelf.old name.now) text.now) }
    ensures part { AddsPart (H.content shelf.old name.now) (H.content shelf.new name.now) text.now }
    ensures stop { IfErr result (StopsWriting (change H.content H.faults H.sure shelf.old shelf.new) name.now) }
    ensures others { SameOthers name.now (H.content shelf.old) (H.content shelf.new) }
    ensures counts { NoneFell (H.faults shelf.old) (H.faults shelf.new) }
    ensures stays { StaysSure (H.sure shelf.old) (H.sure shelf.new) }
{
    match append_all(shelf, name, text) {
        Ok(()) => Ok(()),
        Err(_) => Err(Stop::Write(name)),
    }
}
