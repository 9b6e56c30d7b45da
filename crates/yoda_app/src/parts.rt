// A text in parts, which are written one behind the other.
ghost use Rattle.std.specs.Prelude.{◌≡◌, ◌++◌, ℕ, List, [], IfErr, OnOk, OnErr, Option};
ghost use Rattle.common.specs.Causes.{Rose};
ghost use Rattle.shelf.specs.Changes.{change};
ghost use Rattle.shelf.specs.Shelf.{SameOthers, NoneFell, StaysSure};
ghost use Rattle.shelf.specs.declared.outside.Kind.TheVariants.{Writing};
ghost use Rattle.yoda_app.specs.Ends.{StopsWriting};
ghost use Rattle.yoda_app.specs.Parts.{AreSpliced, parts_text};
ghost use Rattle.yoda_app.specs.Spliced.{IsSpliced, text_of};
ghost use Rattle.yoda_app.specs.Written.{longer, AddsPart, Sends, written, HoldsPart};

use crate::ending::Stop;
use crate::spliced::Spliced;
use crate::writing::append_spliced;
use shelf::{Failed, Shelf};

// Adds the text of the next part to what the name holds.
fn append_part<H: Shelf>(
    shelf: &mut H,
    name: &str,
    trace: &[u8],
    part: &Spliced,
    buffer: &mut Vec<u8>,
) -> Result<(), Failed>
    requires spliced { IsSpliced trace.now part.now }
    requires empty { buffer.old.items ≡ [] }
    ensures emptied { OnOk result (buffer.new.items ≡ []) }
    ensures sent { OnOk result ((first : Option (List ℕ)) (left text : List ℕ) → Sends first (H.content shelf.old name.now) [] (text_of trace.now part.now ++ left) text
        → Sends first (H.content shelf.new name.now) [] left text) }
    ensures part { OnErr result ((first : Option (List ℕ)) (left text : List ℕ) → Sends first (H.content shelf.old name.now) [] (text_of trace.now part.now ++ left) text
        → AddsPart first (H.content shelf.new name.now) text) }
    ensures others { SameOthers name.now (H.content shelf.old) (H.content shelf.new) }
    ensures cause { OnErr result (Rose (H.faults shelf.old Writing name.now) (H.faults shelf.new Writing name.now)) }
    ensures counts { NoneFell (H.faults shelf.old) (H.faults shelf.new) }
    ensures stays { StaysSure (H.sure shelf.old) (H.sure shelf.new) }
{
    append_spliced(shelf, name, trace, part, buffer)?;
    Ok(())
}

// Adds the texts of the parts to what the name holds. After `Failed` a beginning of them was added.
fn append_parts<H: Shelf>(
    shelf: &mut H,
    name: &str,
    trace: &[u8],
    parts: &[Spliced],
    buffer: &mut Vec<u8>,
) -> Result<(), Failed>
    requires spliced { AreSpliced trace.now parts.now }
    requires empty { buffer.old.items ≡ [] }
    ensures all { OnOk result (H.content shelf.new name.now ≡ longer (H.content shelf.old name.now) (parts_text trace.now parts.now)) }
    ensures part { OnErr result (AddsPart (H.content shelf.old name.now) (H.content shelf.new name.now) (parts_text trace.now parts.now)) }
    ensures others { SameOthers name.now (H.content shelf.old) (H.content shelf.new) }
    ensures cause { OnErr result (Rose (H.faults shelf.old Writing name.now) (H.faults shelf.new Writing name.now)) }
    ensures counts { NoneFell (H.faults shelf.old) (H.faults shelf.new) }
    ensures stays { StaysSure (H.sure shelf.old) (H.sure shelf.new) }
{
    let mut rest = parts;
    while let [first, after @ ..] = rest {
        append_part(shelf, name, trace, first, buffer)?;
        rest = after;
    }
    Ok(())
}

// Makes the texts of the parts what the name holds. After `Failed` it holds what it held, or a beginning of them.
fn write_parts<H: Shelf>(
    shelf: &mut H,
    name: &str,
    trace: &[u8],
    parts: &[Spliced],
    buffer: &mut Vec<u8>,
) -> Result<(), Failed>
    requires spliced { AreSpliced trace.now parts.now }
    requires empty { buffer.old.items ≡ [] }
    ensures all { OnOk result (H.content shelf.new name.now ≡ written name.now (H.content shelf.old name.now) (parts_text trace.now parts.now)) }
    ensures part { OnErr result (HoldsPart name.now (H.content shelf.old name.now) (H.content shelf.new name.now) (parts_text trace.now parts.now)) }
    ensures others { SameOthers name.now (H.content shelf.old) (H.content shelf.new) }
    ensures cause { OnErr result (Rose (H.faults shelf.old Writing name.now) (H.faults shelf.new Writing name.now)) }
    ensures counts { NoneFell (H.faults shelf.old) (H.faults shelf.new) }
    ensures stays { StaysSure (H.sure shelf.old) (H.sure shelf.new) }
{
    shelf.start(name)?;
    append_parts(shelf, name, trace, parts, buffer)
}

/// Starts an output and writes the texts of the parts, by way of the buffer. It takes no memory.
pub fn write_parts_output<'a, H: Shelf>(
    shelf: &mut H,
    name: &'a str,
    trace: &[u8],
    parts: &[Spliced],
    buffer: &mut Vec<u8>,
) -> Result<(), Stop<'a>>
    requires spliced { AreSpliced trace.now parts.now }
    requires empty { buffer.old.items ≡ [] }
    ensures all { OnOk result (H.content shelf.new name.now ≡ written name.now (H.content shelf.old name.now) (parts_text trace.now parts.now)) }
    ensures part { OnErr result (HoldsPart name.now (H.content shelf.old name.now) (H.content shelf.new name.now) (parts_text trace.now parts.now)) }
    ensures stop { IfErr result (StopsWriting (change H.content H.faults H.sure shelf.old shelf.new) name.now) }
    ensures others { SameOthers name.now (H.content shelf.old) (H.content shelf.new) }
    ensures counts { NoneFell (H.faults shelf.old) (H.faults shelf.new) }
    ensures stays { StaysSure (H.sure shelf.old) (H.sure shelf.new) }
{
    match write_parts(shelf, name, trace, parts, buffer) {
        Ok(()) => Ok(()),
        Err(_) => Err(Stop::Write(name)),
    }
}
