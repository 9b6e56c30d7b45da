// Bytes that are added to what a name holds.
ghost use Rattle.std.specs.Prelude.{◌≡◌, ◌<◌, ◌≤◌, ◌++◌, ℕ, List, [], length, take, drop, if◌then◌else◌, IfOk, OnOk, OnErr, Option};
ghost use Rattle.shelf.specs.declared.outside.Kind.TheVariants.{Writing};
ghost use Rattle.common.specs.Causes.{Rose};
ghost use Rattle.shelf.specs.Shelf.{SameContents, SameOthers, NoneFell, StaysSure};
ghost use Rattle.yoda_app.specs.Spliced.{IsSpliced, text_of};
ghost use Rattle.yoda_app.specs.Written.{longer, AddsPart, Sends, written, HoldsPart};

use crate::spliced::Spliced;
use shelf::{Failed, Shelf};

/// So many bytes of a text with parts in two places are gathered before they are written.
pub const BUFFER_BYTES: usize = 1 << 18;

// Adds at least one of the bytes from place `done` on, and answers up to where they are added.
fn append_more<H: Shelf>(
    shelf: &mut H,
    name: &str,
    bytes: &[u8],
    done: usize,
) -> Result<usize, Failed>
    requires { done < length bytes.now }
    ensures goes_on { IfOk result (λ now. (done < now) × (now ≤ length bytes.now)) }
    ensures added { IfOk result (λ now. (first : Option (List ℕ)) → H.content shelf.old name.now ≡ longer first (take done bytes.now)
        → H.content shelf.new name.now ≡ longer first (take now bytes.now)) }
    ensures failed { OnErr result (SameContents (H.content shelf.old) (H.content shelf.new)) }
    ensures others { SameOthers name.now (H.content shelf.old) (H.content shelf.new) }
    ensures cause { OnErr result (Rose (H.faults shelf.old Writing name.now) (H.faults shelf.new Writing name.now)) }
    ensures counts { NoneFell (H.faults shelf.old) (H.faults shelf.new) }
    ensures stays { StaysSure (H.sure shelf.old) (H.sure shelf.new) }
{
    let rest = &bytes[done..];
    let count = shelf.append(name, rest)?;
    Ok(done + count)
}

/// Adds all these bytes to what the name holds. After `Failed` a beginning of them was added.
pub fn append_all<H: Shelf>(shelf: &mut H, name: &str, bytes: &[u8]) -> Result<(), Failed>
    ensures all { OnOk result (H.content shelf.new name.now ≡ longer (H.content shelf.old name.now) bytes.now) }
    ensures part { AddsPart (H.content shelf.old name.now) (H.content shelf.new name.now) bytes.now }
    ensures others { SameOthers name.now (H.content shelf.old) (H.content shelf.new) }
    ensures cause { OnErr result (Rose (H.faults shelf.old Writing name.now) (H.faults shelf.new Writing name.now)) }
    ensures counts { NoneFell (H.faults shelf.old) (H.faults shelf.new) }
    ensures stays { StaysSure (H.sure shelf.old) (H.sure shelf.new) }
{
    let mut done = 0;
    while done < bytes.len() {
        done = append_more(shelf, name, bytes, done)?;
    }
    Ok(())
}

/// Makes these bytes what the name holds. After `Failed` it holds what it held, or a beginning of them.
pub fn write_whole<H: Shelf>(shelf: &mut H, name: &str, bytes: &[u8]) -> Result<(), Failed>
    ensures all { OnOk result (H.content shelf.new name.now ≡ written name.now (H.content shelf.old name.now) bytes.now) }
    ensures part { OnErr result (HoldsPart name.now (H.content shelf.old name.now) (H.content shelf.new name.now) bytes.now) }
    ensures others { SameOthers name.now (H.content shelf.old) (H.content shelf.new) }
    ensures cause { OnErr result (Rose (H.faults shelf.old Writing name.now) (H.faults shelf.new Writing name.now)) }
    ensures counts { NoneFell (H.faults shelf.old) (H.faults shelf.new) }
    ensures stays { StaysSure (H.sure shelf.old) (H.sure shelf.new) }
{
    shelf.start(name)?;
    append_all(shelf, name, bytes)
}

// Adds what the buffer holds to what the name holds, and empties it.
fn flush<H: Shelf>(shelf: &mut H, name: &str, buffer: &mut Vec<u8>) -> Result<(), Failed>
    ensures all { OnOk result (H.content shelf.new name.now ≡ longer (H.content shelf.old name.now) buffer.old.items) }
    ensures empty { OnOk result (buffer.new.items ≡ []) }
    ensures part { OnErr result (AddsPart (H.content shelf.old name.now) (H.content shelf.new name.now) buffer.old.items) }
    ensures others { SameOthers name.now (H.content shelf.old) (H.content shelf.new) }
    ensures cause { OnErr result (Rose (H.faults shelf.old Writing name.now) (H.faults shelf.new Writing name.now)) }
    ensures counts { NoneFell (H.faults shelf.old) (H.faults shelf.new) }
    ensures stays { StaysSure (H.sure shelf.old) (H.sure shelf.new) }
{
    append_all(shelf, name, buffer)?;
    buffer.clear();
    Ok(())
}

// Adds these bytes to what the name holds, behind what the buffer holds.
fn append_behind<H: Shelf>(
    shelf: &mut H,
    name: &str,
    buffer: &mut Vec<u8>,
    bytes: &[u8],
) -> Result<(), Failed>
    ensures all { OnOk result (H.content shelf.new name.now ≡ longer (longer (H.content shelf.old name.now) buffer.old.items) bytes.now) }
    ensures empty { OnOk result (buffer.new.items ≡ []) }
    ensures part { OnErr result (AddsPart (H.content shelf.old name.now) (H.content shelf.new name.now) (buffer.old.items ++ bytes.now)) }
    ensures others { SameOthers name.now (H.content shelf.old) (H.content shelf.new) }
    ensures cause { OnErr result (Rose (H.faults shelf.old Writing name.now) (H.faults shelf.new Writing name.now)) }
    ensures counts { NoneFell (H.faults shelf.old) (H.faults shelf.new) }
    ensures stays { StaysSure (H.sure shelf.old) (H.sure shelf.new) }
{
    flush(shelf, name, buffer)?;
    append_all(shelf, name, bytes)?;
    Ok(())
}

// Whether the bytes were put into the buffer. They are not where it would hold too many, or memory is refused.
fn gather(buffer: &mut Vec<u8>, bytes: &[u8]) -> bool
    ensures { buffer.new.items ≡ (if result then buffer.old.items ++ bytes.now else buffer.old.items) }
{
    buffer.len() + bytes.len() <= BUFFER_BYTES && buffer.extend_from_slice(bytes).is_ok()
}

// Puts these bytes into the buffer, or adds them to what the name holds, behind what the buffer holds.
fn send<H: Shelf>(
    shelf: &mut H,
    name: &str,
    buffer: &mut Vec<u8>,
    bytes: &[u8],
) -> Result<(), Failed>
    ensures sent { OnOk result ((first : Option (List ℕ)) (left text : List ℕ) → Sends first (H.content shelf.old name.now) buffer.old.items (bytes.now ++ left) text
        → Sends first (H.content shelf.new name.now) buffer.new.items left text) }
    ensures part { OnErr result ((first : Option (List ℕ)) (left text : List ℕ) → Sends first (H.content shelf.old name.now) buffer.old.items (bytes.now ++ left) text
        → AddsPart first (H.content shelf.new name.now) text) }
    ensures others { SameOthers name.now (H.content shelf.old) (H.content shelf.new) }
    ensures cause { OnErr result (Rose (H.faults shelf.old Writing name.now) (H.faults shelf.new Writing name.now)) }
    ensures counts { NoneFell (H.faults shelf.old) (H.faults shelf.new) }
    ensures stays { StaysSure (H.sure shelf.old) (H.sure shelf.new) }
{
    if gather(buffer, bytes) {
        return Ok(());
    }
    append_behind(shelf, name, buffer, bytes)?;
    Ok(())
}

// Sends the own bytes of a text between these places, and then a slice of the trace.
fn send_splice<H: Shelf>(
    shelf: &mut H,
    name: &str,
    buffer: &mut Vec<u8>,
    own: &[u8],
    slice: &[u8],
) -> Result<(), Failed>
    ensures sent { OnOk result ((first : Option (List ℕ)) (left text : List ℕ) → Sends first (H.content shelf.old name.now) buffer.old.items (own.now ++ (slice.now ++ left)) text
        → Sends first (H.content shelf.new name.now) buffer.new.items left text) }
    ensures part { OnErr result ((first : Option (List ℕ)) (left text : List ℕ) → Sends first (H.content shelf.old name.now) buffer.old.items (own.now ++ (slice.now ++ left)) text
        → AddsPart first (H.content shelf.new name.now) text) }
    ensures others { SameOthers name.now (H.content shelf.old) (H.content shelf.new) }
    ensures cause { OnErr result (Rose (H.faults shelf.old Writing name.now) (H.faults shelf.new Writing name.now)) }
    ensures counts { NoneFell (H.faults shelf.old) (H.faults shelf.new) }
    ensures stays { StaysSure (H.sure shelf.old) (H.sure shelf.new) }
{
    send(shelf, name, buffer, own)?;
    send(shelf, name, buffer, slice)?;
    Ok(())
}

// Sends the splices of a text with the own bytes before each, and answers how many own bytes were sent.
fn send_splices<H: Shelf>(
    shelf: &mut H,
    name: &str,
    buffer: &mut Vec<u8>,
    trace: &[u8],
    text: &Spliced,
) -> Result<usize, Failed>
    requires spliced { IsSpliced trace.now text.now }
    requires empty { buffer.old.items ≡ [] }
    ensures within { IfOk result (λ from. from ≤ length text.now.own.items) }
    ensures sent { IfOk result (λ from. Sends (H.content shelf.old name.now) (H.content shelf.new name.now) buffer.new.items (drop from text.now.own.items) (text_of trace.now text.now)) }
    ensures part { OnErr result (AddsPart (H.content shelf.old name.now) (H.content shelf.new name.now) (text_of trace.now text.now)) }
    ensures others { SameOthers name.now (H.content shelf.old) (H.content shelf.new) }
    ensures cause { OnErr result (Rose (H.faults shelf.old Writing name.now) (H.faults shelf.new Writing name.now)) }
    ensures counts { NoneFell (H.faults shelf.old) (H.faults shelf.new) }
    ensures stays { StaysSure (H.sure shelf.old) (H.sure shelf.new) }
{
    let own = text.own.as_slice();
    let mut rest = text.splices.as_slice();
    let mut from = 0;
    while let [splice, after @ ..] = rest {
        let before = &own[from..splice.behind];
        let slice = &trace[splice.start..splice.end];
        send_splice(shelf, name, buffer, before, slice)?;
        from = splice.behind;
        rest = after;
    }
    Ok(from)
}

/// Adds a text, of which parts stand in the trace, to what the name holds, by way of the buffer, which is then empty again. After
/// `Failed` a beginning of it was added.
pub fn append_spliced<H: Shelf>(
    shelf: &mut H,
    name: &str,
    trace: &[u8],
    text: &Spliced,
    buffer: &mut Vec<u8>,
) -> Result<(), Failed>
    requires spliced { IsSpliced trace.now text.now }
    requires empty { buffer.old.items ≡ [] }
    ensures all { OnOk result (H.content shelf.new name.now ≡ longer (H.content shelf.old name.now) (text_of trace.now text.now)) }
    ensures emptied { OnOk result (buffer.new.items ≡ []) }
    ensures part { OnErr result (AddsPart (H.content shelf.old name.now) (H.content shelf.new name.now) (text_of trace.now text.now)) }
    ensures others { SameOthers name.now (H.content shelf.old) (H.content shelf.new) }
    ensures cause { OnErr result (Rose (H.faults shelf.old Writing name.now) (H.faults shelf.new Writing name.now)) }
    ensures counts { NoneFell (H.faults shelf.old) (H.faults shelf.new) }
    ensures stays { StaysSure (H.sure shelf.old) (H.sure shelf.new) }
{
    let from = send_splices(shelf, name, buffer, trace, text)?;
    append_behind(shelf, name, buffer, &text.own[from..])?;
    Ok(())
}

/// Makes a text, of which parts stand in the trace, what the name holds. After `Failed` it holds what it held, or a beginning
/// of the text. The text is gathered in the buffer before it is written. It takes no memory.
pub fn write_spliced<H: Shelf>(
    shelf: &mut H,
    name: &str,
    trace: &[u8],
    text: &Spliced,
    buffer: &mut Vec<u8>,
) -> Result<(), Failed>
    requires spliced { IsSpliced trace.now text.now }
    requires empty { buffer.old.items ≡ [] }
    ensures all { OnOk result (H.content shelf.new name.now ≡ written name.now (H.content shelf.old name.now) (text_of trace.now text.now)) }
    ensures part { OnErr result (HoldsPart name.now (H.content shelf.old name.now) (H.content shelf.new name.now) (text_of trace.now text.now)) }
    ensures others { SameOthers name.now (H.content shelf.old) (H.content shelf.new) }
    ensures cause { OnErr result (Rose (H.faults shelf.old Writing name.now) (H.faults shelf.new Writing name.now)) }
    ensures counts { NoneFell (H.faults shelf.old) (H.faults shelf.new) }
    ensures stays { StaysSure (H.sure shelf.old) (H.sure shelf.new) }
{
    shelf.start(name)?;
    append_spliced(shelf, name, trace, text, buffer)
}
