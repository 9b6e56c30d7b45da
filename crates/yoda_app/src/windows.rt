// The dump of a trace that is read by a window: a line for each of its frames.
ghost use Rattle.std.specs.Prelude.{◌≡◌, ◌≤◌, ◌+◌, List, ℕ, [], ◌∷◌, None, Some, false, min, length, IfOk, IfErr, OnOk, IsErrOf};
ghost use Rattle.std.specs.String.{string_bytes};
ghost use Rattle.common.specs.Causes.{Rose};
ghost use Rattle.pcap_file.specs.Capture.{settings_of};
ghost use Rattle.plain_run.specs.Found.{IsFault};
ghost use Rattle.plain_run.specs.Judgement.{trace_refusal};
ghost use Rattle.plain_run.specs.Loading.{IsTraceFault};
ghost use Rattle.shelf.specs.Changes.{change, held, AreTold};
ghost use Rattle.shelf.specs.Shelf.{SameContents, NoneFell, StaysSure};
ghost use Rattle.shelf.specs.declared.outside.Kind.TheVariants.{Reading};
ghost use Rattle.yoda_app.specs.Dumps.{dump_text};
ghost use Rattle.yoda_app.specs.Walks.{IsUpTo, EndsAt, IsTurn, Gives, IsDumped, Holds};
ghost use Rattle.yoda_app.specs.Windows.{IsWindow, TellsLast, placed, is_cut};

use crate::dump_line::add_line;
use crate::filling::{HEADER_BYTES, Unread, WINDOW_BYTES, fill, read_rest, refill};
use bench::input::{TRACE_BYTES, TRACE_RECORDS};
use pcap_file::{PcapFault, Reader};
use plain_run::{Limit, LoadFault};
use rule_text::Name;
use shelf::Shelf;
use std::alloc::{AllocError, Global};

/// Why a walk through a window ends.
#[derive(Clone, Copy, Debug, PartialEq, Eq)]
pub enum End {
    /// The trace has more records than it may.
    Full,
    /// The window ends behind a record.
    Whole,
    /// The next record is not whole.
    Stopped(PcapFault),
}

/// How far a walk went through a window.
#[derive(Clone, Copy, Debug, PartialEq, Eq)]
pub struct Walk {
    /// The number of the trace's frames up to here.
    pub frames: u32,
    /// The place in the window behind the last frame.
    pub place: usize,
    pub end: End,
}

/// What comes of a window.
#[derive(Drop)]
pub enum Turn {
    /// The next window begins at this place, behind so many of the trace's frames.
    Next { frames: u32, place: usize },
    /// The trace ends here.
    Accepted,
    Refused(LoadFault),
}

// Adds a line for each frame that the reader has left, of which the first has this number, up to the limit of records.
fn add_frames(
    text: &mut String,
    first: u32,
    mut reader: Reader,
    window: &[u8],
) -> Result<Walk, AllocError>
    requires small { length window.now ≤ WINDOW_BYTES }
    requires head { 24 ≤ length window.now }
    requires opened { reader ≡ record { settings = settings_of window.now; place = 24 } }
    requires few { first ≤ TRACE_RECORDS }
    ensures lines { IfOk result (λ walk. (trace : List ℕ) (by : ℕ) → IsWindow trace by window.now
        → IsUpTo trace (string_bytes text.old) first (24 + by) → IsUpTo trace (string_bytes text.new) walk.frames (walk.place + by)) }
    ensures end { IfOk result (λ walk. EndsAt window.now walk.frames walk.place walk.end) }
    ensures past { IfOk result (λ walk. 24 ≤ walk.place) }
    ensures inside { IfOk result (λ walk. walk.place ≤ length window.now) }
{
    let mut frames = first;
    let mut place = HEADER_BYTES;
    while frames <= TRACE_RECORDS {
        match reader.next(window) {
            Ok(Some(frame)) => {
                add_line(text, frames, window, &frame)?;
                frames += 1;
                place = frame.at + frame.kept as usize;
            }
            Ok(None) => {
                let end = End::Whole;
                return Ok(Walk { frames, place, end });
            }
            Err(fault) => {
                let end = End::Stopped(fault);
                return Ok(Walk { frames, place, end });
            }
        }
    }
    let end = End::Full;
    Ok(Walk { frames, place, end })
}

fn is_cut(fault: PcapFault) -> bool
    ensures { result ≡ is_cut fault }
{
    matches!(fault, PcapFault::RecordCut(_))
}

// The fault as one of the record that begins at this place.
fn placed(fault: PcapFault, place: u32) -> PcapFault
    ensures { result ≡ placed place fault }
{
    match fault {
        PcapFault::RecordCut(_) => PcapFault::RecordCut(place),
        PcapFault::TooLarge { kept, .. } => PcapFault::TooLarge { at: place, kept },
        other => other,
    }
}

// Adds a line for each frame of a window, whose first has this number, and judges how the trace goes on behind them.
fn add_window(
    text: &mut String,
    first: u32,
    window: &[u8],
    by: usize,
    is_last: bool,
) -> Result<Turn, AllocError>
    requires small { length window.now ≤ WINDOW_BYTES }
    requires near { by + length window.now ≤ TRACE_BYTES }
    requires full { is_last ≡ false → length window.now ≡ WINDOW_BYTES }
    requires few { first ≤ TRACE_RECORDS }
    ensures { IfOk result (Gives (λ trace. IsTurn trace by window.now is_last (string_bytes text.old) first) by window.now (string_bytes text.new)) }
{
    let reader = match Reader::open(window) {
        Ok(reader) => reader,
        Err(fault) => return Ok(Turn::Refused(LoadFault::Trace(fault))),
    };
    let walk = add_frames(text, first, reader, window)?;
    match walk.end {
        End::Full => {
            let limit = Limit::Records(TRACE_RECORDS + 1);
            return Ok(Turn::Refused(LoadFault::Limit(limit)));
        }
        End::Whole => {
            if is_last {
                return Ok(Turn::Accepted);
            }
        }
        End::Stopped(fault) => {
            if is_last || !is_cut(fault) {
                let fault = placed(fault, (walk.place + by) as u32);
                return Ok(Turn::Refused(LoadFault::Trace(fault)));
            }
        }
    }
    let (frames, place) = (walk.frames, walk.place);
    Ok(Turn::Next { frames, place })
}

// Whether a window with so many bytes, which has room for so many, is the last one.
fn is_last(filled: usize, room: usize, by: usize, size: usize) -> bool
    requires { by + filled ≤ size }
    ensures { TellsLast filled room by size result }
{
    filled < room || by + filled == size
}

// Goes over the trace by the window, adds a line for each of its frames, and answers why it is refused, if it is. Where it
// is refused before its end, the rest is read all the same: a fault of reading comes first.
fn add_windows<H: Shelf>(
    shelf: &mut H,
    name: &str,
    size: usize,
    window: &mut [u8],
    text: &mut String,
) -> Result<Option<LoadFault>, Unread>
    requires sized { length window.old ≡ min size WINDOW_BYTES }
    requires fits { size ≤ TRACE_BYTES }
    requires empty { string_bytes text.old ≡ [] }
    ensures dumped { IfOk result (IsDumped (λ c. Holds c (H.content shelf.old name.now) size) (string_bytes text.new)) }
    ensures same { SameContents (H.content shelf.old) (H.content shelf.new) }
    ensures cause { IsErrOf result Unread.Read → Rose (H.faults shelf.old Reading name.now) (H.faults shelf.new Reading name.now) }
    ensures known { H.sure shelf.old name.now → IsErrOf result Unread.Read → ⊥ }
    ensures counts { NoneFell (H.faults shelf.old) (H.faults shelf.new) }
    ensures stays { StaysSure (H.sure shelf.old) (H.sure shelf.new) }
{
    let mut filled = fill(shelf, name, 0, window)?;
    let mut by = 0;
    let mut frames = 0;
    loop {
        let is_last = is_last(filled, window.len(), by, size);
        match add_window(text, frames, &window[..filled], by, is_last)? {
            Turn::Next {
                frames: more,
                place,
            } => {
                frames = more;
                by += place - HEADER_BYTES;
                filled = refill(shelf, name, by, size, window)?;
            }
            Turn::Accepted => return Ok(None),
            Turn::Refused(fault) => {
                read_rest(shelf, name, by + filled, size, window)?;
                return Ok(Some(fault));
            }
        }
    }
}

// Adds the lines of what the name holds to the text, which is empty, and answers why it is refused, if it is.
#[tactic(auto, using(crate::proofs::Judged::dumped_then))]
fn dump_into<H: Shelf>(
    alloc: Global,
    shelf: &mut H,
    name: &str,
    text: &mut String,
) -> Result<Option<LoadFault>, Unread>
    requires { string_bytes text.old ≡ [] }
    ensures dumped { IfOk result (IsDumped (λ c. H.content shelf.old name.now ≡ Some c) (string_bytes text.new)) }
    ensures same { SameContents (H.content shelf.old) (H.content shelf.new) }
    ensures cause { IsErrOf result Unread.Read → Rose (H.faults shelf.old Reading name.now) (H.faults shelf.new Reading name.now) }
    ensures known { H.sure shelf.old name.now → IsErrOf result Unread.Read → ⊥ }
    ensures counts { NoneFell (H.faults shelf.old) (H.faults shelf.new) }
    ensures stays { StaysSure (H.sure shelf.old) (H.sure shelf.new) }
{
    let size = shelf.size(name)?;
    if size > TRACE_BYTES {
        return Ok(Some(LoadFault::Limit(Limit::Trace(size))));
    }
    let size = size as usize;
    let mut window = vec![in alloc; 0; size.min(WINDOW_BYTES)]?;
    add_windows(shelf, name, size, &mut window, text)
}

// Why the name could not be read, where there is memory to name it.
fn fault_of(alloc: Global, name: &str, why: Unread) -> LoadFault
    ensures { IsFault (λ n. (n ≡ name.now) × (why ≡ Unread.Read)) (Unit {0}) (λ refusal. ⊥) result }
{
    match why {
        Unread::Memory => LoadFault::Memory,
        Unread::Read => match String::from_str(alloc, name) {
            Ok(text) => LoadFault::Read(Name::new(text)),
            Err(_) => LoadFault::Memory,
        },
    }
}

/// The dump of the trace of this name: `Read` where a call fails, then `Limit` of its bytes or its records, then `Trace`.
/// `Memory` may come at any time. No content is changed.
pub fn dump_of<H: Shelf>(alloc: Global, shelf: &mut H, name: &str) -> Result<String, LoadFault>
    ensures accepted { OnOk result (AreTold (H.content shelf.old) (name.now ∷ [])
        → trace_refusal (held (H.content shelf.old) name.now) ≡ None) }
    ensures text { IfOk result (λ t. AreTold (H.content shelf.old) (name.now ∷ [])
        → string_bytes t ≡ dump_text (held (H.content shelf.old) name.now)) }
    ensures fault { IfErr result (IsTraceFault name.now (change H.content H.faults H.sure shelf.old shelf.new)) }
    ensures same { SameContents (H.content shelf.old) (H.content shelf.new) }
    ensures counts { NoneFell (H.faults shelf.old) (H.faults shelf.new) }
    ensures stays { StaysSure (H.sure shelf.old) (H.sure shelf.new) }
{
    let mut text = String::new(alloc);
    match dump_into(alloc, shelf, name, &mut text) {
        Ok(None) => Ok(text),
        Ok(Some(fault)) => Err(fault),
        Err(why) => Err(fault_of(alloc, name, why)),
    }
}
