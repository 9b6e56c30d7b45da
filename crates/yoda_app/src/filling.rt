// What a name holds, read part by part into rooms that are there.
ghost use Rattle.std.specs.Prelude.{◌≡◌, ◌≤◌, ◌+◌, List, ℕ, Some, length, take, IfOk, IsErrOf};
ghost use Rattle.common.specs.Causes.{Rose};
ghost use Rattle.shelf.specs.Shelf.{SameContents, NoneFell, StaysSure};
ghost use Rattle.shelf.specs.declared.outside.Kind.TheVariants.{Reading};
ghost use Rattle.yoda_app.specs.Windows.{IsFilled, IsRefilled};
ghost use Rattle.yoda_app.specs.declared.filling.Unread.TheVariants.{Memory, Read};

use bench::input::TRACE_BYTES;
use pcap_file::RECORD_LIMIT;
use shelf::{Failed, Shelf};
use std::alloc::AllocError;

/// The bytes of a capture's file header.
pub const HEADER_BYTES: usize = 24;

/// The bytes of a window: a file header, and the head and the bytes of the largest record.
pub const WINDOW_BYTES: usize = HEADER_BYTES + 16 + RECORD_LIMIT as usize;

/// Why a name was not read.
#[derive(Clone, Copy, Debug, PartialEq, Eq)]
pub enum Unread {
    Memory,
    Read,
}

impl From<AllocError> for Unread {
    ghost from_gives = { λ _ e. e ≡ Memory };

    fn from(_: AllocError) -> Self {
        Unread::Memory
    }
}

impl From<Failed> for Unread {
    ghost from_gives = { λ _ e. e ≡ Read };

    fn from(_: Failed) -> Self {
        Unread::Read
    }
}

/// Fills a room with what the name holds from a place on, and answers how many bytes that are: fewer only at the end.
pub fn fill<H: Shelf>(shelf: &mut H, name: &str, at: u64, room: &mut [u8]) -> Result<usize, Unread>
    requires near { at ≤ TRACE_BYTES }
    requires small { length room.old ≤ WINDOW_BYTES }
    ensures room { length room.new ≡ length room.old }
    ensures within { IfOk result (λ n. n ≤ length room.old) }
    ensures bytes { IfOk result (λ n. (c : List ℕ) → H.content shelf.old name.now ≡ Some c → IsFilled c at room.new n) }
    ensures same { SameContents (H.content shelf.old) (H.content shelf.new) }
    ensures cause { IsErrOf result Unread.Read → Rose (H.faults shelf.old Reading name.now) (H.faults shelf.new Reading name.now) }
    ensures known { H.sure shelf.old name.now → IsErrOf result Unread.Read → ⊥ }
    ensures counts { NoneFell (H.faults shelf.old) (H.faults shelf.new) }
    ensures stays { StaysSure (H.sure shelf.old) (H.sure shelf.new) }
{
    let mut filled = 0;
    while filled < room.len() {
        let count = shelf.read(name, at + filled as u64, &mut room[filled..])?;
        if count == 0 {
            break;
        }
        filled += count;
    }
    Ok(filled)
}

/// Fills the window behind its file header with what the name holds from a place on, up to its size, and answers how many
/// bytes the window has now.
pub fn refill<H: Shelf>(
    shelf: &mut H,
    name: &str,
    by: usize,
    size: usize,
    window: &mut [u8],
) -> Result<usize, Unread>
    requires header { HEADER_BYTES ≤ length window.old }
    requires small { length window.old ≤ WINDOW_BYTES }
    requires inside { HEADER_BYTES + by ≤ size }
    requires fits { size ≤ TRACE_BYTES }
    ensures room { length window.new ≡ length window.old }
    ensures head { take HEADER_BYTES window.new ≡ take HEADER_BYTES window.old }
    ensures begins { IfOk result (λ n. HEADER_BYTES ≤ n) }
    ensures within { IfOk result (λ n. n ≤ length window.old) }
    ensures inside { IfOk result (λ n. by + n ≤ size) }
    ensures bytes { IfOk result (λ n. (c : List ℕ) → H.content shelf.old name.now ≡ Some c → size ≡ length c → IsRefilled c by window.new n) }
    ensures same { SameContents (H.content shelf.old) (H.content shelf.new) }
    ensures cause { IsErrOf result Unread.Read → Rose (H.faults shelf.old Reading name.now) (H.faults shelf.new Reading name.now) }
    ensures known { H.sure shelf.old name.now → IsErrOf result Unread.Read → ⊥ }
    ensures counts { NoneFell (H.faults shelf.old) (H.faults shelf.new) }
    ensures stays { StaysSure (H.sure shelf.old) (H.sure shelf.new) }
{
    let room = window.len().min(size - by);
    let at = (HEADER_BYTES + by) as u64;
    let filled = fill(shelf, name, at, &mut window[HEADER_BYTES..room])?;
    Ok(HEADER_BYTES + filled)
}

/// Reads what the name holds from a place on, up to its size, by way of the room.
pub fn read_rest<H: Shelf>(
    shelf: &mut H,
    name: &str,
    from: usize,
    size: usize,
    room: &mut [u8],
) -> Result<(), Unread>
    requires small { length room.old ≤ WINDOW_BYTES }
    requires fits { size ≤ TRACE_BYTES }
    ensures same { SameContents (H.content shelf.old) (H.content shelf.new) }
    ensures cause { IsErrOf result Unread.Read → Rose (H.faults shelf.old Reading name.now) (H.faults shelf.new Reading name.now) }
    ensures known { H.sure shelf.old name.now → IsErrOf result Unread.Read → ⊥ }
    ensures counts { NoneFell (H.faults shelf.old) (H.faults shelf.new) }
    ensures stays { StaysSure (H.sure shelf.old) (H.sure shelf.new) }
{
    let mut at = from;
    while at < size {
        let length = room.len().min(size - at);
        let count = fill(shelf, name, at as u64, &mut room[..length])?;
        if count == 0 {
            break;
        }
        at += count;
    }
    Ok(())
}
