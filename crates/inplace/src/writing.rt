// A segment is written from the packet that it was made of.
ghost use Rattle.std.specs.Prelude.{◌≡◌, ◌≤◌, ℕ, List, length, slice_range, IsTrue, IfOk, OnOk, OnErr};
ghost use Rattle.ipv4.specs.Packet.{IsPacket};
ghost use Rattle.ipv4.specs.declared.packet.Packet.{Packet};
ghost use Rattle.tcp_segment.specs.OptionArea.{no_options};
ghost use Rattle.tcp_segment.specs.Segments.{IsView};
ghost use Rattle.tcp_segment.specs.Written.{FitsPacket};
ghost use Rattle.tcp_segment.specs.declared.segment.View.{View};
ghost use Rattle.inplace.specs.Packets.{HoldsSegment, AreFront, AreParts, IsChanged, IsPlaceOf};
ghost use Rattle.inplace.specs.Rewriting.{HasFitting, IsFitting, changed};

use crate::change::Change;
use crate::rewriting::rewrite;
use common::u16_at;
use seq_space::Num;
use std::alloc::AllocError;
use tcp_segment::{ACK, Options, SYN, Segment, write};

// The most bytes of two headers, each of fifteen words of four bytes.
const HEADS_LIMIT: usize = 120;

/// Where bytes stand in others: from the place `start` up to the place `end`.
#[derive(Clone, Copy, Debug, PartialEq, Eq)]
pub struct Place {
    pub start: usize,
    pub end: usize,
}

// The parts of a packet that holds a segment.
#[derive(Clone, Copy)]
struct Parts<'a> {
    // The headers of the packet and of the segment.
    heads: &'a [u8],
    segment: &'a [u8],
    // The segment's data.
    body: &'a [u8],
    // Where that stands.
    place: Place,
}

fn parts_of(packet: &[u8]) -> Parts<'_>
    requires { HoldsSegment packet.now }
    ensures parts { (p : Packet) (v : View) → IsPacket packet.now p → IsView p.source p.target (slice_range packet.now p.start p.end) v → AreParts packet.now p v result }
    ensures few { length result.heads.now ≤ HEADS_LIMIT }
    ensures long { 20 ≤ length result.segment.now }
    ensures place { IsPlaceOf packet.now result.place result.body.now }
{
    let start = 4 * (packet[0] % 16) as usize;
    let end = u16_at(packet, 2) as usize;
    let segment = &packet[start..end];
    let data_at = start + 4 * (segment[12] / 16) as usize;
    Parts {
        heads: &packet[..data_at],
        segment,
        body: &packet[data_at..end],
        place: Place {
            start: data_at,
            end,
        },
    }
}

// Whether these are no options.
fn are_none(options: &Options) -> bool
    ensures { IsTrue result → options.now ≡ no_options }
{
    *options == Options::none()
}

// Whether the segment is the one in these bytes with this data, but for the fields of a change, and for what rewritten
// headers have anew.
fn is_changed(bytes: &[u8], body: &[u8], segment: &Segment) -> bool
    requires { 20 ≤ length bytes.now }
    ensures { IsTrue result → IsChanged bytes.now body.now segment.now }
{
    let flags = bytes[13];
    flags / SYN % 2 == 0
        && are_none(&segment.head.options)
        && segment.head.flags == flags % 0x40
        && segment.head.urgent == u16_at(bytes, 18)
        && (flags / ACK % 2 == 1 || segment.head.ack == Num(0))
        && segment.body.as_slice() == body
}

// Writes the headers, as the change makes them, at the end of `out`. The one error is want of memory, and then `out` is as
// it was.
fn write_headers(
    heads: &[u8],
    data_len: usize,
    change: &Change,
    out: &mut Vec<u8>,
) -> Result<(), AllocError>
    requires fits { HasFitting heads.now data_len }
    requires few { length heads.now ≤ HEADS_LIMIT }
    ensures ok { OnOk result ((body : List ℕ) (p : Packet) (v : View) → IsFitting heads.now data_len body p v → AreFront out.old.items out.new.items body (changed change.now v body)) }
    ensures err { OnErr result (out.new.items ≡ out.old.items) }
{
    let mut room = [0; HEADS_LIMIT];
    let copy = &mut room[..heads.len()];
    copy.copy_from_slice(heads);
    let at = rewrite(copy, data_len, change);
    out.extend_from_slice(&copy[at..])?;
    Ok(())
}

/// Writes the front of the segment at the end of `out` and answers the place in the packet of what is still to come: both
/// together are exactly what [`tcp_segment::write`] writes. Where the segment is the packet's own but for the fields of a
/// [`Change`], and has no options, the front is the packet's headers, which are rewritten, and its data is still to come;
/// every other segment is written whole as a new one, whatever the packet is. The one error is want of memory, and then
/// `out` is as it was.
pub fn write_front(packet: &[u8], segment: &Segment, out: &mut Vec<u8>) -> Result<Place, AllocError>
    // The packet is one that is read, and so is its segment.
    requires packet { HoldsSegment packet.now }
    requires fits { FitsPacket segment.now.head (length segment.now.body) }
    ensures ok { IfOk result (λ place. AreFront out.old.items out.new.items (slice_range packet.now place.start place.end) segment.now) }
    ensures ordered { IfOk result (λ place. place.start ≤ place.end) }
    ensures inside { IfOk result (λ place. place.end ≤ length packet.now) }
    ensures err { OnErr result (out.new.items ≡ out.old.items) }
{
    let parts = parts_of(packet);
    if is_changed(parts.segment, parts.body, segment) {
        write_headers(parts.heads, parts.body.len(), &Change::of(segment), out)?;
        Ok(parts.place)
    } else {
        write(segment, out)?;
        Ok(Place { start: 0, end: 0 })
    }
}
