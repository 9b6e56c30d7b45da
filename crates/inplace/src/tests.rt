ghost use Rattle.std.specs.Prelude.{◌≡◌, ◌≤◌, ◌+◌, ◌-◌, length, take, IfOk, IfSome};
ghost use Rattle.std.specs.Bool.{OnTrue};
ghost use Rattle.inplace.specs.Packets.{HoldsSegment};
ghost use Rattle.inplace.specs.Rewriting.{HasFitting};
ghost use Rattle.tcp_segment.specs.Written.{area_length};

use crate::{Change, rewrite, what_is_read_fits, write_front};
use seq_space::Num;
use std::alloc::{AllocError, Global};
use std::test::Fail;
use tcp_segment::{ACK, Bytes, Head, Options, PSH, RST, Segment};

/// An ACK of 192.0.2.7:40000 to 198.51.100.10:80, number 1001, ack 5101.
const ACK_ALONE: [u8; 40] = [
    0x45, 0, 0, 0x28, 0, 0, 0x40, 0, 0x40, 6, 0x4e, 0x8b, 0xc0, 0, 2, 7, 0xc6, 0x33, 0x64, 0x0a,
    0x9c, 0x40, 0, 0x50, 0, 0, 3, 0xe9, 0, 0, 0x13, 0xed, 0x50, 0x10, 0xfa, 0xf0, 0x14, 0x38, 0, 0,
];

/// The same with twelve bytes of padding for options.
const PADDED: [u8; 52] = [
    0x45, 0, 0, 0x34, 0, 0, 0x40, 0, 0x40, 6, 0x4e, 0x7f, 0xc0, 0, 2, 7, 0xc6, 0x33, 0x64, 0x0a,
    0x9c, 0x40, 0, 0x50, 0, 0, 3, 0xe9, 0, 0, 0x13, 0xed, 0x80, 0x10, 0xfa, 0xf0, 0xde, 0x25, 0, 0,
    1, 1, 1, 1, 1, 1, 1, 1, 1, 1, 1, 1,
];

/// What goes on to 10.0.0.1:8080 from the port 1027, with the ack 9101.
const ACK_ON: [u8; 40] = [
    0x45, 0, 0, 0x28, 0, 0, 0x40, 0, 0x40, 6, 6, 0x92, 0xc6, 0x33, 0x64, 0x0a, 0x0a, 0, 0, 1, 4, 3,
    0x1f, 0x90, 0, 0, 3, 0xe9, 0, 0, 0x23, 0x8d, 0x50, 0x10, 0xfa, 0xf0, 0x35, 0x9c, 0, 0,
];

/// The flags CWR, ECE, PSH and ACK, options in both headers, and the data "odd".
const FULL: [u8; 59] = [
    0x46, 0, 0, 0x3b, 0, 0, 0x40, 0, 0x40, 6, 0x4b, 0x76, 0xc0, 0, 2, 7, 0xc6, 0x33, 0x64, 0x0a, 1,
    1, 1, 1, 0x9c, 0x40, 0, 0x50, 0, 0, 3, 0xe9, 0, 0, 0x13, 0xed, 0x80, 0xd8, 0xfa, 0xf0, 9, 0xf6,
    0, 0, 1, 1, 1, 1, 1, 1, 1, 1, 1, 1, 1, 1, 0x6f, 0x64, 0x64,
];

/// What goes on of it.
const FULL_ON: [u8; 43] = [
    0x45, 0, 0, 0x2b, 0, 0, 0x40, 0, 0x40, 6, 6, 0x8f, 0xc6, 0x33, 0x64, 0x0a, 0x0a, 0, 0, 1, 4, 3,
    0x1f, 0x90, 0, 0, 3, 0xe9, 0, 0, 0x23, 0x8d, 0x50, 0x18, 0xfa, 0xf0, 0x62, 0x2c, 0, 0, 0x6f,
    0x64, 0x64,
];

/// A reset without ACK.
const RESET: [u8; 40] = [
    0x45, 0, 0, 0x28, 0, 0, 0x40, 0, 0x40, 6, 0x4e, 0x8b, 0xc0, 0, 2, 7, 0xc6, 0x33, 0x64, 0x0a,
    0x9c, 0x40, 0, 0x50, 0, 0, 3, 0xe9, 0, 0, 0x13, 0xed, 0x50, 4, 0xfa, 0xf0, 0x14, 0x44, 0, 0,
];

/// What goes on of it.
const RESET_ON: [u8; 40] = [
    0x45, 0, 0, 0x28, 0, 0, 0x40, 0, 0x40, 6, 6, 0x92, 0xc6, 0x33, 0x64, 0x0a, 0x0a, 0, 0, 1, 4, 3,
    0x1f, 0x90, 0, 0, 3, 0xe9, 0, 0, 0, 0, 0x50, 4, 0xfa, 0xf0, 0x59, 0x35, 0, 0,
];

/// A reset back to 192.0.2.7:40000.
const RESET_BACK: [u8; 40] = [
    0x45, 0, 0, 0x28, 0, 0, 0x40, 0, 0x40, 6, 0x4e, 0x8b, 0xc6, 0x33, 0x64, 0x0a, 0xc0, 0, 2, 7, 0,
    0x50, 0x9c, 0x40, 0, 0, 3, 9, 0, 0, 0, 0, 0x50, 4, 0, 0, 0x24, 2, 0, 0,
];

const CHANGE: Change = Change {
    source: 0xc633_640a,
    target: 0x0a00_0001,
    source_port: 1027,
    target_port: 8080,
    seq: Num(1001),
    ack: Num(9101),
    window: 64240,
};

/// How many bytes of headers a packet has that is a segment without SYN to its last byte.
#[tactic(auto, using(crate::proofs::Fronts::fronts))]
fn headers(bytes: &[u8]) -> Option<usize>
    ensures { IfSome result (λ n. (n ≤ length bytes.now) × HasFitting (take n bytes.now) (length bytes.now - n)) }
{
    let Ok(packet) = ipv4::read(bytes) else {
        return None;
    };
    let payload = &bytes[packet.start..packet.end];
    let Ok(view) = tcp_segment::read(packet.source, packet.target, payload) else {
        return None;
    };
    if packet.end != bytes.len() || view.head.has_syn() {
        return None;
    }
    what_is_read_fits();
    Some(packet.start + view.data_at)
}

/// The place of the packet that goes on, in the bytes of one that came.
fn pass_on(bytes: &mut [u8]) -> Option<usize>
    ensures { IfSome result (λ at. at ≤ length bytes.new) }
{
    let n = headers(bytes)?;
    let len = bytes.len() - n;
    Some(rewrite(&mut bytes[..n], len, &CHANGE))
}

#[test]
fn headers_are_rewritten_where_they_stand(rt: HostRuntime) -> Result<(), Fail> {
    let rows = [
        (ACK_ALONE.as_slice(), 0, ACK_ON.as_slice()),
        (PADDED.as_slice(), 12, ACK_ON.as_slice()),
        (FULL.as_slice(), 16, FULL_ON.as_slice()),
        (RESET.as_slice(), 0, RESET_ON.as_slice()),
    ];
    for (came, place, goes_on) in rows {
        let mut bytes = Vec::from_slice(rt.alloc(), came)?;
        let Some(at) = pass_on(&mut bytes) else {
            return Err("no packet that can be passed on".into());
        };
        assert_eq!(rt; at, place);
        assert_eq!(rt; &bytes[at..], goes_on);
    }
    Ok(())
}

fn holds_segment(packet: &[u8]) -> bool
    ensures { OnTrue result (HoldsSegment packet.now) }
{
    let Ok(found) = ipv4::read(packet) else {
        return false;
    };
    let payload = &packet[found.start..found.end];
    tcp_segment::read(found.source, found.target, payload).is_ok()
}

/// A segment with these flags and this data, and the fields of a change.
fn segment_of(alloc: Global, change: &Change, flags: u8, body: &[u8]) -> Result<Segment, AllocError>
    ensures { IfOk result (λ s. (area_length s.head.options ≡ 0) × (length s.body ≡ length body.now)) }
{
    Ok(Segment {
        source: change.source,
        target: change.target,
        head: Head {
            source_port: change.source_port,
            target_port: change.target_port,
            seq: change.seq,
            ack: change.ack,
            flags,
            window: change.window,
            urgent: 0,
            options: Options::none(),
        },
        body: Bytes::new(Vec::from_slice(alloc, body)?),
    })
}

#[test]
fn segments_are_written_from_packets(rt: HostRuntime) -> Result<(), Fail> {
    let back = Change {
        source: 0xc633_640a,
        target: 0xc000_0207,
        source_port: 80,
        target_port: 40000,
        seq: Num(777),
        ack: Num(0),
        window: 0,
    };
    // The last is no segment of its packet.
    let rows = [
        (
            ACK_ALONE.as_slice(),
            CHANGE,
            ACK,
            b"".as_slice(),
            ACK_ON.as_slice(),
        ),
        (
            FULL.as_slice(),
            CHANGE,
            ACK + PSH,
            b"odd".as_slice(),
            FULL_ON.as_slice(),
        ),
        (
            FULL.as_slice(),
            back,
            RST,
            b"".as_slice(),
            RESET_BACK.as_slice(),
        ),
    ];
    for (packet, change, flags, body, written) in rows {
        if !holds_segment(packet) || body.len() > 3 {
            return Err("no packet that holds a segment".into());
        }
        let segment = segment_of(rt.alloc(), &change, flags, body)?;
        assert_eq!(rt; Change::of(&segment), change);
        let mut out = Vec::new(rt.alloc());
        let place = write_front(packet, &segment, &mut out)?;
        out.extend_from_slice(&packet[place.start..place.end])?;
        assert_eq!(rt; out.as_slice(), written);
    }
    Ok(())
}
