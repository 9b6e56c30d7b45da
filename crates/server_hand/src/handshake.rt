ghost use Rattle.std.specs.Prelude.{◌≡◌, ◌<◌, ◌≤◌, ◌*◌, length, IfOk, IsTrue};
ghost use Rattle.tcp_segment.specs.Sending.{outs_of};
ghost use Rattle.flow_record.specs.Records.{is_open, is_syn, open_server};
ghost use Rattle.server_hand.specs.Opening.{opening_ack, opening_segments, piece_count, piece_segment, piece_size, server_syn_segment};

use flow_record::Record;
use rule_table::{Server, Setup};
use seq_space::{Num, number};
use std::alloc::{AllocError, Global};
use tcp_segment::{ACK, Bytes, Head, Options, Outs, PSH, SYN, Segment};
use window_scale::{restate, shifts};

/// The largest piece of data that is sent to a server, and the maximum segment size that it is offered at most.
const LARGEST_PIECE: u16 = 1460;

/// The piece that every server takes, however small a maximum segment size it gives.
const SMALLEST_PIECE: u16 = 64;

/// The size of the pieces for a server that gives no maximum segment size (RFC 9293, 3.7.1).
const DEFAULT_PIECE: u16 = 536;

/// How many pieces are sent at once. What is left comes again from the client.
const MOST_PIECES: usize = 10;

/// The SYN that opens the connection to a server: the client's own, with its number, window and scale, its leave for
/// selective acknowledgments and at most its maximum segment size, sent from this port of the service's address. It takes no memory.
#[tactic(auto, unfolding(crate::specs::Opening::server_syn_segment))]
pub fn server_syn(alloc: Global, setup: &Setup, syn: &Record, server: u16, port: u16) -> Segment
    requires syn { IsTrue (is_syn syn.now) }
    requires known { server < length setup.now.servers }
    ensures { result ≡ server_syn_segment setup.now syn.now server port }
{
    let Record::Syn {
        number,
        mss,
        window,
        scale,
        sack,
    } = *syn
    else {
        unreachable!()
    };
    let Some(server) = setup.server(server) else {
        unreachable!()
    };
    Segment {
        source: setup.service().address,
        target: server.address,
        head: Head {
            source_port: port,
            target_port: server.port,
            seq: number,
            ack: Num(0),
            flags: SYN,
            window,
            urgent: 0,
            options: Options {
                mss: Some(mss.min(LARGEST_PIECE)),
                scale,
                sack_permitted: sack,
                ..Options::none()
            },
        },
        body: Bytes::new(Vec::new(alloc)),
    }
}

/// What a server's SYN-ACK is answered with: its acknowledgment, and then what is held of the client's stream, in pieces
/// of the size that the server takes by the maximum segment size that it gave. There are ten pieces at most, and the
/// last has the flag PSH. The window is that of the client's SYN, as the server reads it. The one error is want of memory.
#[tactic(auto, unfolding(crate::specs::Opening::opening_segments))]
pub fn opening(
    alloc: Global,
    setup: &Setup,
    syn: &Record,
    opened: &Record,
    mss: Option<u16>,
    held: &[u8],
) -> Result<Outs, AllocError>
    requires syn { IsTrue (is_syn syn.now) }
    requires opened { IsTrue (is_open opened.now) }
    requires known { open_server opened.now < length setup.now.servers }
    ensures { IfOk result (λ outs. outs ≡ outs_of (opening_segments setup.now syn.now opened.now mss held.now)) }
{
    let size = size_of_pieces(mss);
    let count = held.len().div_ceil(size).min(MOST_PIECES);
    let mut items = Vec::with_capacity(alloc, 1 + count)?;
    items.push(acknowledgment(alloc, setup, syn, opened))?;
    for i in 0..count {
        let piece = piece_of(alloc, &items[0], held, size, count, i)?;
        items.push(piece)?;
    }
    Ok(Outs::full(items))
}

/// How many bytes a piece has, 64 to 1460.
fn size_of_pieces(mss: Option<u16>) -> usize
    ensures size { result ≡ piece_size mss }
    ensures some { 0 < result }
{
    match mss {
        None => DEFAULT_PIECE as usize,
        Some(mss) => mss.clamp(SMALLEST_PIECE, LARGEST_PIECE) as usize,
    }
}

/// The acknowledgment of the server's SYN.
#[tactic(auto, unfolding(crate::specs::Opening::opening_ack))]
fn acknowledgment(alloc: Global, setup: &Setup, syn: &Record, opened: &Record) -> Segment
    requires syn { IsTrue (is_syn syn.now) }
    requires opened { IsTrue (is_open opened.now) }
    requires known { open_server opened.now < length setup.now.servers }
    ensures { result ≡ opening_ack setup.now syn.now opened.now }
{
    let Record::Syn {
        number: first,
        window,
        scale,
        ..
    } = *syn
    else {
        unreachable!()
    };
    let Record::Open {
        server,
        port,
        number: server_first,
        scale: server_scale,
        ..
    } = *opened
    else {
        unreachable!()
    };
    let Some(server) = setup.server(server) else {
        unreachable!()
    };
    Segment {
        source: setup.service().address,
        target: server.address,
        head: Head {
            source_port: port,
            target_port: server.port,
            seq: number(first, 1),
            ack: number(server_first, 1),
            flags: ACK,
            window: restate(window, 0, shifts(scale, server_scale).server_reads),
            urgent: 0,
            options: Options::none(),
        },
        body: Bytes::new(Vec::new(alloc)),
    }
}

/// Piece `i` of the `count` that are sent of what is held, behind that acknowledgment.
#[tactic(auto, unfolding(crate::specs::Opening::piece_segment))]
fn piece_of(
    alloc: Global,
    acknowledgment: &Segment,
    held: &[u8],
    size: usize,
    count: usize,
    i: usize,
) -> Result<Segment, AllocError>
    requires sent { i < count }
    requires within { i * size < length held.now }
    ensures { IfOk result (λ s. s ≡ piece_segment acknowledgment.now size held.now count i) }
{
    let rest = &held[i * size..];
    let body = &rest[..size.min(rest.len())];
    let flags = if i + 1 == count { ACK | PSH } else { ACK };
    Ok(Segment {
        source: acknowledgment.source,
        target: acknowledgment.target,
        head: Head {
            seq: number(acknowledgment.head.seq, (i * size) as u64),
            flags,
            ..acknowledgment.head
        },
        body: Bytes::new(Vec::from_slice(alloc, body)?),
    })
}
