// Headers are rewritten where they stand.
ghost use Rattle.std.specs.Prelude.{◌≡◌, ◌≤◌, ◌+◌, ◌-◌, ◌++◌, ℕ, List, length, drop};
ghost use Rattle.ipv4.specs.declared.packet.Packet.{Packet};
ghost use Rattle.tcp_segment.specs.Written.{head_with, packet_bytes};
ghost use Rattle.tcp_segment.specs.declared.segment.View.{View};
ghost use Rattle.inplace.specs.Headers.{AreHeaders, behind_packet, head_after, headers_after};
ghost use Rattle.inplace.specs.Rewriting.{HasFitting, IsFitting, ReadFits, changed};

use crate::change::Change;
use crate::sums::{carried, new_sum, old_sum};
use common::u16_at;
use ipv4::packet_header;
use seq_space::Num;
use tcp_segment::{ACK, Head, Options};

// The bytes of a header without options.
#[tactic(auto, unfolding(tcp_segment::specs::Written::head_with))]
fn head_bytes(h: &Head, sum: u16) -> [u8; 20]
    ensures { result ≡ head_with h.now 5 sum }
{
    let mut bytes = [0; 20];
    bytes[..2].copy_from_slice(&h.source_port.to_be_bytes());
    bytes[2..4].copy_from_slice(&h.target_port.to_be_bytes());
    bytes[4..8].copy_from_slice(&h.seq.0.to_be_bytes());
    bytes[8..12].copy_from_slice(&h.ack.0.to_be_bytes());
    bytes[12] = 0x50;
    bytes[13] = h.flags;
    bytes[14..16].copy_from_slice(&h.window.to_be_bytes());
    bytes[16..18].copy_from_slice(&sum.to_be_bytes());
    bytes[18..].copy_from_slice(&h.urgent.to_be_bytes());
    bytes
}

// The fields of the new header, where the old one begins with `tcp`.
fn new_head(change: &Change, tcp: &[u8]) -> Head
    requires { 20 ≤ length tcp.now }
    ensures { (head : List ℕ) → tcp.now ≡ behind_packet head → result ≡ head_after change.now head }
{
    let flags = tcp[13];
    Head {
        source_port: change.source_port,
        target_port: change.target_port,
        seq: change.seq,
        ack: if flags / ACK % 2 == 1 {
            change.ack
        } else {
            Num(0)
        },
        // CWR and ECE are above.
        flags: flags % 0x40,
        window: change.window,
        urgent: u16_at(tcp, 18),
        options: Options::none(),
    }
}

// The header of the packet and that of the segment, as they come.
fn new_headers(head: &[u8], data_len: usize, change: &Change) -> ([u8; 20], [u8; 20])
    requires { AreHeaders head.now data_len }
    ensures { result.0 ++ result.1 ≡ headers_after change.now head.now data_len }
{
    let tcp = &head[4 * (head[0] % 16) as usize..];
    let fields = new_head(change, tcp);
    let old = old_sum(head, tcp, data_len);
    let sum = carried(old, new_sum(change, &fields, data_len));
    (
        packet_header(change.source, change.target, (40 + data_len) as u16),
        head_bytes(&fields, sum),
    )
}

// Puts the headers behind one another at the end of `head`.
fn put(head: &mut [u8], packet: &[u8; 20], segment: &[u8; 20])
    requires { 40 ≤ length head.old }
    ensures size { length head.new ≡ length head.old }
    ensures put { drop (length head.old - 40) head.new ≡ packet.now ++ segment.now }
{
    let at = head.len() - 40;
    head[at..at + 20].copy_from_slice(packet);
    head[at + 20..].copy_from_slice(segment);
}

/// Rewrites headers where they stand: an IPv4 header and a TCP header with their options, behind which `data_len` bytes of
/// data stand that it is not given. It answers the place in `head` at which the new headers begin, which have no options;
/// what stands before it is of no use any more. It takes no memory.
pub fn rewrite(head: &mut [u8], data_len: usize, change: &Change) -> usize
    requires { HasFitting head.old data_len }
    // The new headers have 40 bytes, and end where the old ones ended.
    ensures at { result + 40 ≡ length head.old }
    ensures size { length head.new ≡ length head.old }
    // With any data that fits they are the packet of the segment that was read, as it is changed.
    ensures rewritten { (body : List ℕ) (packet : Packet) (view : View) → IsFitting head.old data_len body packet view → drop result head.new ++ body ≡ packet_bytes (changed change.now view body) }
{
    // The headers and the data have this length, which is a number of 16 bits.
    let _total = u16_at(head, 2);
    let (packet, segment) = new_headers(head, data_len, change);
    put(head, &packet, &segment);
    head.len() - 40
}

/// A law: a segment without SYN that is read has headers that can be rewritten, and behind them, up to the packet's
/// end, stands data that fits.
pub fn what_is_read_fits()
    ensures { (bytes : List ℕ) (packet : Packet) (view : View) → ReadFits bytes packet view }
{}
