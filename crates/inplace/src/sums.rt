// A checksum that is carried on from the words that go to those that come (RFC 1624).
ghost use Rattle.std.specs.Prelude.{◌≡◌, ◌≤◌, ◌+◌, sum};
ghost use Rattle.ipv4.specs.Checksum.{ones, words};
ghost use Rattle.tcp_segment.specs.Segments.{pseudo_header};
ghost use Rattle.tcp_segment.specs.Written.{head_with};
ghost use Rattle.inplace.specs.Headers.{AreHeaders, behind_packet, carried_on, sum_after, sum_before};

use crate::change::Change;
use common::u32_at;
use ipv4::add_words;
use tcp_segment::Head;

// What a total is in 16 bits of one's complement.
fn folded(total: u64) -> u16
    ensures { result ≡ ones total }
{
    if total == 0 {
        0
    } else {
        ((total - 1) % 0xffff + 1) as u16
    }
}

// The sum of the pseudo header of a segment of `len` bytes. A number of 32 bits stands for its two words, since 65536
// counts as 1; the protocol is 6.
#[tactic(auto, unfolding(tcp_segment::specs::Segments::pseudo_header))]
fn pseudo_sum(source: u32, target: u32, len: u16) -> u16
    ensures { result ≡ ones (sum (words (pseudo_header source target len))) }
{
    folded(source as u64 + target as u64 + 6 + len as u64)
}

// The sum of a total and the words of a header of five words of four bytes, with a checksum of zero.
#[tactic(auto, unfolding(tcp_segment::specs::Written::head_with))]
fn head_sum(total: u16, h: &Head) -> u16
    ensures { result ≡ ones (total + sum (words (head_with h.now 5 0))) }
{
    let ports = h.source_port as u64 + h.target_port as u64;
    let numbers = h.seq.0 as u64 + h.ack.0 as u64;
    let rest = 0x5000 + h.flags as u64 + h.window as u64 + h.urgent as u64;
    folded(total as u64 + ports + numbers + rest)
}

/// The sum of the words that go, where `tcp` is what stands behind the packet's header.
#[tactic(auto, using(crate::proofs::CarriedSums::sums))]
pub(crate) fn old_sum(head: &[u8], tcp: &[u8], data_len: usize) -> u16
    requires headers { AreHeaders head.now data_len }
    requires tcp { tcp.now ≡ behind_packet head.now }
    ensures { result ≡ sum_before head.now data_len }
{
    let len = (tcp.len() + data_len) as u16;
    add_words(pseudo_sum(u32_at(head, 12), u32_at(head, 16), len), tcp)
}

/// The sum of the words that come.
#[tactic(auto, using(crate::proofs::CarriedSums::sums))]
pub(crate) fn new_sum(change: &Change, h: &Head, data_len: usize) -> u16
    requires { data_len ≤ 65515 }
    ensures { result ≡ sum_after change.now h.now data_len }
{
    let len = (20 + data_len) as u16;
    head_sum(pseudo_sum(change.source, change.target, len), h)
}

/// The checksum where words that sum up to `old` give way to words that sum up to `new` (RFC 1624, equation 3).
pub(crate) fn carried(old: u16, new: u16) -> u16
    ensures { result ≡ carried_on old new }
{
    0xffff - folded((0xffff - old) as u64 + new as u64)
}
