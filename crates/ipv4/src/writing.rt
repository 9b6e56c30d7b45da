ghost use Rattle.std.specs.Prelude.{◌≡◌, ◌≤◌, ◌++◌, ℕ, List, length, OnOk, OnErr};
ghost use Rattle.ipv4.specs.declared.packet.TheConstants.{PAYLOAD_LIMIT};
ghost use Rattle.ipv4.specs.Packet.{IsReadAgain};
ghost use Rattle.ipv4.specs.Written.{spelling, header, header_with};

use crate::checksum::sum;
use std::alloc::AllocError;

#[tactic(auto, unfolding(crate::specs::Written::header_with))]
fn header_with_sum(source: u32, target: u32, total: u16, sum: u16) -> [u8; 20]
    ensures { result ≡ header_with source target total sum }
{
    let t = total.to_be_bytes();
    let c = sum.to_be_bytes();
    let s = source.to_be_bytes();
    let d = target.to_be_bytes();
    [
        0x45, 0, t[0], t[1], 0, 0, 0x40, 0, 64, 6, c[0], c[1], s[0], s[1], s[2], s[3], d[0], d[1],
        d[2], d[3],
    ]
}

/// The header of a packet of `total` bytes, itself among them: without options, not to be fragmented, with 64 hops to
/// live and the protocol TCP (RFC 791, 3.1).
pub fn packet_header(source: u32, target: u32, total: u16) -> [u8; 20]
    ensures { result ≡ header source target total }
{
    let blank = header_with_sum(source, target, total, 0);
    header_with_sum(source, target, total, sum(&blank))
}

/// Writes the packet with this payload at the end of `out`. The one error is want of memory, and then `out` is as it
/// was.
pub fn write(source: u32, target: u32, payload: &[u8], out: &mut Vec<u8>) -> Result<(), AllocError>
    requires { length payload.now ≤ PAYLOAD_LIMIT }
    ensures ok { OnOk result (out.new.items ≡ out.old.items ++ spelling source target payload.now) }
    ensures err { OnErr result (out.new.items ≡ out.old.items) }
{
    let header = packet_header(source, target, (20 + payload.len()) as u16);
    out.reserve(header.len() + payload.len())?;
    out.extend_from_slice(&header)?;
    out.extend_from_slice(payload)?;
    Ok(())
}

/// A law: a packet that is written is read again, whatever follows it.
pub fn written_packet_is_read()
    ensures { (source target : ℕ) (payload more : List ℕ) → IsReadAgain source target payload more }
{}
