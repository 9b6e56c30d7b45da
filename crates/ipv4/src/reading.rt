ghost use Rattle.std.specs.Prelude.{◌≡◌, ◌≤◌, length, IfOk, Ok};
ghost use Rattle.std.specs.Result.{result_err};
ghost use Rattle.common.specs.Faults.{first};
ghost use Rattle.ipv4.specs.Packet.{IsPacket, faults};
ghost use Rattle.ipv4.specs.declared.packet.Packet.{Packet};

use crate::checksum::add_words_blanked;
use crate::packet::{IpFault, Packet};
use common::{u16_at, u32_at};

/// Reads the packet that begins at the first byte: TCP over IPv4, whole, with a right header checksum (RFC 791, 3.1).
/// Options of the header are skipped, and what stands behind the packet's length is not looked at.
pub fn read(bytes: &[u8]) -> Result<Packet, IpFault>
    // What is read is spelled so.
    ensures found { IfOk result (IsPacket bytes.now) }
    // What is spelled so is read.
    ensures only { (p : Packet) → IsPacket bytes.now p → result ≡ Ok p }
    // It is the first fault that there is, and Ok where there is none.
    ensures fault { result_err result ≡ first (faults bytes.now) }
    // A length of 16 bits goes no further.
    ensures bound { IfOk result (λ p. p.end ≤ 65535) }
{
    if bytes.len() < 20 {
        return Err(IpFault::Short {
            need: 20,
            have: bytes.len() as u32,
        });
    }
    let version = bytes[0] / 16;
    if version != 4 {
        return Err(IpFault::Version(version));
    }
    let words = bytes[0] % 16;
    let start = 4 * words as usize;
    if words < 5 || bytes.len() < start {
        return Err(IpFault::HeaderLength(words));
    }
    let total = u16_at(bytes, 2);
    let end = total as usize;
    if end < start || bytes.len() < end {
        return Err(IpFault::TotalLength(total));
    }
    let kept = u16_at(bytes, 10);
    let computed = 0xffff - add_words_blanked(0, &bytes[..start], 10);
    if kept != computed {
        return Err(IpFault::BadSum { kept, computed });
    }
    // The flag of more fragments and the fragment's offset are the lower 14 bits of the word.
    if u16_at(bytes, 6) % 0x4000 != 0 {
        return Err(IpFault::Fragment);
    }
    let protocol = bytes[9];
    if protocol != 6 {
        return Err(IpFault::Protocol(protocol));
    }
    Ok(Packet {
        source: u32_at(bytes, 12),
        target: u32_at(bytes, 16),
        start,
        end,
    })
}
