ghost use Rattle.std.specs.Prelude.{◌≡◌, ◌≤◌, ◌+◌, length};
ghost use Rattle.pcap_file.specs.Capture.{number_at};

use byteorder::{BigEndian, ByteOrder, LittleEndian};

/// The number in the two bytes from place `i`, the lowest first where `little` is set.
#[tactic(auto, using(std::proofs::lemmas::Slice::between_to_end))]
pub fn u16_at(little: bool, bytes: &[u8], i: usize) -> u16
    requires { i + 2 ≤ length bytes.now }
    ensures { result ≡ number_at little i 2 bytes.now }
{
    if little {
        LittleEndian::read_u16(&bytes[i..])
    } else {
        BigEndian::read_u16(&bytes[i..])
    }
}

/// The number in the four bytes from place `i`, the lowest first where `little` is set.
#[tactic(auto, using(std::proofs::lemmas::Slice::between_to_end))]
pub fn u32_at(little: bool, bytes: &[u8], i: usize) -> u32
    requires { i + 4 ≤ length bytes.now }
    ensures { result ≡ number_at little i 4 bytes.now }
{
    if little {
        LittleEndian::read_u32(&bytes[i..])
    } else {
        BigEndian::read_u32(&bytes[i..])
    }
}
