ghost use Rattle.std.specs.Prelude.{◌≡◌, ◌≤◌, ◌+◌, length};
ghost use Rattle.common.specs.Fields.{field};

use byteorder::{BigEndian, ByteOrder};

/// The number in the two bytes from place `i`, in network byte order.
#[tactic(auto, using(std::proofs::lemmas::Slice::between_to_end))]
pub fn u16_at(bytes: &[u8], i: usize) -> u16
    requires { i + 2 ≤ length bytes.now }
    ensures { result ≡ field i 2 bytes.now }
{
    BigEndian::read_u16(&bytes[i..])
}

/// The number in the four bytes from place `i`, in network byte order.
#[tactic(auto, using(std::proofs::lemmas::Slice::between_to_end))]
pub fn u32_at(bytes: &[u8], i: usize) -> u32
    requires { i + 4 ≤ length bytes.now }
    ensures { result ≡ field i 4 bytes.now }
{
    BigEndian::read_u32(&bytes[i..])
}
