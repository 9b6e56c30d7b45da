ghost use Rattle.std.specs.Prelude.{◌≡◌};
ghost use Rattle.sha2.specs.Hashers.{Holds256};
ghost use Rattle.flow_id.specs.Hashes.{message, marked, drawn};

use crate::key::Flow;
use byteorder::{BigEndian, ByteOrder};
use common::u32_at;
use sha2::{Digest, Sha256};

/// The two numbers that a flow's hash gives.
#[derive(Clone, Copy, Debug, PartialEq, Eq)]
pub struct Marks {
    /// The balancer's first sequence number towards the client.
    pub forged: u32,
    /// Where the flow's candidate ports begin.
    pub first: u32,
}

/// A hasher that was fed the message of a flow.
fn hasher_of(secret: &[u8; 32], flow: &Flow) -> Sha256
    ensures { Holds256 result (message secret.now flow.now) }
{
    let mut hasher = Sha256::new();
    hasher.update(secret);
    hasher.update(flow.to_bytes());
    hasher
}

/// The marks of a flow: bytes 0 to 3 and 4 to 7 of the SHA-256 of the secret and the flow, in network byte order.
pub fn marks_of(secret: &[u8; 32], flow: &Flow) -> Marks
    ensures { result ≡ marked secret.now flow.now }
{
    let hash = hasher_of(secret, flow).finalize();
    Marks {
        forged: u32_at(&hash, 0),
        first: u32_at(&hash, 4),
    }
}

/// The draw of an instance for a flow, by which it chooses a server: bytes 0 to 7 of the SHA-256 of the secret, the flow
/// and the instance's number, in network byte order.
pub fn draw(secret: &[u8; 32], flow: &Flow, instance: u16) -> u64
    ensures { result ≡ drawn secret.now flow.now instance }
{
    let mut hasher = hasher_of(secret, flow);
    hasher.update(instance.to_be_bytes());
    BigEndian::read_u64(&hasher.finalize())
}
