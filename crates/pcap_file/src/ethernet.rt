ghost use Rattle.std.specs.Prelude.{◌≡◌};
ghost use Rattle.std.specs.Option.{option_copied};
ghost use Rattle.pcap_file.specs.Ethernet.{network_of};

use crate::capture::Link;
use common::u16_at;

/// The IPv4 bytes of a frame, with what may stand behind the packet. None exactly where an Ethernet frame is shorter
/// than its head of 14 bytes, or has another type than 0800 hex. It takes no memory.
#[tactic(auto, using(std::proofs::lemmas::Slice::between_to_end))]
pub fn network(link: Link, frame: &[u8]) -> Option<&[u8]>
    ensures { option_copied result ≡ network_of link frame.now }
{
    match link {
        Link::Raw => Some(frame),
        Link::Ethernet => {
            if frame.len() < 14 || u16_at(frame, 12) != 0x0800 {
                return None;
            }
            Some(&frame[14..])
        }
    }
}
