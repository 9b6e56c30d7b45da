ghost use Rattle.std.specs.Prelude.{◌≡◌, ◌≤◌, ℕ, IfSome};
ghost use Rattle.window_scale.specs.Windows.{AreShifts, IsGreatest, counted, restated, shifts_by, told};

use crate::scales::{OWN_SHIFT, Shifts};

/// The shifts of a flow by the scale of the client's SYN and that of the server's SYN-ACK. It takes no memory.
pub fn shifts(syn_scale: Option<u8>, open_scale: Option<u8>) -> Shifts
    requires syn { IfSome syn_scale (λ s. s ≤ 14) }
    requires opened { IfSome open_scale (λ s. s ≤ 14) }
    ensures shifts { result ≡ shifts_by syn_scale open_scale }
    ensures bound { AreShifts result }
{
    let (server_reads, server_gives) = match (syn_scale, open_scale) {
        (Some(syn), Some(opened)) => (syn, opened),
        _ => (0, 0),
    };
    Shifts {
        client_gives: syn_scale.unwrap_or(0),
        server_reads,
        server_gives,
        client_reads: if syn_scale.is_some() { OWN_SHIFT } else { 0 },
    }
}

/// The field that tells one who reads with the shift `reads` of the window that the field `window` beside the shift
/// `gives` stands for: the greatest of 16 bits that counts no more. It takes no memory.
#[tactic(auto, using(crate::proofs::Greatest::windows))]
pub fn restate(window: u16, gives: u8, reads: u8) -> u16
    requires gives { gives ≤ 14 }
    requires reads { reads ≤ 14 }
    ensures told { result ≡ restated window gives reads }
    ensures greatest { IsGreatest result reads (counted window gives) }
{
    let bytes = (window as u32) << gives;
    (bytes >> reads).min(0xffff) as u16
}

/// A law: what one who reads with a shift is told counts no more than the window, and no greater field does.
pub fn told_is_greatest()
    ensures { (window reads : ℕ) → IsGreatest (told window reads) reads window }
{}
