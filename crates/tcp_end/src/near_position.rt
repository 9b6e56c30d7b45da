ghost use Rattle.std.specs.Prelude.{◌≡◌, ◌≤◌, ◌-◌, ◌^◌};
ghost use Rattle.tcp_end.specs.NearPosition.{near_of};

use seq_space::{Num, near};

/// The position that a number names, as a function of the number, the first number and the position it is near to.
#[tactic(auto, using(crate::proofs::Near::near_is))]
pub(crate) fn position_of(n: Num, first: Num, around: u64) -> Option<u64>
    requires { around ≤ 2 ^ 64 - 2 ^ 31 }
    ensures { result ≡ near_of n.0 first.0 around }
{
    near(n, first, around)
}
