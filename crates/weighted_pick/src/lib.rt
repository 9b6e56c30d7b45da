//! Weighted choice of a server. Each choice is a pair of a server and its weight. The weights are laid end to end in the
//! order of the choices, and the draw, modulo their sum, points at one of them.
#![tactic(auto)]

ghost use Rattle.std.specs.Prelude.{◌≡◌, ◌%◌, ◌^◌, ◌<◌, ◌≤◌, IfSome, IfNone};
ghost use Rattle.weighted_pick.specs.Pick.{PickedHasWeight, picked, total_weight};

/// The server of the first choice whose cumulative weight is above the draw modulo the sum of all weights.
#[tactic(auto, unfolding(crate::specs::Pick::picked))]
pub fn pick(choices: &[(u16, u16)], draw: u64) -> u16
    requires { 0 < total_weight choices.now }
    ensures { result ≡ picked choices.now draw }
{
    let mut left = reduced(choices, draw);
    for (server, weight) in choices {
        if left < *weight as u64 {
            return *server;
        }
        left -= *weight as u64;
    }
    unreachable!()
}

/// The draw modulo the sum of the weights.
fn reduced(choices: &[(u16, u16)], draw: u64) -> u64
    requires { 0 < total_weight choices.now }
    ensures { result ≡ draw % total_weight choices.now }
{
    match total_of(choices) {
        Some(total) => draw % total,
        // A sum that does not fit is above every draw.
        None => draw,
    }
}

/// The sum of the weights, None exactly where it does not fit.
fn total_of(choices: &[(u16, u16)]) -> Option<u64>
    ensures fits { IfSome result (λ total. total ≡ total_weight choices.now) }
    ensures too_large { IfNone result (2 ^ 64 ≤ total_weight choices.now) }
{
    let mut total = 0u64;
    for (_, weight) in choices {
        total = total.checked_add(*weight as u64)?;
    }
    Some(total)
}

/// Whatever the draw, the server that it picks has a weight above 0.
pub fn picks_by_weight()
    ensures { PickedHasWeight }
{}

#[cfg(test)]
mod tests;
