//! Selective acknowledgments (RFC 2018) between the two connections of a flow. A client's blocks speak of the stream
//! that the balancer forges, and are counted from the server's first number where they go on; a server's speak of the
//! client's stream, which has the same numbers on both connections.
#![tactic(auto)]

ghost use Rattle.std.specs.Prelude.{◌≡◌};
ghost use Rattle.sack_opt.specs.Moves.{MovesKeepPositions, moved, moved_blocks};

use seq_space::{Blocks, Num, minus, number};

/// The number that is as far ahead of `to` as `n` is of `from`.
pub fn shifted(from: Num, to: Num, n: Num) -> Num
    ensures { result.0 ≡ moved from.0 to.0 n.0 }
{
    number(to, minus(n, from) as u64)
}

/// A client's blocks as they go on to the server, whose first number is `number` in place of the forged one. It takes
/// no memory.
pub fn to_server(blocks: &Blocks, forged: Num, number: Num) -> Blocks
    ensures { result ≡ moved_blocks forged.0 number.0 blocks.now }
{
    blocks.known();
    let mut moved = Blocks::none();
    for (left, right) in blocks.as_slice() {
        moved.push((
            shifted(forged, number, *left),
            shifted(forged, number, *right),
        ));
    }
    moved
}

/// A server's blocks as they go on to the client: the same. It takes no memory.
pub fn to_client(blocks: &Blocks) -> Blocks
    ensures { result ≡ blocks.now }
{
    *blocks
}

/// A law: blocks that are moved keep their number and their order, and near every position each edge names the same
/// position as before, or none as before.
pub fn moves_keep_positions()
    ensures { MovesKeepPositions }
{}

#[cfg(test)]
mod tests;
