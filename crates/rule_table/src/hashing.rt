ghost use Rattle.std.specs.Prelude.{◌≡◌};
ghost use Rattle.rule_table.specs.Hash.{hash_of};

/// A hash of the bytes: a polynomial in 31.
#[tactic(auto, unfolding(crate::specs::Hash::hash_of))]
pub(crate) fn hash(bytes: &[u8]) -> u32
    ensures { result ≡ hash_of bytes.now }
{
    let mut hash = 0u32;
    for byte in bytes {
        hash = hash.wrapping_mul(31).wrapping_add(*byte as u32);
    }
    hash
}
