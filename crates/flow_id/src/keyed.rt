ghost use Rattle.std.specs.Prelude.{◌≡◌};
ghost use Rattle.std.specs.Hash.FoldHasher.{initial, write};

use std::hash::{BuildHasher, FoldHasher, Hasher};

/// Makes the hashers of a map whose keys strangers choose: each has taken in a secret, without which nobody can tell which
/// keys have equal hashes.
#[derive(Clone, Copy)]
pub struct Keyed {
    start: FoldHasher,
}

impl Keyed {
    /// By this secret. It takes no memory.
    pub fn by(secret: &[u8; 32]) -> Keyed
        ensures { result.start ≡ write initial secret.now }
    {
        let mut start = FoldHasher::default();
        start.write(secret);
        Keyed { start }
    }
}

impl BuildHasher for Keyed {
    type Hasher = FoldHasher;

    ghost build_hasher = { λ k. k.start };

    fn build_hasher(&self) -> FoldHasher {
        self.start
    }
}
