// The outside as a command sees it: names, what they hold, and faults that are counted.
ghost use Rattle.std.specs.Prelude.{◌≡◌, ℕ, ◌<◌, ◌≤◌, ◌++◌, List, length, take, Option, IfOk, IfSome, OnOk, OnErr, IsOk};
ghost use Rattle.std.specs.Option.{option_map};
ghost use Rattle.common.specs.Causes.{Rose};
ghost use Rattle.shelf.specs.declared.outside.Kind.{Kind};
ghost use Rattle.shelf.specs.declared.outside.Kind.TheVariants.{Reading, Writing};
ghost use Rattle.shelf.specs.Shelf.{SameContents, SameOthers, NoneFell, StaysSure, IsRead, started};

/// The kinds of calls: `size` and `read` are reading calls, `start` and `append` are writing calls.
#[derive(Clone, Copy, Debug, PartialEq, Eq)]
pub enum Kind {
    Reading,
    Writing,
}

/// A call was not done. No content has changed, and the count of the call's kind and name rose, or stands at its last
/// value.
#[derive(Clone, Copy, Debug, PartialEq, Eq)]
pub struct Failed;

/// Names, and what they hold. The names `-` and `!` are standard output and standard error.
///
/// Each call keeps a sure name sure, lets no count fall, and leaves as it was of which names the content is told.
pub trait Shelf {
    /// What a name holds, where the shelf tells it.
    ghost content: { Self → List ℕ → Option (List ℕ) };

    /// How many faults of a kind there have been at a name.
    ghost faults: { Self → Kind → List ℕ → ℕ };

    /// A reading call of this name cannot fail.
    ghost sure: { Self → List ℕ → Type 0 };

    /// The length of what the name holds, in bytes. It changes no content.
    ///
    /// `Failed` comes only where the count of reading faults at the name rose, and never at a sure name.
    fn size(&mut self, name: &str) -> Result<u64, Failed>
        ensures length { IfSome (content self.old name.now) (λ c. IfOk result (λ n. n ≡ length c)) }
        ensures same { SameContents (content self.old) (content self.new) }
        ensures cause { OnErr result (Rose (faults self.old Reading name.now) (faults self.new Reading name.now)) }
        ensures known { sure self.old name.now → IsOk result }
        ensures counts { NoneFell (faults self.old) (faults self.new) }
        ensures stays { StaysSure (sure self.old) (sure self.new) };

    /// Fills the beginning of `buf` with what the name holds from byte `at` on, and answers how many bytes that are.
    /// They are 0 only at or past the end, or where `buf` is empty. It changes no content.
    ///
    /// `Failed` comes only where the count of reading faults at the name rose, and never at a sure name.
    fn read(&mut self, name: &str, at: u64, buf: &mut [u8]) -> Result<usize, Failed>
        ensures bound { IfOk result (λ n. n ≤ length buf.new) }
        ensures bytes { IfSome (content self.old name.now) (λ c. IfOk result (λ n. IsRead c at buf.new n)) }
        ensures same { SameContents (content self.old) (content self.new) }
        ensures cause { OnErr result (Rose (faults self.old Reading name.now) (faults self.new Reading name.now)) }
        ensures known { sure self.old name.now → IsOk result }
        ensures counts { NoneFell (faults self.old) (faults self.new) }
        ensures stays { StaysSure (sure self.old) (sure self.new) };

    /// Makes the name's content empty; a name that is not there is made. Standard output and standard error keep what
    /// they have. No other content changes.
    ///
    /// `Failed` comes only where the count of writing faults at the name rose; then no content has changed.
    fn start(&mut self, name: &str) -> Result<(), Failed>
        ensures emptied { OnOk result (content self.new name.now ≡ started name.now (content self.old name.now)) }
        ensures others { SameOthers name.now (content self.old) (content self.new) }
        ensures failed { OnErr result (SameContents (content self.old) (content self.new)) }
        ensures cause { OnErr result (Rose (faults self.old Writing name.now) (faults self.new Writing name.now)) }
        ensures counts { NoneFell (faults self.old) (faults self.new) }
        ensures stays { StaysSure (sure self.old) (sure self.new) };

    /// Adds a beginning of `bytes` at the end of what the name holds, and answers its length, which is at least 1 where
    /// `bytes` is not empty. A name that is not there is made. No other content changes.
    ///
    /// `Failed` comes only where the count of writing faults at the name rose; then no content has changed.
    fn append(&mut self, name: &str, bytes: &[u8]) -> Result<usize, Failed>
        ensures bound { IfOk result (λ n. n ≤ length bytes.now) }
        ensures goes_on { IfOk result (λ n. 0 < length bytes.now → 0 < n) }
        ensures added { IfOk result (λ n.
            content self.new name.now ≡ option_map (λ c. c ++ take n bytes.now) (content self.old name.now)) }
        ensures others { SameOthers name.now (content self.old) (content self.new) }
        ensures failed { OnErr result (SameContents (content self.old) (content self.new)) }
        ensures cause { OnErr result (Rose (faults self.old Writing name.now) (faults self.new Writing name.now)) }
        ensures counts { NoneFell (faults self.old) (faults self.new) }
        ensures stays { StaysSure (sure self.old) (sure self.new) };
}
