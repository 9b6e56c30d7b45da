ghost use Rattle.std.specs.Prelude.{◌≡◌, ◌≢◌, ℕ, ◌+◌, ◌<◌, ◌&&◌, not, nat_le, [], ◌∷◌, ◌++◌, length, IfOk, OnOk};
ghost use Rattle.std.specs.List.{count_by};
ghost use Rattle.std.specs.List.Sorted.{IsNonDecreasing};
ghost use Rattle.script_text.specs.Changes.{changes_of, is_even, last_change};

use std::alloc::{AllocError, Global};

/// When each instance lives: the records from which its life changes. From the first of them on it is down, from the
/// second on it lives again, and so on.
#[derive(Debug, Drop)]
pub struct Lives {
    changes: Vec<Vec<u32>>,
}

impl Lives {
    /// So many instances, which live.
    pub fn new(alloc: Global, instances: u16) -> Result<Self, AllocError>
        ensures none { IfOk result (λ lives. (number : ℕ) → changes_of lives number ≡ []) }
        ensures room { IfOk result (λ lives. length lives.changes.items ≡ instances) }
    {
        let mut changes = Vec::with_capacity(alloc, usize::from(instances))?;
        for _ in 0..instances {
            changes.push(Vec::new(alloc))?;
        }
        Ok(Lives { changes })
    }

    /// The changes of the instance's life.
    fn of(&self, instance: u16) -> &[u32]
        ensures { result.now ≡ changes_of self.now instance }
    {
        match self.changes.get(usize::from(instance)) {
            Some(changes) => changes.as_slice(),
            None => &[],
        }
    }

    /// Whether the instance is living for the record `item`, by its changes, which do not fall.
    pub fn is_living(&self, instance: u16, item: u32) -> bool
        ensures { IsNonDecreasing (changes_of self.now instance)
            → result ≡ is_even (count_by (λ c. nat_le c item) (changes_of self.now instance)) }
    {
        self.of(instance).partition_point(|c| *c <= item) % 2 == 0
    }

    /// Whether the instance lives after all its changes, and the next can come at the record `item`.
    pub fn may_end(&self, instance: u16, item: u32) -> bool
        ensures { result ≡ (is_even (length (changes_of self.now instance)) && nat_le (last_change (changes_of self.now instance)) item) }
    {
        let changes = self.of(instance);
        changes.len() % 2 == 0 && last_of(changes) <= item
    }

    /// Whether the instance is down after all its changes, and the next can come at the record `item`.
    pub fn may_begin(&self, instance: u16, item: u32) -> bool
        ensures { result ≡ (not (is_even (length (changes_of self.now instance))) && nat_le (last_change (changes_of self.now instance)) item) }
    {
        let changes = self.of(instance);
        changes.len() % 2 != 0 && last_of(changes) <= item
    }

    /// Adds a change of the instance's life.
    pub fn add(&mut self, instance: u16, at: u32) -> Result<(), AllocError>
        requires { instance < length self.old.changes.items }
        ensures added { OnOk result (changes_of self.new instance ≡ changes_of self.old instance ++ at ∷ []) }
        ensures others { OnOk result ((number : ℕ) → number ≢ instance → changes_of self.new number ≡ changes_of self.old number) }
        ensures room { length self.new.changes.items ≡ length self.old.changes.items }
    {
        self.changes[usize::from(instance)].push(at)?;
        Ok(())
    }
}

/// The last change, 0 where there is none.
fn last_of(changes: &[u32]) -> u32
    ensures { result ≡ last_change changes.now }
{
    changes.last().copied().unwrap_or(0)
}
