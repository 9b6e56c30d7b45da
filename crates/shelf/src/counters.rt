// One counter for each kind of call. A counter of 64 bits stands still at its last value.
ghost use Rattle.std.specs.Prelude.{◌≡◌, ◌≤◌, true};
ghost use Rattle.common.specs.Causes.{risen, Rose};
ghost use Rattle.shelf.specs.declared.outside.Kind.{Kind};
ghost use Rattle.shelf.specs.Counters.{count_of, counted};

use crate::outside::Kind;

#[derive(Clone, Copy)]
pub struct Counters {
    reading: u64,
    writing: u64,
}

fn one_more(count: u64) -> u64
    ensures one { result ≡ risen count }
    ensures later { count ≤ result }
{
    count.saturating_add(1)
}

impl Counters {
    pub fn new() -> Self
        ensures { (k : Kind) → count_of result k ≡ 0 }
    {
        Counters {
            reading: 0,
            writing: 0,
        }
    }

    pub fn get(&self, kind: Kind) -> u64
        ensures { result ≡ count_of self.now kind }
    {
        match kind {
            Kind::Reading => self.reading,
            Kind::Writing => self.writing,
        }
    }

    pub fn raise(&mut self, kind: Kind)
        ensures one { self.new ≡ counted true kind self.old }
        ensures rose { Rose (count_of self.old kind) (count_of self.new kind) }
        ensures none_fell { (k : Kind) → count_of self.old k ≤ count_of self.new k }
    {
        match kind {
            Kind::Reading => self.reading = one_more(self.reading),
            Kind::Writing => self.writing = one_more(self.writing),
        }
    }
}
