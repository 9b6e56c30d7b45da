//! A lock for each shard's bench, and seats at all of them.
ghost use Rattle.std.specs.Prelude.{◌≡◌, IfOk};
ghost use Rattle.run_threads.specs.Crews.{IsCrew};

use crate::object::BenchObject;
use crate::pool::open_locks;
use rule_table::Setup;
use seen_lock::{SeenLock, SeenSeat};
use std::alloc::{AllocError, Global};
use std::marker::Model;

/// A lock for each shard's bench, in the order of the shards. Contracts see the list of them.
#[derive(Drop)]
pub struct Locks {
    pub(crate) items: Vec<SeenLock<BenchObject>>,
}

impl Model for Locks {
    ghost use Rattle.std.specs.Prelude.{List};
    ghost use Rattle.run_threads.specs.Seats.{BenchLock};

    ghost Value = { List BenchLock };

    ghost view = { λ l. l.items.items };
}

/// A seat of each of the locks, in the order of the shards. Contracts see the list of them.
#[derive(Drop)]
pub struct Crew {
    pub(crate) items: Vec<SeenSeat<BenchObject>>,
}

impl Model for Crew {
    ghost use Rattle.std.specs.Prelude.{List};
    ghost use Rattle.run_threads.specs.Seats.{BenchSeat};

    ghost Value = { List BenchSeat };

    ghost view = { λ c. c.items.items };
}

impl Locks {
    /// A lock for each shard's new bench, and the first seat of each. The one error is want of memory.
    pub fn open(alloc: Global, setup: &Setup) -> Result<(Locks, Crew), AllocError>
        ensures { IfOk result (λ r. IsCrew setup.now r.0 r.1) }
    {
        let (locks, seats) = open_locks(alloc, setup)?;
        Ok((Locks { items: locks }, Crew { items: seats }))
    }
}
