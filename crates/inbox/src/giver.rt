ghost use Rattle.std.specs.Prelude.{◌≡◌, false};
ghost use Rattle.inbox.specs.Inboxes.{IsGiven, IsEndGiven};

use crate::rule::{Gives, Known, Queue};
use crossbeam_queue::Pass;
use std::alloc::Global;
use std::marker::Model;
use std::sync::{Arc, Wait};

/// The giving side of an inbox. Contracts see which inbox it is of, what it gave, whether it gave the end, and what it
/// knows to have been taken.
#[derive(Drop)]
pub struct Giver<T: Drop> {
    pub(crate) queue: Arc<Queue<T>, Global>,
    pub(crate) pass: Pass<Option<T>, Known<T>>,
}

impl<T: Drop> Model for Giver<T> {
    ghost use Rattle.std.specs.Prelude.{◌≡◌, true};
    ghost use Rattle.std.specs.Arc.{arc_value};
    ghost use Rattle.crossbeam_queue.specs.Passes.{IsPassOf};
    ghost use Rattle.inbox.specs.Inboxes.{GiverView};
    ghost use Rattle.inbox.specs.Rule.{giver_view, known_by};

    ghost Value = { GiverView T };

    ghost view = { λ g. giver_view g.pass.table_id (known_by g.pass) };

    ghost invariant = { λ g. IsPassOf (arc_value g.queue) g.pass × ((known_by g.pass).gives ≡ true) };
}

impl<T: Drop> Giver<T> {
    /// Gives an item, behind those that were given. It comes back only where the inbox was full at one moment of the
    /// call, and then nothing has changed.
    ///
    /// It takes no memory. It may wait for a step of the taker.
    pub fn try_give<R: Wait>(&mut self, rt: &R, item: T) -> Result<(), T>
        requires { self.old.ended ≡ false }
        ensures given { IsGiven self.old self.new item result }
        ensures same { (self.new.inbox ≡ self.old.inbox) × (self.new.ended ≡ false) }
    {
        match self
            .queue
            .push_as::<Gives, R>(rt, &mut self.pass, Some(item))
        {
            Ok(()) => Ok(()),
            Err(Some(item)) => Err(item),
            Err(None) => unreachable!(),
        }
    }

    /// Gives the end, behind which nothing can be given. False only where the inbox was full at one moment of the call,
    /// and then nothing has changed.
    ///
    /// It takes no memory. It may wait for a step of the taker.
    pub fn end<R: Wait>(&mut self, rt: &R) -> bool
        requires { self.old.ended ≡ false }
        ensures given { IsEndGiven self.old self.new result }
        ensures same { self.new.inbox ≡ self.old.inbox }
    {
        match self.queue.push_as::<Gives, R>(rt, &mut self.pass, None) {
            Ok(()) => true,
            Err(_) => false,
        }
    }
}
