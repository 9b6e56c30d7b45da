ghost use Rattle.std.specs.Prelude.{◌≡◌, true, IsTrue};
ghost use mathlib.Core.List.{IsPrefix};
ghost use Rattle.inbox.specs.Inboxes.{IsTook};

use crate::giver::Giver;
use crate::rule::{Known, Queue, Takes, Whole};
use crossbeam_queue::Pass;
use std::alloc::Global;
use std::marker::Model;
use std::sync::{Arc, Wait};

/// What a taker is answered.
#[derive(Debug, Drop, PartialEq, Eq)]
pub enum Took<T: Drop> {
    /// The first of the items that were given and not yet taken.
    Item(T),
    /// There is none so far.
    Empty,
    /// The end was taken, now or before.
    Ended,
}

/// The taking side of an inbox. Contracts see which inbox it is of, what it took, whether it took the end, and what it
/// knows to have been given.
#[derive(Drop)]
pub struct Taker<T: Drop> {
    pub(crate) queue: Arc<Queue<T>, Global>,
    pub(crate) pass: Pass<Option<T>, Known<T>>,
    pub(crate) ended: bool,
}

impl<T: Drop> Model for Taker<T> {
    ghost use Rattle.std.specs.Prelude.{◌≡◌, true};
    ghost use mathlib.Core.List.{IsPrefix};
    ghost use Rattle.std.specs.Arc.{arc_value};
    ghost use Rattle.crossbeam_queue.specs.Passes.{IsPassOf};
    ghost use Rattle.inbox.specs.Inboxes.{TakerView};
    ghost use Rattle.inbox.specs.Rule.{has_end, known_by, taker_view};

    ghost Value = { TakerView T };

    ghost view = { λ t. taker_view t.pass.table_id (known_by t.pass) t.ended };

    ghost invariant = { λ t. IsPassOf (arc_value t.queue) t.pass × ((known_by t.pass).takes ≡ true) × (has_end (known_by t.pass).taken ≡ t.ended) × IsPrefix (known_by t.pass).taken (known_by t.pass).given };
}

impl<T: Drop> Taker<T> {
    /// Takes the first of the items that were given and not yet taken. Empty comes only where the inbox was empty at one
    /// moment of the call, and Ended exactly where the end was taken now or before.
    ///
    /// It takes no memory. It may wait for a step of the giver.
    pub fn try_take<R: Wait>(&mut self, rt: &R) -> Took<T>
        ensures took { IsTook self.old self.new result }
        ensures same { self.new.inbox ≡ self.old.inbox }
    {
        if self.ended {
            return Took::Ended;
        }
        match self.queue.pop_as::<Takes, R>(rt, &mut self.pass) {
            Some(Some(item)) => Took::Item(item),
            Some(None) => {
                self.ended = true;
                Took::Ended
            }
            None => Took::Empty,
        }
    }

    /// Takes in the giver of its inbox, which gives no more: what was taken is a prefix of what that giver gave, and all
    /// of it where the end was taken, which that giver gave then. It takes no memory.
    pub fn take_in(&mut self, giver: Giver<T>)
        requires { giver.inbox ≡ self.old.inbox }
        ensures same { (self.new.inbox ≡ self.old.inbox) × (self.new.taken ≡ self.old.taken) × (self.new.ended ≡ self.old.ended) }
        ensures known { self.new.known_given ≡ giver.given }
        ensures prefix { IsPrefix self.new.taken giver.given }
        ensures whole { IsTrue self.new.ended → self.new.taken ≡ giver.given }
        ensures over { IsTrue self.new.ended → IsTrue giver.ended }
    {
        self.queue.absorb::<Whole>(&mut self.pass, giver.pass);
        self.queue.learn_as::<Whole>(&mut self.pass);
    }
}
