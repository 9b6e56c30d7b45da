use crossbeam_queue::RuledArrayQueue;
use crossbeam_queue::protocol::{Join, Lesson, Outcome, Protocol, Split};
use std::collections::LinkedList;
use std::marker::PhantomData;

/// The queue of an inbox: `Some` is an item, and `None` is the end.
pub type Queue<T> = RuledArrayQueue<Option<T>, Known<T>, InOrder<T>>;

/// What a side of an inbox knows. No value of it is made: it stands in proofs alone.
pub struct Known<T> {
    /// It may give.
    pub gives: bool,
    /// It may take.
    pub takes: bool,
    /// What was given: all of it where this side gives, else its beginning.
    pub given: LinkedList<Option<T>>,
    /// What was taken: all of it where this side takes, else its beginning.
    pub taken: LinkedList<Option<T>>,
}

/// What was given is what was taken, and then what the queue holds.
pub struct InOrder<T> {
    marker: PhantomData<T>,
}

impl<T> Protocol<Option<T>, Known<T>> for InOrder<T> {
    ghost use Rattle.std.specs.Prelude.{true, []};
    ghost use Rattle.inbox.specs.Rule.{known, Kept};

    ghost holds = { Kept };

    ghost first = { known true true [] [] };
}

/// One side gives, and the other one takes.
pub struct Roles;

impl<T> Split<Known<T>> for Roles {
    ghost use Rattle.std.specs.Prelude.{true, false};
    ghost use Rattle.inbox.specs.Rule.{known};

    ghost left = { λ v. known true false v.given v.taken };

    ghost right = { λ v. known false true v.given v.taken };
}

/// The taker takes the giver in, and knows both lists.
pub struct Whole;

impl<T> Join<Known<T>> for Whole {
    ghost use Rattle.std.specs.Prelude.{true, false, []};
    ghost use Rattle.inbox.specs.Rule.{known};

    ghost both = { λ v w. known true true w.given v.taken };

    ghost spent = { known false false [] [] };
}

impl<T> Lesson<Option<T>, Known<T>> for Whole {
    ghost use Rattle.std.specs.Prelude.{◌≡◌, ◌++◌};

    ghost fact = { λ v items. v.given ≡ v.taken ++ items };
}

/// What is given stands last in what was given.
pub struct Gives;

impl<T> Outcome<Option<T>, Known<T>> for Gives {
    ghost use Rattle.inbox.specs.Rule.{HasGiven};

    ghost then = { HasGiven };
}

impl<T> Lesson<Option<T>, Known<T>> for Gives {
    ghost use Rattle.inbox.specs.Rule.{GivenByThen};

    ghost fact = { GivenByThen };
}

/// What is taken stands last in what was taken.
pub struct Takes;

impl<T> Outcome<Option<T>, Known<T>> for Takes {
    ghost use Rattle.inbox.specs.Rule.{HasTaken};

    ghost then = { HasTaken };
}

impl<T> Lesson<Option<T>, Known<T>> for Takes {
    ghost use Rattle.inbox.specs.Rule.{TakenByThen};

    ghost fact = { TakenByThen };
}
