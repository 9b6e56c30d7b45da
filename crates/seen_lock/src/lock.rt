ghost use Rattle.std.specs.Prelude.{◌≡◌, ◌+◌, ◌^◌, ◌<◌, [], ◌∷◌, ◌++◌, max, IfOk, OnOk, OnErr};
ghost use Rattle.seen_lock.specs.Histories.{longer};
ghost use Rattle.seen_lock.specs.Seats.{IsSeatOf, SameSeat, IsTold, SeesMore, AllJoined, IsClosed, seen, own_calls, joined_calls, joined_seen};

use crate::held::{Held, add_call};
use crate::knowledge::Known;
use crate::object::{Entry, Object};
use crate::rule::{LockRule, Merge, Part};
use crate::turn::{put_back, put_longer, take_turn};
use atomic_table::{Refused, Seat, Table};
use std::alloc::{AllocError, Global};
use std::marker::Model;
use std::snapshot::Snapshot;
use std::sync::Wait;

/// A lock over an object, and the history of the calls that were made through it. Contracts see which lock it is, and
/// the state with which it was made.
#[derive(Drop)]
pub struct SeenLock<O: Object> {
    table: Table<
        Option<Held<O::State, O::Call>>,
        Option<Known<O::State, O::Call>>,
        Snapshot<O::State>,
        LockRule<O>,
        Global,
    >,
}

impl<O: Object> Model for SeenLock<O> {
    ghost use Rattle.std.specs.Prelude.{◌≡◌};
    ghost use Rattle.seen_lock.specs.Seats.{LockView};

    ghost Value = { LockView O.State };

    ghost view = { λ l. record { lock = l.table.shared.table_id; first = l.table.shared.key.value } };

    ghost invariant = { λ l. (l.table.shared.table_id.words ≡ 3) × (l.table.shared.table_id.slots ≡ 1) };
}

/// One caller of a lock.
#[derive(Drop)]
pub struct SeenSeat<O: Object> {
    seat: Seat<Option<Held<O::State, O::Call>>, Option<Known<O::State, O::Call>>>,
    number: u32,
    made: u32,
}

impl<O: Object> Model for SeenSeat<O> {
    ghost use Rattle.std.specs.Prelude.{◌≡◌, []};
    ghost use Rattle.seen_lock.specs.Seats.{SeatView};

    ghost Value = { SeatView O.State O.Call };

    ghost view = { λ s. record { lock = s.seat.table_id; number = s.number; made = s.made; view = s.seat.me.0 } };

    ghost invariant = { λ s. s.seat.me.1 ≡ [] };
}

impl<O: Object> SeenLock<O> {
    /// A lock with an empty history over an object in this state, and its seat number 0.
    pub fn new(alloc: Global, state: O::State) -> Result<(SeenLock<O>, SeenSeat<O>), AllocError>
        ensures first { IfOk result (λ r. r.0.first ≡ state) }
        ensures seat { IfOk result (λ r. IsSeatOf r.0 r.1) }
        ensures number { IfOk result (λ r. (r.1.number ≡ 0) × (r.1.made ≡ 0)) }
        ensures nothing_seen { IfOk result (λ r. (seen r.1 ≡ []) × (own_calls r.1 ≡ []) × (joined_calls r.1 ≡ []) × (joined_seen r.1 ≡ [])) }
    {
        let first = Snapshot::of(&state);
        let mut slots = Vec::with_capacity(alloc, 1)?;
        slots.push_reserved(Some(Held {
            history: Vec::new(alloc),
            state,
        }));
        match Table::new(alloc, &[0, 0, 0], slots, &first) {
            Ok((table, seat)) => Ok((
                SeenLock { table },
                SeenSeat {
                    seat,
                    number: 0,
                    made: 0,
                },
            )),
            Err(Refused { slots: _ }) => Err(AllocError),
        }
    }

    /// Makes a call, and answers its reply and its place in the history. It may wait for another caller.
    ///
    /// The one error is want of memory: then this call has changed neither history nor state, and the seat's own calls
    /// are as before.
    pub fn call<R: Wait>(
        &self,
        rt: &R,
        seat: &mut SeenSeat<O>,
        call: O::Call,
    ) -> Result<(O::Reply, u64), AllocError>
        requires seat { IsSeatOf self.now seat.old }
        requires allowed { O.allowed self.now.first call }
        ensures seat { IsSeatOf self.now seat.new }
        ensures same { SameSeat seat.old seat.new }
        ensures told { IfOk result (λ r. IsTold O.after O.reply self.now seat.old seat.new call r.0 r.1) }
        ensures refused { OnErr result (SeesMore seat.old seat.new) }
    {
        let shared = &self.table.shared;
        let mut held = take_turn(rt, shared, &mut seat.seat);
        let place = held.history.len() as u64;
        match add_call::<O>(&mut held, seat.number, call) {
            Ok(reply) => {
                put_longer(shared, &mut seat.seat, held);
                Ok((reply, place))
            }
            Err(error) => {
                put_back(shared, &mut seat.seat, held);
                Err(error)
            }
        }
    }

    /// Makes the seat with the next number: it has seen what seat 0 has seen, and has made no calls. It needs no
    /// memory; after an error the seat would be as before, its count of seats too.
    pub fn split(&self, seat: &mut SeenSeat<O>) -> Result<SeenSeat<O>, AllocError>
        requires seat { IsSeatOf self.now seat.old }
        requires zero { seat.old.number ≡ 0 }
        requires room { seat.old.made + 1 < 2 ^ 32 }
        ensures seat { IsSeatOf self.now seat.new }
        ensures made { OnOk result ((seat.new.number ≡ 0) × (seat.new.made ≡ seat.old.made + 1)) }
        ensures refused { OnErr result (seat.new ≡ seat.old) }
        ensures same { (seen seat.new ≡ seen seat.old) × (own_calls seat.new ≡ own_calls seat.old) × (joined_calls seat.new ≡ joined_calls seat.old) × (joined_seen seat.new ≡ joined_seen seat.old) }
        ensures new { IfOk result (λ s. IsSeatOf self.now s) }
        ensures number { IfOk result (λ s. (s.number ≡ seat.old.made + 1) × (s.made ≡ 0)) }
        ensures sees { IfOk result (λ s. (seen s ≡ seen seat.old) × (own_calls s ≡ []) × (joined_calls s ≡ []) × (joined_seen s ≡ [])) }
    {
        let number = seat.made + 1;
        let seat_made = self.table.shared.split_seat::<Part>(&mut seat.seat);
        seat.made = number;
        Ok(SeenSeat {
            seat: seat_made,
            number,
            made: 0,
        })
    }

    /// Takes another seat in: from now on this seat answers for the calls of both, and it has seen the longer of the two
    /// histories.
    pub fn join(&self, seat: &mut SeenSeat<O>, other: SeenSeat<O>)
        requires seat { IsSeatOf self.now seat.old }
        requires other { IsSeatOf self.now other }
        ensures seat { IsSeatOf self.now seat.new }
        ensures number { (seat.new.number ≡ seat.old.number) × (seat.new.made ≡ max seat.old.made other.made) }
        ensures longer { seen seat.new ≡ longer (seen seat.old) (seen other) }
        ensures own { own_calls seat.new ≡ own_calls seat.old }
        ensures joined { joined_calls seat.new ≡ joined_calls seat.old ++ (other.number, own_calls other) ∷ joined_calls other }
        ensures heard { joined_seen seat.new ≡ joined_seen seat.old ++ seen other ∷ joined_seen other }
    {
        let SeenSeat {
            seat: joined,
            number: _,
            made,
        } = other;
        seat.made = seat.made.max(made);
        self.table.shared.join_seat::<Merge>(&mut seat.seat, joined);
    }

    /// Ends the lock, and hands out its history and the state that it leads to.
    pub fn close(self, seat: SeenSeat<O>) -> (Vec<Entry<O::Call>>, O::State)
        requires seat { IsSeatOf self seat }
        requires all { AllJoined seat }
        ensures { IsClosed O.after O.allowed self seat result.0.items result.1 }
    {
        let SeenLock { table } = self;
        let SeenSeat {
            seat,
            number: _,
            made: _,
        } = seat;
        let mut closed = table.close_with(seat);
        let held = closed.take(0).unwrap();
        closed.free();
        (held.history, held.state)
    }
}
