//! What a worker made of its records.
ghost use Rattle.std.specs.Prelude.{◌≡◌, ◌≤◌, ◌<◌, ◌++◌, ◌∷◌, [], length, map, reverse, IfOk, OnOk};
ghost use Rattle.run_threads.specs.Outcomes.{told_of};
ghost use Rattle.run_threads.specs.Sent.{TakesLast, numbered_outs};

use crate::outcome::Outcome;
use bench::input::Line;
use std::alloc::{AllocError, Global};
use std::marker::Model;
use tcp_segment::{Outs, Segment};

/// What a worker made of its records: the number of each, its line, and what is sent for it. Contracts see the list of them.
#[derive(Drop)]
pub struct Made {
    items: Vec<(u32, Line, Outs)>,
}

impl Model for Made {
    ghost use Rattle.std.specs.Prelude.{ℕ, List, map};
    ghost use Rattle.run_threads.specs.Outcomes.{OutcomeView, told_of};

    ghost Value = { List (ℕ × OutcomeView) };

    ghost view = { λ m. map told_of m.items.items };
}

/// Adds what is sent for the record with this number, the last segment first. The one error is want of memory.
fn add_turned(sent: &mut Vec<(u32, Segment)>, item: u32, outs: Outs) -> Result<(), AllocError>
    ensures added { OnOk result (sent.new.items ≡ sent.old.items ++ reverse (numbered_outs item outs.list)) }
    ensures few { length outs.list ≤ 11 }
{
    outs.known();
    let mut left = outs.into_vec();
    while let Some(out) = left.pop() {
        sent.push((item, out))?;
    }
    Ok(())
}

impl Made {
    /// Nothing of no record. It takes no memory.
    pub(crate) fn new(alloc: Global) -> Made
        ensures { result ≡ [] }
    {
        Made {
            items: Vec::new(alloc),
        }
    }

    /// Adds what became of the record with this number. The one error is want of memory.
    pub(crate) fn add(&mut self, item: u32, outcome: Outcome) -> Result<(), AllocError>
        ensures { OnOk result (self.new ≡ self.old ++ (item, outcome) ∷ []) }
    {
        self.items.push((item, outcome.line, outcome.outs))?;
        Ok(())
    }

    /// Takes out the last record: answers its line, and adds what is sent for it to the list, each segment with the record's
    /// number, the last one first. The one error is want of memory.
    pub(crate) fn take_last(&mut self, sent: &mut Vec<(u32, Segment)>) -> Result<Line, AllocError>
        requires { 0 < length self.old }
        ensures { IfOk result (TakesLast self.old self.new sent.old.items sent.new.items) }
    {
        let (item, line, outs) = self.items.pop().unwrap();
        add_turned(sent, item, outs)?;
        Ok(line)
    }

    /// What became of the records, lent. It takes no memory.
    pub fn as_slice(&self) -> &[(u32, Line, Outs)]
        ensures { map told_of result.now ≡ self.now }
    {
        self.items.as_slice()
    }
}
