//! A run that is under way, record by record.
ghost use Rattle.std.specs.Prelude.{◌≡◌, ◌<◌, ◌≤◌, ◌+◌, length, IfOk};
ghost use Rattle.std.specs.List.{AllByRecursion};
ghost use Rattle.bench.specs.Inputs.{IsInputs};
ghost use Rattle.plain_run.specs.Benches.{opened};
ghost use Rattle.plain_run.specs.Fold.{block_of};
ghost use Rattle.plain_run.specs.Made.{IsMadeAfter};
ghost use Rattle.bench.specs.Fitting.{IsShort};
ghost use Rattle.plain_run.specs.UnderWay.{IsRunOf};

use crate::benches::open_benches;
use crate::due::Due;
use crate::fold::{Handled, handle_record};
use bench::Bench;
use bench::input::Inputs;
use pcap_file::Frame;
use std::alloc::{AllocError, Global};
use std::marker::Model;

/// A run that is under way: a bench for each shard, and what the script does at the records to come.
#[derive(Drop)]
pub struct Run {
    benches: Vec<Bench>,
    due: Due,
    next: u32,
}

impl Model for Run {
    ghost use Rattle.plain_run.specs.Benches.{states};
    ghost use Rattle.plain_run.specs.UnderWay.{RunState};

    ghost Value = { RunState };

    ghost view = { λ r. record { benches = states r.benches.items; due = r.due; next = r.next } };
}

impl Run {
    /// The run before its first record. The one error is want of memory for the benches or the index of the script.
    pub fn begin(alloc: Global, inputs: &Inputs) -> Result<Run, AllocError>
        ensures benches { IfOk result (λ r. r.benches ≡ opened inputs.now.setup) }
        ensures first { IfOk result (λ r. r.next ≡ 0) }
        ensures run { IfOk result (IsRunOf inputs.now) }
    {
        let due = Due::of(alloc, inputs.script.lines(), inputs.records)?;
        let benches = open_benches(alloc, &inputs.setup)?;
        Ok(Run {
            benches,
            due,
            next: 0,
        })
    }

    /// Handles the next record, which has this frame. It always returns; a record whose own memory was refused ends with
    /// [`job_core::Verdict::NoMemory`].
    pub fn handle(&mut self, alloc: Global, inputs: &Inputs, frame: &Frame) -> Handled
        requires inputs { IsInputs inputs.now }
        requires run { IsRunOf inputs.now self.old }
        requires more { self.old.next < inputs.now.records }
        requires inside { frame.now.at + frame.now.kept ≤ length inputs.now.trace }
        // Its line, what is sent, and its calls, which the benches have answered, are those of its block, whatever calls
        // were made before it.
        ensures made { IsMadeAfter inputs.now.setup result self.old.benches self.new.benches (λ earlier. block_of inputs.now result.line earlier self.old.next frame.now) }
        // Each segment that is sent fits a packet.
        ensures short { AllByRecursion IsShort result.outs.list }
        ensures next { self.new.next ≡ self.old.next + 1 }
        ensures run { IsRunOf inputs.now self.new }
    {
        let item = self.next;
        let handled = handle_record(
            alloc,
            inputs,
            &mut self.benches,
            item,
            self.due.at(item),
            frame,
        );
        self.next += 1;
        handled
    }
}
