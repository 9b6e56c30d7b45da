ghost use Rattle.std.specs.Prelude.{◌≡◌, ◌<◌, replicate, length, slice_set, option_and_then, IfOk, OnOk, OnErr, Some, None};
ghost use Rattle.bench.specs.Bench.{job_at, served};
ghost use Rattle.bench.specs.Calls.{IsCall};
ghost use Rattle.bench.specs.Histories.{flow_of_job};
ghost use Rattle.bench.specs.declared.call.Call.{Call};
ghost use Rattle.bench.specs.declared.call.Reply.{Reply as ReplyView};
ghost use Rattle.bench.specs.declared.call.Call.TheVariants.{Take, Step, Crash, Fail};
ghost use Rattle.world_model.specs.Outs.{index_taken};
ghost use Rattle.world_model.specs.Told.{IsTold};
ghost use Rattle.world_model.specs.World.{first_shard};

use bench::{Bench, Reply, move_laws};
use flow_id::Flow;
use job_core::{Aim, table_laws};
use rule_table::Setup;
use std::alloc::{AllocError, Global};
use std::marker::Model;
use tcp_segment::Segment;

/// One shard's bench, and for each instance the index of the segment that it took last.
#[derive(Drop)]
pub(crate) struct Shard {
    pub(crate) bench: Bench,
    pub(crate) taken: Vec<Option<u64>>,
}

impl Model for Shard {
    ghost use Rattle.world_model.specs.World.{Shard};

    ghost Value = { Shard };

    ghost view = { λ s. record { bench = s.bench.state; taken = s.taken.items } };
}

/// So many places without an index. The one error is want of memory.
fn no_indexes(alloc: Global, count: u16) -> Result<Vec<Option<u64>>, AllocError>
    ensures { IfOk result (λ v. v.items ≡ replicate count None) }
{
    let mut taken = Vec::with_capacity(alloc, count as usize)?;
    for _instance in 0..count {
        taken.push(None)?;
    }
    Ok(taken)
}

impl Shard {
    /// The shard with this number, before its first call. The one error is want of memory.
    pub(crate) fn new(alloc: Global, setup: &Setup, number: u8) -> Result<Shard, AllocError>
        ensures { IfOk result (λ s. s ≡ first_shard setup.now number) }
    {
        let taken = no_indexes(alloc, setup.instances())?;
        let bench = Bench::new(alloc, setup.copy()?, number)?;
        Ok(Shard { bench, taken })
    }

    /// The instance takes the segment with this index, and has handled it where it needs to ask no replica. After an `Err` the
    /// shard is as before.
    pub(crate) fn take(
        &mut self,
        instance: u16,
        index: u64,
        aim: Aim,
        segment: Segment,
    ) -> Result<Reply, AllocError>
        requires call { IsCall self.old.bench.setup self.old.bench.shard (Take instance 0 aim segment) }
        requires place { instance < length self.old.taken }
        ensures ok { OnOk result (self.new ≡ record { bench = (served self.old.bench (Take instance 0 aim segment)).0; taken = slice_set self.old.taken instance (Some index) }) }
        ensures reply { IfOk result (IsTold self.old (Take instance 0 aim segment)) }
        ensures err { OnErr result (self.new ≡ self.old) }
    {
        self.laws();
        let reply = self.bench.take(instance, 0, aim, segment)?;
        self.taken[instance as usize] = Some(index);
        Ok(reply)
    }

    /// The instance's job makes a step. After an `Err` the shard is as before.
    pub(crate) fn step(&mut self, instance: u16) -> Result<Reply, AllocError>
        requires call { IsCall self.old.bench.setup self.old.bench.shard (Step instance) }
        ensures ok { OnOk result (self.new ≡ record { bench = (served self.old.bench (Step instance)).0; taken = self.old.taken }) }
        ensures reply { IfOk result (IsTold self.old (Step instance)) }
        ensures err { OnErr result (self.new ≡ self.old) }
    {
        self.laws();
        self.bench.step(instance)
    }

    /// The reply to a call tells what is sent with it. It does nothing.
    fn laws(&self)
        ensures { (c : Call) (r : ReplyView) → IsCall self.now.bench.setup self.now.bench.shard c → r ≡ (served self.now.bench c).1 → IsTold self.now c r }
    {
        move_laws();
        table_laws();
        self.bench.known();
    }

    /// The instance loses its job, all the bytes that it holds and all the records that it keeps.
    pub(crate) fn crash(&mut self, instance: u16)
        requires { IsCall self.old.bench.setup self.old.bench.shard (Crash instance) }
        ensures { self.new ≡ record { bench = (served self.old.bench (Crash instance)).0; taken = self.old.taken } }
    {
        self.bench.crash(instance);
    }

    /// The cell at this place of the list fails, for good.
    pub(crate) fn fail(&mut self, place: u8)
        requires { IsCall self.old.bench.setup self.old.bench.shard (Fail place) }
        ensures { self.new ≡ record { bench = (served self.old.bench (Fail place)).0; taken = self.old.taken } }
    {
        self.bench.fail(place);
    }

    /// The flow that the instance's job is known to be of.
    pub(crate) fn flow(&self, instance: u16) -> Option<Flow>
        requires { instance < self.now.bench.setup.instances }
        ensures { result ≡ option_and_then flow_of_job (job_at self.now.bench.desks instance) }
    {
        self.bench.flow(instance)
    }

    /// The index of the segment that the instance took last.
    pub(crate) fn index(&self, instance: u16) -> Option<u64>
        ensures { result ≡ index_taken self.now.taken instance }
    {
        match self.taken.get(instance as usize) {
            Some(Some(index)) => Some(*index),
            _ => None,
        }
    }
}
