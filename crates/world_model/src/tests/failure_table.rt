// A replica fails after each step in turn.
ghost use Rattle.std.specs.Prelude.{◌≡◌, true};
ghost use Rattle.bench.specs.Calls.{IsOnShard};

use super::faults::{Fault, MOST, TAKEN, ask_under, places};
use super::*;
use bench::{Bench, Reply};
use flow_id::{port_shard, shard};
use job_core::{Aim, Verdict, aim_of};

/// Whether both are one segment.
fn is_same(one: &Segment, other: &Segment) -> bool {
    (one.source, one.target) == (other.source, other.target)
        && one.head == other.head
        && one.body.as_slice() == other.body.as_slice()
}

/// Whether the same segments are sent in both worlds.
fn sent_the_same(world: &World, other: &World) -> bool {
    world.sent() == other.sent()
        && (0..world.sent()).all(|index| match (world.segment(index), other.segment(index)) {
            (Some(one), Some(other)) => is_same(one, other),
            _ => false,
        })
}

/// Whether what is sent is as in this world, whichever of the three replicas fails then.
fn is_sent_still(alloc: Global, whole: &World, index: u64, steps: u32) -> Result<bool, Fail> {
    for replica in 0..3 {
        let act = Act::Fail(replica);
        let fault = Fault { index, steps, act };
        let mut world = world(alloc)?;
        ask_under(alloc, &mut world, Some(fault))?;
        if !sent_the_same(&world, whole) || !has_received(&world, &THERE, HEAD) {
            return Ok(false);
        }
    }
    Ok(true)
}

#[test]
fn a_failure_after_any_step_changes_nothing(rt: HostRuntime) -> Result<(), Fail> {
    let alloc = rt.alloc();
    let mut whole = world(alloc)?;
    ask_under(alloc, &mut whole, None)?;
    for (index, steps) in places(alloc)? {
        assert!(rt;
            is_sent_still(alloc, &whole, index, steps)?,
            "segment {index}, step {steps}"
        );
    }
    Ok(())
}

/// Whether the records of what is aimed so are on the client's shard.
fn is_here(setup: &Setup, aim: &Aim) -> bool
    ensures { result ≡ true → IsOnShard setup.now 3 aim.now }
{
    setup.known();
    match aim {
        Aim::Client(flow) => shard(flow, setup.shards()) == SHARD,
        Aim::Server { port, .. } => port_shard(*port, setup.shards()) == SHARD,
        Aim::Odd(_) | Aim::NotOurs => false,
    }
}

/// A cell fails after so many steps of the handling of the segment with this index.
#[derive(Clone, Copy)]
struct Failure {
    place: u8,
    index: u64,
    steps: u32,
}

/// The cell fails now, if it is to.
fn fail_at(bench: &mut Bench, setup: &Setup, failure: Option<Failure>, index: u64, steps: u32)
    requires setup { bench.old.state.setup ≡ setup.now }
    ensures setup { bench.new.state.setup ≡ bench.old.state.setup }
    ensures shard { bench.new.state.shard ≡ bench.old.state.shard }
{
    if let Some(failure) = failure {
        if (failure.index, failure.steps) == (index, steps) && failure.place < setup.copies() {
            bench.fail(failure.place);
        }
    }
}

/// What becomes of a segment that instance 1 takes, under the failure.
fn judge(
    bench: &mut Bench,
    setup: &Setup,
    index: u64,
    seg: Segment,
    failure: Option<Failure>,
) -> Result<Verdict, Fail>
    requires setup { bench.old.state.setup ≡ setup.now }
    requires shard { bench.old.state.shard ≡ 3 }
    ensures setup { bench.new.state.setup ≡ bench.old.state.setup }
    ensures shard { bench.new.state.shard ≡ bench.old.state.shard }
{
    let aim = aim_of(setup, seg.source, seg.target, &seg.head);
    if setup.instances() < 2 || !is_here(setup, &aim) {
        return Err("the segment is not for this shard".into());
    }
    let mut reply = bench.take(1, 0, aim, seg)?;
    for steps in 0..MOST {
        if let Reply::Done { verdict, .. } = reply {
            return Ok(verdict);
        }
        fail_at(bench, setup, failure, index, steps);
        reply = bench.step(1)?;
    }
    Err("the handling has not ended".into())
}

/// The verdicts of the segments that the balancer takes in this world, under the failure.
fn verdicts_under(
    alloc: Global,
    world: &World,
    failure: Option<Failure>,
) -> Result<Vec<Verdict>, Fail> {
    let setup = shop(alloc)?;
    let mut bench = Bench::new(alloc, setup.copy()?, SHARD)?;
    let mut verdicts = Vec::new(alloc);
    for index in TAKEN {
        let segment = world.segment(index).ok_or("it was not sent")?;
        verdicts.push(judge(&mut bench, &setup, index, segment.copy()?, failure)?)?;
    }
    Ok(verdicts)
}

/// Whether the verdicts are these, whichever of the three cells fails then.
fn are_verdicts_still(
    alloc: Global,
    world: &World,
    verdicts: &[Verdict],
    index: u64,
    steps: u32,
) -> Result<bool, Fail> {
    for place in 0..3 {
        let failure = Failure {
            place,
            index,
            steps,
        };
        if verdicts_under(alloc, world, Some(failure))?.as_slice() != verdicts {
            return Ok(false);
        }
    }
    Ok(true)
}

#[test]
fn each_verdict_is_as_without_the_failure(rt: HostRuntime) -> Result<(), Fail> {
    let alloc = rt.alloc();
    let mut world = world(alloc)?;
    ask_under(alloc, &mut world, None)?;
    let asked = Verdict::Asked {
        server: 0,
        port: PORT,
    };
    let verdicts = [Verdict::Answered, asked, Verdict::Opened];
    assert!(rt; verdicts_under(alloc, &world, None)?.as_slice() == verdicts.as_slice());
    for (index, steps) in places(alloc)? {
        assert!(rt;
            are_verdicts_still(alloc, &world, &verdicts, index, steps)?,
            "segment {index}, step {steps}"
        );
    }
    Ok(())
}
