//! What becomes of one segment that an instance handles, while others make calls of the same bench.
ghost use Rattle.std.specs.Prelude.{◌≡◌, ◌<◌, [], ◌∷◌, IfOk, OnErr};
ghost use Rattle.bench.specs.Blocks.{most_steps};
ghost use Rattle.bench.specs.Calls.{IsCall};
ghost use Rattle.bench.specs.declared.call.Call.TheVariants.{Take, Step};
ghost use Rattle.run_threads.specs.Handling.{Handles, IsTimely, is_cut, is_going};
ghost use Rattle.run_threads.specs.Seats.{IsAt, Adds};

use crate::object::BenchObject;
use crate::seat::call;
use bench::{Call, Reply};
use job_core::Aim;
use rule_table::Setup;
use seen_lock::{SeenLock, SeenSeat};
use std::alloc::AllocError;
use std::sync::Wait;
use tcp_segment::Segment;

/// A call of a handling was refused memory, after so many of its calls were made.
#[derive(Clone, Copy, Debug, PartialEq, Eq)]
pub struct Refused {
    pub calls: u32,
}

/// The most steps of a handling, in which the instance crashes after so many, if it does.
pub(crate) fn most_steps(setup: &Setup, after: Option<u16>) -> u32
    ensures { result ≡ most_steps setup.now after }
{
    let budget = 11 * setup.copies() as u32;
    match after {
        Some(after) => budget.min(after as u32),
        None => budget,
    }
}

fn is_going(reply: &Reply) -> bool
    ensures { result ≡ is_going reply.now }
{
    matches!(reply, Reply::Going)
}

/// Takes a segment, that of the record with this number. The one error is want of memory, and then the call was not made.
fn take<R: Wait>(
    rt: &R,
    lock: &SeenLock<BenchObject>,
    seat: &mut SeenSeat<BenchObject>,
    instance: u16,
    item: u32,
    aim: Aim,
    seg: Segment,
) -> Result<Reply, AllocError>
    requires at { IsAt lock.now seat.old }
    requires allowed { IsCall lock.now.first.setup lock.now.first.shard (Take instance item aim seg) }
    ensures made { IfOk result (λ r. Adds lock.now seat.old seat.new ((Take instance item aim seg, r) ∷ [])) }
    ensures at { IsAt lock.now seat.new }
    ensures refused { OnErr result (Adds lock.now seat.old seat.new []) }
{
    let take = Call::Take {
        instance,
        item,
        aim,
        seg,
    };
    call(rt, lock, seat, take)
}

/// Makes a step. The one error is want of memory, and then the call was not made.
fn step<R: Wait>(
    rt: &R,
    lock: &SeenLock<BenchObject>,
    seat: &mut SeenSeat<BenchObject>,
    instance: u16,
) -> Result<Reply, AllocError>
    requires at { IsAt lock.now seat.old }
    requires there { instance < lock.now.first.setup.instances }
    ensures made { IfOk result (λ r. Adds lock.now seat.old seat.new ((Step instance, r) ∷ [])) }
    ensures at { IsAt lock.now seat.new }
    ensures refused { OnErr result (Adds lock.now seat.old seat.new []) }
{
    call(rt, lock, seat, Call::Step { instance })
}

/// Handles the segment of the record with this number: takes it, and makes steps until one is not answered Going, so many at
/// most. It may wait for others. The one error is want of memory.
pub(crate) fn handle<R: Wait>(
    rt: &R,
    lock: &SeenLock<BenchObject>,
    seat: &mut SeenSeat<BenchObject>,
    instance: u16,
    item: u32,
    aim: Aim,
    seg: Segment,
    most: u32,
) -> Result<Reply, Refused>
    requires at { IsAt lock.now seat.old }
    requires allowed { IsCall lock.now.first.setup lock.now.first.shard (Take instance item aim seg) }
    ensures { Handles most instance item aim seg lock.now seat.old seat.new result }
{
    let Ok(mut reply) = take(rt, lock, seat, instance, item, aim, seg) else {
        return Err(Refused { calls: 0 });
    };
    let mut made = 0;
    while made < most && is_going(&reply) {
        let Ok(next) = step(rt, lock, seat, instance) else {
            return Err(Refused { calls: made + 1 });
        };
        reply = next;
        made += 1;
    }
    Ok(reply)
}

/// Whether the handling came to no end of its own: neither to a Done, nor to want of memory.
fn is_cut(end: &Result<Reply, Refused>) -> bool
    ensures { result ≡ is_cut end.now }
{
    !matches!(end, Ok(Reply::Done { .. }) | Err(_))
}

/// The same end. A handling that is not done after its most steps, where its instance does not crash, is never answered. There
/// is none.
pub(crate) fn in_time<R: Wait>(
    rt: &R,
    after: Option<u16>,
    end: Result<Reply, Refused>,
) -> Result<Reply, Refused>
    ensures same { result ≡ end }
    ensures timely { IsTimely after result }
{
    if after.is_none() && is_cut(&end) {
        for _ in rt.forever() {}
        unreachable!()
    }
    end
}
