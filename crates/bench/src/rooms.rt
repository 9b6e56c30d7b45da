//! Rooms for segments that are passed on: with one that is ready, nobody needs memory to pass a segment on.

ghost use Rattle.std.specs.Prelude.{◌≡◌, ◌+◌, ◌≤◌, ◌<◌, max, vec_len, vec_capacity, true, IfOk, OnOk, OnErr};
ghost use Rattle.bench.specs.Passing.{AreReady, rooms_after};
ghost use Rattle.bench.specs.Bench.{IsPassedAtOnce};
ghost use Rattle.job_core.specs.Rooms.{IsReady};

use crate::call::Reply;
use job_core::Verdict;
use std::alloc::{AllocError, Global};
use tcp_segment::Outs;

/// Room for one segment. The one error is want of memory.
fn new_room(alloc: Global) -> Result<Outs, AllocError>
    ensures { IfOk result IsReady }
{
    Ok(Outs::new(Vec::with_capacity(alloc, 1)?))
}

/// Makes a room ready that may have been used. The one error is want of memory.
pub(crate) fn make_ready(alloc: Global, room: &mut Outs) -> Result<(), AllocError>
    ensures { OnOk result (IsReady room.new) }
{
    if !room.as_slice().is_empty() || room.spare() == 0 {
        *room = new_room(alloc)?;
    }
    Ok(())
}

/// Adds one room. The one error is want of memory, and then there are as many as before.
fn add_room(alloc: Global, rooms: &mut Vec<Outs>) -> Result<(), AllocError>
    requires { AreReady rooms.old.items }
    ensures ready { AreReady rooms.new.items }
    ensures one { OnOk result (vec_len rooms.new ≡ vec_len rooms.old + 1) }
    ensures err { OnErr result (vec_len rooms.new ≡ vec_len rooms.old) }
{
    let room = new_room(alloc)?;
    rooms.push(room)?;
    Ok(())
}

/// Adds rooms until there are so many. The one error is want of memory, and then there are as many as before.
pub(crate) fn add_rooms(
    alloc: Global,
    rooms: &mut Vec<Outs>,
    count: usize,
) -> Result<(), AllocError>
    requires { AreReady rooms.old.items }
    ensures ready { AreReady rooms.new.items }
    ensures count { OnOk result (vec_len rooms.new ≡ max (vec_len rooms.old) count) }
    ensures err { OnErr result (vec_len rooms.new ≡ vec_len rooms.old) }
{
    let before = rooms.len();
    for _room in before..count {
        if let Err(refused) = add_room(alloc, rooms) {
            rooms.truncate(before);
            return Err(refused);
        }
    }
    Ok(())
}

/// Whether a segment was passed on by the call that is answered so.
fn has_passed(reply: &Reply) -> bool
    ensures passed { result ≡ true → IsPassedAtOnce (Some reply.now) }
    ensures other { (result ≡ true → ⊥) → IsPassedAtOnce (Some reply.now) → ⊥ }
{
    matches!(
        reply,
        Reply::Done {
            verdict: Verdict::Forwarded,
            ..
        }
    )
}

/// Puts a room back among the others that was lent to a call with this reply, unless a segment was passed on in it.
pub(crate) fn put_back(rooms: &mut Vec<Outs>, room: Outs, reply: &Reply)
    requires room { vec_len rooms.old < vec_capacity rooms.old }
    requires ready { AreReady rooms.old.items }
    requires left { (IsPassedAtOnce (Some reply.now) → ⊥) → IsReady room }
    ensures ready { AreReady rooms.new.items }
    ensures count { vec_len rooms.new ≡ rooms_after (vec_len rooms.old + 1) reply.now }
{
    if has_passed(reply) {
        return;
    }
    let Ok(()) = rooms.push(room) else {
        unreachable!()
    };
}
