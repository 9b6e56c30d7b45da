// An instance crashes after each step in turn, and the other goes on.
use super::faults::{Fault, MOST, ask_under, places};
use super::*;

/// The end sends, instance 0 handles that, and both ends take what is sent for it.
fn exchange(alloc: Global, world: &mut World, from: At) -> Result<(), Fail> {
    let index = world.sent();
    made(world, &event_of(alloc, Act::Send(from, 1460)))?;
    let first = world.sent();
    made(world, &event_of(alloc, Act::Take(0, index)))?;
    for _step in 0..MOST {
        made(world, &event_of(alloc, Act::Step(0, SHARD)))?;
    }
    for sent in first..world.sent() {
        for at in [HERE, THERE] {
            made(world, &event_of(alloc, Act::Deliver(at, sent)))?;
        }
    }
    Ok(())
}

/// Whether the end has seen its peer's close.
fn saw_close(world: &World, at: &At) -> bool {
    world.end(at).is_some_and(|end| end.saw_close())
}

/// Both ends close, and send in turn until each has seen the other's close, in 20 rounds at most.
fn close_both(alloc: Global, world: &mut World) -> Result<(), Fail> {
    happen(alloc, world, &[Act::Close(HERE), Act::Close(THERE)])?;
    for _round in 0..20 {
        if !(saw_close(world, &HERE) && saw_close(world, &THERE)) {
            exchange(alloc, world, HERE)?;
            exchange(alloc, world, THERE)?;
        }
    }
    Ok(())
}

/// Whether the server has the request by the first port alone, the client nothing, and both have seen the close, where instance 1
/// crashes then.
fn is_left_whole(alloc: Global, index: u64, steps: u32) -> Result<bool, Fail> {
    let act = Act::Crash(1);
    let fault = Fault { index, steps, act };
    let mut world = world(alloc)?;
    ask_under(alloc, &mut world, Some(fault))?;
    close_both(alloc, &mut world)?;
    Ok(
        has_received(&world, &THERE, HEAD)
            && has_received(&world, &HERE, b"")
            && world.end(&BESIDE).is_none()
            && saw_close(&world, &HERE)
            && saw_close(&world, &THERE),
    )
}

#[test]
fn a_crash_after_any_step_leaves_the_connection(rt: HostRuntime) -> Result<(), Fail> {
    let alloc = rt.alloc();
    for (index, steps) in places(alloc)? {
        assert!(rt;
            is_left_whole(alloc, index, steps)?,
            "segment {index}, step {steps}"
        );
    }
    Ok(())
}
