// What cannot happen.
use super::*;
use crate::enabled::is_within;

// Each of the cases in which an event is not enabled, but for a position out of reach, which takes too long a stream.
#[test]
fn what_may_not_be_is_not_enabled(rt: HostRuntime) -> Result<(), Fail> {
    let mut world = world(rt.alloc())?;
    accepted(rt.alloc(), &mut world)?;
    let made = [
        Act::Stray(9, 9, 81, SYN),
        Act::Stray(9, 9, 80, SYN + FIN),
        Act::Close(HERE),
        Act::Abort(THERE),
    ];
    happen(rt.alloc(), &mut world, &made)?;
    let barred = [
        // A client, an end, an instance, a replica, a shard or a segment is not there.
        Act::Open(1),
        Act::Close(At::Client(1)),
        Act::Send(NOWHERE, 9),
        Act::Abort(NOWHERE),
        Act::Take(2, 0),
        Act::Step(2, 0),
        Act::Step(0, 4),
        Act::Crash(2),
        Act::Fail(3),
        Act::Take(0, 10),
        Act::Deliver(HERE, 10),
        Act::Refuse(10),
        // The segment goes to somebody else.
        Act::Deliver(HERE, 6),
        Act::Deliver(THERE, 1),
        Act::Deliver(HERE, 0),
        Act::Take(0, 1),
        // It is not aimed at the balancer, or has flags that no connection has.
        Act::Take(0, 7),
        Act::Take(0, 8),
        // The client has opened.
        Act::Open(0),
        // The stranger is the client, or a server.
        Act::Stray(CLIENT.address, CLIENT.port, 80, ACK),
        Act::Stray(SERVER.address, 8080, 80, ACK),
        // What is refused is no SYN, or its end is there.
        Act::Refuse(5),
        Act::Refuse(3),
        // The end is closed that writes, or dead that writes, sends or aborts.
        Act::Write(HERE),
        Act::Write(THERE),
        Act::Send(THERE, 9),
        Act::Abort(THERE),
    ];
    all_answer(rt.alloc(), &mut world, Happened::NotEnabled, &barred)?;
    assert!(rt; world.sent() == 10);
    Ok(())
}

#[test]
fn a_position_is_within_reach_below_two_to_the_31(rt: HostRuntime) {
    assert!(rt; is_within(0, Some(0x7fff_ffff)) && !is_within(0, Some(0x8000_0000)));
    assert!(rt; is_within(0x8000_0000, Some(1)) && !is_within(0x8000_0000, Some(0)));
    assert!(rt; is_within(0, None));
}
