// A connection from its first segment on.
use super::*;

#[test]
fn a_request_and_its_answer_arrive(rt: HostRuntime) -> Result<(), Fail> {
    let mut world = world(rt.alloc())?;
    accepted(rt.alloc(), &mut world)?;
    // The last is taken twice, and changes no end the second time.
    let taken = [
        Act::Deliver(THERE, 5),
        Act::Deliver(THERE, 6),
        Act::Deliver(THERE, 6),
    ];
    happen(rt.alloc(), &mut world, &taken)?;
    assert!(rt; world.sent() == 7);
    assert!(rt; brief(&world, 3) == (SYN, 1000, 0, 0));
    assert!(rt; brief(&world, 4) == (SYN + ACK, 70000, 1001, 0));
    assert!(rt; brief(&world, 5) == (ACK, 1001, 70001, 0));
    assert!(rt; brief(&world, 6) == (PSH + ACK, 1001, 70001, 69));
    assert!(rt; has_received(&world, &THERE, HEAD) && has_received(&world, &HERE, b""));
    answered(rt.alloc(), &mut world)?;
    assert!(rt; world.sent() == 9 && has_received(&world, &HERE, &ANSWER));
    Ok(())
}

/// The other instance takes a request that came long ago, crashes, loses the server's answer in a second crash, and takes it
/// again, while two replicas fail: segments 7 to 9.
fn taken_over(alloc: Global, world: &mut World) -> Result<(), Fail> {
    handle(alloc, world, 0, 2, 20)?;
    write(alloc, world, THERE, b"yes")?;
    let lost = [
        Act::Deliver(THERE, 7),
        Act::Close(THERE),
        Act::Send(THERE, 2),
        Act::Crash(0),
        Act::Take(0, 8),
        Act::Crash(0),
        Act::Fail(0),
        Act::Fail(2),
    ];
    happen(alloc, world, &lost)?;
    handle(alloc, world, 0, 8, 20)?;
    happen(alloc, world, &[Act::Deliver(HERE, 9)])
}

#[test]
fn segments_are_taken_twice_and_late(rt: HostRuntime) -> Result<(), Fail> {
    let mut world = world(rt.alloc())?;
    accepted(rt.alloc(), &mut world)?;
    // The data before the acknowledgment that was sent first, the data again, and the SYN once more.
    let late = [
        Act::Deliver(THERE, 6),
        Act::Deliver(THERE, 5),
        Act::Deliver(THERE, 6),
        Act::Deliver(THERE, 3),
    ];
    happen(rt.alloc(), &mut world, &late)?;
    assert!(rt; has_received(&world, &THERE, HEAD));
    taken_over(rt.alloc(), &mut world)?;
    assert!(rt; brief(&world, 7) == (ACK, 1001, 70001, 69));
    assert!(rt; has_received(&world, &THERE, HEAD) && has_received(&world, &HERE, b"ye"));
    assert!(rt; world.sent() == 10);
    Ok(())
}

#[test]
fn a_refused_client_is_reset(rt: HostRuntime) -> Result<(), Fail> {
    let mut world = world(rt.alloc())?;
    asked(rt.alloc(), &mut world)?;
    happen(rt.alloc(), &mut world, &[Act::Refuse(3)])?;
    assert!(rt; brief(&world, 4) == (RST + ACK, 0, 1001, 0));
    handle(rt.alloc(), &mut world, 1, 4, 20)?;
    happen(rt.alloc(), &mut world, &[Act::Deliver(HERE, 5)])?;
    match world.end(&HERE) {
        Some(end) => assert!(rt; end.dead()),
        None => return Err("there is no client".into()),
    }
    Ok(())
}
