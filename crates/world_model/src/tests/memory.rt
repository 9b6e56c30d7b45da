// Each call that takes memory, once. By hand the test is run with one allocation refused after the other, and passes still.
use super::*;
use crate::{Summary, drive};

/// The summary of a small run, made once more where memory was refused.
fn summary_at_last(alloc: Global) -> Result<Summary, AllocError> {
    match drive(alloc, 1, 10, 3) {
        Ok(summary) => Ok(summary),
        Err(AllocError) => drive(alloc, 1, 10, 3),
    }
}

#[test]
fn a_refused_allocation_changes_nothing(rt: HostRuntime) -> Result<(), Fail> {
    let alloc = rt.alloc();
    let mut world = world(alloc)?;
    asked(alloc, &mut world)?;
    let acts = [
        Act::Stray(9, 9, 80, SYN),
        Act::Refuse(3),
        Act::Deliver(THERE, 3),
    ];
    happen(alloc, &mut world, &acts)?;
    happen(alloc, &mut world, &[Act::Send(THERE, 9), Act::Abort(THERE)])?;
    assert!(rt; world.sent() == 8);
    assert!(rt; brief(&world, 5) == (RST + ACK, 0, 1001, 0));
    assert!(rt; brief(&world, 6) == (SYN + ACK, 70000, 1001, 0));
    let summary = summary_at_last(alloc)?;
    assert!(rt; summary.to_servers == 46 && summary.to_clients == 10);
    Ok(())
}
