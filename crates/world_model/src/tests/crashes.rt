// Takeovers.
use super::*;

/// A request and its answer go through the balancer, and each segment is taken over from an instance that crashes after so
/// many steps.
fn taken_over(alloc: Global, steps: u8) -> Result<World, Fail> {
    let mut world = world(alloc)?;
    happen(alloc, &mut world, &[Act::Open(0)])?;
    pass_on(alloc, &mut world, HERE, steps)?;
    write(alloc, &mut world, HERE, HEAD)?;
    pass_on(alloc, &mut world, HERE, steps)?;
    pass_on(alloc, &mut world, THERE, steps)?;
    write(alloc, &mut world, THERE, &ANSWER)?;
    pass_on(alloc, &mut world, THERE, steps)?;
    Ok(world)
}

#[test]
fn a_crash_after_any_step_loses_nothing(rt: HostRuntime) -> Result<(), Fail> {
    // No handling of these has more than ten steps.
    for steps in 0..11 {
        let world = taken_over(rt.alloc(), steps)?;
        assert!(rt; has_received(&world, &THERE, HEAD), "after {steps} steps");
        assert!(rt; has_received(&world, &HERE, &ANSWER), "after {steps} steps");
    }
    Ok(())
}
