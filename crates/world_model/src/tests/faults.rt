// A connection is opened, and after one of the steps something goes wrong.
use super::*;

/// The most steps of a handling: eleven asks of three cells.
pub(super) const MOST: u32 = 33;

/// What the balancer takes until the server has the request, by index: the client's SYN, its request, and the server's answer
/// to the SYN for it.
pub(super) const TAKEN: [u64; 3] = [0, 2, 4];

/// What goes wrong, and when: after so many steps of the handling of the segment with this index.
#[derive(Clone, Copy)]
pub(super) struct Fault {
    pub(super) index: u64,
    pub(super) steps: u32,
    pub(super) act: Act,
}

impl Fault {
    /// Whether an instance crashes.
    fn is_crash(&self) -> bool {
        matches!(self.act, Act::Crash(_))
    }
}

/// The instance takes the segment with this index and makes steps until something is sent for it, which it answers the number
/// of. The fault comes after the step that it names; where the job is lost by it, so many steps as there can be are made.
fn handle_under(
    alloc: Global,
    world: &mut World,
    instance: u16,
    index: u64,
    fault: Option<Fault>,
) -> Result<u32, Fail> {
    let sent = world.sent();
    happen(alloc, world, &[Act::Take(instance, index)])?;
    for steps in 0..MOST {
        match fault {
            Some(fault) if fault.index == index && fault.steps == steps => {
                happen(alloc, world, &[fault.act])?;
            }
            _ => {}
        }
        if world.sent() > sent {
            return Ok(steps);
        }
        happen(alloc, world, &[Act::Step(instance, SHARD)])?;
    }
    Ok(MOST)
}

/// The segment with this index is handled to its end, by instance 1 until it has crashed and by instance 0 from then on.
fn handle_whole(
    alloc: Global,
    world: &mut World,
    index: u64,
    fault: Option<Fault>,
) -> Result<u32, Fail> {
    let sent = world.sent();
    let crash = match fault {
        Some(fault) if fault.is_crash() => Some(fault.index),
        _ => None,
    };
    let instance = if crash.is_some_and(|at| at < index) {
        0
    } else {
        1
    };
    let mut steps = handle_under(alloc, world, instance, index, fault)?;
    if world.sent() == sent && crash == Some(index) {
        steps = handle_under(alloc, world, 0, index, None)?;
    }
    if world.sent() == sent {
        return Err("nothing is sent for a segment".into());
    }
    Ok(steps)
}

/// The client asks and the server is sent its request, under the fault: how many steps each handling has.
pub(super) fn ask_under(
    alloc: Global,
    world: &mut World,
    fault: Option<Fault>,
) -> Result<[u32; 3], Fail> {
    happen(alloc, world, &[Act::Open(0), Act::Send(HERE, 1460)])?;
    let first = handle_whole(alloc, world, 0, fault)?;
    happen(alloc, world, &[Act::Deliver(HERE, 1)])?;
    write(alloc, world, HERE, HEAD)?;
    happen(alloc, world, &[Act::Send(HERE, 1460)])?;
    let second = handle_whole(alloc, world, 2, fault)?;
    let accepts = [Act::Deliver(THERE, 3), Act::Send(THERE, 1460)];
    happen(alloc, world, &accepts)?;
    let third = handle_whole(alloc, world, 4, fault)?;
    // An instance that holds nothing of the request sends the acknowledgment alone.
    for sent in 5..world.sent() {
        made(world, &event_of(alloc, Act::Deliver(THERE, sent)))?;
    }
    Ok([first, second, third])
}

/// Adds that a fault may come before the first step of the handling of the segment with this index, and after each.
fn add_places(places: &mut Vec<(u64, u32)>, index: u64, most: u32) -> Result<(), Fail> {
    for steps in 0..=most {
        places.push((index, steps))?;
    }
    Ok(())
}

/// After how many steps of which segment's handling a fault may come: all that there are without one.
pub(super) fn places(alloc: Global) -> Result<Vec<(u64, u32)>, Fail> {
    let steps = ask_under(alloc, &mut world(alloc)?, None)?;
    let mut places = Vec::new(alloc);
    for (index, most) in TAKEN.into_iter().zip(steps) {
        add_places(&mut places, index, most)?;
    }
    Ok(places)
}
