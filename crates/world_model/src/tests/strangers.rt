// Strangers, who send what they like.
use super::*;

/// A stranger whose flow asks the first server by the same port as the client's.
const STRANGER: (u32, u16) = (0xcb00_7101, 19790);

/// The number that the balancer answers the stranger's SYN with.
const FORGED: u32 = 2_911_545_537;

const OTHER_HEAD: &[u8] = b"GET /cart/2 HTTP/1.1\r\n\r\n";

/// A segment of the stranger with these bytes.
fn strange(alloc: Global, flags: u8, ack: u32, data: &[u8]) -> Result<Event, Fail> {
    let mut segment = segment(alloc, STRANGER.0, STRANGER.1, SERVICE.port, flags);
    segment.head.seq = if flags == SYN { Num(5) } else { Num(6) };
    segment.head.ack = Num(ack);
    segment.body = Bytes::new(Vec::from_slice(alloc, data)?);
    Ok(Event::Stray(segment))
}

/// The stranger asks first, and a server's end is made for it at the port that the client would have had: segments 0 to 5.
fn stranger_first(alloc: Global, world: &mut World) -> Result<(), Fail> {
    made(world, &strange(alloc, SYN, 0, b"")?)?;
    handle(alloc, world, 1, 0, 3)?;
    made(
        world,
        &strange(alloc, PSH + ACK, FORGED.wrapping_add(1), OTHER_HEAD)?,
    )?;
    handle(alloc, world, 1, 2, 10)?;
    happen(alloc, world, &[Act::Deliver(THERE, 3)])?;
    pass_on(alloc, world, THERE, 30)
}

#[test]
fn a_port_that_a_stranger_has_is_not_the_clients(rt: HostRuntime) -> Result<(), Fail> {
    let alloc = rt.alloc();
    let mut world = world(alloc)?;
    stranger_first(alloc, &mut world)?;
    happen(alloc, &mut world, &[Act::Open(0)])?;
    pass_on(alloc, &mut world, HERE, 2)?;
    write(alloc, &mut world, HERE, HEAD)?;
    pass_on(alloc, &mut world, HERE, 7)?;
    pass_on(alloc, &mut world, BESIDE, 4)?;
    write(alloc, &mut world, BESIDE, &ANSWER)?;
    write(alloc, &mut world, THERE, b"for the stranger")?;
    pass_on(alloc, &mut world, THERE, 3)?;
    pass_on(alloc, &mut world, BESIDE, 3)?;
    assert!(rt; has_received(&world, &THERE, OTHER_HEAD));
    assert!(rt; has_received(&world, &BESIDE, HEAD));
    assert!(rt; has_received(&world, &HERE, &ANSWER));
    Ok(())
}
