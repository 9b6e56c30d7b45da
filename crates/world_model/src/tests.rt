// Worlds of one shop, and what happens in them.
ghost use Rattle.std.specs.Prelude.{◌≡◌, ◌∷◌, [], true};
ghost use Rattle.world_model.specs.Clients.{AreClients};

use crate::{At, ClientSpec, Event, Happened, World};
use rule_table::{Choices, Rule, Server, Service, Setup, Sizes, Text};
use seq_space::Num;
use std::alloc::{AllocError, Global};
use std::test::Fail;
use tcp_segment::{ACK, Bytes, FIN, Head, Options, PSH, RST, SYN, Segment};

mod barred;
mod connections;
mod crash_table;
mod crashes;
mod failure_table;
mod faults;
mod generated;
mod memory;
mod strangers;

const CLIENT: ClientSpec = ClientSpec {
    address: 0xc000_0207,
    port: 40000,
    isn: Num(1000),
};

const SIZES: Sizes = Sizes {
    instances: 2,
    replicas: 3,
    copies: 3,
    shards: 4,
    secret: [
        0, 1, 2, 3, 4, 5, 6, 7, 8, 9, 10, 11, 12, 13, 14, 15, 16, 17, 18, 19, 20, 21, 22, 23, 24,
        25, 26, 27, 28, 29, 30, 31,
    ],
};

const SERVICE: Service = Service {
    number: 0,
    address: 0xc633_640a,
    port: 80,
};

const SERVER: Server = Server {
    address: 0x0a00_0001,
    port: 8080,
};

const HEAD: &[u8] =
    b"GET /cart/1 HTTP/1.1\r\nHost: Shop.Example:80\r\nCookie: id=9; beta=1\r\n\r\n";

const ANSWER: [u8; 200] = [7; 200];

/// The shard of the client's flow.
const SHARD: u8 = 3;

/// The first port by which the client's flow asks the first server.
const PORT: u16 = 17163;

const HERE: At = At::Client(0);

const THERE: At = At::Server {
    server: 0,
    port: PORT,
};

/// The server's end towards the next port by which the client's flow asks it.
const BESIDE: At = At::Server {
    server: 0,
    port: PORT + 4,
};

/// An end that is not there.
const NOWHERE: At = At::Server {
    server: 1,
    port: PORT,
};

/// Two instances, three replicas, each of which has every record, four shards and one server, to which the requests for the
/// cart go.
fn shop(alloc: Global) -> Result<Setup, AllocError> {
    let mut servers = Vec::new(alloc);
    servers.push(SERVER)?;
    let mut rules = Vec::new(alloc);
    rules.push(Rule {
        host: None,
        path: Some(Text::new(Vec::from_slice(alloc, b"/cart")?)),
        cookie: None,
        to: Choices::new(Vec::from_slice(alloc, &[(0, 1)])?),
    })?;
    Ok(Setup::make(SIZES, SERVICE, servers, rules))
}

/// Whether the client is neither the service nor a server.
fn is_client(setup: &Setup) -> bool
    ensures { result ≡ true → AreClients setup.now (CLIENT ∷ []) }
{
    setup.service().address != CLIENT.address
        && setup.server_at(CLIENT.address, CLIENT.port).is_none()
}

/// A world with one client, if it may be one.
fn shop_world(alloc: Global) -> Result<Option<World>, AllocError> {
    let setup = shop(alloc)?;
    if !is_client(&setup) {
        return Ok(None);
    }
    let mut clients = Vec::new(alloc);
    clients.push(CLIENT)?;
    Ok(Some(World::new(alloc, setup, clients)?))
}

/// A world with one client, made once more where memory was refused.
fn world(alloc: Global) -> Result<World, Fail> {
    let made = match shop_world(alloc) {
        Ok(made) => made,
        Err(AllocError) => shop_world(alloc)?,
    };
    match made {
        Some(world) => Ok(world),
        None => Err("the client is the service, or a server".into()),
    }
}

/// What is to happen, as a value that can be copied: what is written is empty, and the first server is the one that refuses.
#[derive(Clone, Copy)]
enum Act {
    Open(u32),
    Write(At),
    Close(At),
    Send(At, u16),
    Abort(At),
    Deliver(At, u64),
    Refuse(u64),
    /// A segment from this address and port to this port of the service, with these flags.
    Stray(u32, u16, u16, u8),
    Take(u16, u64),
    Step(u16, u8),
    Crash(u16),
    Fail(u8),
}

/// A segment without data to this port of the service.
fn segment(alloc: Global, source: u32, source_port: u16, target_port: u16, flags: u8) -> Segment {
    Segment {
        source,
        target: SERVICE.address,
        head: Head {
            source_port,
            target_port,
            seq: Num(5),
            ack: Num(0),
            flags,
            window: 64240,
            urgent: 0,
            options: Options::none(),
        },
        body: Bytes::new(Vec::new(alloc)),
    }
}

fn event_of(alloc: Global, act: Act) -> Event {
    match act {
        Act::Open(client) => Event::Open(client),
        Act::Write(at) => Event::Write(at, Bytes::new(Vec::new(alloc))),
        Act::Close(at) => Event::Close(at),
        Act::Send(at, size) => Event::Send(at, size),
        Act::Abort(at) => Event::Abort(at),
        Act::Deliver(at, index) => Event::TakeAt {
            at,
            index,
            isn: Num(70000),
        },
        Act::Refuse(index) => Event::Refuse {
            server: 0,
            port: PORT,
            index,
        },
        Act::Stray(source, port, target, flags) => {
            Event::Stray(segment(alloc, source, port, target, flags))
        }
        Act::Take(instance, index) => Event::Take { instance, index },
        Act::Step(instance, shard) => Event::Step { instance, shard },
        Act::Crash(instance) => Event::Crash { instance },
        Act::Fail(replica) => Event::Fail { replica },
    }
}

/// Makes the event, once more where memory was refused: then the world has to be as before.
fn made(world: &mut World, event: &Event) -> Result<Happened, Fail> {
    let sent = world.sent();
    match world.step(event) {
        Ok(happened) => Ok(happened),
        Err(AllocError) if world.sent() == sent => Ok(world.step(event)?),
        Err(AllocError) => Err("a refused allocation has changed the world".into()),
    }
}

/// Makes each of these events, and fails at the first that is not answered so.
fn all_answer(
    alloc: Global,
    world: &mut World,
    answer: Happened,
    acts: &[Act],
) -> Result<(), Fail> {
    for act in acts {
        if made(world, &event_of(alloc, *act))? != answer {
            return Err("an event is answered otherwise".into());
        }
    }
    Ok(())
}

/// The events can happen one after the other, and do.
fn happen(alloc: Global, world: &mut World, acts: &[Act]) -> Result<(), Fail> {
    all_answer(alloc, world, Happened::Done, acts)
}

/// The end writes these bytes.
fn write(alloc: Global, world: &mut World, at: At, data: &[u8]) -> Result<(), Fail> {
    let bytes = Bytes::new(Vec::from_slice(alloc, data)?);
    match made(world, &Event::Write(at, bytes))? {
        Happened::Done => Ok(()),
        Happened::NotEnabled => Err("the end cannot write".into()),
    }
}

/// An instance takes the segment with this index, and its job makes so many steps.
fn handle(
    alloc: Global,
    world: &mut World,
    instance: u16,
    index: u64,
    steps: u8,
) -> Result<(), Fail> {
    happen(alloc, world, &[Act::Take(instance, index)])?;
    for _step in 0..steps {
        happen(alloc, world, &[Act::Step(instance, SHARD)])?;
    }
    Ok(())
}

/// The flags, the number and the acknowledgment of the segment with this index, and how much data it has.
fn brief(world: &World, index: u64) -> (u8, u32, u32, usize) {
    match world.segment(index) {
        Some(segment) => (
            segment.head.flags,
            segment.head.seq.0,
            segment.head.ack.0,
            segment.body.as_slice().len(),
        ),
        None => (0, 0, 0, 0),
    }
}

/// Whether the end has received just this.
fn has_received(world: &World, at: &At, wanted: &[u8]) -> bool {
    match world.end(at) {
        Some(end) => end.received() == wanted,
        None => wanted.is_empty(),
    }
}

/// The client asks, and a server is asked to accept: segments 0 to 3.
fn asked(alloc: Global, world: &mut World) -> Result<(), Fail> {
    happen(alloc, world, &[Act::Open(0), Act::Send(HERE, 1460)])?;
    handle(alloc, world, 1, 0, 3)?;
    happen(alloc, world, &[Act::Deliver(HERE, 1)])?;
    write(alloc, world, HERE, HEAD)?;
    happen(alloc, world, &[Act::Send(HERE, 1460)])?;
    handle(alloc, world, 1, 2, 10)
}

/// The server accepts, and is sent the client's request: segments 4 to 6.
fn accepted(alloc: Global, world: &mut World) -> Result<(), Fail> {
    asked(alloc, world)?;
    let accepts = [Act::Deliver(THERE, 3), Act::Send(THERE, 1460)];
    happen(alloc, world, &accepts)?;
    handle(alloc, world, 1, 4, 9)
}

/// The server answers with 200 bytes, which the instance that opened the connection passes on as it takes them: segments 7
/// and 8.
fn answered(alloc: Global, world: &mut World) -> Result<(), Fail> {
    write(alloc, world, THERE, &ANSWER)?;
    happen(
        alloc,
        world,
        &[
            Act::Send(THERE, 1460),
            Act::Take(1, 7),
            Act::Deliver(HERE, 8),
        ],
    )
}

/// The end sends. The instance that takes it crashes after so many steps, the other instance takes it again, and each end
/// takes what has been sent to it since.
fn pass_on(alloc: Global, world: &mut World, from: At, steps: u8) -> Result<(), Fail> {
    let index = world.sent();
    happen(alloc, world, &[Act::Send(from, 1460)])?;
    let first = world.sent();
    handle(alloc, world, 1, index, steps)?;
    happen(alloc, world, &[Act::Crash(1)])?;
    handle(alloc, world, 0, index, 30)?;
    for sent in first..world.sent() {
        for at in [HERE, THERE, BESIDE] {
            made(world, &event_of(alloc, Act::Deliver(at, sent)))?;
        }
    }
    Ok(())
}
