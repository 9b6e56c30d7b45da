use crate::{fin_record, reset_for, reset_numbers, turned, turned_numbers};
use flow_id::{Flow, Side, marks_of};
use flow_record::Record;
use rule_table::{Choices, Rule, Server, Service, Setup, Sizes};
use seq_space::Num;
use std::alloc::{AllocError, Global};
use std::test::Fail;
use tcp_segment::{ACK, Bytes, FIN, Head, Options, PSH, RST, Segment, write};

const SIZES: Sizes = Sizes {
    instances: 2,
    replicas: 3,
    copies: 3,
    shards: 4,
    secret: [7; 32],
};

const SERVICE: Service = Service {
    number: 0,
    address: 0xc633_640a,
    port: 80,
};

const CLIENT: Flow = Flow {
    service: 0,
    address: 0xc000_0207,
    port: 40000,
    life: 0,
};

/// A setup of one server, 10.0.0.1:8080, to which all requests go.
fn setup(alloc: Global) -> Result<Setup, AllocError> {
    let mut servers = Vec::new(alloc);
    servers.push(Server {
        address: 0x0a00_0001,
        port: 8080,
    })?;
    let mut rules = Vec::new(alloc);
    rules.push(Rule {
        host: None,
        path: None,
        cookie: None,
        to: Choices::new(Vec::from_slice(alloc, &[(0, 1)])?),
    })?;
    Ok(Setup::make(SIZES, SERVICE, servers, rules))
}

/// A segment of the client to the service.
fn from_client(alloc: Global, seq: u32, flags: u8, body: &[u8]) -> Result<Segment, AllocError> {
    Ok(Segment {
        source: CLIENT.address,
        target: SERVICE.address,
        head: Head {
            source_port: CLIENT.port,
            target_port: SERVICE.port,
            seq: Num(seq),
            ack: Num(777),
            flags,
            window: 64240,
            urgent: 0,
            options: Options::none(),
        },
        body: Bytes::new(Vec::from_slice(alloc, body)?),
    })
}

#[test]
#[tactic(auto, unfolding(crate::specs::Closing::reset_back))]
fn what_belongs_to_nothing_is_reset(rt: HostRuntime) -> Result<(), Fail> {
    let seg = from_client(rt.alloc(), 1001, PSH | ACK, b"GET")?;
    let Some(reset) = reset_for(rt.alloc(), &seg) else {
        panic!(rt; "no reset");
    };
    let mut out = Vec::new(rt.alloc());
    write(&reset, &mut out)?;
    let want = [
        0x45, 0, 0, 0x28, 0, 0, 0x40, 0, 0x40, 6, 0x4e, 0x8b, 0xc6, 0x33, 0x64, 0x0a, 0xc0, 0, 2,
        7, 0, 0x50, 0x9c, 0x40, 0, 0, 3, 9, 0, 0, 0, 0, 0x50, 4, 0, 0, 0x24, 2, 0, 0,
    ];
    assert_eq!(rt; out.as_slice(), &want[..]);
    reset_numbers();
    Ok(())
}

#[test]
fn no_reset_is_answered(rt: HostRuntime) -> Result<(), Fail> {
    for flags in [RST, RST | ACK, PSH, FIN] {
        let seg = from_client(rt.alloc(), 1001, flags, b"")?;
        assert!(rt; reset_for(rt.alloc(), &seg).is_none());
    }
    Ok(())
}

#[test]
fn a_client_is_turned_away_behind_the_forged_number(rt: HostRuntime) -> Result<(), Fail> {
    let setup = setup(rt.alloc())?;
    let forged = marks_of(setup.secret(), &CLIENT).forged;
    let reset = turned(rt.alloc(), &setup, &CLIENT, Num(forged));
    let want = Head {
        source_port: 80,
        target_port: 40000,
        seq: Num(forged.wrapping_add(1)),
        ack: Num(0),
        flags: RST,
        window: 0,
        urgent: 0,
        options: Options::none(),
    };
    assert_eq!(rt; reset.head, want);
    assert_eq!(rt;
        (reset.source, reset.target),
        (SERVICE.address, CLIENT.address)
    );
    assert!(rt; reset.body.as_slice().is_empty());
    turned_numbers();
    Ok(())
}

#[test]
fn a_fin_stands_behind_the_data(rt: HostRuntime) -> Result<(), Fail> {
    for (seq, body, number) in [(1070, b"".as_slice(), 1070), (4294967294, b"data", 2)] {
        let seg = from_client(rt.alloc(), seq, FIN | ACK, body)?;
        let want = Record::Fin {
            side: Side::Client,
            number: Num(number),
        };
        assert_eq!(rt; fin_record(Side::Client, &seg), want);
    }
    Ok(())
}
