use crate::{syn_ack, syn_ack_numbers, syn_record};
use flow_id::{Flow, marks_of};
use flow_record::Record;
use rule_table::{Choices, Rule, Server, Service, Setup, Sizes};
use seq_space::Num;
use std::alloc::{AllocError, Global};
use std::test::Fail;
use tcp_segment::{ACK, Head, Options, SYN, write};

const SIZES: Sizes = Sizes {
    instances: 2,
    replicas: 3,
    copies: 3,
    shards: 4,
    secret: [
        0, 1, 2, 3, 4, 5, 6, 7, 8, 9, 10, 11, 12, 13, 14, 15, 16, 17, 18, 19, 20, 21, 22, 23, 24,
        25, 26, 27, 28, 29, 30, 31,
    ],
};

const SERVICE: Service = Service {
    number: 0,
    address: 0xc633_640a,
    port: 80,
};

const CLIENT: Flow = Flow {
    service: 0,
    address: 0xc000_0207,
    port: 40000,
    life: 0,
};

/// A setup of one server, to which all requests go.
fn setup(alloc: Global) -> Result<Setup, AllocError> {
    let mut servers = Vec::new(alloc);
    servers.push(Server {
        address: 0x0a00_0001,
        port: 8080,
    })?;
    let mut rules = Vec::new(alloc);
    rules.push(Rule {
        host: None,
        path: None,
        cookie: None,
        to: Choices::new(Vec::from_slice(alloc, &[(0, 1)])?),
    })?;
    Ok(Setup::make(SIZES, SERVICE, servers, rules))
}

/// The header of the client's SYN.
fn syn(options: Options) -> Head {
    Head {
        source_port: 40000,
        target_port: 80,
        seq: Num(1000),
        ack: Num(0),
        flags: SYN,
        window: 64240,
        urgent: 0,
        options,
    }
}

#[test]
fn a_syn_is_kept_with_its_options(rt: HostRuntime) {
    let none = Options::none();
    let given = Options {
        mss: Some(1400),
        scale: Some(7),
        sack_permitted: true,
        ..none
    };
    let wide = Options {
        scale: Some(15),
        ..none
    };
    for (options, mss, scale, sack) in [
        (none, 536, None, false),
        (given, 1400, Some(7), true),
        (wide, 536, Some(14), false),
    ] {
        let record = Record::Syn {
            number: Num(1000),
            mss,
            window: 64240,
            scale,
            sack,
        };
        assert_eq!(rt; syn_record(&syn(options)), record);
    }
}

#[test]
fn options_are_answered_where_the_client_has_them(rt: HostRuntime) -> Result<(), Fail> {
    let setup = setup(rt.alloc())?;
    for (scale, own, permits) in [
        (None, None, false),
        (None, None, true),
        (Some(0), Some(7), false),
        (Some(14), Some(7), true),
    ] {
        let given = Options {
            scale,
            sack_permitted: permits,
            ..Options::none()
        };
        let answer = syn_ack(rt.alloc(), &setup, &CLIENT, &syn_record(&syn(given)));
        assert_eq!(rt; answer.head.options.scale, own);
        assert_eq!(rt; answer.head.options.sack_permitted, permits);
        assert_eq!(rt; answer.head.options.mss, Some(1460));
        assert_eq!(rt; answer.head.window, 14600);
    }
    Ok(())
}

#[test]
#[tactic(auto, unfolding(crate::specs::SynAck::syn_ack_segment))]
fn a_syn_is_answered_with_the_forged_number(rt: HostRuntime) -> Result<(), Fail> {
    let setup = setup(rt.alloc())?;
    let record = syn_record(&syn(Options::none()));
    let answer = syn_ack(rt.alloc(), &setup, &CLIENT, &record);
    let want = Head {
        source_port: 80,
        target_port: 40000,
        seq: Num(marks_of(&SIZES.secret, &CLIENT).forged),
        ack: Num(1001),
        flags: SYN | ACK,
        window: 14600,
        urgent: 0,
        options: Options {
            mss: Some(1460),
            ..Options::none()
        },
    };
    assert_eq!(rt; answer.head, want);
    let mut out = Vec::new(rt.alloc());
    write(&answer, &mut out)?;
    let start = [
        0x45, 0, 0, 0x2c, 0, 0, 0x40, 0, 0x40, 6, 0x4e, 0x87, 0xc6, 0x33, 0x64, 0x0a, 0xc0, 0, 2, 7,
    ];
    assert!(rt; out.starts_with(&start));
    assert_eq!(rt; out.len(), 44);
    syn_ack_numbers();
    Ok(())
}

#[test]
fn the_acknowledgment_wraps(rt: HostRuntime) -> Result<(), Fail> {
    let setup = setup(rt.alloc())?;
    let last = Head {
        seq: Num(4294967295),
        ..syn(Options::none())
    };
    let answer = syn_ack(rt.alloc(), &setup, &CLIENT, &syn_record(&last));
    assert_eq!(rt; answer.head.ack, Num(0));
    assert!(rt; answer.body.as_slice().is_empty());
    Ok(())
}
