ghost use Rattle.std.specs.Prelude.{◌≡◌, true, IfOk, IsTrue, length};
ghost use Rattle.flow_record.specs.Records.{is_open, is_scale, is_syn, open_server};

use crate::{to_client, to_client_numbers, to_server, to_server_numbers, translations};
use flow_id::Flow;
use flow_record::Record;
use rule_table::{Choices, Rule, Server, Service, Setup, Sizes};
use seq_space::{Blocks, Num};
use std::alloc::{AllocError, Global};
use std::test::Fail;
use tcp_segment::{ACK, Bytes, Head, Options, PSH, RST, Segment, URG, write};

const SIZES: Sizes = Sizes {
    instances: 2,
    replicas: 3,
    copies: 3,
    shards: 4,
    secret: [7; 32],
};

const SERVICE: Service = Service {
    number: 0,
    address: 0xc633_640a,
    port: 80,
};

const CLIENT: Flow = Flow {
    service: 0,
    address: 0xc000_0207,
    port: 40000,
    life: 0,
};

const SYN_RECORD: Record = Record::Syn {
    number: Num(1000),
    mss: 1460,
    window: 64240,
    scale: None,
    sack: false,
};

const OPENED: Record = Record::Open {
    server: 0,
    port: 1027,
    number: Num(9000),
    scale: None,
    sack: false,
};

/// A setup of one server, 10.0.0.1:8080, to which all requests go.
fn setup(alloc: Global) -> Result<Setup, AllocError>
    ensures { IfOk result (λ setup. length setup.servers ≡ 1) }
{
    let mut servers = Vec::new(alloc);
    servers.push(Server {
        address: 0x0a00_0001,
        port: 8080,
    })?;
    let mut rules = Vec::new(alloc);
    rules.push(Rule {
        host: None,
        path: None,
        cookie: None,
        to: Choices::new(Vec::from_slice(alloc, &[(0, 1)])?),
    })?;
    Ok(Setup::make(SIZES, SERVICE, servers, rules))
}

/// A segment of the client to the service.
fn from_client(alloc: Global, ack: u32, flags: u8) -> Segment
    ensures { length result.body ≡ 0 }
{
    Segment {
        source: CLIENT.address,
        target: SERVICE.address,
        head: Head {
            source_port: CLIENT.port,
            target_port: SERVICE.port,
            seq: Num(1001),
            ack: Num(ack),
            flags,
            window: 64240,
            urgent: 0,
            options: Options::none(),
        },
        body: Bytes::new(Vec::new(alloc)),
    }
}

#[test]
#[tactic(auto, unfolding(crate::specs::Translation::to_server_segment))]
fn a_client_acknowledges_in_the_servers_numbers(rt: HostRuntime) -> Result<(), Fail> {
    let setup = setup(rt.alloc())?;
    let seg = from_client(rt.alloc(), 5101, ACK);
    let sent = to_server(&setup, seg, Num(5000), &SYN_RECORD, &OPENED);
    let mut out = Vec::new(rt.alloc());
    write(&sent, &mut out)?;
    let want = [
        0x45, 0, 0, 0x28, 0, 0, 0x40, 0, 0x40, 6, 6, 0x92, 0xc6, 0x33, 0x64, 0x0a, 0x0a, 0, 0, 1,
        4, 3, 0x1f, 0x90, 0, 0, 3, 0xe9, 0, 0, 0x23, 0x8d, 0x50, 0x10, 0xfa, 0xf0, 0x35, 0x9c, 0,
        0,
    ];
    assert_eq!(rt; out.as_slice(), &want[..]);
    to_server_numbers();
    Ok(())
}

#[test]
fn what_is_acknowledged_wraps(rt: HostRuntime) -> Result<(), Fail> {
    let setup = setup(rt.alloc())?;
    let opened = Record::Open {
        server: 0,
        port: 1027,
        number: Num(100),
        scale: None,
        sack: false,
    };
    let seg = from_client(rt.alloc(), 205, ACK);
    assert_eq!(rt;
        to_server(&setup, seg, Num(4294967000), &SYN_RECORD, &opened)
            .head
            .ack,
        Num(601)
    );
    let reset = from_client(rt.alloc(), 205, RST);
    assert_eq!(rt;
        to_server(&setup, reset, Num(4294967000), &SYN_RECORD, &opened)
            .head
            .ack,
        Num(0)
    );
    translations();
    Ok(())
}

#[test]
fn a_server_speaks_in_the_forged_numbers(rt: HostRuntime) -> Result<(), Fail> {
    let setup = setup(rt.alloc())?;
    let seg = Segment {
        source: 0x0a00_0001,
        target: SERVICE.address,
        head: Head {
            source_port: 8080,
            target_port: 1027,
            seq: Num(9001),
            ack: Num(1070),
            flags: 0xc0 | URG | PSH | ACK,
            window: 65160,
            urgent: 5,
            options: Options::none(),
        },
        body: Bytes::new(b"hello".to_vec(rt.alloc())?),
    };
    let sent = to_client(&setup, seg, Num(4294967295), &SYN_RECORD, &OPENED, &CLIENT);
    let want = Head {
        source_port: 80,
        target_port: 40000,
        seq: Num(0),
        ack: Num(1070),
        flags: URG | PSH | ACK,
        window: 65160,
        urgent: 5,
        options: Options::none(),
    };
    assert_eq!(rt; sent.head, want);
    assert_eq!(rt;
        (sent.source, sent.target),
        (SERVICE.address, CLIENT.address)
    );
    assert_eq!(rt; sent.body.as_slice(), b"hello".as_slice());
    to_client_numbers();
    Ok(())
}

fn at_most_14(scale: Option<u8>) -> Option<u8>
    ensures { is_scale result ≡ true }
{
    match scale {
        Some(shift) if shift <= 14 => Some(shift),
        Some(_) => Some(14),
        None => None,
    }
}

/// A Syn and an Open with these scales, 14 where one is larger.
fn scaled(syn: Option<u8>, opened: Option<u8>) -> (Record, Record)
    ensures syn { IsTrue (is_syn result.0) }
    ensures opened { IsTrue (is_open result.1) }
    ensures server { open_server result.1 ≡ 0 }
{
    let syn = Record::Syn {
        number: Num(1000),
        mss: 1460,
        window: 64240,
        scale: at_most_14(syn),
        sack: false,
    };
    let opened = Record::Open {
        server: 0,
        port: 1027,
        number: Num(9000),
        scale: at_most_14(opened),
        sack: false,
    };
    (syn, opened)
}

#[test]
fn windows_are_told_as_they_are_read(rt: HostRuntime) -> Result<(), Fail> {
    let setup = setup(rt.alloc())?;
    for (syn, opened, given, to_the_server, to_the_client) in [
        (Some(7), Some(9), 502, 502, 2008),
        (Some(7), Some(9), 1000, 1000, 4000),
        (Some(7), None, 502, 64256, 3),
        (Some(7), None, 64240, 65535, 501),
        (None, None, 64240, 64240, 64240),
    ] {
        let (syn, opened) = scaled(syn, opened);
        let mut seg = from_client(rt.alloc(), 5101, ACK);
        seg.head.window = given;
        let sent = to_server(&setup, seg, Num(5000), &syn, &opened);
        assert_eq!(rt; sent.head.window, to_the_server);
        let mut seg = from_client(rt.alloc(), 5101, ACK);
        seg.head.window = given;
        let sent = to_client(&setup, seg, Num(5000), &syn, &opened, &CLIENT);
        assert_eq!(rt; sent.head.window, to_the_client);
    }
    Ok(())
}

/// A Syn and an Open of ends that take selective acknowledgments, or do not.
fn permitting(syn: bool, opened: bool) -> (Record, Record)
    ensures syn { IsTrue (is_syn result.0) }
    ensures opened { IsTrue (is_open result.1) }
    ensures server { open_server result.1 ≡ 0 }
{
    let syn = Record::Syn {
        number: Num(1000),
        mss: 1460,
        window: 64240,
        scale: None,
        sack: syn,
    };
    let opened = Record::Open {
        server: 0,
        port: 1027,
        number: Num(9000),
        scale: None,
        sack: opened,
    };
    (syn, opened)
}

#[test]
fn blocks_go_where_both_ends_take_them(rt: HostRuntime) -> Result<(), Fail> {
    let setup = setup(rt.alloc())?;
    let none = Options::none();
    let mut taken = Blocks::none();
    taken.push((Num(5101), Num(5301)));
    let mut moved = Blocks::none();
    moved.push((Num(9101), Num(9301)));
    for (by_client, by_server, to_the_server, to_the_client) in [
        (true, true, moved, taken),
        (true, false, none.sack, none.sack),
        (false, true, none.sack, none.sack),
        (false, false, none.sack, none.sack),
    ] {
        let (syn, opened) = permitting(by_client, by_server);
        let mut seg = from_client(rt.alloc(), 5101, ACK);
        seg.head.options.sack = taken;
        seg.head.options.mss = Some(1460);
        let sent = to_server(&setup, seg, Num(5000), &syn, &opened);
        assert_eq!(rt; sent.head.options.mss, None);
        assert_eq!(rt; sent.head.options.sack.as_slice(), to_the_server.as_slice());
        let mut seg = from_client(rt.alloc(), 5101, ACK);
        seg.head.options.sack = taken;
        let sent = to_client(&setup, seg, Num(5000), &syn, &opened, &CLIENT);
        assert_eq!(rt; sent.head.options.sack.as_slice(), to_the_client.as_slice());
    }
    Ok(())
}
