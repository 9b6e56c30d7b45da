ghost use Rattle.std.specs.Prelude.{◌≡◌, true, IfOk, IsTrue, length};
ghost use Rattle.flow_record.specs.Records.{is_open, is_scale, is_syn, open_server};

use crate::{choose, chosen_is_admitted, opening, opening_numbers, server_syn, server_syn_numbers};
use flow_record::Record;
use http_head::{HeadRead, head};
use rule_table::{Choices, Rule, Server, Service, Setup, Sizes, Text};
use seq_space::Num;
use std::alloc::{AllocError, Global};
use std::test::Fail;
use tcp_segment::{ACK, Head, Options, Outs, PSH, SYN, Segment};

const SIZES: Sizes = Sizes {
    instances: 2,
    replicas: 3,
    copies: 3,
    shards: 4,
    secret: [7; 32],
};

const SERVICE: Service = Service {
    number: 0,
    address: 0xc633_640a,
    port: 80,
};

const SYN_RECORD: Record = Record::Syn {
    number: Num(1000),
    mss: 1460,
    window: 64240,
    scale: None,
    sack: false,
};

const OPENED: Record = Record::Open {
    server: 0,
    port: 2047,
    number: Num(70000),
    scale: None,
    sack: false,
};

/// The head of a request for the cart, 69 bytes.
const CART: &[u8] =
    b"GET /cart/1 HTTP/1.1\r\nHost: Shop.Example:80\r\nCookie: id=9; beta=1\r\n\r\n";

/// A setup of two servers. The first rule gives the first of them no weight, the second gives them 1 and 3.
fn setup(alloc: Global) -> Result<Setup, AllocError>
    ensures { IfOk result (λ setup. length setup.servers ≡ 2) }
{
    let mut servers = Vec::new(alloc);
    servers.push(Server {
        address: 0x0a00_0001,
        port: 8080,
    })?;
    servers.push(Server {
        address: 0x0a00_0002,
        port: 8080,
    })?;
    let mut rules = Vec::new(alloc);
    rules.push(Rule {
        host: None,
        path: Some(Text::new(Vec::from_slice(alloc, b"/cart")?)),
        cookie: None,
        to: Choices::new(Vec::from_slice(alloc, &[(0, 0), (1, 1)])?),
    })?;
    rules.push(Rule {
        host: None,
        path: Some(Text::new(Vec::from_slice(alloc, b"/shop")?)),
        cookie: None,
        to: Choices::new(Vec::from_slice(alloc, &[(0, 1), (1, 3)])?),
    })?;
    Ok(Setup::make(SIZES, SERVICE, servers, rules))
}

/// What is chosen for the request that these bytes begin with.
fn chosen(setup: &Setup, held: &[u8], draw: u64) -> Option<Record> {
    let HeadRead::Complete(found) = head(held) else {
        return None;
    };
    choose(setup, held, &found, draw)
}

#[test]
fn the_draw_picks_a_server_of_the_matching_rule(rt: HostRuntime) -> Result<(), Fail> {
    let setup = setup(rt.alloc())?;
    let shop = b"GET /shop HTTP/1.1\r\n\r\n".as_slice();
    for (held, draw, server, rule) in [
        (CART, 4, 1, 0),
        (CART, 5, 1, 0),
        (shop, 4, 0, 1),
        (shop, 5, 1, 1),
    ] {
        let choice = Some(Record::Choice { server, rule });
        assert_eq!(rt; chosen(&setup, held, draw), choice, "at {draw}");
    }
    assert_eq!(rt; chosen(&setup, b"GET / HTTP/1.1\r\n\r\n", 4), None);
    chosen_is_admitted();
    Ok(())
}

#[test]
fn the_server_is_sent_the_clients_syn(rt: HostRuntime) -> Result<(), Fail> {
    let setup = setup(rt.alloc())?;
    let sent = server_syn(rt.alloc(), &setup, &SYN_RECORD, 0, 2047);
    let want = Head {
        source_port: 2047,
        target_port: 8080,
        seq: Num(1000),
        ack: Num(0),
        flags: SYN,
        window: 64240,
        urgent: 0,
        options: Options {
            mss: Some(1460),
            ..Options::none()
        },
    };
    assert_eq!(rt; sent.head, want);
    assert_eq!(rt; (sent.source, sent.target), (SERVICE.address, 0x0a00_0001));
    server_syn_numbers();
    Ok(())
}

/// The number, flags and bytes of a segment.
fn shown(segment: &Segment) -> (u32, u8, &[u8]) {
    (
        segment.head.seq.0,
        segment.head.flags,
        segment.body.as_slice(),
    )
}

#[test]
fn a_head_that_fits_is_one_piece(rt: HostRuntime) -> Result<(), Fail> {
    let setup = setup(rt.alloc())?;
    let outs = opening(rt.alloc(), &setup, &SYN_RECORD, &OPENED, Some(1460), CART)?;
    let [acknowledgment, piece] = outs.as_slice() else {
        panic!(rt; "not two segments");
    };
    let want = Head {
        source_port: 2047,
        target_port: 8080,
        seq: Num(1001),
        ack: Num(70001),
        flags: ACK,
        window: 64240,
        urgent: 0,
        options: Options::none(),
    };
    assert_eq!(rt; acknowledgment.head, want);
    assert!(rt; acknowledgment.body.as_slice().is_empty());
    assert_eq!(rt;
        piece.head,
        Head {
            flags: PSH | ACK,
            ..want
        }
    );
    assert_eq!(rt; piece.body.as_slice(), CART);
    opening_numbers();
    Ok(())
}

/// The segments that open a connection to a server with a maximum segment size of 40, behind the acknowledgment.
fn pieces(outs: &Outs) -> &[Segment] {
    match outs.as_slice() {
        [_, pieces @ ..] => pieces,
        [] => &[],
    }
}

#[test]
fn a_longer_head_is_cut(rt: HostRuntime) -> Result<(), Fail> {
    let setup = setup(rt.alloc())?;
    let held = [b'a'; 700];
    let three = opening(
        rt.alloc(),
        &setup,
        &SYN_RECORD,
        &OPENED,
        Some(40),
        &held[..150],
    )?;
    let [first, second, third] = pieces(&three) else {
        panic!(rt; "not three pieces");
    };
    assert_eq!(rt; shown(first), (1001, ACK, &held[..64]));
    assert_eq!(rt; shown(second), (1065, ACK, &held[..64]));
    assert_eq!(rt; shown(third), (1129, PSH | ACK, &held[..22]));
    let ten = opening(rt.alloc(), &setup, &SYN_RECORD, &OPENED, Some(40), &held)?;
    assert_eq!(rt; pieces(&ten).len(), 10);
    assert_eq!(rt;
        pieces(&ten).last().map(shown),
        Some((1577, PSH | ACK, &held[..64]))
    );
    Ok(())
}

/// A Syn and an Open with these scales, 14 where one is larger.
fn scaled(syn: Option<u8>, opened: Option<u8>) -> (Record, Record)
    ensures syn { IsTrue (is_syn result.0) }
    ensures opened { IsTrue (is_open result.1) }
    ensures server { open_server result.1 ≡ 0 }
{
    let syn = Record::Syn {
        number: Num(1000),
        mss: 1460,
        window: 64240,
        scale: at_most_14(syn),
        sack: false,
    };
    let opened = Record::Open {
        server: 0,
        port: 2047,
        number: Num(70000),
        scale: at_most_14(opened),
        sack: false,
    };
    (syn, opened)
}

fn at_most_14(scale: Option<u8>) -> Option<u8>
    ensures { is_scale result ≡ true }
{
    match scale {
        Some(shift) if shift <= 14 => Some(shift),
        Some(_) => Some(14),
        None => None,
    }
}

#[test]
fn the_server_is_told_the_window_by_its_own_reading(rt: HostRuntime) -> Result<(), Fail> {
    let setup = setup(rt.alloc())?;
    for (syn, opened, window) in [
        (Some(7), Some(9), 501),
        (Some(7), None, 64240),
        (None, Some(9), 64240),
    ] {
        let (syn, opened) = scaled(syn, opened);
        let outs = opening(rt.alloc(), &setup, &syn, &opened, Some(1460), CART)?;
        for out in outs.as_slice() {
            assert_eq!(rt; out.head.window, window);
            assert_eq!(rt; out.head.options, Options::none());
        }
    }
    let (syn, _) = scaled(Some(7), None);
    let sent = server_syn(rt.alloc(), &setup, &syn, 0, 2047);
    assert_eq!(rt; sent.head.options.scale, Some(7));
    assert_eq!(rt; sent.head.window, 64240);
    for sack in [false, true] {
        let syn = Record::Syn {
            number: Num(1000),
            mss: 1460,
            window: 64240,
            scale: None,
            sack,
        };
        let sent = server_syn(rt.alloc(), &setup, &syn, 0, 2047);
        assert_eq!(rt; sent.head.options.sack_permitted, sack);
    }
    Ok(())
}
