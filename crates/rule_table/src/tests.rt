ghost use Rattle.std.specs.Prelude.{◌≡◌, IfOk, Some};

use crate::{Choices, Rule, Server, Service, Setup, Sizes, Text, matches};
use http_head::{HeadRead, head};
use std::alloc::{AllocError, Global};
use std::test::Fail;

const SIZES: Sizes = Sizes {
    instances: 2,
    replicas: 3,
    copies: 3,
    shards: 4,
    secret: [7; 32],
};

const SERVICE: Service = Service {
    number: 0,
    address: 0xc633_640a,
    port: 80,
};

const A: Server = Server {
    address: 0x0a00_0001,
    port: 8080,
};

const B: Server = Server {
    address: 0x0a00_0002,
    port: 8080,
};

fn text(alloc: Global, bytes: &[u8]) -> Result<Option<Text>, AllocError>
    ensures { IfOk result (λ text. text ≡ Some bytes.now) }
{
    Ok(Some(Text::new(Vec::from_slice(alloc, bytes)?)))
}

/// A setup of two servers. The shop's cart goes to the first, the testers go to the second, and the rest of the shop to
/// both.
fn shop(alloc: Global) -> Result<Setup, AllocError> {
    let mut servers = Vec::new(alloc);
    servers.push(A)?;
    servers.push(B)?;
    let mut rules = Vec::new(alloc);
    rules.push(Rule {
        host: text(alloc, b"shop.example")?,
        path: text(alloc, b"/cart")?,
        cookie: None,
        to: Choices::new(Vec::from_slice(alloc, &[(0, 1)])?),
    })?;
    rules.push(Rule {
        host: None,
        path: None,
        cookie: text(alloc, b"beta=1")?,
        to: Choices::new(Vec::from_slice(alloc, &[(1, 1)])?),
    })?;
    rules.push(Rule {
        host: text(alloc, b"shop.example")?,
        path: None,
        cookie: None,
        to: Choices::new(Vec::from_slice(alloc, &[(0, 1), (1, 1)])?),
    })?;
    Ok(Setup::make(SIZES, SERVICE, servers, rules))
}

/// The number of the rule that the head of these bytes matches, and whether it admits each server.
fn matched(setup: &Setup, bytes: &[u8]) -> (Option<u16>, bool, bool) {
    let HeadRead::Complete(found) = head(bytes) else {
        return (None, true, true);
    };
    (
        setup.matched(bytes, &found),
        setup.admits(bytes, &found, 0),
        setup.admits(bytes, &found, 1),
    )
}

#[test]
fn the_first_rule_whose_conditions_hold_matches(rt: HostRuntime) -> Result<(), Fail> {
    let setup = shop(rt.alloc())?;
    let cases: [(&[u8], (Option<u16>, bool, bool)); 9] = [
        (
            b"GET /cart?x=1 HTTP/1.1\r\nHost: shop.example\r\n\r\n",
            (Some(0), true, false),
        ),
        (
            b"GET /cart HTTP/1.1\r\nHost: shop.example\r\nCookie: beta=1\r\n\r\n",
            (Some(0), true, false),
        ),
        (
            b"GET / HTTP/1.1\r\nHost: other.example\r\nCookie: beta=1\r\n\r\n",
            (Some(1), false, true),
        ),
        (
            b"GET / HTTP/1.1\r\nHost: other.example\r\nCookie: beta=10\r\n\r\n",
            (None, false, false),
        ),
        (
            b"GET /Cart HTTP/1.1\r\nHost: SHOP.EXAMPLE:8080\r\n\r\n",
            (Some(2), true, true),
        ),
        (
            b"GET /?/cart HTTP/1.1\r\nHost: shop.example\r\n\r\n",
            (Some(2), true, true),
        ),
        (
            b"GET /cart HTTP/1.1\r\nHost: [shop.example]\r\n\r\n",
            (None, false, false),
        ),
        (
            b"GET http://shop.example/cart HTTP/1.1\r\nHost: shop.example\r\n\r\n",
            (Some(2), true, true),
        ),
        (b"GET /cart HTTP/1.0\r\n\r\n", (None, false, false)),
    ];
    for (bytes, want) in cases {
        assert_eq!(rt; matched(&setup, bytes), want);
    }
    matches();
    Ok(())
}

#[test]
fn a_copy_tells_the_same(rt: HostRuntime) -> Result<(), Fail> {
    let made = shop(rt.alloc())?;
    let setup = made.copy()?;
    setup.known();
    assert_eq!(rt;
        (
            setup.instances(),
            setup.replicas(),
            setup.copies(),
            setup.shards()
        ),
        (2, 3, 3, 4)
    );
    assert_eq!(rt; *setup.secret(), [7; 32]);
    assert_eq!(rt; setup.service(), SERVICE);
    assert_eq!(rt;
        (setup.server(0), setup.server(1), setup.server(2)),
        (Some(A), Some(B), None)
    );
    assert_eq!(rt; setup.server_at(B.address, 8080), Some(1));
    assert_eq!(rt; setup.server_at(B.address, 80), None);
    assert!(rt;
        setup
            .choices(2)
            .is_some_and(|choices| choices == [(0, 1), (1, 1)].as_slice())
    );
    assert!(rt; setup.choices(3).is_none());
    Ok(())
}
