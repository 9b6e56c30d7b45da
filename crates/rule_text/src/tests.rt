use crate::{Name, RuleFault, rules_of, rules_say};
use http_head::{HeadRead, head};
use rule_table::{Server, Service, Setup};
use std::alloc::Global;
use std::test::Fail;

/// Two servers. The shop's cart goes to the first, the testers go to the second, and the rest of the shop to both.
const SHOP: &str = r#"instances = 2
replicas = 3
copies = 3
shards = 4
secret = "000102030405060708090a0b0c0d0e0f101112131415161718191a1b1c1d1e1f"
[service]
number = 0
address = "198.51.100.10"
port = 80
[[server]]
name = "a"
address = "10.0.0.1"
port = 8080
[[server]]
name = "b"
address = "10.0.0.2"
port = 8080
[[rule]]
to = ["a"]
weights = [1]
host = "shop.example"
path = "/cart"
[[rule]]
to = ["b"]
weights = [1]
cookie = "beta=1"
[[rule]]
to = ["a", "b"]
weights = [1, 1]
host = "shop.example"
"#;

/// The smallest rules, with the tables in braces.
const SMALL: &str = r#"instances = 1
replicas = 1
copies = 1
shards = 64
secret = "FFFFFFFFFFFFFFFFFFFFFFFFFFFFFFFFFFFFFFFFFFFFFFFFFFFFFFFFFFFFFFFF"
service = { number = 65535, address = "0.0.0.0", port = 65535 }
server = [{ name = "A-z_9", address = "255.255.255.255", port = 1 }]
rule = [{ to = ["A-z_9"], weights = [65535] }]
"#;

/// What the rules say with these changes made in them: the text of their fault, or `accepted`.
fn judged(alloc: Global, rules: &str, changes: &[(&str, &str)]) -> Result<String, Fail> {
    let mut text = String::from_str(alloc, rules)?;
    for (old, new) in changes {
        text = text.as_str().replacen(alloc, *old, new, 1)?;
    }
    match rules_of(alloc, text.as_str().as_bytes()) {
        Ok(_) => Ok(String::from_str(alloc, "accepted")?),
        Err(fault) => Ok(format!(in alloc; "{fault}")?),
    }
}

#[test]
fn rules_say_their_setup(rt: HostRuntime) -> Result<(), Fail> {
    let setup = match rules_of(rt.alloc(), SHOP.as_bytes()) {
        Ok(setup) => setup,
        Err(fault) => {
            assert!(rt; false, "{fault}");
            return Ok(());
        }
    };
    assert_eq!(rt;
        (
            setup.instances(),
            setup.replicas(),
            setup.copies(),
            setup.shards()
        ),
        (2, 3, 3, 4)
    );
    let mut secret = [0; 32];
    for i in 0..32 {
        secret[i] = i as u8;
    }
    assert_eq!(rt; *setup.secret(), secret);
    let service = Service {
        number: 0,
        address: 0xc633_640a,
        port: 80,
    };
    assert_eq!(rt; setup.service(), service);
    let servers = [0x0a00_0001, 0x0a00_0002].map(|address| Some(Server {
        address,
        port: 8080,
    }));
    assert_eq!(rt; [setup.server(0), setup.server(1)], servers);
    assert_eq!(rt; setup.server(2), None);
    let lists: [&[(u16, u16)]; 3] = [&[(0, 1)], &[(1, 1)], &[(0, 1), (1, 1)]];
    for (rule, list) in lists.iter().enumerate() {
        assert!(rt;
            setup
                .choices(rule as u16)
                .is_some_and(|choices| choices == *list),
            "{rule}"
        );
    }
    assert!(rt; setup.choices(3).is_none());
    assert_eq!(rt;
        matched(&setup, b"GET /cart HTTP/1.1\r\nHost: shop.example\r\n\r\n"),
        Some(0)
    );
    assert_eq!(rt;
        matched(&setup, b"GET /cart HTTP/1.1\r\nCookie: beta=1\r\n\r\n"),
        Some(1)
    );
    assert_eq!(rt;
        matched(&setup, b"GET / HTTP/1.1\r\nHost: shop.example\r\n\r\n"),
        Some(2)
    );
    assert_eq!(rt; matched(&setup, b"GET / HTTP/1.1\r\n\r\n"), None);
    rules_say();
    Ok(())
}

/// The number of the rule that the head of these bytes matches.
fn matched(setup: &Setup, bytes: &[u8]) -> Option<u16> {
    let HeadRead::Complete(found) = head(bytes) else {
        return None;
    };
    setup.matched(bytes, &found)
}

#[test]
fn one_change_makes_one_fault(rt: HostRuntime) -> Result<(), Fail> {
    let cases = [
        ("shards = 4", "shards = 6", "range shards 6"),
        ("copies = 3", "copies = 4", "range copies 4"),
        ("instances = 2", "instances = \"2\"", "form instances"),
        ("port = 80\n[", "[", "missing service.port"),
        ("instances", "color = 1\ninstances", "extra color"),
        ("name = \"b\"", "name = \"a\"", "twice a"),
        ("[\"a\", \"b\"]", "[\"a\", \"c\"]", "unknown server c"),
        ("[1, 1]", "[0, 0]", "zero total 2"),
        ("[1, 1]", "[1]", "form rule.2.weights"),
        ("instances = 2", "instances", "syntax"),
        ("instances = 2", "instances = 9223372036854775808", "syntax"),
        (
            "instances = 2",
            "instances = 9223372036854775807",
            "range instances 9223372036854775807",
        ),
        ("instances = 2", "instances = 0", "range instances 0"),
        ("instances = 2", "instances = 2.0", "form instances"),
        ("replicas = 3", "replicas = -9", "range replicas -9"),
        ("1e1f\"", "1e1\"", "form secret"),
        (
            "\"198.51.100.10\"",
            "\"198.51.100.010\"",
            "form service.address",
        ),
        (
            "[service]\nnumber = 0",
            "[service]",
            "missing service.number",
        ),
        ("name = \"b\"", "name = \"b c\"", "form server.1.name"),
        ("name = \"b\"\n", "", "missing server.1.name"),
        ("port = 8080", "port = 65536", "range server.0.port 65536"),
        ("to = [\"a\"]", "to = []", "form rule.0.to"),
        ("to = [\"a\"]", "to = \"a\"", "form rule.0.to"),
        (
            "weights = [1]",
            "weights = [65536]",
            "range rule.0.weights 65536",
        ),
        (
            "host = \"shop.example\"",
            "host = \"shop.example:80\"",
            "form rule.0.host",
        ),
        ("path = \"/cart\"", "path = \"cart\"", "form rule.0.path"),
        (
            "cookie = \"beta=1\"",
            "cookie = \"beta\"",
            "form rule.1.cookie",
        ),
        (
            "path = \"/cart\"",
            "paths = \"/cart\"",
            "extra rule.0.paths",
        ),
        ("\"10.0.0.2\"", "\"10.0.0.1\"", "twice b"),
        ("\"10.0.0.2\"", "\"198.51.100.10\"", "twice b"),
        ("[\"a\", \"b\"]", "[\"b\", \"b\"]", "twice b"),
        ("instances", "\u{feff}instances", "accepted"),
        (
            "replicas = 3\ncopies = 3",
            "replicas = 8\ncopies = 8",
            "accepted",
        ),
        ("weights = [1]", "weights = [65535]", "accepted"),
    ];
    for (old, new, want) in cases {
        let text = judged(rt.alloc(), SHOP, &[(old, new)])?;
        assert!(rt; text.as_str() == want, "{new}: {text}");
    }
    assert_eq!(rt; rules_of(rt.alloc(), b"\xff").is_err(), true);
    Ok(())
}

#[test]
fn the_first_of_two_faults_is_told(rt: HostRuntime) -> Result<(), Fail> {
    let cases: [(&str, &[(&str, &str)], &str); 12] = [
        (SMALL, &[], "accepted"),
        // A member that is no table comes before the fields of those before it.
        (
            SMALL,
            &[("server = [{ name = \"A-z_9\"", "server = [7, { name = 7")],
            "form server",
        ),
        (
            SMALL,
            &[("rule = [{ to", "rule = [{}, 7, { to")],
            "form rule",
        ),
        // The fields of the service come before a list that is not there.
        (
            SMALL,
            &[("port = 65535", "ports = 1"), ("server", "servers")],
            "missing service.port",
        ),
        (SMALL, &[("server = ", "servers = ")], "missing server"),
        // Every field comes before a field too many, and these go from the top down, in byte order.
        (
            SHOP,
            &[
                ("instances", "Z = 1\na = 1\ninstances"),
                ("[1, 1]", "[70000, -1]"),
            ],
            "range rule.2.weights 70000",
        ),
        (
            SHOP,
            &[
                ("instances", "a = 1\nZ = 1\ninstances"),
                ("[service]", "[service]\nA = 1"),
            ],
            "extra Z",
        ),
        (
            SHOP,
            &[
                ("[[rule]]", "[[rule]]\nA = 1"),
                ("name = \"b\"", "name = \"b\"\nz = 1"),
            ],
            "extra server.1.z",
        ),
        // The form of all weights comes before the range of the first.
        (SHOP, &[("[1, 1]", "[70000, \"1\"]")], "form rule.2.weights"),
        // Servers come before rules; names that no server has, in every rule, before names that come twice.
        (
            SHOP,
            &[
                ("\"10.0.0.2\"", "\"10.0.0.1\""),
                ("to = [\"a\"]", "to = [\"c\"]"),
            ],
            "twice b",
        ),
        (
            SHOP,
            &[
                ("[\"a\"]\nweights = [1]", "[\"a\", \"a\"]\nweights = [1, 1]"),
                ("[\"b\"]", "[\"c\"]"),
            ],
            "unknown server c",
        ),
        (
            SHOP,
            &[("[\"a\", \"b\"]", "[\"a\", \"a\"]"), ("[1]", "[0]")],
            "twice a",
        ),
    ];
    for (rules, changes, want) in cases {
        let text = judged(rt.alloc(), rules, changes)?;
        assert!(rt; text.as_str() == want, "{text}");
    }
    Ok(())
}

/// The name and the value of a number outside its limits.
fn out_of_range(fault: &RuleFault) -> Option<(&str, i64)> {
    match fault {
        RuleFault::Range { name, value } => Some((name.as_str(), *value)),
        _ => None,
    }
}

#[test]
fn a_fault_has_its_name(rt: HostRuntime) -> Result<(), Fail> {
    match rules_of(rt.alloc(), b"instances = 17") {
        Ok(_setup) => assert!(rt; false),
        Err(fault) => {
            assert!(rt;
                out_of_range(&fault).is_some_and(|(name, value)| name == "instances" && value == 17)
            );
        }
    }
    let name = Name::new(String::from_str(rt.alloc(), "a")?);
    assert_eq!(rt; name.as_str(), "a");
    Ok(())
}
