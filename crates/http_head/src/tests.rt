ghost use Rattle.std.specs.Prelude.{IfSome};
ghost use Rattle.http_head.specs.Parts.{IsHeadOf};

use crate::{HeadRead, HttpHead, Part, has_cookie, head, readings};
use std::test::Fail;

const CURL: &[u8] =
    b"GET /cart/1?x=2 HTTP/1.1\r\nHost: Shop.Example:80\r\nUser-Agent: curl/8.5.0\r\nAccept: */*\r\n\r\n";

const BROWSER: &[u8] = b"POST /login HTTP/1.1\r\n\
    User-Agent: Mozilla/5.0 (X11; Linux x86_64; rv:128.0) Gecko/20100101 Firefox/128.0\r\n\
    Accept-Language: en-US,en;q=0.5\r\n\
    cookie: id=9;\tbeta=1 ; theme=dark\r\n\
    HOST:  shop.example \r\n\
    Host: other.example\r\n\
    Upgrade-Insecure-Requests: 1\r\n\r\n";

fn complete(bytes: &[u8]) -> Option<HttpHead>
    ensures { IfSome result (IsHeadOf bytes.now) }
{
    match head(bytes) {
        HeadRead::Complete(head) => Some(head),
        _ => None,
    }
}

fn text(bytes: &[u8], part: Option<Part>) -> Option<&[u8]> {
    let part = part?;
    bytes.get(part.start..part.end)
}

#[test]
fn a_head_is_partial_up_to_its_last_byte(rt: HostRuntime) {
    for whole in [CURL, BROWSER] {
        for n in 0..whole.len() {
            assert_eq!(rt; head(&whole[..n]), HeadRead::Partial, "at {n}");
        }
    }
    let Some(curl) = complete(CURL) else {
        assert!(rt; false);
        return;
    };
    assert_eq!(rt; curl.length, CURL.len());
    assert_eq!(rt;
        text(CURL, Some(curl.path)),
        Some(b"/cart/1?x=2".as_slice())
    );
    assert_eq!(rt; text(CURL, curl.host), Some(b"Shop.Example:80".as_slice()));
    let Some(browser) = complete(BROWSER) else {
        assert!(rt; false);
        return;
    };
    assert_eq!(rt;
        text(BROWSER, browser.host),
        Some(b"shop.example".as_slice())
    );
    readings();
}

#[test]
fn lines_that_are_no_head_are_bad_at_their_end(rt: HostRuntime) {
    let cases: [(&[u8], HeadRead); 10] = [
        (b"", HeadRead::Partial),
        (b"\r\n\n", HeadRead::Partial),
        (b"the quick brown fox\n", HeadRead::Partial),
        (b"the quick brown fox\n\r", HeadRead::Partial),
        (b"the quick brown fox\n\r\n", HeadRead::Bad),
        (b"the quick brown fox\njumps over\n\n", HeadRead::Bad),
        (
            b"GET / HTTP/1.1\r\nHost shop.example\r\n",
            HeadRead::Partial,
        ),
        (
            b"GET / HTTP/1.1\r\nHost shop.example\r\n\r\n",
            HeadRead::Bad,
        ),
        (b"GET / HTTP/2.0\r\n\r\n", HeadRead::Bad),
        (b"GET / HTTP/1.1 \r\n\r\n", HeadRead::Bad),
    ];
    for (bytes, want) in cases {
        assert_eq!(rt; head(bytes), want);
    }
}

#[test]
fn a_head_has_at_most_64_field_lines(rt: HostRuntime) -> Result<(), Fail> {
    let mut bytes = Vec::from_slice(rt.alloc(), b"\r\nGET / HTTP/1.0\n")?;
    for _ in 0..64 {
        bytes.extend_from_slice(b"a:b\n")?;
    }
    assert_eq!(rt; head(bytes.as_slice()), HeadRead::Partial);
    bytes.push(b'\n')?;
    let whole = HttpHead {
        length: 274,
        path: Part { start: 6, end: 7 },
        host: None,
    };
    assert_eq!(rt; head(bytes.as_slice()), HeadRead::Complete(whole));
    bytes.pop();
    bytes.push(b'c')?;
    assert_eq!(rt; head(bytes.as_slice()), HeadRead::Bad);
    Ok(())
}

#[test]
fn a_cookie_is_a_whole_piece(rt: HostRuntime) {
    let Some(browser) = complete(BROWSER) else {
        assert!(rt; false);
        return;
    };
    let cases: [(&[u8], bool); 6] = [
        (b"beta=1", true),
        (b"id=9", true),
        (b"theme=dark", true),
        (b"beta=10", false),
        (b"beta=", false),
        (b"Beta=1", false),
    ];
    for (pair, want) in cases {
        assert_eq!(rt; has_cookie(BROWSER, &browser, pair), want);
    }
}
