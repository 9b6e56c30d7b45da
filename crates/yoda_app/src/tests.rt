ghost use Rattle.std.specs.Prelude.{◌≤◌};
ghost use Rattle.tcp_segment.specs.Written.{area_length};

use super::*;
use seq_space::{Blocks, Num};
use shelf::MemoryShelf;
use std::test::Fail;
use tcp_segment::{ACK, Bytes, Head, Options, PSH, SYN as OPEN, Segment, write};

mod faults;
mod generated;
mod hostile;
mod refusals;
mod runs;
mod scripts;
mod threads;
mod windows;

/// Two servers. The shop's cart goes to the first, the testers go to the second, and the rest of the shop to both.
const RULES: &str = r#"instances = 2
replicas = 3
copies = 3
shards = 4
secret = "000102030405060708090a0b0c0d0e0f101112131415161718191a1b1c1d1e1f"
[service]
number = 0
address = "198.51.100.10"
port = 80
[[server]]
name = "a"
address = "10.0.0.1"
port = 8080
[[server]]
name = "b"
address = "10.0.0.2"
port = 8080
[[rule]]
to = ["a"]
weights = [1]
host = "shop.example"
path = "/cart"
[[rule]]
to = ["b"]
weights = [1]
cookie = "beta=1"
[[rule]]
to = ["a", "b"]
weights = [1, 1]
host = "shop.example"
"#;

/// The file header of a little-endian capture of raw packets.
const HEADER: [u8; 24] = [
    0xd4, 0xc3, 0xb2, 0xa1, 2, 0, 4, 0, 0, 0, 0, 0, 0, 0, 0, 0, 0xff, 0xff, 0, 0, 0x65, 0, 0, 0,
];

/// A SYN from 192.0.2.7:40000 to 198.51.100.10:80, number 1000.
const SYN: [u8; 40] = [
    0x45, 0, 0, 0x28, 0, 0, 0x40, 0, 0x40, 6, 0x4e, 0x8b, 0xc0, 0, 2, 7, 0xc6, 0x33, 0x64, 0x0a,
    0x9c, 0x40, 0, 0x50, 0, 0, 3, 0xe8, 0, 0, 0, 0, 0x50, 2, 0xfa, 0xf0, 0x28, 0x34, 0, 0,
];

/// Its answer: the forged number 1623089032, and 1001 acknowledged. The numbers come from another implementation of
/// SHA-256 and of the checksum.
const SYN_ACK: [u8; 44] = [
    0x45, 0, 0, 0x2c, 0, 0, 0x40, 0, 0x40, 6, 0x4e, 0x87, 0xc6, 0x33, 0x64, 0x0a, 0xc0, 0, 2, 7, 0,
    0x50, 0x9c, 0x40, 0x60, 0xbe, 0x5f, 0x88, 0, 0, 3, 0xe9, 0x60, 0x12, 0x39, 8, 0x12, 9, 0, 0, 2,
    4, 5, 0xb4,
];

/// A big-endian capture of Ethernet frames: one of ARP without a body, and the SYN with six bytes behind it.
const ETHERNET: [u8; 130] = [
    0xa1, 0xb2, 0xc3, 0xd4, 0, 2, 0, 4, 0, 0, 0, 0, 0, 0, 0, 0, 0, 0, 0xff, 0xff, 0, 0, 0, 1, 0, 0,
    0, 1, 0, 0, 0, 0, 0, 0, 0, 14, 0, 0, 0, 14, 0, 0, 0, 0, 0, 1, 0, 0, 0, 0, 0, 2, 8, 6, 0, 0, 0,
    2, 0, 0, 0, 9, 0, 0, 0, 60, 0, 0, 0, 60, 0, 0, 0, 0, 0, 1, 0, 0, 0, 0, 0, 2, 8, 0, 0x45, 0, 0,
    0x28, 0, 0, 0x40, 0, 0x40, 6, 0x4e, 0x8b, 0xc0, 0, 2, 7, 0xc6, 0x33, 0x64, 0x0a, 0x9c, 0x40, 0,
    0x50, 0, 0, 3, 0xe8, 0, 0, 0, 0, 0x50, 2, 0xfa, 0xf0, 0x28, 0x34, 0, 0, 0, 0, 0, 0, 0, 0,
];

const PLAIN: &str = "plain r.toml t.pcap s.txt out.pcap report.txt";

const DUMP: &str = "dump t.pcap";

/// The client's first number towards whom it speaks to, which the balancer forges, and the port from which the balancer
/// speaks to a server for it. They come from another implementation of SHA-256.
const FORGED: u32 = 1_623_089_032;

const PORT: u16 = 17163;

/// A request head in three pieces.
const HEAD: &[u8] =
    b"GET /cart/1 HTTP/1.1\r\nHost: Shop.Example:80\r\nCookie: id=9; beta=1\r\n\r\n";

const PIECES: [&[u8]; 3] = [
    b"GET /cart/1 HTTP/1.1",
    b"\r\nHost: Shop.Example",
    b":80\r\nCookie: id=9; beta=1\r\n\r\n",
];

/// Who sends a segment of a test.
#[derive(Clone, Copy)]
enum Who {
    /// The client of the SYN, to the service.
    Client,
    /// The first server, to the balancer's port.
    Server,
}

/// A segment of a test: who sends it, its flags, its number, what it acknowledges, and its data.
type Sent<'a> = (Who, u8, u32, u32, &'a [u8]);

/// A client's SYN, the acknowledgment of its answer with a request head, and the server's answer to the SYN for it.
const OPENING: Sent<'static> = (Who::Client, OPEN, 1000, 0, &[]);

const REQUEST: Sent<'static> = (Who::Client, PSH | ACK, 1001, FORGED + 1, HEAD);

const ACCEPTING: Sent<'static> = (Who::Server, OPEN | ACK, 70000, 1001, &[]);

/// Adds a record of second 1 to a capture. The original length is the kept one and `cut`.
fn add_record(trace: &mut Vec<u8>, cut: u32, frame: &[u8]) -> Result<(), Fail> {
    let kept = u32::try_from(frame.len()).unwrap_or(0);
    trace.extend_from_slice(&[1, 0, 0, 0, 0, 0, 0, 0])?;
    trace.extend_from_slice(&kept.to_le_bytes())?;
    trace.extend_from_slice(&kept.saturating_add(cut).to_le_bytes())?;
    trace.extend_from_slice(frame)?;
    Ok(())
}

fn capture_of(alloc: Global, cut: u32, frame: &[u8]) -> Result<Vec<u8>, Fail> {
    let mut trace = HEADER.to_vec(alloc)?;
    add_record(&mut trace, cut, frame)?;
    Ok(trace)
}

/// The bytes with those at these places changed.
fn changed(alloc: Global, bytes: &[u8], changes: &[(usize, u8)]) -> Result<Vec<u8>, Fail> {
    let mut bytes = bytes.to_vec(alloc)?;
    for (at, value) in changes {
        if let Some(byte) = bytes.get_mut(*at) {
            *byte = *value;
        }
    }
    Ok(bytes)
}

/// A capture of SYNs, each with changes of its own.
fn syns(alloc: Global, frames: &[&[(usize, u8)]]) -> Result<Vec<u8>, Fail> {
    let mut trace = HEADER.to_vec(alloc)?;
    for changes in frames {
        add_record(&mut trace, 0, &changed(alloc, &SYN, changes)?)?;
    }
    Ok(trace)
}

fn add_file(
    files: &mut Vec<(String, Vec<u8>)>,
    alloc: Global,
    name: &str,
    bytes: &[u8],
) -> Result<(), Fail> {
    files.push((String::from_str(alloc, name)?, bytes.to_vec(alloc)?))?;
    Ok(())
}

fn shelf_of(
    alloc: Global,
    rules: &[u8],
    trace: &[u8],
    script: &[u8],
    fails: &[u64],
) -> Result<MemoryShelf, Fail> {
    let mut files = Vec::new(alloc);
    add_file(&mut files, alloc, "r.toml", rules)?;
    add_file(&mut files, alloc, "t.pcap", trace)?;
    add_file(&mut files, alloc, "s.txt", script)?;
    Ok(MemoryShelf::new(files, fails.to_vec(alloc)?))
}

fn words_of(alloc: Global, text: &str) -> Result<Vec<String>, Fail> {
    let mut words = Vec::new(alloc);
    for word in text.split_whitespace() {
        words.push(String::from_str(alloc, word)?)?;
    }
    Ok(words)
}

/// What a name holds, as text.
fn text_of<'a>(shelf: &'a MemoryShelf, name: &str) -> Result<&'a str, Fail> {
    let bytes = shelf.bytes(name).unwrap_or(&[]);
    match str::from_utf8(bytes) {
        Ok(text) => Ok(text),
        Err(_) => Err("no text".into()),
    }
}

/// The status of a command, and what it says on standard error behind the program's name.
fn ending_of<R: Threads + Wait + Sync>(
    rt: &R,
    alloc: Global,
    words: &str,
    shelf: &mut MemoryShelf,
) -> Result<String, Fail> {
    let status = yoda(rt, alloc, &words_of(alloc, words)?, shelf);
    let line = text_of(shelf, "!")?;
    let said = line.strip_prefix("yoda: ").unwrap_or(line);
    Ok(format!(in alloc; "{status} {said}")?)
}

/// What a command that is done leaves under a name.
fn left_of<R: Threads + Wait + Sync>(
    rt: &R,
    alloc: Global,
    words: &str,
    trace: &[u8],
    name: &str,
) -> Result<Vec<u8>, Fail> {
    let mut shelf = shelf_of(alloc, RULES.as_bytes(), trace, b"", &[])?;
    if yoda(rt, alloc, &words_of(alloc, words)?, &mut shelf) != 0 {
        return Err("not done".into());
    }
    Ok(shelf.bytes(name).unwrap_or(&[]).to_vec(alloc)?)
}

/// The options of a segment with these flags.
fn options_of(who: Who, flags: u8) -> Options
    ensures { area_length result ≤ 12 }
{
    if flags & OPEN == 0 {
        return Options::none();
    }
    match who {
        Who::Client => Options {
            mss: Some(1460),
            scale: Some(7),
            sack_permitted: true,
            ..Options::none()
        },
        Who::Server => Options {
            mss: Some(1460),
            ..Options::none()
        },
    }
}

/// A block of selective acknowledgments, and no other option.
fn block_of(left: u32, right: u32) -> Options
    ensures { area_length result ≤ 12 }
{
    let mut sack = Blocks::none();
    sack.push((Num(left), Num(right)));
    Options {
        sack,
        ..Options::none()
    }
}

/// The packet of a segment. One with SYN gives a maximum segment size of 1460 bytes, and the client's a scale of 7 and the
/// leave for selective acknowledgments.
fn packet_of(alloc: Global, sent: &Sent<'_>) -> Result<Vec<u8>, Fail> {
    packet_with(alloc, sent, options_of(sent.0, sent.1))
}

/// The packet of a segment with these options.
fn packet_with(alloc: Global, sent: &Sent<'_>, options: Options) -> Result<Vec<u8>, Fail>
    requires { area_length options ≤ 12 }
{
    let (who, flags, seq, ack, body) = *sent;
    if body.len() > 1460 {
        return Err("too much data".into());
    }
    let (source, source_port, target_port) = match who {
        Who::Client => (0xc000_0207, 40000, 80),
        Who::Server => (0x0a00_0001, 8080, PORT),
    };
    let head = Head {
        source_port,
        target_port,
        seq: Num(seq),
        ack: Num(ack),
        flags,
        window: 64240,
        urgent: 0,
        options,
    };
    let segment = Segment {
        source,
        target: 0xc633_640a,
        head,
        body: Bytes::new(body.to_vec(alloc)?),
    };
    let mut packet = Vec::new(alloc);
    write(&segment, &mut packet)?;
    Ok(packet)
}

/// A capture of these segments.
fn trace_of(alloc: Global, segments: &[Sent<'_>]) -> Result<Vec<u8>, Fail> {
    let mut trace = HEADER.to_vec(alloc)?;
    for sent in segments {
        add_record(&mut trace, 0, &packet_of(alloc, sent)?)?;
    }
    Ok(trace)
}

/// The report of a capture under a script, and the dump of what is sent for it.
fn outcome_of<R: Threads + Wait + Sync>(
    rt: &R,
    alloc: Global,
    trace: &[u8],
    script: &str,
) -> Result<(Vec<u8>, Vec<u8>), Fail> {
    let mut shelf = shelf_of(alloc, RULES.as_bytes(), trace, script.as_bytes(), &[])?;
    if yoda(rt, alloc, &words_of(alloc, PLAIN)?, &mut shelf) != 0 {
        return Err("not done".into());
    }
    let report = shelf.bytes("report.txt").unwrap_or(&[]).to_vec(alloc)?;
    let out = shelf.bytes("out.pcap").unwrap_or(&[]);
    Ok((report, left_of(rt, alloc, DUMP, out, "-")?))
}
