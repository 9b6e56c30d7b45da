// A fault at every place: each call of the shelf that fails, and each byte at which a capture may end.
use super::threads::{RUN, WHOLE};
use super::*;
use shelf::Kind;

/// What a command reads and then writes, in this order.
const NAMES: [&str; 6] = [
    "r.toml",
    "t.pcap",
    "s.txt",
    "out.pcap",
    "report.txt",
    "journal.txt",
];

/// How many of these are read.
const READ: usize = 3;

/// How many calls of the shelf `plain` makes at each: what it sends is added in two parts, up to the last data that stands in
/// the trace, and behind it.
const CALLS_OF_PLAIN: [usize; 5] = [2, 2, 2, 3, 2];

/// How many calls `run` makes at each: what it sends is added in a head and four parts, and the part with the data that stands
/// in the trace in two calls.
const CALLS_OF_RUN: [usize; 6] = [2, 2, 2, 7, 2, 2];

/// The place of the name at which this call is made, where each name gets so many.
fn place_of(call: usize, calls: &[usize]) -> usize {
    let mut before = 0usize;
    for (place, count) in calls.iter().enumerate() {
        before = before.saturating_add(*count);
        if call < before {
            return place;
        }
    }
    calls.len()
}

/// The inputs of a whole flow, under a script without lines that count, where this call of the shelf fails.
fn whole_flow(alloc: Global, fails: &[u64]) -> Result<MemoryShelf, Fail> {
    let trace = trace_of(alloc, &WHOLE)?;
    shelf_of(alloc, RULES.as_bytes(), &trace, b"# nothing\n", fails)
}

/// How the command ends whose call at the name with this place fails.
fn ending_at(alloc: Global, place: usize) -> Result<String, Fail> {
    let name = NAMES.get(place).ok_or("a call at no name")?;
    if place < READ {
        Ok(format!(in alloc; "3 read fault: {name}\n")?)
    } else {
        Ok(format!(in alloc; "4 write fault: {name}\n")?)
    }
}

/// Whether the outputs before the name with this place hold what they hold in a whole run, that name a beginning of it, and
/// those behind it nothing.
fn holds_beginnings(held: &MemoryShelf, whole: &MemoryShelf, place: usize) -> bool {
    NAMES.iter().enumerate().skip(READ).all(|(at, name)| {
        let (found, wanted) = (held.bytes(name), whole.bytes(name));
        if at == place {
            wanted.unwrap_or(&[]).starts_with(found.unwrap_or(&[]))
        } else if at < place {
            found == wanted
        } else {
            found.is_none()
        }
    })
}

/// How many calls of the shelf the command makes, so many of them at each name. Each is made to fail in turn, until none is left
/// to fail, and has to be named.
fn calls_of<R: Threads + Wait + Sync>(
    rt: &R,
    alloc: Global,
    words: &str,
    calls: &[usize],
    whole: &MemoryShelf,
) -> Result<usize, Fail> {
    for call in 0..100 {
        let mut shelf = whole_flow(alloc, &[call as u64])?;
        let end = ending_of(rt, alloc, words, &mut shelf)?;
        if shelf.faults(Kind::Reading) == 0 && shelf.faults(Kind::Writing) == 0 {
            return Ok(call);
        }
        let place = place_of(call, calls);
        if end != ending_at(alloc, place)? || !holds_beginnings(&shelf, whole, place) {
            return Err(format!(in alloc; "call {call} of {words} ends with {end}")?)?;
        }
    }
    Err("no end of calls".into())
}

#[test]
fn a_call_of_the_shelf_that_fails_is_named(rt: HostRuntime) -> Result<(), Fail> {
    let alloc = rt.alloc();
    let commands = [
        (PLAIN, CALLS_OF_PLAIN.as_slice(), 11),
        (RUN, CALLS_OF_RUN.as_slice(), 17),
    ];
    for (words, calls, count) in commands {
        let mut whole = whole_flow(alloc, &[])?;
        assert_eq!(rt; ending_of(&rt, alloc, words, &mut whole)?.as_str(), "0 ");
        let held = NAMES
            .iter()
            .filter(|name| whole.bytes(name).is_some())
            .count();
        assert_eq!(rt; held, calls.len());
        assert_eq!(rt; calls_of(&rt, alloc, words, calls, &whole)?, count);
    }
    Ok(())
}

/// How a command ends whose capture of one record is cut to so many bytes.
fn ending_of_cut(alloc: Global, count: usize) -> Result<String, Fail> {
    if count < 24 {
        Ok(format!(in alloc; "5 trace refused: header cut at {count}\n")?)
    } else if count == 24 {
        Ok(String::from_str(alloc, "0 ")?)
    } else {
        Ok(String::from_str(alloc, "5 trace refused: record cut at 24\n")?)
    }
}

/// How the command ends on this capture, and its report.
fn told_of<R: Threads + Wait + Sync>(
    rt: &R,
    alloc: Global,
    words: &str,
    trace: &[u8],
) -> Result<(String, String), Fail> {
    let mut shelf = shelf_of(alloc, RULES.as_bytes(), trace, b"", &[])?;
    let end = ending_of(rt, alloc, words, &mut shelf)?;
    Ok((
        end,
        String::from_str(alloc, text_of(&shelf, "report.txt")?)?,
    ))
}

#[test]
fn a_capture_that_ends_anywhere_is_told_where(rt: HostRuntime) -> Result<(), Fail> {
    let alloc = rt.alloc();
    let trace = capture_of(alloc, 0, &SYN)?;
    for count in 0..trace.len() {
        let cut = trace.get(..count).unwrap_or(&[]);
        let wanted = ending_of_cut(alloc, count)?;
        let (end, report) = told_of(&rt, alloc, PLAIN, cut)?;
        assert_eq!(rt; end, wanted, "cut at {count}");
        assert_eq!(rt; report.is_empty(), count != 24, "cut at {count}");
        let (end, _) = told_of(&rt, alloc, DUMP, cut)?;
        assert_eq!(rt; end, wanted, "the dump, cut at {count}");
    }
    let (_, report) = told_of(&rt, alloc, PLAIN, &HEADER)?;
    assert_eq!(rt; report.as_str(), "records 0 outs 0\n");
    Ok(())
}
