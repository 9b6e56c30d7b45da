use super::*;
use tcp_segment::FIN;

pub(super) const RUN: &str = "run r.toml t.pcap s.txt out.pcap report.txt journal.txt";

/// A whole flow, from the client's SYN to the last acknowledgment.
pub(super) const WHOLE: [Sent<'static>; 10] = [
    OPENING,
    (Who::Client, ACK, 1001, FORGED + 1, &[]),
    REQUEST,
    ACCEPTING,
    (Who::Server, ACK, 70001, 1070, &[]),
    (Who::Server, PSH | ACK, 70001, 1070, &[b'y'; 200]),
    (Who::Client, ACK, 1070, FORGED + 201, &[]),
    (Who::Server, FIN | ACK, 70201, 1070, &[]),
    (Who::Client, FIN | ACK, 1070, FORGED + 202, &[]),
    (Who::Server, ACK, 70202, 1071, &[]),
];

/// Lines of a journal: the text of each as often as its number says.
fn lines_of(alloc: Global, lines: &[(&str, u32)]) -> Result<String, Fail> {
    let mut text = String::new(alloc);
    for (line, count) in lines {
        for _ in 0..*count {
            text.push_str(line)?;
            text.push_str("\n")?;
        }
    }
    Ok(text)
}

/// What a run leaves: its status, and what it holds under its outputs' names.
fn run_of<R: Threads + Wait + Sync>(
    rt: &R,
    alloc: Global,
    trace: &[u8],
    script: &str,
    fails: &[u64],
) -> Result<(String, MemoryShelf), Fail> {
    let mut shelf = shelf_of(alloc, RULES.as_bytes(), trace, script.as_bytes(), fails)?;
    let end = ending_of(rt, alloc, RUN, &mut shelf)?;
    Ok((end, shelf))
}

/// One flow is one instance's, so a run in threads comes to the report and the segments of a run on one thread; and as each
/// shard here has the calls of one worker alone, its journal is given.
#[test]
fn a_run_in_threads_leaves_its_journal(rt: HostRuntime) -> Result<(), Fail> {
    let alloc = rt.alloc();
    let rows: [(&[Sent<'_>], &str, &[(&str, u32)]); 4] = [
        (
            &[],
            "",
            &[
                ("shard 0", 1),
                ("shard 1", 1),
                ("shard 2", 1),
                ("shard 3", 1),
            ],
        ),
        (
            &WHOLE,
            "",
            &[
                ("shard 0", 1),
                ("shard 1", 1),
                ("shard 2", 1),
                ("shard 3", 1),
                ("take 1 0", 1),
                ("step 1", 3),
                ("take 1 1", 1),
                ("step 1", 4),
                ("take 1 2", 1),
                ("step 1", 10),
                ("take 1 3", 1),
                ("step 1", 9),
                ("take 1 4", 1),
                ("take 1 5", 1),
                ("take 1 6", 1),
                ("take 1 7", 1),
                ("step 1", 3),
                ("take 1 8", 1),
                ("step 1", 3),
                ("take 1 9", 1),
            ],
        ),
        (
            &[OPENING, OPENING],
            "crash 1 at 0 after 1\nback 1 at 1\n",
            &[
                ("shard 0", 1),
                ("crash 1", 1),
                ("shard 1", 1),
                ("crash 1", 1),
                ("shard 2", 1),
                ("crash 1", 1),
                ("shard 3", 1),
                ("take 1 0", 1),
                ("step 1", 1),
                ("crash 1", 1),
                ("take 1 1", 1),
                ("step 1", 3),
            ],
        ),
        (
            &[OPENING, OPENING],
            "fail 2 at 1\n",
            &[
                ("shard 0", 1),
                ("fail 2", 1),
                ("shard 1", 1),
                ("fail 1", 1),
                ("shard 2", 1),
                ("fail 0", 1),
                ("shard 3", 1),
                ("take 1 0", 1),
                ("step 1", 3),
                ("fail 2", 1),
                ("take 1 1", 1),
                ("step 1", 3),
            ],
        ),
    ];
    for (segments, script, journal) in rows {
        let trace = trace_of(alloc, segments)?;
        let (report, sent) = outcome_of(&rt, alloc, &trace, script)?;
        let (end, shelf) = run_of(&rt, alloc, &trace, script, &[])?;
        assert_eq!(rt; end.as_str(), "0 ");
        assert_eq!(rt; shelf.bytes("report.txt"), Some(report.as_slice()));
        let out = shelf.bytes("out.pcap").unwrap_or(&[]);
        assert_eq!(rt; left_of(&rt, alloc, DUMP, out, "-")?, sent);
        let wanted = lines_of(alloc, journal)?;
        assert_eq!(rt; shelf.bytes("journal.txt"), Some(wanted.as_bytes()));
    }
    Ok(())
}

/// The outputs are written in their order, and a fault at one leaves those behind it as they were.
#[test]
fn an_output_of_a_run_that_fails_is_named(rt: HostRuntime) -> Result<(), Fail> {
    let alloc = rt.alloc();
    let rows: [(u64, &str, [bool; 3]); 3] = [
        (5, "4 write fault: out.pcap\n", [false, false, false]),
        (8, "4 write fault: report.txt\n", [true, false, false]),
        (10, "4 write fault: journal.txt\n", [true, true, false]),
    ];
    let trace = capture_of(alloc, 0, &SYN)?;
    for (call, wanted, written) in rows {
        let (end, shelf) = run_of(&rt, alloc, &trace, "", &[call])?;
        assert_eq!(rt; end.as_str(), wanted);
        let names = ["out.pcap", "report.txt", "journal.txt"];
        for (name, holds) in names.into_iter().zip(written) {
            assert_eq!(rt; shelf.bytes(name).is_some(), holds);
        }
    }
    Ok(())
}
