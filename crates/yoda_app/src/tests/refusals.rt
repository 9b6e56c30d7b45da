use super::*;

#[test]
fn words_and_calls_that_fail_end_a_command(rt: HostRuntime) -> Result<(), Fail> {
    let alloc = rt.alloc();
    let usage =
        "2 usage: plain RULES TRACE SCRIPT OUT REPORT, run RULES TRACE SCRIPT OUT REPORT JOURNAL, drive FLOWS BYTES NUMBER, dump TRACE\n";
    let rows: [(&str, &[u64], &str); 11] = [
        ("plain r t s o", &[], usage),
        ("run r t s o p", &[], usage),
        ("run r t s o p -", &[], usage),
        ("run r t s o p r", &[], usage),
        ("run r.toml no.pcap s o p j", &[], "3 read fault: no.pcap\n"),
        ("plain r t s ! p", &[], usage),
        ("plain r.toml t.pcap s.txt out.pcap out.pcap", &[], usage),
        (PLAIN, &[0], "3 read fault: r.toml\n"),
        (PLAIN, &[4], "3 read fault: s.txt\n"),
        ("dump no.pcap", &[], "3 read fault: no.pcap\n"),
        (DUMP, &[2], "4 write fault: -\n"),
    ];
    for (words, fails, end) in rows {
        let trace = capture_of(alloc, 0, &SYN)?;
        let mut shelf = shelf_of(alloc, RULES.as_bytes(), &trace, b"", fails)?;
        assert_eq!(rt; ending_of(&rt, alloc, words, &mut shelf)?.as_str(), end);
        assert_eq!(rt; shelf.bytes("out.pcap"), None);
    }
    Ok(())
}

#[test]
fn refused_inputs_are_judged_in_order(rt: HostRuntime) -> Result<(), Fail> {
    let alloc = rt.alloc();
    let rows = [
        (
            "shards = 4",
            "shards = 6",
            113,
            "give",
            "5 trace refused: link 113\n",
        ),
        (
            "shards = 4",
            "shards = 6",
            101,
            "give",
            "6 rules refused: range shards 6\n",
        ),
        (
            "shards = 4",
            "shards = 8",
            101,
            "give",
            "7 script refused: line 1 form\n",
        ),
        (
            "port = 80\n",
            "",
            101,
            "",
            "6 rules refused: missing service.port\n",
        ),
        (
            "[1, 1]",
            "[1]",
            101,
            "",
            "6 rules refused: form rule.2.weights\n",
        ),
        ("shards = 4", "shards", 101, "", "6 rules refused: syntax\n"),
        ("[1, 1]", "[0, 1]", 101, "", "0 "),
    ];
    for (old, new, link, script, end) in rows {
        let rules = RULES.replacen(alloc, old, new, 1)?;
        let trace = changed(alloc, &HEADER, &[(20, link)])?;
        let mut shelf = shelf_of(
            alloc,
            rules.as_str().as_bytes(),
            &trace,
            script.as_bytes(),
            &[],
        )?;
        assert_eq!(rt; ending_of(&rt, alloc, PLAIN, &mut shelf)?.as_str(), end);
    }
    Ok(())
}

#[test]
fn a_refused_trace_is_named(rt: HostRuntime) -> Result<(), Fail> {
    let alloc = rt.alloc();
    let one = capture_of(alloc, 0, &SYN)?;
    let rows = [
        (
            one.get(..63).unwrap_or(&[]).to_vec(alloc)?,
            "record cut at 24",
        ),
        (HEADER[..23].to_vec(alloc)?, "header cut at 23"),
        (changed(alloc, &HEADER, &[(0, 0xd5)])?, "magic d5c3b2a1"),
        (changed(alloc, &HEADER, &[(6, 5)])?, "version 2.5"),
        (changed(alloc, &one, &[(34, 5)])?, "record too large at 24"),
    ];
    for (trace, fault) in rows {
        let mut shelf = shelf_of(alloc, RULES.as_bytes(), &trace, b"", &[])?;
        let end = format!(in alloc; "5 trace refused: {fault}\n")?;
        assert_eq!(rt; ending_of(&rt, alloc, DUMP, &mut shelf)?, end);
    }
    Ok(())
}

#[test]
fn a_write_fault_leaves_the_beginning_of_the_outputs(rt: HostRuntime) -> Result<(), Fail> {
    let alloc = rt.alloc();
    let trace = capture_of(alloc, 0, &SYN)?;
    let rows = [
        (5, None, None, "4 write fault: out.pcap\n"),
        (6, Some(0), None, "4 write fault: out.pcap\n"),
        (7, Some(84), None, "4 write fault: report.txt\n"),
        (8, Some(84), Some(0), "4 write fault: report.txt\n"),
    ];
    for (call, out, report, end) in rows {
        let mut shelf = shelf_of(alloc, RULES.as_bytes(), &trace, b"", &[call])?;
        assert_eq!(rt; ending_of(&rt, alloc, PLAIN, &mut shelf)?.as_str(), end);
        assert_eq!(rt; shelf.bytes("out.pcap").map(|bytes| bytes.len()), out);
        assert_eq!(rt; shelf.bytes("report.txt").map(|bytes| bytes.len()), report);
    }
    Ok(())
}

#[test]
fn inputs_above_their_limits_are_refused(rt: HostRuntime) -> Result<(), Fail> {
    let alloc = rt.alloc();
    let blank = vec![in alloc; b' '; 1_048_577]?;
    let mut most = HEADER.to_vec(alloc)?;
    most.resize(24 + 16 * 262_144, 0)?;
    let mut more = most.clone()?;
    // The fault of a later record does not count.
    more.resize(24 + 16 * 262_145 + 1, 0)?;
    let large = vec![in alloc; 0; 67_108_865]?;
    let other_link = changed(alloc, &HEADER, &[(20, 113)])?;
    let within = blank.get(1..).unwrap_or(&[]);
    let rows: [(&str, &[u8], &[u8], &[u8], &str); 6] = [
        (DUMP, &[], &most, &[], "0 "),
        (DUMP, &[], &large, &[], "8 limit: trace bytes 67108865\n"),
        (
            PLAIN,
            &blank,
            &more,
            &blank,
            "8 limit: rules bytes 1048577\n",
        ),
        (
            PLAIN,
            within,
            &more,
            &blank,
            "8 limit: script bytes 1048577\n",
        ),
        (
            PLAIN,
            within,
            &more,
            within,
            "8 limit: trace records 262145\n",
        ),
        (
            PLAIN,
            within,
            &other_link,
            within,
            "5 trace refused: link 113\n",
        ),
    ];
    for (words, rules, trace, script, end) in rows {
        let mut shelf = shelf_of(alloc, rules, trace, script, &[])?;
        assert_eq!(rt; ending_of(&rt, alloc, words, &mut shelf)?.as_str(), end);
    }
    Ok(())
}

#[test]
fn a_report_may_go_to_standard_output(rt: HostRuntime) -> Result<(), Fail> {
    let alloc = rt.alloc();
    let mut shelf = shelf_of(alloc, RULES.as_bytes(), &HEADER, b"", &[])?;
    let words = "plain r.toml t.pcap s.txt out.pcap -";
    assert_eq!(rt; ending_of(&rt, alloc, words, &mut shelf)?.as_str(), "0 ");
    assert_eq!(rt; text_of(&shelf, "-")?, "records 0 outs 0\n");
    assert_eq!(rt; refuse_memory(&mut shelf), 9);
    assert_eq!(rt; text_of(&shelf, "!")?, "yoda: no memory\n");
    Ok(())
}
