use super::*;

const SHOP: &[u8] = b"GET / HTTP/1.1\r\nHost: shop.example\r\n\r\n";

const SHOPPING: Sent<'static> = (Who::Client, ACK, 1001, FORGED + 1, SHOP);

#[test]
fn a_script_says_who_handles_a_record_and_what_fails(rt: HostRuntime) -> Result<(), Fail> {
    let alloc = rt.alloc();
    let rows: [(&[Sent<'_>], &str, &str, &str); 4] = [
        (
            &[OPENING, OPENING],
            "give 0 0\ngive 1 1\n",
            "0 0 answered\n1 1 answered\nrecords 2 outs 2\n",
            "0 198.51.100.10:80 > 192.0.2.7:40000 AS 1623089032 1001 14600 0\n1 198.51.100.10:80 > 192.0.2.7:40000 AS 1623089032 1001 14600 0\n",
        ),
        // The choice of the instance that crashes is decided; the other one goes on from there.
        (
            &[OPENING, SHOPPING, SHOPPING],
            "give 0 1\ngive 1 0\ngive 2 1\ncrash 0 at 1 after 7\n",
            "0 1 answered\n1 0 crashed\n2 1 asked 0 17163\nrecords 3 outs 2\n",
            "0 198.51.100.10:80 > 192.0.2.7:40000 AS 1623089032 1001 14600 0\n1 198.51.100.10:17163 > 10.0.0.1:8080 S 1000 0 64240 0\n",
        ),
        (
            &[
                OPENING,
                REQUEST,
                ACCEPTING,
                (Who::Server, ACK, 70001, 1070, &[]),
                (Who::Server, ACK, 70001, 1070, &[]),
            ],
            "fail 0 at 3\nfail 1 at 4\nfail 2 at 4\ngive 4 0\n",
            "0 1 answered\n1 1 asked 0 17163\n2 1 opened\n3 1 forwarded\n4 0 storedown\nrecords 5 outs 5\n",
            "0 198.51.100.10:80 > 192.0.2.7:40000 AS 1623089032 1001 14600 0\n1 198.51.100.10:17163 > 10.0.0.1:8080 S 1000 0 64240 0\n2 198.51.100.10:17163 > 10.0.0.1:8080 A 1001 70001 64240 0\n3 198.51.100.10:17163 > 10.0.0.1:8080 AP 1001 70001 64240 69\n4 198.51.100.10:80 > 192.0.2.7:40000 A 1623089033 1070 501 0\n",
        ),
        // A crash right after the take, and one past the end of the handling.
        (
            &[OPENING, OPENING, OPENING, OPENING],
            "crash 1 at 0 after 0\ncrash 0 at 1 after 88\nback 1 at 3\n",
            "0 1 crashed\n1 0 answered\n2 - noinstance\n3 1 answered\nrecords 4 outs 2\n",
            "0 198.51.100.10:80 > 192.0.2.7:40000 AS 1623089032 1001 14600 0\n1 198.51.100.10:80 > 192.0.2.7:40000 AS 1623089032 1001 14600 0\n",
        ),
    ];
    for (segments, script, report, sent) in rows {
        let (lines, outs) = outcome_of(&rt, alloc, &trace_of(alloc, segments)?, script)?;
        assert_eq!(rt; lines.as_slice(), report.as_bytes());
        assert_eq!(rt; outs.as_slice(), sent.as_bytes());
    }
    Ok(())
}

#[test]
fn a_refused_script_is_told_by_its_first_faulty_line(rt: HostRuntime) -> Result<(), Fail> {
    let alloc = rt.alloc();
    let rows = [
        ("give 0\n", "7 script refused: line 1 form\n"),
        (
            "# two instances\n\ngive 0 2\n",
            "7 script refused: line 3 range\n",
        ),
        ("give 0 0\ngive 0 1\n", "7 script refused: line 2 twice\n"),
        ("back 0 at 1\n", "7 script refused: line 1 order\n"),
    ];
    for (script, end) in rows {
        let mut shelf = shelf_of(alloc, RULES.as_bytes(), &HEADER, script.as_bytes(), &[])?;
        assert_eq!(rt; ending_of(&rt, alloc, PLAIN, &mut shelf)?.as_str(), end);
    }
    Ok(())
}
