ghost use Rattle.std.specs.Prelude.{◌≤◌};
ghost use Rattle.tcp_segment.specs.Written.{area_length};

use super::*;
use tcp_segment::{FIN, RST};

#[test]
fn a_syn_is_answered_with_its_forged_number(rt: HostRuntime) -> Result<(), Fail> {
    let alloc = rt.alloc();
    let rows = [
        (capture_of(alloc, 0, &SYN)?, capture_of(alloc, 0, &SYN_ACK)?),
        (HEADER.to_vec(alloc)?, HEADER.to_vec(alloc)?),
    ];
    for (trace, out) in rows {
        assert_eq!(rt; left_of(&rt, alloc, PLAIN, &trace, "out.pcap")?, out);
    }
    Ok(())
}

#[test]
fn each_record_has_its_verdict(rt: HostRuntime) -> Result<(), Fail> {
    let alloc = rt.alloc();
    let renumbered: &[(usize, u8)] = &[(27, 0xe9), (37, 0x33)];
    let fragment: &[(usize, u8)] = &[(6, 0x20), (10, 0x6e)];
    let to_port_81: &[(usize, u8)] = &[(23, 81), (37, 0x33)];
    let rows: [(&[&[(usize, u8)]], &str); 6] = [
        (&[], "records 0 outs 0\n"),
        (
            &[&[], &[]],
            "0 1 answered\n1 1 answered\nrecords 2 outs 2\n",
        ),
        (
            &[&[], renumbered],
            "0 1 answered\n1 1 othernumber 1000\nrecords 2 outs 1\n",
        ),
        (
            &[&[(37, 0x35)]],
            "0 - badtcp sum 2835 2834\nrecords 1 outs 0\n",
        ),
        (&[fragment], "0 - badip fragment\nrecords 1 outs 0\n"),
        (&[to_port_81], "0 - notours\nrecords 1 outs 0\n"),
    ];
    for (frames, report) in rows {
        let trace = syns(alloc, frames)?;
        assert_eq!(rt;
            left_of(&rt, alloc, PLAIN, &trace, "report.txt")?.as_slice(),
            report.as_bytes()
        );
    }
    Ok(())
}

#[test]
fn a_frame_without_a_segment_has_its_verdict(rt: HostRuntime) -> Result<(), Fail> {
    let alloc = rt.alloc();
    let rows = [
        (
            capture_of(alloc, 20, &SYN)?,
            "0 - snapcut\nrecords 1 outs 0\n",
        ),
        (
            ETHERNET.to_vec(alloc)?,
            "0 - notipv4\n1 1 answered\nrecords 2 outs 1\n",
        ),
        (
            capture_of(alloc, 0, &[])?,
            "0 - badip short 20 0\nrecords 1 outs 0\n",
        ),
    ];
    for (trace, report) in rows {
        assert_eq!(rt;
            left_of(&rt, alloc, PLAIN, &trace, "report.txt")?.as_slice(),
            report.as_bytes()
        );
    }
    Ok(())
}

#[test]
fn segments_are_handled_by_the_table(rt: HostRuntime) -> Result<(), Fail> {
    let alloc = rt.alloc();
    let rows: [(&[Sent<'_>], &str, &str); 8] = [
        (
            &[
                OPENING,
                (Who::Client, ACK, 1001, FORGED + 1, &[]),
                REQUEST,
                ACCEPTING,
                (Who::Server, ACK, 70001, 1070, &[]),
                (Who::Server, PSH | ACK, 70001, 1070, &[b'y'; 200]),
                (Who::Client, ACK, 1070, FORGED + 201, &[]),
                (Who::Server, FIN | ACK, 70201, 1070, &[]),
                (Who::Client, FIN | ACK, 1070, FORGED + 202, &[]),
                (Who::Server, ACK, 70202, 1071, &[]),
            ],
            "0 1 answered\n1 1 waiting\n2 1 asked 0 17163\n3 1 opened\n4 1 forwarded\n5 1 forwarded\n6 1 forwarded\n7 1 forwarded\n8 1 forwarded\n9 1 forwarded\nrecords 10 outs 10\n",
            "0 198.51.100.10:80 > 192.0.2.7:40000 AS 1623089032 1001 14600 0\n1 198.51.100.10:17163 > 10.0.0.1:8080 S 1000 0 64240 0\n2 198.51.100.10:17163 > 10.0.0.1:8080 A 1001 70001 64240 0\n3 198.51.100.10:17163 > 10.0.0.1:8080 AP 1001 70001 64240 69\n4 198.51.100.10:80 > 192.0.2.7:40000 A 1623089033 1070 501 0\n5 198.51.100.10:80 > 192.0.2.7:40000 AP 1623089033 1070 501 200\n6 198.51.100.10:17163 > 10.0.0.1:8080 A 1070 70201 65535 0\n7 198.51.100.10:80 > 192.0.2.7:40000 AF 1623089233 1070 501 0\n8 198.51.100.10:17163 > 10.0.0.1:8080 AF 1070 70202 65535 0\n9 198.51.100.10:80 > 192.0.2.7:40000 A 1623089234 1071 501 0\n",
        ),
        (
            &[
                (Who::Client, OPEN, 4_294_967_295, 0, &[]),
                (Who::Client, ACK, 0, FORGED + 1, HEAD),
            ],
            "0 1 answered\n1 1 asked 0 17163\nrecords 2 outs 2\n",
            "0 198.51.100.10:80 > 192.0.2.7:40000 AS 1623089032 0 14600 0\n1 198.51.100.10:17163 > 10.0.0.1:8080 S 4294967295 0 64240 0\n",
        ),
        (
            &[
                OPENING,
                (Who::Client, ACK, 1041, FORGED + 1, PIECES[2]),
                (Who::Client, ACK, 1001, FORGED + 1, PIECES[0]),
                (Who::Client, ACK, 1021, FORGED + 1, PIECES[1]),
                (Who::Client, ACK, 1041, FORGED + 1, PIECES[2]),
            ],
            "0 1 answered\n1 1 ahead 0 40\n2 1 held 20\n3 1 held 40\n4 1 asked 0 17163\nrecords 5 outs 2\n",
            "0 198.51.100.10:80 > 192.0.2.7:40000 AS 1623089032 1001 14600 0\n1 198.51.100.10:17163 > 10.0.0.1:8080 S 1000 0 64240 0\n",
        ),
        (
            &[
                OPENING,
                REQUEST,
                (Who::Server, OPEN | ACK, 70000, 1002, &[]),
                ACCEPTING,
                (Who::Server, OPEN | ACK, 70001, 1001, &[]),
            ],
            "0 1 answered\n1 1 asked 0 17163\n2 1 badack 1002\n3 1 opened\n4 1 otheropen 70000\nrecords 5 outs 4\n",
            "0 198.51.100.10:80 > 192.0.2.7:40000 AS 1623089032 1001 14600 0\n1 198.51.100.10:17163 > 10.0.0.1:8080 S 1000 0 64240 0\n2 198.51.100.10:17163 > 10.0.0.1:8080 A 1001 70001 64240 0\n3 198.51.100.10:17163 > 10.0.0.1:8080 AP 1001 70001 64240 69\n",
        ),
        (
            &[
                OPENING,
                REQUEST,
                (Who::Server, ACK, 70001, 1070, &[]),
                (Who::Server, RST | ACK, 0, 1001, &[]),
            ],
            "0 1 answered\n1 1 asked 0 17163\n2 1 early\n3 1 turnedaway\nrecords 4 outs 3\n",
            "0 198.51.100.10:80 > 192.0.2.7:40000 AS 1623089032 1001 14600 0\n1 198.51.100.10:17163 > 10.0.0.1:8080 S 1000 0 64240 0\n2 198.51.100.10:80 > 192.0.2.7:40000 R 1623089033 0 0 0\n",
        ),
        (
            &[
                OPENING,
                (
                    Who::Client,
                    ACK,
                    1001,
                    FORGED + 1,
                    b"GET / HTTP/1.1\r\nHost: no.example\r\n\r\n",
                ),
            ],
            "0 1 answered\n1 1 refused norule\nrecords 2 outs 2\n",
            "0 198.51.100.10:80 > 192.0.2.7:40000 AS 1623089032 1001 14600 0\n1 198.51.100.10:80 > 192.0.2.7:40000 R 1623089033 0 0 0\n",
        ),
        (
            &[
                (Who::Client, ACK, 1001, 777, HEAD),
                (Who::Client, RST, 1001, 0, &[]),
                (Who::Server, ACK, 70001, 1001, &[]),
            ],
            "0 1 unknown\n1 1 unknown\n2 1 unknown\nrecords 3 outs 2\n",
            "0 198.51.100.10:80 > 192.0.2.7:40000 R 777 0 0 0\n1 198.51.100.10:17163 > 10.0.0.1:8080 R 1001 0 0 0\n",
        ),
        (
            &[
                OPENING,
                (Who::Client, RST, 1001, 0, &[]),
                (Who::Client, OPEN | FIN, 1000, 0, &[]),
            ],
            "0 1 answered\n1 1 letgo\n2 - odd 03\nrecords 3 outs 1\n",
            "0 198.51.100.10:80 > 192.0.2.7:40000 AS 1623089032 1001 14600 0\n",
        ),
    ];
    for (segments, report, sent) in rows {
        let (lines, outs) = outcome_of(&rt, alloc, &trace_of(alloc, segments)?, "")?;
        assert_eq!(rt; lines.as_slice(), report.as_bytes());
        assert_eq!(rt; outs.as_slice(), sent.as_bytes());
    }
    Ok(())
}

#[test]
fn options_are_answered_and_handed_on(rt: HostRuntime) -> Result<(), Fail> {
    let alloc = rt.alloc();
    for segments in [&[OPENING][..], &[OPENING, REQUEST]] {
        let trace = trace_of(alloc, segments)?;
        let sent = left_of(&rt, alloc, PLAIN, &trace, "out.pcap")?;
        // The last that is sent is a SYN-ACK to the client, or the SYN to the server.
        assert!(rt; sent.ends_with(&[2, 4, 5, 0xb4, 1, 1, 4, 2, 1, 3, 3, 7]));
    }
    Ok(())
}

/// The options of the server's SYN-ACK, which permits selective acknowledgments or not.
fn accepting_options(permits: bool) -> Options
    ensures { area_length result ≤ 12 }
{
    Options {
        mss: Some(1460),
        sack_permitted: permits,
        ..Options::none()
    }
}

#[test]
fn a_block_goes_on_where_both_ends_permit_it(rt: HostRuntime) -> Result<(), Fail> {
    let alloc = rt.alloc();
    // The place of the data's offset, counted from the end of the last packet, and that offset.
    for (permits, back, offset) in [(true, 20, 0x80), (false, 8, 0x50)] {
        let mut trace = trace_of(alloc, &[OPENING, REQUEST])?;
        let accepting = packet_with(alloc, &ACCEPTING, accepting_options(permits))?;
        add_record(&mut trace, 0, &accepting)?;
        let acknowledging = (Who::Client, ACK, 1070, FORGED + 201, [].as_slice());
        let block = block_of(FORGED + 301, FORGED + 401);
        add_record(&mut trace, 0, &packet_with(alloc, &acknowledging, block)?)?;
        let sent = left_of(&rt, alloc, PLAIN, &trace, "out.pcap")?;
        assert_eq!(rt;
            sent.ends_with(&[1, 1, 5, 10, 0, 1, 0x12, 0x9d, 0, 1, 0x13, 1]),
            permits
        );
        let place = sent.len().saturating_sub(back);
        assert_eq!(rt; sent.get(place), Some(&offset));
    }
    Ok(())
}

/// A capture of a client's SYN and ten segments of 1460 bytes: a request head with so many letters in its last field, and
/// these bytes behind them.
fn long_head(alloc: Global, letters: usize, end: &[u8]) -> Result<Vec<u8>, Fail> {
    let mut head = b"GET / HTTP/1.1\r\nHost: shop.example\r\nX: ".to_vec(alloc)?;
    head.resize(head.len().saturating_add(letters), b'a')?;
    head.extend_from_slice(end)?;
    let mut trace = trace_of(alloc, &[OPENING])?;
    let mut seq: u32 = 1001;
    for piece in head.chunks(1460) {
        let sent = (Who::Client, ACK, seq, FORGED + 1, piece);
        add_record(&mut trace, 0, &packet_of(alloc, &sent)?)?;
        seq = seq.wrapping_add(1460);
    }
    Ok(trace)
}

#[test]
fn a_request_head_has_14600_bytes_at_most(rt: HostRuntime) -> Result<(), Fail> {
    let alloc = rt.alloc();
    let held =
        "0 1 answered\n1 1 held 1460\n2 1 held 2920\n3 1 held 4380\n4 1 held 5840\n5 1 held 7300\n6 1 held 8760\n7 1 held 10220\n8 1 held 11680\n9 1 held 13140\n";
    let rows: [(usize, &[u8], &str, &str); 2] = [
        (
            14557,
            b"\r\n\r\n",
            "10 1 asked 0 17163\nrecords 11 outs 2\n",
            "0 198.51.100.10:80 > 192.0.2.7:40000 AS 1623089032 1001 14600 0\n1 198.51.100.10:17163 > 10.0.0.1:8080 S 1000 0 64240 0\n",
        ),
        (
            14561,
            b"",
            "10 1 refused toolong\nrecords 11 outs 2\n",
            "0 198.51.100.10:80 > 192.0.2.7:40000 AS 1623089032 1001 14600 0\n1 198.51.100.10:80 > 192.0.2.7:40000 R 1623089033 0 0 0\n",
        ),
    ];
    for (letters, end, report, sent) in rows {
        let (lines, outs) = outcome_of(&rt, alloc, &long_head(alloc, letters, end)?, "")?;
        let whole = format!(in alloc; "{held}{report}")?;
        assert_eq!(rt; lines.as_slice(), whole.as_bytes());
        assert_eq!(rt; outs.as_slice(), sent.as_bytes());
    }
    Ok(())
}

#[test]
fn a_dump_has_a_line_for_each_frame(rt: HostRuntime) -> Result<(), Fail> {
    let alloc = rt.alloc();
    let rows = [
        (
            ETHERNET.to_vec(alloc)?,
            "0 notipv4\n1 192.0.2.7:40000 > 198.51.100.10:80 S 1000 0 64240 0\n",
        ),
        (
            capture_of(alloc, 0, &SYN_ACK)?,
            "0 198.51.100.10:80 > 192.0.2.7:40000 AS 1623089032 1001 14600 0\n",
        ),
        (HEADER.to_vec(alloc)?, ""),
    ];
    for (trace, lines) in rows {
        assert_eq!(rt;
            left_of(&rt, alloc, DUMP, &trace, "-")?.as_slice(),
            lines.as_bytes()
        );
    }
    Ok(())
}
