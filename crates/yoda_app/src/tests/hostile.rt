// What a stranger may send.
use super::*;
use tcp_segment::{FIN, RST};

/// A request head with so many fields.
fn head_with(alloc: Global, fields: usize) -> Result<Vec<u8>, Fail> {
    let mut head = b"GET /cart HTTP/1.1\r\nHost: shop.example\r\n".to_vec(alloc)?;
    for _ in 1..fields {
        head.extend_from_slice(b"X: y\r\n")?;
    }
    head.extend_from_slice(b"\r\n")?;
    Ok(head)
}

/// A capture of this client's SYN, and of these bytes of its own.
fn sending(alloc: Global, bytes: &[u8]) -> Result<Vec<u8>, Fail> {
    trace_of(
        alloc,
        &[OPENING, (Who::Client, ACK, 1001, FORGED + 1, bytes)],
    )
}

/// A capture of the SYNs of so many clients.
fn many_syns(alloc: Global, clients: u16) -> Result<Vec<u8>, Fail> {
    let mut trace = HEADER.to_vec(alloc)?;
    for client in 0..clients {
        let head = Head {
            source_port: client.wrapping_add(1024),
            target_port: 80,
            seq: Num(1000),
            ack: Num(0),
            flags: OPEN,
            window: 64240,
            urgent: 0,
            options: Options::none(),
        };
        let segment = Segment {
            source: 0xc612_0000,
            target: 0xc633_640a,
            head,
            body: Bytes::new(Vec::new(alloc)),
        };
        let mut packet = Vec::new(alloc);
        write(&segment, &mut packet)?;
        add_record(&mut trace, 0, &packet)?;
    }
    Ok(trace)
}

/// The verdicts of a capture's records: a report without the numbers of records and instances, and without its last line.
fn verdicts_of<R: Threads + Wait + Sync>(
    rt: &R,
    alloc: Global,
    trace: &[u8],
) -> Result<String, Fail> {
    let report = left_of(rt, alloc, PLAIN, trace, "report.txt")?;
    let mut verdicts = String::new(alloc);
    for line in str::from_utf8(&report).unwrap_or("").lines() {
        let mut words = line.splitn(3, ' ');
        let (first, _, verdict) = (words.next(), words.next(), words.next());
        if first != Some("records") {
            verdicts.push_str(verdict.unwrap_or("none"))?;
            verdicts.push_str("\n")?;
        }
    }
    Ok(verdicts)
}

#[test]
fn a_stranger_gets_the_verdict_of_the_table(rt: HostRuntime) -> Result<(), Fail> {
    let alloc = rt.alloc();
    let rows = [
        (
            sending(alloc, &head_with(alloc, 64)?)?,
            "answered\nasked 0 17163\n",
        ),
        (
            sending(alloc, &head_with(alloc, 65)?)?,
            "answered\nrefused badhead\n",
        ),
        // Four bytes that are no request line, and the same with the lines ended.
        (sending(alloc, b"GET\0")?, "answered\nheld 4\n"),
        (
            sending(alloc, b"GET\0\r\n\r\n")?,
            "answered\nrefused badhead\n",
        ),
        (
            trace_of(
                alloc,
                &[OPENING, (Who::Client, FIN | ACK, 1001, FORGED + 1, &[])],
            )?,
            "answered\nwaiting\n",
        ),
        (
            trace_of(
                alloc,
                &[OPENING, REQUEST, (Who::Server, RST, 70001, 0, &[])],
            )?,
            "answered\nasked 0 17163\nearly\n",
        ),
    ];
    for (trace, verdicts) in rows {
        assert_eq!(rt; verdicts_of(&rt, alloc, &trace)?.as_str(), verdicts);
    }
    Ok(())
}

#[test]
fn each_of_many_clients_is_answered(rt: HostRuntime) -> Result<(), Fail> {
    let alloc = rt.alloc();
    let verdicts = verdicts_of(&rt, alloc, &many_syns(alloc, 300)?)?;
    assert_eq!(rt;
        verdicts.as_str(),
        "answered\n".repeat(alloc, 300)?.as_str()
    );
    Ok(())
}
