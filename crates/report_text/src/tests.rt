use crate::{report_end, report_line};
use flow_id::Flow;
use ipv4::IpFault;
use job_core::{Verdict, Why};
use std::test::Fail;
use tcp_segment::TcpFault;

/// The flow of the client 192.0.2.101 from this port.
fn flow(port: u16) -> Flow {
    Flow {
        service: 0,
        address: 0xc000_0265,
        port,
        life: 3,
    }
}

#[test]
fn each_verdict_has_its_text(rt: HostRuntime) -> Result<(), Fail> {
    let owners = [
        flow(0),
        flow(80),
        flow(1024),
        flow(5000),
        flow(5001),
        flow(5002),
        flow(5003),
        flow(65535),
    ];
    for (verdict, text) in [
        (Verdict::Answered, "answered"),
        (Verdict::Held(14600), "held 14600"),
        (
            Verdict::Ahead {
                end: 20,
                offset: 4294967295,
            },
            "ahead 20 4294967295",
        ),
        (Verdict::Waiting, "waiting"),
        (Verdict::LetGo, "letgo"),
        (
            Verdict::Asked {
                server: 1,
                port: 65475,
            },
            "asked 1 65475",
        ),
        (Verdict::Opened, "opened"),
        (Verdict::Forwarded, "forwarded"),
        (Verdict::Refused(Why::TooLong), "refused toolong"),
        (Verdict::Refused(Why::BadHead), "refused badhead"),
        (Verdict::Refused(Why::NoRule), "refused norule"),
        (Verdict::TurnedAway, "turnedaway"),
        (Verdict::Unknown, "unknown"),
        (Verdict::OtherNumber(1000), "othernumber 1000"),
        (Verdict::BadAck(0), "badack 0"),
        (Verdict::OtherOpen(70000), "otheropen 70000"),
        (
            Verdict::PortsTaken(owners),
            "portstaken 192.0.2.101:0 192.0.2.101:80 192.0.2.101:1024 192.0.2.101:5000 192.0.2.101:5001 192.0.2.101:5002 192.0.2.101:5003 192.0.2.101:65535",
        ),
        (Verdict::Early, "early"),
        (Verdict::Odd(0x03), "odd 03"),
        (Verdict::Odd(0xff), "odd ff"),
        (Verdict::NotOurs, "notours"),
        (Verdict::NotIpv4, "notipv4"),
        (Verdict::SnapCut, "snapcut"),
        (
            Verdict::BadIp(IpFault::Short { need: 20, have: 0 }),
            "badip short 20 0",
        ),
        (Verdict::BadIp(IpFault::Version(6)), "badip version 6"),
        (
            Verdict::BadIp(IpFault::HeaderLength(4)),
            "badip headerlength 4",
        ),
        (
            Verdict::BadIp(IpFault::TotalLength(1500)),
            "badip totallength 1500",
        ),
        (
            Verdict::BadIp(IpFault::BadSum {
                kept: 0x4e8c,
                computed: 0x0b,
            }),
            "badip sum 4e8c 000b",
        ),
        (Verdict::BadIp(IpFault::Fragment), "badip fragment"),
        (Verdict::BadIp(IpFault::Protocol(17)), "badip protocol 17"),
        (
            Verdict::BadTcp(TcpFault::Short { need: 20, have: 19 }),
            "badtcp short 20 19",
        ),
        (Verdict::BadTcp(TcpFault::Offset(15)), "badtcp offset 15"),
        (
            Verdict::BadTcp(TcpFault::BadSum {
                kept: 0x2835,
                computed: 0x2834,
            }),
            "badtcp sum 2835 2834",
        ),
        (Verdict::BadTcp(TcpFault::OptionCut(3)), "badtcp option 3"),
        (Verdict::StoreDown, "storedown"),
        (Verdict::Crashed, "crashed"),
        (Verdict::NoInstance, "noinstance"),
        (Verdict::NoMemory { calls: 7 }, "nomemory 7"),
    ] {
        let mut out = Vec::new(rt.alloc());
        report_line(9, Some(1), &verdict, &mut out)?;
        let line = format!(in rt.alloc(); "9 1 {text}\n")?;
        assert_eq!(rt; out.as_slice(), line.as_bytes());
    }
    Ok(())
}

#[test]
fn a_report_is_its_lines_and_the_counts(rt: HostRuntime) -> Result<(), Fail> {
    let mut out = Vec::new(rt.alloc());
    report_line(0, Some(1), &Verdict::Answered, &mut out)?;
    report_line(4294967295, None, &Verdict::NoInstance, &mut out)?;
    report_end(2, 1, &mut out)?;
    let report = "0 1 answered\n4294967295 - noinstance\nrecords 2 outs 1\n";
    assert_eq!(rt; out.as_slice(), report.as_bytes());
    Ok(())
}
