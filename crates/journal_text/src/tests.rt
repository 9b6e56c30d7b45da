use crate::journal;
use bench::Call;
use job_core::Aim;
use seen_lock::Entry;
use seq_space::Num;
use std::alloc::Global;
use std::test::Fail;
use tcp_segment::{ACK, Bytes, Head, Options, Segment};

/// The instance takes a server's segment, as the record with this number.
fn take(alloc: Global, instance: u16, item: u32) -> Call {
    let head = Head {
        source_port: 8080,
        target_port: 20002,
        seq: Num(70000),
        ack: Num(1001),
        flags: ACK,
        window: 64240,
        urgent: 0,
        options: Options::none(),
    };
    Call::Take {
        instance,
        item,
        aim: Aim::Server {
            server: 0,
            port: 20002,
        },
        seg: Segment {
            source: 0x0a00_0001,
            target: 0xc633_640a,
            head,
            body: Bytes::new(Vec::new(alloc)),
        },
    }
}

/// A call that seat 2 made.
fn entry(call: Call) -> Entry<Call> {
    Entry { seat: 2, call }
}

#[test]
fn each_call_has_its_line(rt: HostRuntime) -> Result<(), Fail> {
    let alloc = rt.alloc();
    let calls = [
        take(alloc, 1, 262143),
        Call::Step { instance: 1 },
        Call::Fail { place: 7 },
        Call::Crash { instance: 15 },
        take(alloc, 0, 0),
    ];
    let mut first = Vec::new(alloc);
    for call in calls {
        first.push(entry(call))?;
    }
    let mut last = Vec::new(alloc);
    last.push(entry(Call::Step { instance: 10 }))?;
    let mut histories = Vec::new(alloc);
    histories.push(first)?;
    histories.push(Vec::new(alloc))?;
    histories.push(last)?;
    let mut out = Vec::from_slice(alloc, b"records 3 outs 0\n")?;
    journal(&histories, &mut out)?;
    let lines =
        b"records 3 outs 0\nshard 0\ntake 1 262143\nstep 1\nfail 7\ncrash 15\ntake 0 0\nshard 1\nshard 2\nstep 10\n";
    assert!(rt; out.as_slice() == lines.as_slice());
    Ok(())
}

#[test]
fn a_journal_of_no_shards_is_empty(rt: HostRuntime) -> Result<(), Fail> {
    let mut out = Vec::new(rt.alloc());
    journal(&[], &mut out)?;
    assert!(rt; out.is_empty());
    Ok(())
}
