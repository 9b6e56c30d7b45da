use crate::{End, EndFault, Sent};
use seq_space::Num;
use std::alloc::Global;
use std::test::Fail;
use tcp_segment::{ACK, FIN, Head, Options, PSH, RST, SYN};

fn head(seq: u32, ack: u32, flags: u8) -> Head {
    Head {
        source_port: 0,
        target_port: 0,
        seq: Num(seq),
        ack: Num(ack),
        flags,
        window: 65535,
        urgent: 0,
        options: Options::none(),
    }
}

fn take(end: &mut End, sent: &Sent) -> Result<(), Fail> {
    end.take(
        &head(sent.seq.0, sent.ack.0, sent.flags),
        sent.body.as_slice(),
    )?;
    Ok(())
}

/// Takes the last segment of the list but in each third turn, in which it is lost, and an earlier one once more.
fn deliver(turn: u8, sent: &Vec<Sent>, end: &mut End) -> Result<(), Fail> {
    if let Some(last) = sent.last() {
        if turn % 3 != 0 {
            take(end, last)?;
        }
    }
    if let Some(again) = sent.get(turn as usize * 7 % 11) {
        take(end, again)?;
    }
    Ok(())
}

/// A server end with number 5000 whose client has number 1000.
fn server(alloc: Global) -> End {
    End::server(alloc, Num(5000), Num(1000))
}

#[test]
fn streams_arrive_though_segments_are_lost_repeated_and_reordered(
    rt: HostRuntime,
) -> Result<(), Fail> {
    let mut client = End::client(rt.alloc(), Num(0xffff_fff0));
    let mut server = End::server(rt.alloc(), Num(0x7fff_fffe), Num(0xffff_fff0));
    client.write(b"GET /cart HTTP/1.1\r\nHost: shop.example\r\n\r\n")?;
    client.close();
    server.write(b"HTTP/1.1 204 No Content\r\n\r\n")?;
    server.close();
    let mut up = Vec::new(rt.alloc());
    let mut down = Vec::new(rt.alloc());
    for turn in 0..60u8 {
        if let Some(sent) = client.send(7)? {
            up.push(sent)?;
        }
        deliver(turn, &up, &mut server)?;
        if let Some(sent) = server.send(5)? {
            down.push(sent)?;
        }
        deliver(turn + 1, &down, &mut client)?;
    }
    assert_eq!(rt; server.received(), client.written());
    assert_eq!(rt; client.received(), server.written());
    assert!(rt; client.saw_close() && client.close_acknowledged() && !client.dead());
    assert!(rt; server.saw_close() && server.close_acknowledged() && !server.dead());
    Ok(())
}

#[test]
fn only_what_comes_next_is_received(rt: HostRuntime) -> Result<(), Fail> {
    let mut end = server(rt.alloc());
    // Ahead by one byte, a FIN before its place, a SYN, and then the bytes with two that come again.
    end.take(&head(1002, 5001, ACK), b"bc")?;
    end.take(&head(1002, 5001, ACK + FIN), b"")?;
    end.take(&head(7000, 5001, ACK + SYN), b"")?;
    assert_eq!(rt; end.received(), b"".as_slice());
    end.take(&head(1001, 5001, ACK + PSH), b"ab")?;
    end.take(&head(1000, 5001, ACK + FIN), b"-abc")?;
    assert_eq!(rt; end.received(), b"abc".as_slice());
    assert!(rt; end.saw_close());
    // Behind the SYN, the three bytes and the close.
    assert_eq!(rt; end.next_expected(), 5);
    // Behind the close nothing comes.
    end.take(&head(1005, 5001, ACK), b"d")?;
    assert_eq!(rt; end.received(), b"abc".as_slice());
    Ok(())
}

#[test]
fn acknowledgments_count_where_the_flag_is_set_and_up_to_the_end(
    rt: HostRuntime,
) -> Result<(), Fail> {
    let mut end = server(rt.alloc());
    end.write(b"xy")?;
    end.take(&head(1001, 5001, PSH), b"")?;
    end.take(&head(1001, 5004, ACK), b"")?;
    assert_eq!(rt;
        end.send(9)?.map(|sent| (sent.position, sent.flags)),
        Some((0, SYN + ACK))
    );
    end.take(&head(1001, 5002, ACK), b"")?;
    assert_eq!(rt;
        end.send(9)?.map(|sent| (sent.position, sent.seq, sent.ack)),
        Some((2, Num(5002), Num(1001)))
    );
    assert!(rt; !end.closed());
    end.close();
    assert!(rt; end.closed());
    assert_eq!(rt; end.write(b"z"), Err(EndFault::Closed));
    assert_eq!(rt;
        end.send(9)?.map(|sent| (sent.position, sent.flags)),
        Some((2, ACK + FIN))
    );
    end.take(&head(1001, 5004, ACK), b"")?;
    assert!(rt; end.close_acknowledged());
    assert_eq!(rt;
        end.send(9)?.map(|sent| (sent.position, sent.flags)),
        Some((4, ACK))
    );
    Ok(())
}

#[test]
fn resets_end_it(rt: HostRuntime) -> Result<(), Fail> {
    let mut client = End::client(rt.alloc(), Num(1000));
    client.known();
    // The peer's SYN is expected, at position 0.
    assert_eq!(rt; client.next_expected(), 0);
    client.take(&head(7000, 1002, SYN + ACK), b"")?;
    let reset = client
        .abort()
        .map(|sent| (sent.position, sent.flags, sent.ack));
    assert_eq!(rt; reset, Some((0, RST, Num(0))));
    assert!(rt; client.abort().is_none());
    assert!(rt; client.send(9)?.is_none());

    let mut end = server(rt.alloc());
    end.take(&head(9999, 0, RST), b"")?;
    assert!(rt; end.dead());
    assert_eq!(rt; end.write(b"z"), Err(EndFault::Closed));
    Ok(())
}
