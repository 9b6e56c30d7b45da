ghost use Rattle.kept_records.specs.Entries.{IsKept};

use super::*;
use flow_id::Flow;
use flow_record::Record;
use seq_space::Num;
use std::alloc::AllocError;
use std::test::Fail;

fn client(port: u16) -> Flow {
    Flow {
        service: 0,
        address: 0xc000_0207,
        port,
        life: 0,
    }
}

/// What is kept of a connection to server 1 from this port.
fn kept(port: u16) -> Kept
    ensures { IsKept result }
{
    Kept {
        syn: Record::Syn {
            number: Num(1000),
            mss: 1460,
            window: 64240,
            scale: None,
            sack: false,
        },
        opened: Record::Open {
            server: 1,
            port,
            number: Num(5000),
            scale: None,
            sack: false,
        },
    }
}

/// Keeps a flow that is not kept yet, and drops what is then too much.
fn keep(list: &mut KeptList, flow: Flow, port: u16) -> Result<(), AllocError> {
    list.settle();
    if list.peek(&flow).is_none() {
        list.keep(flow, kept(port))?;
        list.settle();
    }
    Ok(())
}

#[test]
fn the_entry_that_was_used_last_stays(rt: HostRuntime) -> Result<(), Fail> {
    let mut list = KeptList::new(rt.alloc())?;
    for port in 1..257 {
        keep(&mut list, client(port), 20000 + port)?;
    }
    assert!(rt; list.find(&client(1)) == Some(kept(20001)));
    keep(&mut list, client(300), 20300)?;
    let rows = [(1, true), (2, false), (3, true), (256, true), (300, true)];
    for (port, there) in rows {
        assert!(rt; list.peek(&client(port)).is_some() == there);
        let owner = if there { Some(client(port)) } else { None };
        assert!(rt; list.owner(1, 20000 + port) == owner);
        assert!(rt; list.owner(2, 20000 + port) == None);
    }
    list.clear();
    assert!(rt; list.owner(1, 20001) == None);
    Ok(())
}

#[test]
fn the_first_of_two_owners_is_told(rt: HostRuntime) -> Result<(), Fail> {
    let mut list = KeptList::new(rt.alloc())?;
    keep(&mut list, client(1), 20000)?;
    keep(&mut list, client(2), 20000)?;
    assert!(rt; list.owner(1, 20000) == Some(client(2)));
    assert!(rt; list.find(&client(1)).is_some());
    assert!(rt; list.owner(1, 20000) == Some(client(1)));
    list.forget(&client(1));
    assert!(rt; list.owner(1, 20000) == Some(client(2)));
    Ok(())
}
