ghost use Rattle.std.specs.Prelude.{◌≡◌, ◌<◌, ◌^◌, length, IfOk, OnOk, IsTrue};
ghost use Rattle.flow_record.specs.Records.{is_syn};
ghost use Rattle.replica_cell.specs.Walks.{CarriedFits, CarriesAsAsked};

use crate::{Stepped, Walk, start, undo_step, walk_step};
use flow_id::{Flow, Key};
use flow_record::{Ask, Record};
use replica_cell::Cell;
use seq_space::Num;
use std::test::Fail;

fn flow(port: u16) -> Flow {
    Flow {
        service: 0,
        address: 0xc000_0207,
        port,
        life: 0,
    }
}

fn syn(number: u32) -> Record
    ensures { IsTrue (is_syn result) }
{
    Record::Syn {
        number: Num(number),
        mss: 1460,
        window: 64240,
        scale: None,
        sack: false,
    }
}

// One step, if a cell is left.
fn step(walk: &mut Walk, cells: &mut [Cell]) -> Result<Stepped, Fail>
    requires few { length cells.old < 2 ^ 32 }
    requires fits { CarriedFits walk.old }
    requires carries { CarriesAsAsked walk.old }
    ensures fits { OnOk result (CarriedFits walk.new) }
    ensures carries { IfOk result (λ a. a ≡ Stepped.Going → CarriesAsAsked walk.new) }
{
    if (walk.place as usize) >= cells.len() {
        return Err("no cell is left".into());
    }
    Ok(walk_step(walk, cells)?)
}

// Two asks of one key cross each other, and a cell fails between their steps: both are answered the record that was
// stored first.
#[test]
fn crossing_walks_agree(rt: HostRuntime) -> Result<(), Fail> {
    let alloc = rt.alloc();
    let mut cells = [Cell::new(alloc), Cell::new(alloc), Cell::new(alloc)];
    let key = Key::Syn(flow(40000));
    let mut a = start(Ask::Add(key, syn(1000)));
    let mut b = start(Ask::Add(key, syn(2000)));
    assert_eq!(rt; step(&mut a, &mut cells)?, Stepped::Going);
    assert_eq!(rt; step(&mut b, &mut cells)?, Stepped::Going);
    assert_eq!(rt; b.carried, Some(syn(1000)));
    cells[0].fail();
    assert!(rt; !cells[1].has(&key));
    assert_eq!(rt; step(&mut b, &mut cells)?, Stepped::Going);
    assert!(rt; cells[1].has(&key));
    assert_eq!(rt; step(&mut a, &mut cells)?, Stepped::Going);
    assert!(rt; !cells[2].has(&key));
    assert_eq!(rt; step(&mut b, &mut cells)?, Stepped::Decided(syn(1000)));
    assert_eq!(rt; step(&mut a, &mut cells)?, Stepped::Decided(syn(1000)));
    Ok(())
}

#[test]
fn all_cells_failed_is_down_at_the_last(rt: HostRuntime) -> Result<(), Fail> {
    let alloc = rt.alloc();
    let mut cells = [Cell::new(alloc), Cell::new(alloc), Cell::new(alloc)];
    for cell in &mut cells {
        cell.fail();
    }
    let mut walk = start(Ask::Get(Key::Syn(flow(40000))));
    assert_eq!(rt; step(&mut walk, &mut cells)?, Stepped::Going);
    assert_eq!(rt; step(&mut walk, &mut cells)?, Stepped::Going);
    assert_eq!(rt; step(&mut walk, &mut cells)?, Stepped::Down);
    assert_eq!(rt; cells[2].faults(), 1);
    Ok(())
}

#[test]
fn a_step_is_taken_back(rt: HostRuntime) -> Result<(), Fail> {
    let mut cells = [Cell::new(rt.alloc())];
    let key = Key::Syn(flow(40000));
    let before = start(Ask::Add(key, syn(1000)));
    let mut walk = before;
    assert_eq!(rt; step(&mut walk, &mut cells)?, Stepped::Decided(syn(1000)));
    undo_step(&mut walk, &mut cells, &before, true);
    assert_eq!(rt; walk, before);
    assert!(rt; !cells[0].has(&key));
    Ok(())
}
