// Generated runs.
use super::*;
use crate::{Summary, drive};

#[test]
fn generated_runs_come_to_their_end(rt: HostRuntime) -> Result<(), Fail> {
    let small = Summary {
        flows: 1,
        closed: 1,
        open: 0,
        reset: 0,
        to_servers: 136,
        to_clients: 100,
    };
    assert_eq!(rt; drive(rt.alloc(), 1, 100, 7)?, small);
    // A request head has 35 bytes and the digits of its flow's number.
    let large = Summary {
        flows: 50,
        closed: 50,
        open: 0,
        reset: 0,
        to_servers: 1_001_840,
        to_clients: 1_000_000,
    };
    assert_eq!(rt; drive(rt.alloc(), 50, 20_000, 7)?, large);
    Ok(())
}
