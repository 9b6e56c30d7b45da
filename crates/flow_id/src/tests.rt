use crate::{Flow, Marks, candidate, draw, marks_of, port_shard, shard};

const SECRET: [u8; 32] = [
    0, 1, 2, 3, 4, 5, 6, 7, 8, 9, 10, 11, 12, 13, 14, 15, 16, 17, 18, 19, 20, 21, 22, 23, 24, 25,
    26, 27, 28, 29, 30, 31,
];

fn client() -> Flow {
    Flow {
        service: 0,
        address: 0xc000_0207,
        port: 40000,
        life: 0,
    }
}

#[test]
fn a_flow_is_ten_bytes(rt: HostRuntime) {
    let bytes = [0, 0, 192, 0, 2, 7, 0x9c, 0x40, 0, 0];
    assert_eq!(rt; client().to_bytes(), bytes);
    assert_eq!(rt; Flow::from_bytes(&bytes), client());
}

#[test]
fn shards_are_remainders(rt: HostRuntime) {
    assert_eq!(rt; shard(&client(), 4), 3);
    assert_eq!(rt; port_shard(65475, 64), 3);
}

// The expected numbers come from another implementation of SHA-256.
#[test]
fn marks_and_draw_are_read_from_the_hash(rt: HostRuntime) {
    let marks = Marks {
        forged: 1623089032,
        first: 3864063170,
    };
    assert_eq!(rt; marks_of(&SECRET, &client()), marks);
    assert_eq!(rt; draw(&SECRET, &client(), 1), 11647444350480686818);
}

fn from(first: u32) -> Marks {
    Marks { forged: 0, first }
}

#[test]
fn candidates_turn_round_at_the_last_port(rt: HostRuntime) {
    assert_eq!(rt; candidate(&from(1007), 3, 64, 0), 65475);
    assert_eq!(rt; candidate(&from(1007), 3, 64, 1), 1027);
}

// The sum of `first` and the candidate's number has more than 32 bits.
#[test]
fn candidates_do_not_wrap_at_32_bits(rt: HostRuntime) {
    assert_eq!(rt; candidate(&from(4294967295), 0, 64, 0), 17344);
    assert_eq!(rt; candidate(&from(4294967295), 0, 64, 1), 17408);
    assert_eq!(rt; candidate(&from(4294967289), 0, 64, 7), 17408);
}
