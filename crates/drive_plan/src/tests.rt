use crate::{Plan, Turn, client_byte, head_of, server_byte};
use std::test::Fail;

#[test]
fn draws_are_those_of_another_program(rt: HostRuntime) {
    let mut plan = Plan::new(7);
    assert_eq!(rt; plan.draw(), 2118330556);
    assert_eq!(rt; plan.draw(), 4104526463);
    let mut plan = Plan::new(0);
    let turn = Turn {
        a: 335903614 % 50,
        b: 1,
        c: 2599843874,
        d: 1723210473,
    };
    assert_eq!(rt; plan.turn(50), turn);
}

#[test]
fn bytes_and_heads_are_those_of_the_flow(rt: HostRuntime) -> Result<(), Fail> {
    assert_eq!(rt; client_byte(250, 2), 1);
    assert_eq!(rt; client_byte(u32::MAX, 1), 123);
    assert_eq!(rt; server_byte(242), 1);
    let mut out = b"-".to_vec(rt.alloc())?;
    head_of(49, &mut out)?;
    assert_eq!(rt;
        out.as_slice(),
        b"-GET /49 HTTP/1.1\r\nHost: d.example\r\n\r\n".as_slice()
    );
    Ok(())
}
