use crate::{Shifts, restate, shifts, told_is_greatest};

#[test]
fn windows_are_told_as_great_as_fits(rt: HostRuntime) {
    assert_eq!(rt; restate(600, 7, 0), 65535);
    assert_eq!(rt; restate(501, 3, 7), 31);
    assert_eq!(rt; restate(100, 0, 7), 0);
    told_is_greatest();
}

#[test]
fn both_sides_scale(rt: HostRuntime) {
    let by = shifts(Some(7), Some(9));
    let want = Shifts {
        client_gives: 7,
        server_reads: 7,
        server_gives: 9,
        client_reads: 7,
    };
    assert_eq!(rt; by, want);
    // The window of the client's SYN is not scaled.
    assert_eq!(rt; restate(64240, 0, by.server_reads), 501);
    assert_eq!(rt; restate(1000, by.server_gives, by.client_reads), 4000);
    assert_eq!(rt; restate(502, by.client_gives, by.server_reads), 502);
}

#[test]
fn the_server_does_not_scale(rt: HostRuntime) {
    let by = shifts(Some(7), None);
    assert_eq!(rt; restate(64240, 0, by.server_reads), 64240);
    assert_eq!(rt; restate(502, by.client_gives, by.server_reads), 64256);
    assert_eq!(rt; restate(64240, by.server_gives, by.client_reads), 501);
    let none = Shifts {
        client_gives: 0,
        server_reads: 0,
        server_gives: 0,
        client_reads: 0,
    };
    assert_eq!(rt; shifts(None, Some(9)), none);
    assert_eq!(rt; shifts(None, None), none);
}
