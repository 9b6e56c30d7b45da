use crate::{Ask, Record, RecordFault, fits, read_form, write_form};
use flow_id::{Flow, Key, Side};
use seq_space::Num;

const SYN: Record = Record::Syn {
    number: Num(1000),
    mss: 1460,
    window: 64240,
    scale: None,
    sack: false,
};

fn client() -> Flow {
    Flow {
        service: 0,
        address: 0xc000_0207,
        port: 40000,
        life: 0,
    }
}

#[test]
fn the_form_of_a_syn(rt: HostRuntime) {
    let form = [0x01, 0x01, 0x00, 0x00, 0x03, 0xe8, 0x05, 0xb4, 0xfa, 0xf0];
    let mut out = [0xff; 24];
    assert_eq!(rt; write_form(&SYN, &mut out), 10);
    assert_eq!(rt; &out[..10], &form[..]);
    assert_eq!(rt; &out[10..], &[0; 14][..]);
    assert_eq!(rt; read_form(&form), Ok(SYN));
}

#[test]
fn the_form_of_a_port(rt: HostRuntime) {
    let form = [1, 3, 0, 0, 192, 0, 2, 7, 0x9c, 0x40, 0, 0];
    let mut out = [0; 24];
    assert_eq!(rt; write_form(&Record::Port(client()), &mut out), 12);
    assert_eq!(rt; &out[..12], &form[..]);
    assert_eq!(rt; read_form(&form), Ok(Record::Port(client())));
}

/// A Syn that scales its windows by 7 bits and takes selective acknowledgments.
const SCALED: Record = Record::Syn {
    number: Num(1000),
    mss: 1460,
    window: 64240,
    scale: Some(7),
    sack: true,
};

/// The form of a scaled Syn, but for its scale and its mark.
const SCALED_HEAD: [u8; 10] = [2, 1, 0, 0, 3, 0xe8, 5, 0xb4, 0xfa, 0xf0];

#[test]
fn scales_and_marks_have_the_second_version(rt: HostRuntime) {
    let form = [2, 1, 0, 0, 3, 0xe8, 5, 0xb4, 0xfa, 0xf0, 7, 1];
    let mut out = [0xff; 24];
    assert_eq!(rt; write_form(&SCALED, &mut out), 12);
    assert_eq!(rt; &out[..12], &form[..]);
    assert_eq!(rt; &out[12..], &[0; 12][..]);
    assert_eq!(rt; read_form(&form), Ok(SCALED));
    assert_eq!(rt; &form[..10], &SCALED_HEAD[..]);

    let opened = Record::Open {
        server: 1,
        port: 1027,
        number: Num(70000),
        scale: None,
        sack: true,
    };
    let form = [2, 4, 0, 1, 4, 3, 0, 1, 0x11, 0x70, 0xff, 1];
    assert_eq!(rt; write_form(&opened, &mut out), 12);
    assert_eq!(rt; &out[..12], &form[..]);
    assert_eq!(rt; read_form(&form), Ok(opened));
}

/// The fault of bytes of another length.
fn length(need: u8, have: u32) -> RecordFault {
    RecordFault::Length { need, have }
}

#[test]
fn the_first_fault_is_answered(rt: HostRuntime) {
    for (bytes, fault) in [
        (&[][..], length(2, 0)),
        (&[3], length(2, 1)),
        (&[3, 7], RecordFault::Version(3)),
        (&[0, 1], RecordFault::Version(0)),
        (&[1, 7], RecordFault::Kind(7)),
        (&[1, 0], RecordFault::Kind(0)),
        (&[2, 2], RecordFault::Kind(2)),
        (&[2, 5], RecordFault::Kind(5)),
        (&[1, 6], length(3, 2)),
        (&[1, 1], length(10, 2)),
        (&[1, 4], length(10, 2)),
        (&[2, 1], length(12, 2)),
        (&[2, 4, 0, 1, 4, 3, 0, 1, 0x11, 0x70], length(12, 10)),
        (&[1, 6, 3], RecordFault::Value(3)),
        (&[1, 5, 2, 0, 0, 0, 0], RecordFault::Value(2)),
    ] {
        assert_eq!(rt; read_form(bytes), Err(fault));
    }
}

#[test]
fn a_scale_and_a_mark_have_their_values(rt: HostRuntime) {
    for (scale, sack, fault) in [
        (15, 0, 15),
        (254, 2, 254),
        (14, 2, 2),
        (255, 2, 2),
        (255, 0, 0),
    ] {
        let mut form = [0; 12];
        form[..10].copy_from_slice(&SCALED_HEAD);
        form[10] = scale;
        form[11] = sack;
        assert_eq!(rt; read_form(&form), Err(RecordFault::Value(fault)));
    }
}

#[test]
fn records_fit_keys_of_their_kind(rt: HostRuntime) {
    let fin = Record::Fin {
        side: Side::Server,
        number: Num(7),
    };
    assert!(rt; fits(&Key::Syn(client()), &SYN));
    assert!(rt; !fits(&Key::Open(client()), &SYN));
    assert!(rt; fits(&Key::Fin(client(), Side::Server), &fin));
    assert!(rt; !fits(&Key::Fin(client(), Side::Client), &fin));
    assert!(rt; !fits(&Key::Gone(client()), &Record::Gone { by: 3 }));
    assert!(rt; fits(&Key::Syn(client()), &SCALED));
    let wide = Record::Open {
        server: 0,
        port: 1027,
        number: Num(70000),
        scale: Some(15),
        sack: false,
    };
    assert!(rt; !fits(&Key::Open(client()), &wide));
}

#[test]
fn an_ask_has_a_key(rt: HostRuntime) {
    let key = Key::Syn(client());
    assert_eq!(rt; Ask::Add(key, SYN).key(), key);
    assert_eq!(rt; Ask::Get(key).key(), key);
}
