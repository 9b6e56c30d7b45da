use crate::{Frame, Link, PcapFault, Reader, network, write_header, write_record};
use std::test::Fail;

/// The header of a little-endian file of raw IP packets with fractions in microseconds, and the head of a record of 4
/// bytes of 6 at second 1, microsecond 7.
const RAW: [u8; 44] = [
    0xd4, 0xc3, 0xb2, 0xa1, 2, 0, 4, 0, 0, 0, 0, 0, 0, 0, 0, 0, 0xff, 0xff, 0, 0, 0x65, 0, 0, 0, 1,
    0, 0, 0, 7, 0, 0, 0, 4, 0, 0, 0, 6, 0, 0, 0, 9, 8, 7, 6,
];

/// The same in the other byte order, with the link type Ethernet and 7,999 nanoseconds.
const ETHERNET: [u8; 44] = [
    0xa1, 0xb2, 0x3c, 0x4d, 0, 2, 0, 4, 0, 0, 0, 0, 0, 0, 0, 0, 0, 0, 0xff, 0xff, 0, 0, 0, 1, 0, 0,
    0, 1, 0, 0, 0x1f, 0x3f, 0, 0, 0, 4, 0, 0, 0, 6, 9, 8, 7, 6,
];

fn frame(link: Link) -> Frame {
    Frame {
        at: 40,
        seconds: 1,
        micros: 7,
        kept: 4,
        original: 6,
        link,
    }
}

#[test]
fn reads_both_byte_orders_and_fractions(rt: HostRuntime) {
    for (bytes, link) in [(&RAW, Link::Raw), (&ETHERNET, Link::Ethernet)] {
        match Reader::open(bytes) {
            Ok(mut reader) => {
                assert_eq!(rt; reader.next(bytes), Ok(Some(frame(link))));
                assert_eq!(rt; reader.next(bytes), Ok(None));
            }
            Err(fault) => assert_eq!(rt; Some(fault), None),
        }
    }
}

#[test]
fn names_the_first_fault_of_the_header(rt: HostRuntime) {
    let cases = [
        (1, 0xc4, PcapFault::Magic(0xd4c4_b2a1)),
        (4, 3, PcapFault::Version { major: 3, minor: 4 }),
        (20, 0x71, PcapFault::Link(0x71)),
    ];
    for (place, byte, fault) in cases {
        let mut bytes = RAW;
        bytes[place] = byte;
        match Reader::open(&bytes) {
            Ok(_) => assert_eq!(rt; Some(fault), None),
            Err(found) => assert_eq!(rt; found, fault),
        }
    }
    match Reader::open(&RAW[..23]) {
        Ok(_) => assert!(rt; false),
        Err(found) => assert_eq!(rt; found, PcapFault::HeaderCut(23)),
    }
}

#[test]
fn answers_a_fault_again(rt: HostRuntime) {
    let mut large = RAW;
    large[34] = 4;
    let too_large = PcapFault::TooLarge {
        at: 24,
        kept: 0x4_0004,
    };
    let cut = PcapFault::RecordCut(24);
    for (bytes, fault) in [(&RAW[..39], cut), (&RAW[..43], cut), (&large, too_large)] {
        match Reader::open(bytes) {
            Ok(mut reader) => {
                assert_eq!(rt; reader.next(bytes), Err(fault));
                assert_eq!(rt; reader.next(bytes), Err(fault));
            }
            Err(found) => assert_eq!(rt; Some(found), None),
        }
    }
}

#[test]
fn writes_what_other_programs_read(rt: HostRuntime) -> Result<(), Fail> {
    let mut out = Vec::new(rt.alloc());
    write_header(&mut out)?;
    write_record(1, 7, &[9, 8, 7, 6], &mut out)?;
    let mut whole = RAW;
    whole[36] = 4;
    assert_eq!(rt; out.as_slice(), whole.as_slice());
    Ok(())
}

#[test]
fn only_ipv4_behind_an_ethernet_head(rt: HostRuntime) {
    let mut bytes = [0u8; 16];
    bytes[12] = 8;
    let lengths = [
        (Link::Ethernet, 16, Some(2)),
        (Link::Ethernet, 14, Some(0)),
        (Link::Ethernet, 13, None),
        (Link::Raw, 13, Some(13)),
    ];
    for (link, end, left) in lengths {
        assert_eq!(rt;
            network(link, &bytes[..end]).map(|packet| packet.len()),
            left
        );
    }
    bytes[13] = 6;
    assert!(rt; network(Link::Ethernet, &bytes).is_none());
}
