use crate::{IpFault, Packet, packet_header, read, sum, write};
use std::test::Fail;

/// A SYN from 192.0.2.7 to 198.51.100.10: a header of 20 bytes and a segment of 20.
const SYN: [u8; 40] = [
    0x45, 0, 0, 0x28, 0, 0, 0x40, 0, 0x40, 6, 0x4e, 0x8b, 0xc0, 0, 2, 7, 0xc6, 0x33, 0x64, 0x0a,
    0x9c, 0x40, 0, 0x50, 0, 0, 3, 0xe8, 0, 0, 0, 0, 0x50, 2, 0xfa, 0xf0, 0x28, 0x34, 0, 0,
];

#[test]
fn sums_the_example_of_rfc_1071(rt: HostRuntime) {
    assert_eq!(rt; sum(&[0, 1, 0xf2, 3, 0xf4, 0xf5, 0xf6, 0xf7]), 0x220d);
    assert_eq!(rt; sum(&[0, 1, 0xf2, 3, 0xf4]), 0x19fa);
    assert_eq!(rt; sum(&SYN[..20]), 0);
}

#[test]
fn sums_bytes_of_more_than_one_part(rt: HostRuntime) -> Result<(), Fail> {
    let mut bytes = Vec::with_capacity(rt.alloc(), 131_073)?;
    bytes.resize(65_540, 1)?;
    assert_eq!(rt; sum(&bytes), 0xffff - 33_410);
    bytes.resize(131_073, 1)?;
    assert_eq!(rt; sum(&bytes), 0xffff - 513);
    Ok(())
}

#[test]
fn writes_a_packet_and_reads_it_with_padding(rt: HostRuntime) -> Result<(), Fail> {
    let mut out = Vec::new(rt.alloc());
    write(0xc000_0207, 0xc633_640a, &SYN[20..], &mut out)?;
    assert_eq!(rt; out.as_slice(), SYN.as_slice());
    assert_eq!(rt;
        packet_header(0xc000_0207, 0xc633_640a, 40).as_slice(),
        &SYN[..20]
    );
    out.extend_from_slice(&[0; 6])?;
    let packet = Packet {
        source: 0xc000_0207,
        target: 0xc633_640a,
        start: 20,
        end: 40,
    };
    assert_eq!(rt; read(&out), Ok(packet));
    Ok(())
}

#[test]
fn names_the_first_fault(rt: HostRuntime) {
    let cases = [
        (0, 0x65, IpFault::Version(6)),
        (0, 0x44, IpFault::HeaderLength(4)),
        (3, 0x29, IpFault::TotalLength(41)),
        (
            11,
            0x8c,
            IpFault::BadSum {
                kept: 0x4e8c,
                computed: 0x4e8b,
            },
        ),
    ];
    for (place, byte, fault) in cases {
        let mut bytes = SYN;
        bytes[place] = byte;
        assert_eq!(rt; read(&bytes), Err(fault));
    }
    let mut fragment = SYN;
    fragment[6] = 0x20;
    fragment[10] = 0x6e;
    assert_eq!(rt; read(&fragment), Err(IpFault::Fragment));
    assert_eq!(rt;
        read(&SYN[..19]),
        Err(IpFault::Short { need: 20, have: 19 })
    );
}
