use crate::{Address, Endpoint, u16_at, u32_at};
use std::test::Fail;

#[test]
fn numbers_have_their_highest_byte_first(rt: HostRuntime) {
    let bytes = [0x45, 0x00, 0x12, 0x34, 0xab, 0xcd];
    assert_eq!(rt; u16_at(&bytes, 2), 0x1234);
    assert_eq!(rt; u32_at(&bytes, 2), 0x1234_abcd);
}

#[test]
fn addresses_are_dotted(rt: HostRuntime) -> Result<(), Fail> {
    let client = Endpoint {
        address: Address(0xc000_0207),
        port: 40000,
    };
    let text = format!(in rt.alloc(); "{client}")?;
    assert_eq!(rt; text.as_str(), "192.0.2.7:40000");
    Ok(())
}
