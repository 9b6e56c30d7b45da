use std::fmt;
use std::fmt::{Display, Formatter};

/// An IPv4 address, the number of its four bytes in network byte order. It is written as four decimal numbers with
/// dots between them (RFC 1123, 2.1).
#[derive(Clone, Copy, Debug, PartialEq, Eq)]
pub struct Address(pub u32);

impl Display for Address {
    ghost use Rattle.std.specs.Prelude.{Some};
    ghost use Rattle.common.specs.Text.{dotted};

    ghost output = { λ a. Some (dotted a.0) };

    fn fmt<W: fmt::Write>(&self, f: &mut Formatter<W>) -> fmt::Result {
        let first = self.0 / 0x100_0000;
        let second = self.0 / 0x1_0000 % 256;
        let third = self.0 / 0x100 % 256;
        let last = self.0 % 256;
        write!(f, "{first}.{second}.{third}.{last}")
    }
}

/// One end of a connection. It is written as its address, a colon and its port.
#[derive(Clone, Copy, Debug, PartialEq, Eq)]
pub struct Endpoint {
    pub address: Address,
    pub port: u16,
}

impl Display for Endpoint {
    ghost use Rattle.std.specs.Prelude.{Some};
    ghost use Rattle.common.specs.Text.{end_text};

    ghost output = { λ e. Some (end_text e.address.0 e.port) };

    fn fmt<W: fmt::Write>(&self, f: &mut Formatter<W>) -> fmt::Result {
        let address = self.address;
        let port = self.port;
        write!(f, "{address}:{port}")
    }
}
