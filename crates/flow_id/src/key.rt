ghost use Rattle.std.specs.Prelude.{◌≡◌, ◌≤◌, length};
ghost use Rattle.flow_id.specs.Flows.{flow_bytes, flow_of};

use common::{u16_at, u32_at};

/// A connection of a client to a service.
#[derive(Clone, Copy, Debug, PartialEq, Eq)]
pub struct Flow {
    /// The service's number.
    pub service: u16,
    /// The client's IPv4 address, the number of its four bytes in network byte order.
    pub address: u32,
    /// The client's TCP port.
    pub port: u16,
    /// Which of the connections that the client opened from this port, one after the other, counted from 0.
    pub life: u16,
}

impl Flow {
    /// The flow as bytes in network byte order: its service, address, port and life.
    pub fn to_bytes(&self) -> [u8; 10]
        ensures bytes { result ≡ flow_bytes self.now }
        // The bytes tell the flow.
        ensures again { flow_of (flow_bytes self.now) ≡ self.now }
    {
        let s = self.service.to_be_bytes();
        let a = self.address.to_be_bytes();
        let p = self.port.to_be_bytes();
        let l = self.life.to_be_bytes();
        [s[0], s[1], a[0], a[1], a[2], a[3], p[0], p[1], l[0], l[1]]
    }

    /// The flow whose bytes these begin with.
    pub fn from_bytes(bytes: &[u8]) -> Flow
        requires { 10 ≤ length bytes.now }
        ensures { result ≡ flow_of bytes.now }
    {
        Flow {
            service: u16_at(bytes, 0),
            address: u32_at(bytes, 2),
            port: u16_at(bytes, 6),
            life: u16_at(bytes, 8),
        }
    }
}

/// One of the two ends of a connection.
#[derive(Clone, Copy, Debug, PartialEq, Eq, Hash)]
pub enum Side {
    Client,
    Server,
}

/// The name of a record: what is decided once for it stands for good.
#[derive(Clone, Copy, Debug, PartialEq, Eq)]
pub enum Key {
    /// The client's SYN.
    Syn(Flow),
    /// The server that was chosen for the flow.
    Choice(Flow),
    /// The flow that owns a source port of the service towards a server.
    Port {
        service: u16,
        server: u16,
        port: u16,
    },
    /// The connection that was opened to the server.
    Open(Flow),
    /// The end of one side's stream.
    Fin(Flow, Side),
    /// Who ended the flow.
    Gone(Flow),
}
