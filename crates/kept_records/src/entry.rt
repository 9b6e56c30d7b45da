// What is kept of one flow.
ghost use Rattle.std.specs.Prelude.{◌≡◌};
ghost use Rattle.kept_records.specs.Entries.{opens_to, server_port};

use flow_record::Record;

/// The decided records of a flow whose connection is open.
#[derive(Clone, Copy, Debug, PartialEq, Eq)]
pub struct Kept {
    /// The client's SYN.
    pub syn: Record,
    /// The connection to the server.
    pub opened: Record,
}

/// A server, by its number, and a port of the balancer towards it.
#[derive(Clone, Copy, Debug, PartialEq, Eq, Hash)]
pub(crate) struct ServerPort {
    pub(crate) server: u16,
    pub(crate) port: u16,
}

/// The server and the port of the connection.
pub(crate) fn server_port(kept: &Kept) -> ServerPort
    ensures { result ≡ server_port kept.now }
{
    match kept.opened {
        Record::Open { server, port, .. } => ServerPort { server, port },
        _ => ServerPort { server: 0, port: 0 },
    }
}

/// Whether the connection is one to this server from this port.
pub(crate) fn opens_to(kept: &Kept, server: u16, port: u16) -> bool
    ensures { result ≡ opens_to server port kept.now }
{
    let at = server_port(kept);
    at.server == server && at.port == port
}
