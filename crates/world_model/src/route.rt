//! From where to where the segments of a connection go.
ghost use Rattle.std.specs.Prelude.{◌≡◌, slice_get, unwrap_or};
ghost use Rattle.rule_table.specs.Setups.{server_of};
ghost use Rattle.world_model.specs.Routes.{client_in, route_of, segment_on};
ghost use Rattle.world_model.specs.Enabled.{goes_back};
ghost use Rattle.world_model.specs.Steps.{plain};

use crate::at::At;
use crate::client::ClientSpec;
use rule_table::{Server, Setup};
use seq_space::Num;
use std::marker::Model;
use tcp_end::Sent as EndSent;
use tcp_segment::{Head, Options, Segment};

/// The way of an end's own segments.
#[derive(Drop)]
pub(crate) struct Route {
    source: u32,
    source_port: u16,
    target: u32,
    target_port: u16,
}

impl Model for Route {
    ghost use Rattle.world_model.specs.Routes.{Route};

    ghost Value = { Route };

    ghost view = { λ r. record { source = r.source; source_port = r.source_port; target = r.target; target_port = r.target_port } };
}

/// The client with this index.
pub(crate) fn client_in(clients: &[ClientSpec], client: u32) -> ClientSpec
    ensures { result ≡ client_in clients.now client }
{
    match clients.get(client as usize) {
        Some(client) => *client,
        None => ClientSpec {
            address: 0,
            port: 0,
            isn: Num(0),
        },
    }
}

/// The server with this index.
fn server_of(setup: &Setup, server: u16) -> Server
    ensures { result ≡ server_of setup.now server }
{
    match setup.server(server) {
        Some(server) => server,
        None => Server {
            address: 0,
            port: 0,
        },
    }
}

/// The way of the segments of the end there.
pub(crate) fn route_of(setup: &Setup, clients: &[ClientSpec], at: &At) -> Route
    ensures { result ≡ route_of setup.now clients.now at.now }
{
    let service = setup.service();
    match at {
        At::Client(client) => {
            let client = client_in(clients, *client);
            Route {
                source: client.address,
                source_port: client.port,
                target: service.address,
                target_port: service.port,
            }
        }
        At::Server { server, port } => {
            let server = server_of(setup, *server);
            Route {
                source: server.address,
                source_port: server.port,
                target: service.address,
                target_port: *port,
            }
        }
    }
}

impl Route {
    /// Whether the segment goes this way back.
    pub(crate) fn is_back(&self, segment: &Segment) -> bool
        ensures { result ≡ goes_back self.now segment.now }
    {
        segment.source == self.target
            && segment.head.source_port == self.target_port
            && segment.target == self.source
            && segment.head.target_port == self.source_port
    }

    /// What an end sends this way. The window is the largest and there are no options.
    pub(crate) fn segment(&self, part: EndSent) -> Segment
        ensures { result ≡ segment_on self.now part plain }
    {
        Segment {
            source: self.source,
            target: self.target,
            head: Head {
                source_port: self.source_port,
                target_port: self.target_port,
                seq: part.seq,
                ack: part.ack,
                flags: part.flags,
                window: 65535,
                urgent: 0,
                options: Options::none(),
            },
            body: part.body,
        }
    }
}
