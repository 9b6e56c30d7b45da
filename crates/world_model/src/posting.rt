//! What the ends send.
ghost use Rattle.std.specs.Prelude.{◌≡◌, [], Option, IfOk, is_some, option_and_then};
ghost use Rattle.tcp_end.specs.Sending.{acknowledges};
ghost use Rattle.tcp_end.specs.declared.sent.Sent.{Sent as Part};
ghost use Rattle.world_model.specs.After.{placed_at, refusal_of};
ghost use Rattle.world_model.specs.Flows.{client_behind};
ghost use Rattle.world_model.specs.Placed.{sending};
ghost use Rattle.world_model.specs.Sending.{next_by};
ghost use Rattle.world_model.specs.Posted.{nowhere};
ghost use Rattle.world_model.specs.declared.client.ClientSpec.{ClientSpec};

use crate::at::At;
use crate::client_list::ClientList;
use crate::posted::{Posted, Sender};
use crate::route::route_of;
use crate::server_ends::ServerEnds;
use crate::serving::{flow_behind, is_honest};
use rule_table::Setup;
use seq_space::{Num, number};
use std::alloc::{AllocError, Global};
use tcp_end::{End, Sent as EndSent};
use tcp_segment::{ACK, Bytes, RST, Segment};

/// A segment that stands nowhere.
pub(crate) fn nowhere(by: Sender, segment: Segment) -> Posted
    ensures { result ≡ nowhere by segment }
{
    Posted {
        segment,
        by,
        position: None,
        acknowledged: None,
    }
}

/// The position that a segment of this end acknowledges, None while it knows no peer.
#[tactic(auto, using(crate::proofs::Making::acknowledges_none, crate::proofs::Making::acknowledges_some))]
fn acknowledges(end: &End) -> Option<u64>
    ensures { result ≡ acknowledges end.now }
{
    let position = end.next_expected();
    if position == 0 { None } else { Some(position) }
}

/// Where a segment of this end stands, which an honest client's connection alone tells.
fn placed(honest: bool, at: &At, end: &End, position: u64, segment: Segment) -> Posted
    ensures { (client : Option ClientSpec) (part : Part) → honest ≡ is_some client → part.position ≡ position → result ≡ placed_at client at.now end.now part segment }
{
    if honest {
        Posted {
            segment,
            by: Sender::End(*at),
            position: Some(position),
            acknowledged: acknowledges(end),
        }
    } else {
        nowhere(Sender::End(*at), segment)
    }
}

/// Whether the end there is one of an honest client's connection.
fn is_honest_end(
    setup: &Setup,
    clients: &ClientList,
    servers: &ServerEnds,
    sent: &[Posted],
    at: &At,
) -> bool
    ensures { result ≡ is_some (client_behind (sending setup.now clients.now servers.now sent.now) at.now) }
{
    match at {
        At::Client(client) => (*client as usize) < clients.as_slice().len(),
        At::Server { server, port } => {
            is_honest(setup, clients, &flow_behind(servers, sent, *server, *port))
        }
    }
}

/// What this end sends, with so many bytes at most. None exactly where it is dead. The one error is want of memory.
pub(crate) fn next_sent(
    setup: &Setup,
    clients: &ClientList,
    servers: &ServerEnds,
    sent: &[Posted],
    at: &At,
    end: &End,
    size: u16,
) -> Result<Option<Posted>, AllocError>
    ensures { IfOk result (λ o. o ≡ next_by (sending setup.now clients.now servers.now sent.now) at.now size end.now) }
{
    let Some(part) = end.send(size)? else {
        return Ok(None);
    };
    let honest = is_honest_end(setup, clients, servers, sent, at);
    let position = part.position;
    let segment = route_of(setup, clients.as_slice(), at).segment(part);
    Ok(Some(placed(honest, at, end, position, segment)))
}

/// The reset that refuses a SYN.
pub(crate) fn refusal_of(alloc: Global, segment: &Segment) -> EndSent
    ensures { result ≡ refusal_of segment.now }
{
    EndSent {
        position: 0,
        flags: RST + ACK,
        seq: Num(0),
        ack: number(segment.head.seq, 1),
        body: Bytes::new(Vec::new(alloc)),
    }
}
