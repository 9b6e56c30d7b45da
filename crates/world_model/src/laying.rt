//! Where the segments that the balancer sends stand.
ghost use Rattle.std.specs.Prelude.{◌≡◌, ◌+◌, ◌≤◌, ◌<◌, ◌^◌, ◌++◌, true, length, vec_capacity};
ghost use Rattle.world_model.specs.Placed.{behind, laid, place_by, reach, total};

use crate::posted::{Posted, Sender};
use flow_id::Flow;
use job_core::Verdict;
use tcp_segment::Segment;

/// Where the next segment stands and what it acknowledges, and whether each stands behind the data of those before it.
#[derive(Clone, Copy, Debug, PartialEq, Eq)]
pub(crate) struct Place {
    pub(crate) position: Option<u64>,
    pub(crate) acknowledged: Option<u64>,
    pub(crate) moves: bool,
}

/// Where the first segment stands that is sent with this verdict, where the flow is an honest client's or not and the
/// taken segment stood and acknowledged so.
pub(crate) fn place_by(
    verdict: &Verdict,
    honest: bool,
    position: Option<u64>,
    acknowledged: Option<u64>,
) -> Place
    ensures { result ≡ place_by verdict.now honest position acknowledged }
{
    if !honest {
        return at(None, None, false);
    }
    match verdict {
        Verdict::Answered => at(Some(0), Some(1), false),
        Verdict::Asked { .. } => at(Some(0), None, false),
        Verdict::Opened => at(Some(1), Some(1), true),
        Verdict::Forwarded => at(position, acknowledged, false),
        _ => at(None, None, false),
    }
}

fn at(position: Option<u64>, acknowledged: Option<u64>, moves: bool) -> Place
    ensures { result ≡ record { position = position; acknowledged = acknowledged; moves = moves } }
{
    Place {
        position,
        acknowledged,
        moves,
    }
}

/// The place behind so many bytes.
fn behind(place: Place, len: u64) -> Place
    requires { place.moves ≡ true → reach place + len < 2 ^ 64 }
    ensures { result ≡ behind place len }
{
    match place.position {
        Some(position) if place.moves => at(Some(position + len), place.acknowledged, true),
        _ => place,
    }
}

/// Adds what is sent at this place, for which there is room.
pub(crate) fn add_outs(sent: &mut Vec<Posted>, flow: Option<Flow>, first: Place, outs: Vec<Segment>)
    requires room { length sent.old.items + length outs.items ≤ vec_capacity sent.old }
    requires short { first.moves ≡ true → reach first + total outs.items < 2 ^ 64 }
    ensures { sent.new.items ≡ sent.old.items ++ laid flow first outs.items }
{
    let mut place = first;
    for segment in outs {
        let len = segment.body.as_slice().len() as u64;
        sent.push_reserved(Posted {
            segment,
            by: Sender::Balancer(flow),
            position: place.position,
            acknowledged: place.acknowledged,
        });
        place = behind(place, len);
    }
}
