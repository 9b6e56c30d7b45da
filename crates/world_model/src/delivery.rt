//! Segments that the ends take.
ghost use Rattle.std.specs.Prelude.{◌≡◌, ◌<◌, ◌++◌, ◌∷◌, [], Some, None, length, slice_get, slice_set, find, option_map, OnOk, OnErr};
ghost use Rattle.tcp_end.specs.EndState.{EndState, server_end};
ghost use Rattle.tcp_end.specs.Taking.{taken};
ghost use Rattle.world_model.specs.Posted.{Posted as PostedView};
ghost use Rattle.world_model.specs.World.{AreApart};
ghost use Rattle.world_model.specs.World.{ServerEnd as ServerEndView};
ghost use Rattle.world_model.specs.World.{is_end, with_server_end};

use crate::posted::Posted;
use crate::server_end::ServerEnd;
use crate::server_ends::ServerEnds;
use crate::serving::entry;
use seq_space::Num;
use std::alloc::AllocError;
use tcp_end::End;
use tcp_segment::Segment;

/// The end takes the segment, if there is one.
fn take_any(slot: &mut Option<End>, segment: &Segment) -> Result<(), AllocError>
    ensures ok { OnOk result ((e : EndState) → slot.old ≡ Some e → slot.new ≡ Some (taken e segment.now.head segment.now.body)) }
    ensures err { OnErr result (slot.new ≡ slot.old) }
{
    match slot {
        Some(end) => end.take(&segment.head, segment.body.as_slice()),
        None => Ok(()),
    }
}

/// The end of the client with this index takes the segment.
fn take_client(
    ends: &mut Vec<Option<End>>,
    client: u32,
    segment: &Segment,
) -> Result<(), AllocError>
    requires { client < length ends.old.items }
    ensures ok { OnOk result ((e : EndState) → slice_get ends.old.items client ≡ Some (Some e) → ends.new.items ≡ slice_set ends.old.items client (Some (taken e segment.now.head segment.now.body))) }
    ensures err { OnErr result (ends.new.items ≡ ends.old.items) }
{
    take_any(&mut ends[client as usize], segment)
}

/// The server's end at this place takes the segment.
fn take_server(
    servers: &mut Vec<ServerEnd>,
    place: usize,
    segment: &Segment,
) -> Result<(), AllocError>
    requires { place < length servers.old.items }
    ensures ok { OnOk result ((s : ServerEndView) → slice_get servers.old.items place ≡ Some s → servers.new.items ≡ slice_set servers.old.items place (record s { state = taken s.state segment.now.head segment.now.body })) }
    ensures err { OnErr result (servers.new.items ≡ servers.old.items) }
{
    let end = &mut servers[place].state;
    end.take(&segment.head, segment.body.as_slice())
}

/// The end of the server towards this port takes the segment, which makes it where it is not there.
fn take_named(
    servers: &mut ServerEnds,
    server: u16,
    port: u16,
    index: u64,
    isn: Num,
    segment: &Segment,
) -> Result<(), AllocError>
    requires { AreApart servers.old }
    ensures there { OnOk result ((s : ServerEndView) → find (is_end server port) servers.old ≡ Some s → servers.new ≡ with_server_end servers.old server port (taken s.state segment.now.head segment.now.body)) }
    ensures made { OnOk result (find (is_end server port) servers.old ≡ None → servers.new ≡ servers.old ++ record { server = server; port = port; maker = index; state = server_end isn segment.now.head.seq } ∷ []) }
    ensures err { OnErr result (servers.new ≡ servers.old) }
{
    if let Some(place) = servers.place_of(server, port) {
        return take_server(&mut servers.ends, place, segment);
    }
    let state = End::server(servers.allocator(), isn, segment.head.seq);
    servers.add(ServerEnd {
        server,
        port,
        maker: index,
        state,
    })
}

/// The end of a client takes the segment with this index.
pub(crate) fn deliver_to_client(
    ends: &mut Vec<Option<End>>,
    sent: &[Posted],
    client: u32,
    index: u64,
) -> Result<(), AllocError>
    requires { client < length ends.old.items }
    ensures ok { OnOk result ((x : PostedView) (e : EndState) → slice_get sent.now index ≡ Some x → slice_get ends.old.items client ≡ Some (Some e)
        → ends.new.items ≡ slice_set ends.old.items client (Some (taken e x.segment.head x.segment.body))) }
    ensures err { OnErr result (ends.new.items ≡ ends.old.items) }
{
    match entry(sent, index) {
        Some(x) => take_client(ends, client, &x.segment),
        None => Ok(()),
    }
}

/// The end of a server towards this port takes the segment with this index, which makes it where it is not there.
pub(crate) fn deliver_to_server(
    servers: &mut ServerEnds,
    sent: &[Posted],
    server: u16,
    port: u16,
    index: u64,
    isn: Num,
) -> Result<(), AllocError>
    requires { AreApart servers.old }
    ensures there { OnOk result ((x : PostedView) (s : ServerEndView) → slice_get sent.now index ≡ Some x → find (is_end server port) servers.old ≡ Some s
        → servers.new ≡ with_server_end servers.old server port (taken s.state x.segment.head x.segment.body)) }
    ensures made { OnOk result ((x : PostedView) → slice_get sent.now index ≡ Some x → find (is_end server port) servers.old ≡ None
        → servers.new ≡ servers.old ++ record { server = server; port = port; maker = index; state = server_end isn x.segment.head.seq } ∷ []) }
    ensures err { OnErr result (servers.new ≡ servers.old) }
{
    match entry(sent, index) {
        Some(x) => take_named(servers, server, port, index, isn, &x.segment),
        None => Ok(()),
    }
}
