//! Ends that abort their connections.
ghost use Rattle.std.specs.Prelude.{◌≡◌, ◌<◌, Some, length, slice_get, slice_set, find, option_map, option_and_then, is_some, true};
ghost use Rattle.tcp_end.specs.EndState.{EndState, dead_end};
ghost use Rattle.tcp_end.specs.Sending.{reset_of};
ghost use Rattle.world_model.specs.World.{AreApart};
ghost use Rattle.world_model.specs.Slots.{end_in, ends_with, servers_with};
ghost use Rattle.world_model.specs.World.{ServerEnd as ServerEndView};
ghost use Rattle.world_model.specs.World.{is_end, with_server_end};

use crate::at::At;
use crate::server_end::ServerEnd;
use crate::server_ends::ServerEnds;
use tcp_end::{End, Sent as EndSent};

/// The end aborts, if there is one, and its reset is handed back.
fn abort_any(slot: &mut Option<End>) -> Option<EndSent>
    ensures end { slot.new ≡ option_map dead_end slot.old }
    ensures reset { result ≡ option_and_then reset_of slot.old }
{
    match slot {
        Some(end) => end.abort(),
        None => None,
    }
}

/// The end of the client with this index aborts, and its reset is handed back.
fn abort_client(ends: &mut Vec<Option<End>>, client: u32) -> Option<EndSent>
    requires { client < length ends.old.items }
    ensures end { (e : EndState) → slice_get ends.old.items client ≡ Some (Some e) → ends.new.items ≡ slice_set ends.old.items client (Some (dead_end e)) }
    ensures reset { (e : EndState) → slice_get ends.old.items client ≡ Some (Some e) → result ≡ reset_of e }
{
    abort_any(&mut ends[client as usize])
}

/// The server's end at this place aborts, and its reset is handed back.
fn abort_server(servers: &mut Vec<ServerEnd>, place: usize) -> Option<EndSent>
    requires { place < length servers.old.items }
    ensures end { (s : ServerEndView) → slice_get servers.old.items place ≡ Some s → servers.new.items ≡ slice_set servers.old.items place (record s { state = dead_end s.state }) }
    ensures reset { (s : ServerEndView) → slice_get servers.old.items place ≡ Some s → result ≡ reset_of s.state }
{
    servers[place].state.abort()
}

/// The end of the server towards this port aborts, and its reset is handed back.
fn abort_named(servers: &mut ServerEnds, server: u16, port: u16) -> Option<EndSent>
    requires { AreApart servers.old }
    ensures end { (s : ServerEndView) → find (is_end server port) servers.old ≡ Some s → servers.new ≡ with_server_end servers.old server port (dead_end s.state) }
    ensures reset { (s : ServerEndView) → find (is_end server port) servers.old ≡ Some s → result ≡ reset_of s.state }
{
    match servers.place_of(server, port) {
        Some(place) => abort_server(&mut servers.ends, place),
        None => None,
    }
}

/// The end there aborts, and its reset is handed back.
pub(crate) fn abort_at(
    ends: &mut Vec<Option<End>>,
    servers: &mut ServerEnds,
    at: &At,
) -> Option<EndSent>
    requires apart { AreApart servers.old }
    requires there { is_some (end_in ends.old.items servers.old at.now) ≡ true }
    ensures ends { (e : EndState) → end_in ends.old.items servers.old at.now ≡ Some e → ends.new.items ≡ ends_with at.now (dead_end e) ends.old.items }
    ensures servers { (e : EndState) → end_in ends.old.items servers.old at.now ≡ Some e → servers.new ≡ servers_with at.now (dead_end e) servers.old }
    ensures reset { (e : EndState) → end_in ends.old.items servers.old at.now ≡ Some e → result ≡ reset_of e }
{
    match at {
        At::Client(client) => abort_client(ends, *client),
        At::Server { server, port } => abort_named(servers, *server, *port),
    }
}
