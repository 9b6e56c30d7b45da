//! An end in the place of another.
ghost use Rattle.std.specs.Prelude.{◌≡◌, ◌<◌, Some, length, slice_get, slice_set, find};
ghost use Rattle.tcp_end.specs.EndState.{EndState};
ghost use Rattle.world_model.specs.World.{AreApart};
ghost use Rattle.world_model.specs.World.{ServerEnd as ServerEndView};
ghost use Rattle.world_model.specs.World.{is_end, with_server_end};

use crate::server_end::ServerEnd;
use crate::server_ends::ServerEnds;
use std::mem;
use tcp_end::End;

/// Puts an end in the place of the one there, if there is one, which is handed back.
fn swap_any(slot: &mut Option<End>, end: &mut End)
    ensures { (e : EndState) → slot.old ≡ Some e → (slot.new ≡ Some end.old) × (end.new ≡ e) }
{
    if let Some(there) = slot {
        mem::swap(there, end);
    }
}

/// Puts an end in the place of that of the client with this index, which is handed back.
pub(crate) fn swap_client(ends: &mut Vec<Option<End>>, client: u32, end: &mut End)
    requires { client < length ends.old.items }
    ensures place { (e : EndState) → slice_get ends.old.items client ≡ Some (Some e) → ends.new.items ≡ slice_set ends.old.items client (Some end.old) }
    ensures end { (e : EndState) → slice_get ends.old.items client ≡ Some (Some e) → end.new ≡ e }
{
    swap_any(&mut ends[client as usize], end);
}

/// Puts an end in the place of the server's at this place, which is handed back.
pub(crate) fn swap_server(servers: &mut Vec<ServerEnd>, place: usize, end: &mut End)
    requires { place < length servers.old.items }
    ensures place { (s : ServerEndView) → slice_get servers.old.items place ≡ Some s → servers.new.items ≡ slice_set servers.old.items place (record s { state = end.old }) }
    ensures end { (s : ServerEndView) → slice_get servers.old.items place ≡ Some s → end.new ≡ s.state }
{
    mem::swap(&mut servers[place].state, end);
}

/// Puts an end in the place of the server's towards this port, which is handed back. Where there is none nothing changes.
pub(crate) fn swap_named(servers: &mut ServerEnds, server: u16, port: u16, end: &mut End)
    requires { AreApart servers.old }
    ensures place { (s : ServerEndView) → find (is_end server port) servers.old ≡ Some s → servers.new ≡ with_server_end servers.old server port end.old }
    ensures end { (s : ServerEndView) → find (is_end server port) servers.old ≡ Some s → end.new ≡ s.state }
{
    match servers.place_of(server, port) {
        Some(place) => swap_server(&mut servers.ends, place, end),
        None => {}
    }
}
