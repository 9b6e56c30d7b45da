//! The ends of the servers, each of which is found by its server and port.
ghost use Rattle.std.specs.Prelude.{◌≡◌, ◌<◌, ◌++◌, ◌∷◌, [], Some, None, length, slice_get, find, option_map, IfSome, OnOk, OnErr};
ghost use Rattle.world_model.specs.World.{is_end};

use crate::server_end::ServerEnd;
use indexmap::IndexSet;
use std::alloc::{AllocError, Global};
use std::marker::Model;

/// By what the end of a server is found.
#[derive(Clone, Copy, Debug, PartialEq, Eq, Hash)]
pub(crate) struct EndName {
    pub(crate) server: u16,
    pub(crate) port: u16,
}

/// The ends of the servers, in the order in which they were made. Contracts see their list.
#[derive(Drop)]
pub(crate) struct ServerEnds {
    pub(crate) ends: Vec<ServerEnd>,
    /// The name of each end, at the place of the end.
    names: IndexSet<EndName>,
}

impl Model for ServerEnds {
    ghost use Rattle.std.specs.Prelude.{◌≡◌, List, map};
    ghost use Rattle.world_model.specs.declared.server_end.ServerEnd.{ServerEnd};
    ghost use Rattle.world_model.specs.Names.{end_name};

    ghost Value = { List ServerEnd };

    ghost view = { λ s. s.ends.items };

    ghost invariant = { λ s. s.names.keys ≡ map end_name s.ends.items };
}

impl ServerEnds {
    /// No ends.
    pub(crate) fn new(alloc: Global) -> Self
        ensures { result ≡ [] }
    {
        ServerEnds {
            ends: Vec::new(alloc),
            names: IndexSet::new(alloc),
        }
    }

    /// Where the ends' memory comes from.
    pub(crate) fn allocator(&self) -> Global {
        *self.ends.allocator()
    }

    /// The ends, in the order in which they were made.
    pub(crate) fn as_slice(&self) -> &[ServerEnd]
        ensures { result.now ≡ self.now }
    {
        self.ends.as_slice()
    }

    /// The place of the end of a server towards this port, where it was made.
    pub(crate) fn place_of(&self, server: u16, port: u16) -> Option<usize>
        ensures found { IfSome result (λ i. slice_get self.now i ≡ find (is_end server port) self.now) }
        ensures within { IfSome result (λ i. i < length self.now) }
        ensures none { result ≡ None → find (is_end server port) self.now ≡ None }
    {
        self.names.get_index_of(&EndName { server, port })
    }

    /// The end of a server towards this port, where it was made.
    pub(crate) fn get(&self, server: u16, port: u16) -> Option<&ServerEnd>
        ensures { option_map (λ s. s.now) result ≡ find (is_end server port) self.now }
    {
        match self.place_of(server, port) {
            Some(place) => Some(&self.ends[place]),
            None => None,
        }
    }

    /// Adds an end, of which there is none yet. An `Err` changes nothing.
    pub(crate) fn add(&mut self, end: ServerEnd) -> Result<(), AllocError>
        requires { find (is_end end.server end.port) self.old ≡ None }
        ensures ok { OnOk result (self.new ≡ self.old ++ end ∷ []) }
        ensures err { OnErr result (self.new ≡ self.old) }
    {
        self.ends.reserve(1)?;
        self.names.insert(EndName {
            server: end.server,
            port: end.port,
        })?;
        self.ends.push_reserved(end);
        Ok(())
    }
}
