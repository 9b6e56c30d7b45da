//! Which flow owns a server's port: an index beside the entries, so that they need not be gone through.
ghost use Rattle.std.specs.Prelude.{◌≡◌, ◌<◌, false, [], OnOk};
ghost use Rattle.indexmap.specs.IndexMap.{spare};
ghost use Rattle.kept_records.specs.Owners.{Adds, Drops};

use crate::entry::ServerPort;
use flow_id::Flow;
use indexmap::IndexMap;
use std::alloc::{AllocError, Global};

/// The flow of each entry at the server and port of its Open, while no two entries share them.
#[derive(Drop)]
pub(crate) struct Owners {
    /// It has an entry for each kept one, so that equal hashes cost little.
    pub(crate) flows: IndexMap<ServerPort, Flow>,
    /// Whether two entries may share a server and port. Then the index tells nothing, until all entries are dropped.
    pub(crate) shared: bool,
}

impl Owners {
    /// No owners. It takes no memory.
    pub(crate) fn new(alloc: Global) -> Owners
        ensures flows { result.flows.entries ≡ [] }
        ensures shared { result.shared ≡ false }
    {
        Owners {
            flows: IndexMap::new(alloc),
            shared: false,
        }
    }

    /// Makes room for one owner. The one error is want of memory.
    pub(crate) fn reserve(&mut self) -> Result<(), AllocError>
        ensures flows { self.new.flows.entries ≡ self.old.flows.entries }
        ensures shared { self.new.shared ≡ self.old.shared }
        ensures room { OnOk result (0 < spare self.new.flows) }
    {
        self.flows.reserve(1)
    }

    /// Adds an owner, in the room that there is.
    pub(crate) fn add(&mut self, at: ServerPort, flow: Flow)
        requires { 0 < spare self.old.flows }
        ensures { Adds self.old self.new at flow }
    {
        match self.flows.insert(at, flow) {
            Ok(None) => {}
            Ok(Some(_)) => self.shared = true,
            Err(_) => unreachable!(),
        }
    }

    /// Drops an owner.
    pub(crate) fn drop(&mut self, at: ServerPort)
        ensures { Drops self.old self.new at }
    {
        self.flows.swap_remove(&at);
    }

    /// Drops all owners.
    pub(crate) fn clear(&mut self)
        ensures flows { self.new.flows.entries ≡ [] }
        ensures shared { self.new.shared ≡ false }
    {
        self.flows.clear();
        self.shared = false;
    }
}
