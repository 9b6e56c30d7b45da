//! The clients, each of which is found by its address and port.
ghost use Rattle.std.specs.Prelude.{◌≡◌, IfOk};
ghost use Rattle.std.specs.List.{list_any};
ghost use Rattle.world_model.specs.Names.{is_at, AreNames};

use crate::client::ClientSpec;
use indexmap::IndexSet;
use std::alloc::{AllocError, Global};
use std::marker::Model;

/// By what a client is found.
#[derive(Clone, Copy, Debug, PartialEq, Eq, Hash)]
pub(crate) struct ClientName {
    pub(crate) address: u32,
    pub(crate) port: u16,
}

/// The clients, in their order. Contracts see their list.
#[derive(Drop)]
pub(crate) struct ClientList {
    clients: Vec<ClientSpec>,
    /// The names that they have.
    names: IndexSet<ClientName>,
}

impl Model for ClientList {
    ghost use Rattle.std.specs.Prelude.{◌≡◌, List, map};
    ghost use Rattle.std.specs.List.{list_any};
    ghost use Rattle.world_model.specs.declared.client.ClientSpec.{ClientSpec};
    ghost use Rattle.world_model.specs.Names.{AreNames};

    ghost Value = { List ClientSpec };

    ghost view = { λ c. c.clients.items };

    ghost invariant = { λ c. AreNames c.names.keys c.clients.items };
}

impl ClientList {
    /// The list of these clients. The one error is want of memory.
    pub(crate) fn new(alloc: Global, clients: Vec<ClientSpec>) -> Result<Self, AllocError>
        ensures { IfOk result (λ c. c ≡ clients.items) }
    {
        let names = names_of(alloc, clients.as_slice())?;
        Ok(ClientList { clients, names })
    }

    /// The clients, in their order.
    pub(crate) fn as_slice(&self) -> &[ClientSpec]
        ensures { result.now ≡ self.now }
    {
        self.clients.as_slice()
    }

    /// Whether one of the clients has this address and port.
    pub(crate) fn has(&self, address: u32, port: u16) -> bool
        ensures { result ≡ list_any (is_at address port) self.now }
    {
        self.names.contains(&ClientName { address, port })
    }
}

/// The names of the clients. The one error is want of memory.
fn names_of(alloc: Global, clients: &[ClientSpec]) -> Result<IndexSet<ClientName>, AllocError>
    ensures { IfOk result (λ names. AreNames names.keys clients.now) }
{
    let mut names = IndexSet::new(alloc);
    for client in clients {
        names.insert(ClientName {
            address: client.address,
            port: client.port,
        })?;
    }
    Ok(names)
}
