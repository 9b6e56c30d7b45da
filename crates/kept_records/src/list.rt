//! The kept records of flows, in the order of their last use.
ghost use Rattle.std.specs.Prelude.{◌≡◌, ◌≤◌, ◌+◌, ◌∷◌, [], None, option_map, length, take, OnOk, OnErr, IfOk};
ghost use Rattle.lru.specs.LruCache.{last_entry};
ghost use Rattle.kept_records.specs.Entries.{kept_of, in_front, without, owner_of, IsKept, AreKept, AreDistinct};
ghost use Rattle.kept_records.specs.Owners.{AreOwners};

use crate::entry::{Kept, ServerPort, opens_to, server_port};
use crate::owners::Owners;
use flow_id::Flow;
use lru::LruCache;
use std::alloc::{AllocError, Global};
use std::marker::Model;
use std::num::NonZeroUsize;

/// The most entries that a list has between calls of its bench.
pub const ENTRY_LIMIT: usize = 256;

/// Kept records of flows. Contracts see the entries, the most recently used first.
#[derive(Drop)]
pub struct KeptList {
    cache: LruCache<Flow, Kept>,
    owners: Owners,
}

impl Model for KeptList {
    ghost use Rattle.std.specs.Prelude.{◌≡◌};
    ghost use Rattle.kept_records.specs.Entries.{Entries, AreKept};
    ghost use Rattle.kept_records.specs.Owners.{AreOwners};

    ghost Value = { Entries };

    ghost view = { λ k. k.cache.entries };

    // The place more than the limit is for an entry that is put in front before the last is dropped.
    ghost invariant = { λ k. (k.cache.cap ≡ 257) × AreKept k.cache.entries × AreOwners k.owners k.cache.entries };
}

/// The flow of the first entry whose Open names this server and port, found by going through the entries.
fn owner_in(cache: &LruCache<Flow, Kept>, server: u16, port: u16) -> Option<Flow>
    ensures { result ≡ owner_of cache.now.entries server port }
{
    for (flow, kept) in cache.iter() {
        if opens_to(kept, server, port) {
            return Some(*flow);
        }
    }
    None
}

/// The flow of the first entry whose Open names this server and port: by the index, and where it tells nothing by going
/// through the entries.
fn owner_by(cache: &LruCache<Flow, Kept>, owners: &Owners, server: u16, port: u16) -> Option<Flow>
    requires owners { AreOwners owners.now cache.now.entries }
    requires distinct { AreDistinct cache.now.entries }
    ensures { result ≡ owner_of cache.now.entries server port }
{
    if owners.shared {
        return owner_in(cache, server, port);
    }
    let flow = owners.flows.get(&ServerPort { server, port })?;
    match cache.peek(flow) {
        Some(kept) if opens_to(kept, server, port) => Some(*flow),
        _ => None,
    }
}

/// The flow of the last entry.
fn last_flow(cache: &LruCache<Flow, Kept>) -> Option<Flow>
    ensures { result ≡ option_map (λ e. e.0) (last_entry cache.now.entries) }
{
    match cache.peek_lru() {
        Some((flow, _)) => Some(*flow),
        None => None,
    }
}

impl KeptList {
    /// The empty list. The one error is want of memory.
    pub fn new(alloc: Global) -> Result<KeptList, AllocError>
        ensures { IfOk result (λ k. k ≡ []) }
    {
        let cap = NonZeroUsize::new(ENTRY_LIMIT + 1).unwrap();
        let cache = LruCache::new(alloc, cap)?;
        let owners = Owners::new(alloc);
        Ok(KeptList { cache, owners })
    }

    /// What is known of each list: no two of its entries are of one flow, and each has a Syn and an Open. It does nothing.
    pub fn known(&self)
        ensures distinct { AreDistinct self.now }
        ensures kept { AreKept self.now }
        ensures few { length self.now ≤ ENTRY_LIMIT + 1 }
    {
        let _ = self.cache.len();
    }

    /// What is kept of the flow, whose entry goes to the front. It takes no memory.
    pub fn find(&mut self, flow: &Flow) -> Option<Kept>
        ensures value { result ≡ kept_of self.old flow.now }
        ensures front { self.new ≡ in_front self.old flow.now }
    {
        let kept = self.cache.peek(flow).copied();
        self.cache.promote(flow);
        kept
    }

    /// What is kept of the flow. It takes no memory.
    pub fn peek(&self, flow: &Flow) -> Option<Kept>
        ensures { result ≡ kept_of self.now flow.now }
    {
        self.cache.peek(flow).copied()
    }

    /// The flow of the first entry whose Open names this server and port, found in a time that does not depend on how many
    /// entries there are unless two entries have named one server and port. It takes no memory.
    pub fn owner(&self, server: u16, port: u16) -> Option<Flow>
        ensures { result ≡ owner_of self.now server port }
    {
        self.known();
        owner_by(&self.cache, &self.owners, server, port)
    }

    /// Puts an entry of a new flow in front. The one error is want of memory, and then nothing has changed.
    pub fn keep(&mut self, flow: Flow, kept: Kept) -> Result<(), AllocError>
        requires room { length self.old ≤ ENTRY_LIMIT }
        requires absent { kept_of self.old flow ≡ None }
        requires kept { IsKept kept }
        ensures kept { OnOk result (self.new ≡ (flow, kept) ∷ self.old) }
        ensures same { OnErr result (self.new ≡ self.old) }
    {
        self.owners.reserve()?;
        self.cache.put(flow, kept)?;
        self.owners.add(server_port(&kept), flow);
        Ok(())
    }

    /// Drops the last entry where there are more than the limit. It takes no memory.
    pub fn settle(&mut self)
        ensures { self.new ≡ take ENTRY_LIMIT self.old }
    {
        if self.cache.len() <= ENTRY_LIMIT {
            return;
        }
        match last_flow(&self.cache) {
            Some(flow) => self.forget(&flow),
            None => {}
        }
    }

    /// Drops the entry of the flow. It takes no memory.
    pub fn forget(&mut self, flow: &Flow)
        ensures { self.new ≡ without self.old flow.now }
    {
        let _ = self.cache.len();
        if let Some((_, kept)) = self.cache.pop_entry(flow) {
            self.owners.drop(server_port(&kept));
        }
    }

    /// Drops all entries. It takes no memory.
    pub fn clear(&mut self)
        ensures { self.new ≡ [] }
    {
        self.cache.clear();
        self.owners.clear();
    }
}
