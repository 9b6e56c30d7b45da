ghost use Rattle.std.specs.Prelude.{◌≡◌, IfOk, option_map, slice_get};
ghost use Rattle.http_head.specs.Parts.{IsHeadOf};
ghost use Rattle.rule_table.specs.Matching.{admits, matched, place_of};
ghost use Rattle.rule_table.specs.Setups.{IsSetup, setup_of};

use crate::matching::{first_match, gives_weight, server_in};
use crate::types::{Rule, Server, Service, Sizes};
use http_head::HttpHead;
use std::alloc::{AllocError, Global};
use std::marker::Model;

/// All that a balancer is told of itself: its sizes and its secret, the service, the servers and the rules.
#[derive(Debug, Drop)]
pub struct Setup {
    sizes: Sizes,
    service: Service,
    servers: Vec<Server>,
    rules: Vec<Rule>,
}

impl Model for Setup {
    ghost use Rattle.rule_table.specs.Setups.{SetupView, IsSetup, setup_of};

    ghost Value = { SetupView };

    ghost view = { λ s. setup_of s.sizes s.service s.servers.items s.rules.items };

    ghost invariant = { λ s. IsSetup (setup_of s.sizes s.service s.servers.items s.rules.items) };
}

impl Setup {
    /// The setup of these parts. It takes no memory.
    pub fn make(sizes: Sizes, service: Service, servers: Vec<Server>, rules: Vec<Rule>) -> Setup
        requires { IsSetup (setup_of sizes service servers.items rules.items) }
        ensures { result ≡ setup_of sizes service servers.items rules.items }
    {
        Setup {
            sizes,
            service,
            servers,
            rules,
        }
    }

    /// The same setup once more. The one error is want of memory.
    pub fn copy(&self) -> Result<Setup, AllocError>
        ensures { IfOk result (λ setup. setup ≡ self.now) }
    {
        let servers = self.servers.clone()?;
        let rules = copies_of(*self.rules.allocator(), &self.rules)?;
        Ok(Setup {
            sizes: self.sizes,
            service: self.service,
            servers,
            rules,
        })
    }

    /// What holds of every setup. It does nothing.
    pub fn known(&self)
        ensures { IsSetup self.now }
    {
        let _ = &self.sizes;
    }

    /// How many instances there are, from 1 to 16.
    pub fn instances(&self) -> u16
        ensures { result ≡ self.now.instances }
    {
        self.sizes.instances
    }

    /// How many replicas there are, from 1 to 8.
    pub fn replicas(&self) -> u8
        ensures { result ≡ self.now.replicas }
    {
        self.sizes.replicas
    }

    /// How many replicas hold each record, from 1 to the number of replicas.
    pub fn copies(&self) -> u8
        ensures { result ≡ self.now.copies }
    {
        self.sizes.copies
    }

    /// How many shards there are, a power of two up to 64.
    pub fn shards(&self) -> u8
        ensures { result ≡ self.now.shards }
    {
        self.sizes.shards
    }

    /// What is hashed before a flow's own bytes.
    pub fn secret(&self) -> &[u8; 32]
        ensures { result.now ≡ self.now.secret }
    {
        &self.sizes.secret
    }

    /// The service that clients speak to.
    pub fn service(&self) -> Service
        ensures { result ≡ self.now.service }
    {
        self.service
    }

    /// The server with that index, None exactly where there are not so many.
    pub fn server(&self, index: u16) -> Option<Server>
        ensures { result ≡ slice_get self.now.servers index }
    {
        self.servers.get(index as usize).copied()
    }

    /// The index of the server with that address and port, None exactly where there is none.
    pub fn server_at(&self, address: u32, port: u16) -> Option<u16>
        ensures { result ≡ place_of self.now.servers address port }
    {
        server_in(&self.servers, address, port)
    }

    /// The number of the first rule that the head matches, None exactly where it matches none. The head is one that was
    /// read from the bytes. It takes no memory.
    ///
    /// A rule matches where all of its conditions hold: the Host value up to its first `:` is the host, but for ASCII
    /// case, and does not begin with `[`; the target up to its `?` begins with the path; a cookie is the pair.
    pub fn matched(&self, bytes: &[u8], head: &HttpHead) -> Option<u16>
        requires { IsHeadOf bytes.now head.now }
        ensures { result ≡ matched self.now bytes.now }
    {
        first_match(&self.rules, bytes, head)
    }

    /// Whether the rule that the head matches gives the server a weight above 0. The head is one that was read from the
    /// bytes.
    #[tactic(auto, unfolding(crate::specs::Matching::admits_in))]
    pub fn admits(&self, bytes: &[u8], head: &HttpHead, server: u16) -> bool
        requires { IsHeadOf bytes.now head.now }
        ensures { result ≡ admits self.now bytes.now server }
    {
        gives_weight(&self.rules, server, self.matched(bytes, head))
    }

    /// The choices of the rule with that number, None exactly where there are not so many rules.
    pub fn choices(&self, rule: u16) -> Option<&[(u16, u16)]>
        ensures { option_map (λ c. c.now) result ≡ option_map (λ r. r.to) (slice_get self.now.rules rule) }
    {
        let rule = self.rules.get(rule as usize)?;
        Some(rule.to.as_slice())
    }
}

/// The same rules once more.
fn copies_of(alloc: Global, rules: &[Rule]) -> Result<Vec<Rule>, AllocError>
    ensures { IfOk result (λ copies. copies.items ≡ rules.now) }
{
    let mut copies = Vec::with_capacity(alloc, rules.len())?;
    for rule in rules {
        copies.push(rule.copy()?)?;
    }
    Ok(copies)
}
