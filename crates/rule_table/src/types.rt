ghost use Rattle.std.specs.Prelude.{◌≡◌, ℕ, IfOk, List};
ghost use Rattle.rule_table.specs.Hash.{hash_of};

use crate::hashing::hash;
use std::alloc::AllocError;
use std::marker::Model;

/// A server that requests are passed on to: its IPv4 address in network byte order, and its TCP port.
#[derive(Clone, Copy, Debug, PartialEq, Eq)]
pub struct Server {
    pub address: u32,
    pub port: u16,
}

/// The service that clients speak to: its number, its IPv4 address in network byte order, and its TCP port.
#[derive(Clone, Copy, Debug, PartialEq, Eq)]
pub struct Service {
    pub number: u16,
    pub address: u32,
    pub port: u16,
}

/// The sizes of a balancer, and its secret.
#[derive(Clone, Copy, Debug, PartialEq, Eq)]
pub struct Sizes {
    /// From 1 to 16.
    pub instances: u16,
    /// From 1 to 8.
    pub replicas: u8,
    /// How many replicas hold each record, from 1 to `replicas`.
    pub copies: u8,
    /// A power of two up to 64.
    pub shards: u8,
    /// What is hashed before a flow's own bytes.
    pub secret: [u8; 32],
}

/// A rule: which requests it matches, and to which servers these go.
#[derive(Debug, Drop)]
pub struct Rule {
    /// The host that the request names, but for ASCII case.
    pub host: Option<Text>,
    /// What the path begins with.
    pub path: Option<Text>,
    /// A pair that one of the cookies is.
    pub cookie: Option<Text>,
    /// The servers with their weights.
    pub to: Choices,
}

impl Rule {
    /// The same rule once more. The one error is want of memory.
    pub fn copy(&self) -> Result<Rule, AllocError>
        ensures { IfOk result (λ rule. rule ≡ self.now) }
    {
        Ok(Rule {
            host: copy_of(&self.host)?,
            path: copy_of(&self.path)?,
            cookie: copy_of(&self.cookie)?,
            to: self.to.copy()?,
        })
    }
}

/// The same condition once more.
fn copy_of(condition: &Option<Text>) -> Result<Option<Text>, AllocError>
    ensures { IfOk result (λ text. text ≡ condition.now) }
{
    match condition {
        Some(text) => Ok(Some(text.copy()?)),
        None => Ok(None),
    }
}

/// Bytes of text.
#[derive(Debug, Drop)]
pub struct Text {
    bytes: Vec<u8>,
    hash: u32,
}

impl Model for Text {
    ghost use Rattle.std.specs.Prelude.{◌≡◌, ℕ, List};
    ghost use Rattle.rule_table.specs.Hash.{hash_of};

    ghost Value = { List ℕ };

    ghost view = { λ t. t.bytes.items };

    ghost invariant = { λ t. t.hash ≡ hash_of t.bytes.items };
}

impl Text {
    /// The text of these bytes. It takes no memory.
    pub fn new(bytes: Vec<u8>) -> Text
        ensures { result ≡ bytes.items }
    {
        let hash = hash(bytes.as_slice());
        Text { bytes, hash }
    }

    /// The bytes. It takes no memory.
    pub fn as_slice(&self) -> &[u8]
        ensures { result.now ≡ self.now }
    {
        self.bytes.as_slice()
    }

    /// The hash of the bytes.
    pub(crate) fn hash(&self) -> u32
        ensures { result ≡ hash_of self.now }
    {
        self.hash
    }

    /// The same text once more. The one error is want of memory.
    pub fn copy(&self) -> Result<Text, AllocError>
        ensures { IfOk result (λ text. text ≡ self.now) }
    {
        let bytes = Vec::from_slice(*self.bytes.allocator(), self.bytes.as_slice())?;
        Ok(Text {
            bytes,
            hash: self.hash,
        })
    }
}

/// Pairs of a server, by its index in the list of servers, and its weight.
#[derive(Debug, Drop)]
pub struct Choices {
    pairs: Vec<(u16, u16)>,
}

impl Model for Choices {
    ghost Value = { List (ℕ × ℕ) };

    ghost view = { λ c. c.pairs.items };
}

impl Choices {
    /// These pairs. It takes no memory.
    pub fn new(pairs: Vec<(u16, u16)>) -> Choices
        ensures { result ≡ pairs.items }
    {
        Choices { pairs }
    }

    /// The pairs. It takes no memory.
    pub fn as_slice(&self) -> &[(u16, u16)]
        ensures { result.now ≡ self.now }
    {
        self.pairs.as_slice()
    }

    /// The same pairs once more. The one error is want of memory.
    pub fn copy(&self) -> Result<Choices, AllocError>
        ensures { IfOk result (λ choices. choices ≡ self.now) }
    {
        let pairs = Vec::from_slice(*self.pairs.allocator(), self.pairs.as_slice())?;
        Ok(Choices { pairs })
    }
}
