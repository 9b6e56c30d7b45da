// A shelf in memory, some of whose calls fail.
ghost use Rattle.std.specs.Prelude.{◌≡◌, ◌≢◌, ◌≤◌, ◌<◌, ◌++◌, [], List, ℕ, Some, IsSome, IsOk, IsErr, IfOk, IfSome, OnOk, OnErr, is_ok, position, length, take, not, true, false};
ghost use Rattle.std.specs.Option.{unwrap_or, option_copied, option_map};
ghost use Rattle.std.specs.Result.{is_err};
ghost use Rattle.common.specs.Causes.{Rose};
ghost use Rattle.shelf.specs.declared.outside.Kind.{Kind};
ghost use Rattle.shelf.specs.declared.outside.Kind.TheVariants.{Reading, Writing};
ghost use Rattle.shelf.specs.Shelf.{SameContents, SameOthers, NoneFell, StaysSure, IsRead, is_stream, started};
ghost use Rattle.shelf.specs.Files.{fault_count, is_named, bytes_of, contents, counts, IsSure, NoneToCome, is_listed, can_read, TookNumber};
ghost use Rattle.shelf.specs.Counters.{counted};

use crate::counters::Counters;
use crate::outside::{Failed, Kind, Shelf};
use std::alloc::{AllocError, Global};
use std::marker::Model;

type Files = Vec<(String, Vec<u8>)>;

/// Files by name, the numbers of the calls that fail, and a counter for each kind of call.
///
/// It tells every content: a name that is not there holds nothing, fails `size` and `read`, and is made by `start` and
/// `append`. A growth that finds no memory counts as a failed call. A name is sure where it is there and no number of
/// a call still to come is among those that fail.
#[derive(Drop)]
pub struct MemoryShelf {
    files: Files,
    fails: Vec<u64>,
    calls: u64,
    faults: Counters,
}

impl Model for MemoryShelf {
    ghost use Rattle.shelf.specs.Files.{Memory};

    ghost Value = { Memory };

    ghost view = { λ s. record { files = s.files.items; fails = s.fails.items; calls = s.calls; faults = s.faults } };
}

fn place(files: &Files, name: &str) -> Option<usize>
    ensures { result ≡ position (is_named name.now) files.now.items }
{
    files.iter().position(|file| file.0.as_str() == name)
}

fn find<'a>(files: &'a Files, name: &str) -> Option<&'a [u8]>
    ensures { option_copied result ≡ bytes_of files.now.items name.now }
{
    files
        .iter()
        .find(|file| file.0.as_str() == name)
        .map(|file| file.1.as_slice())
}

// Empties a file, or makes it.
fn empty(alloc: Global, files: &mut Files, name: &str) -> Result<(), AllocError>
    ensures ok { OnOk result (bytes_of files.new.items name.now ≡ Some []) }
    ensures others { (n : List ℕ) → n ≢ name.now → bytes_of files.new.items n ≡ bytes_of files.old.items n }
    ensures err { OnErr result ((n : List ℕ) → bytes_of files.new.items n ≡ bytes_of files.old.items n) }
    ensures there { IsSome (bytes_of files.old.items name.now) → IsOk result }
{
    match place(files, name) {
        Some(at) => files[at].1.clear(),
        None => files.push((String::from_str(alloc, name)?, Vec::new(alloc)))?,
    }
    Ok(())
}

// Adds bytes to a file, or makes it of them.
fn extend(alloc: Global, files: &mut Files, name: &str, bytes: &[u8]) -> Result<(), AllocError>
    ensures ok { OnOk result (bytes_of files.new.items name.now ≡ Some (unwrap_or (bytes_of files.old.items name.now) [] ++ bytes.now)) }
    ensures others { (n : List ℕ) → n ≢ name.now → bytes_of files.new.items n ≡ bytes_of files.old.items n }
    ensures err { OnErr result ((n : List ℕ) → bytes_of files.new.items n ≡ bytes_of files.old.items n) }
{
    match place(files, name) {
        Some(at) => files[at].1.extend_from_slice(bytes)?,
        None => {
            let own = String::from_str(alloc, name)?;
            files.push((own, Vec::from_slice(alloc, bytes)?))?;
        }
    }
    Ok(())
}

impl MemoryShelf {
    /// Holds these files; of two with one name the first counts. The calls whose numbers stand in `fails`, counted
    /// from 0 over all calls of the trait, answer `Failed`.
    pub fn new(files: Files, fails: Vec<u64>) -> Self
        ensures files { result.files ≡ files.items }
        ensures fails { result.fails ≡ fails.items }
        ensures calls { result.calls ≡ 0 }
        ensures counts { (k : Kind) → fault_count result k ≡ 0 }
    {
        MemoryShelf {
            files,
            fails,
            calls: 0,
            faults: Counters::new(),
        }
    }

    /// How many faults of this kind there have been, at whatever name.
    pub fn faults(&self, kind: Kind) -> u64
        ensures { result ≡ fault_count self.now kind }
    {
        self.faults.get(kind)
    }

    /// What the name holds; None exactly where it is not there.
    pub fn bytes(&self, name: &str) -> Option<&[u8]>
        ensures { option_copied result ≡ bytes_of self.now.files name.now }
    {
        find(&self.files, name)
    }

    // Takes the next call's number: is it one of those that fail?
    fn fails_now(&mut self) -> bool
        ensures listed { result ≡ is_listed self.old }
        ensures none { NoneToCome self.old.fails self.old.calls → result ≡ false }
        ensures number { TookNumber self.old self.new }
        ensures later { self.old.calls ≤ self.new.calls }
        ensures same { self.new ≡ record self.old { calls = self.new.calls } }
    {
        let calls = self.calls;
        self.calls = calls.saturating_add(1);
        self.fails.iter().any(|k| *k == calls)
    }
}

fn fill(content: &[u8], at: u64, buf: &mut [u8]) -> usize
    ensures bound { result ≤ length buf.new }
    ensures bytes { IsRead content.now at buf.new result }
{
    let at = usize::try_from(at).unwrap_or(usize::MAX).min(content.len());
    let count = buf.len().min(content.len() - at);
    buf[..count].copy_from_slice(&content[at..at + count]);
    count
}

impl Shelf for MemoryShelf {
    ghost content = { contents };

    ghost faults = { counts };

    ghost sure = { IsSure };

    fn size(&mut self, name: &str) -> Result<u64, Failed>
        ensures length { IfSome (contents self.old name.now) (λ c. IfOk result (λ n. n ≡ length c)) }
        ensures same { SameContents (contents self.old) (contents self.new) }
        ensures answers { is_ok result ≡ can_read self.old name.now }
        ensures files { self.new.files ≡ self.old.files }
        ensures counted { self.new.faults ≡ counted (is_err result) Reading self.old.faults }
        ensures cause { OnErr result (Rose (fault_count self.old Reading) (fault_count self.new Reading)) }
        ensures known { IsSure self.old name.now → IsOk result }
        ensures counts { NoneFell (counts self.old) (counts self.new) }
        ensures stays { StaysSure (IsSure self.old) (IsSure self.new) }
        ensures number { TookNumber self.old self.new }
    {
        if !self.fails_now() {
            if let Some(content) = find(&self.files, name) {
                return Ok(content.len() as u64);
            }
        }
        self.faults.raise(Kind::Reading);
        Err(Failed)
    }

    fn read(&mut self, name: &str, at: u64, buf: &mut [u8]) -> Result<usize, Failed>
        ensures bound { IfOk result (λ n. n ≤ length buf.new) }
        ensures bytes { IfSome (contents self.old name.now) (λ c. IfOk result (λ n. IsRead c at buf.new n)) }
        ensures same { SameContents (contents self.old) (contents self.new) }
        ensures answers { is_ok result ≡ can_read self.old name.now }
        ensures files { self.new.files ≡ self.old.files }
        ensures counted { self.new.faults ≡ counted (is_err result) Reading self.old.faults }
        ensures cause { OnErr result (Rose (fault_count self.old Reading) (fault_count self.new Reading)) }
        ensures known { IsSure self.old name.now → IsOk result }
        ensures counts { NoneFell (counts self.old) (counts self.new) }
        ensures stays { StaysSure (IsSure self.old) (IsSure self.new) }
        ensures number { TookNumber self.old self.new }
    {
        if !self.fails_now() {
            if let Some(content) = find(&self.files, name) {
                return Ok(fill(content, at, buf));
            }
        }
        self.faults.raise(Kind::Reading);
        Err(Failed)
    }

    fn start(&mut self, name: &str) -> Result<(), Failed>
        ensures emptied { OnOk result (contents self.new name.now ≡ started name.now (contents self.old name.now)) }
        ensures made { OnOk result (is_stream name.now ≡ false → IsSome (bytes_of self.new.files name.now)) }
        ensures streams { is_stream name.now ≡ true → self.new.files ≡ self.old.files }
        ensures stream_answers { is_stream name.now ≡ true → is_ok result ≡ not (is_listed self.old) }
        ensures there_answers { IsSome (bytes_of self.old.files name.now) → is_ok result ≡ not (is_listed self.old) }
        ensures others { SameOthers name.now (contents self.old) (contents self.new) }
        ensures elsewhere { SameOthers name.now (bytes_of self.old.files) (bytes_of self.new.files) }
        ensures failed { OnErr result (SameContents (contents self.old) (contents self.new)) }
        ensures listed { is_listed self.old ≡ true → IsErr result }
        ensures counted { self.new.faults ≡ counted (is_err result) Writing self.old.faults }
        ensures unmade { OnErr result ((n : List ℕ) → bytes_of self.new.files n ≡ bytes_of self.old.files n) }
        ensures cause { OnErr result (Rose (fault_count self.old Writing) (fault_count self.new Writing)) }
        ensures counts { NoneFell (counts self.old) (counts self.new) }
        ensures stays { StaysSure (IsSure self.old) (IsSure self.new) }
        ensures number { TookNumber self.old self.new }
    {
        let alloc = *self.files.allocator();
        if !self.fails_now() {
            if is_stream(name) || empty(alloc, &mut self.files, name).is_ok() {
                return Ok(());
            }
        }
        self.faults.raise(Kind::Writing);
        Err(Failed)
    }

    fn append(&mut self, name: &str, bytes: &[u8]) -> Result<usize, Failed>
        ensures bound { IfOk result (λ n. n ≤ length bytes.now) }
        ensures goes_on { IfOk result (λ n. 0 < length bytes.now → 0 < n) }
        ensures added { IfOk result (λ n.
            contents self.new name.now ≡ option_map (λ c. c ++ take n bytes.now) (contents self.old name.now)) }
        ensures made { OnOk result (IsSome (bytes_of self.new.files name.now)) }
        ensures others { SameOthers name.now (contents self.old) (contents self.new) }
        ensures elsewhere { SameOthers name.now (bytes_of self.old.files) (bytes_of self.new.files) }
        ensures failed { OnErr result (SameContents (contents self.old) (contents self.new)) }
        ensures listed { is_listed self.old ≡ true → IsErr result }
        ensures counted { self.new.faults ≡ counted (is_err result) Writing self.old.faults }
        ensures unmade { OnErr result ((n : List ℕ) → bytes_of self.new.files n ≡ bytes_of self.old.files n) }
        ensures cause { OnErr result (Rose (fault_count self.old Writing) (fault_count self.new Writing)) }
        ensures counts { NoneFell (counts self.old) (counts self.new) }
        ensures stays { StaysSure (IsSure self.old) (IsSure self.new) }
        ensures number { TookNumber self.old self.new }
    {
        let alloc = *self.files.allocator();
        if !self.fails_now() && extend(alloc, &mut self.files, name, bytes).is_ok() {
            return Ok(bytes.len());
        }
        self.faults.raise(Kind::Writing);
        Err(Failed)
    }
}

fn is_stream(name: &str) -> bool
    ensures { result ≡ is_stream name.now }
{
    name == "-" || name == "!"
}
