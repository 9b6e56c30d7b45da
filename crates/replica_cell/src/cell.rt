ghost use Rattle.std.specs.Prelude.{◌≡◌, IfOk, OnOk, OnErr, IfSome, IsTrue};
ghost use Rattle.flow_record.specs.Records.{fits_key};
ghost use Rattle.replica_cell.specs.Cells.{CellView, empty, kept, failed, put_answer, after_put, taken_back, look_answer, has_key, counted, PutFits, LookFits};

use crate::answer::{Look, Put};
use crate::form::Form;
use flow_id::{Key, Keyed};
use flow_record::Record;
use indexmap::IndexMap;
use std::alloc::{AllocError, Global};
use std::marker::Model;

/// One replica's records, each as its byte form, in the order of storing.
#[derive(Drop)]
pub struct Cell {
    forms: IndexMap<Key, Form, Keyed>,
    living: bool,
    faults: u64,
}

impl Model for Cell {
    ghost use Rattle.replica_cell.specs.Cells.{CellView, AllFit};

    ghost Value = { CellView };

    ghost view = { λ c. record { replica = record { living = c.living; pairs = c.forms.entries }; faults = c.faults } };

    ghost invariant = { λ c. AllFit c.forms.entries };
}

impl Cell {
    /// An empty living cell, whose keys no stranger chooses. It takes no memory yet.
    pub fn new(alloc: Global) -> Self
        ensures { result ≡ record { replica = empty; faults = 0 } }
    {
        Cell::keyed(alloc, &[0; 32])
    }

    /// An empty living cell that hashes its keys by this secret. It takes no memory yet.
    pub fn keyed(alloc: Global, secret: &[u8; 32]) -> Self
        ensures { result ≡ record { replica = empty; faults = 0 } }
    {
        Cell {
            forms: IndexMap::with_hasher(alloc, Keyed::by(secret)),
            living: true,
            faults: 0,
        }
    }

    /// Stores the record where the cell is living and lacks the key. An `Err` changes nothing.
    pub fn put_new(&mut self, key: &Key, item: &Record) -> Result<Put, AllocError>
        requires { IsTrue (fits_key key.now item.now) }
        ensures answer { IfOk result (λ a. a ≡ put_answer self.old.replica key.now) }
        ensures replica { IfOk result (λ a. self.new.replica ≡ after_put self.old.replica key.now item.now a) }
        ensures faults { OnOk result (self.new.faults ≡ counted self.old.replica self.old.faults) }
        ensures fits { IfOk result (PutFits key.now) }
        ensures err { OnErr result (self.new ≡ self.old) }
    {
        if !self.living {
            self.faults = self.faults.saturating_add(1);
            return Ok(Put::Failed);
        }
        if let Some(found) = self.kept(key) {
            return Ok(Put::Found(found));
        }
        self.forms.insert(*key, Form::of(item))?;
        Ok(Put::Stored)
    }

    /// Looks a key up.
    pub fn look(&mut self, key: &Key) -> Look
        ensures answer { result ≡ look_answer self.old.replica key.now }
        ensures replica { self.new.replica ≡ self.old.replica }
        ensures faults { self.new.faults ≡ counted self.old.replica self.old.faults }
        ensures fits { LookFits key.now result }
    {
        if !self.living {
            self.faults = self.faults.saturating_add(1);
            return Look::Failed;
        }
        match self.kept(key) {
            Some(found) => Look::Found(found),
            None => Look::Absent,
        }
    }

    /// Makes the cell failed, for good.
    pub fn fail(&mut self)
        ensures { self.new ≡ record { replica = failed self.old.replica; faults = self.old.faults } }
    {
        self.living = false;
    }

    /// How often the cell answered that it failed, at most 2^64 - 1.
    pub fn faults(&self) -> u64
        ensures { result ≡ self.now.faults }
    {
        self.faults
    }

    /// Whether the cell is living and has the key.
    pub fn has(&self, key: &Key) -> bool
        ensures { result ≡ has_key self.now.replica key.now }
    {
        self.living && self.forms.contains_key(key)
    }

    /// Removes the pair of a key, as the step that stored it is taken back. Where there is none nothing changes.
    pub fn take_back(&mut self, key: &Key)
        ensures { self.new ≡ record { replica = taken_back key.now self.old.replica; faults = self.old.faults } }
    {
        let _ = self.forms.shift_remove(key);
    }

    /// The record under the key.
    fn kept(&self, key: &Key) -> Option<Record>
        ensures value { result ≡ kept self.now.replica key.now }
        ensures fits { IfSome result (λ r. IsTrue (fits_key key.now r)) }
    {
        match self.forms.get(key) {
            Some(form) => Some(form.to_record()),
            None => None,
        }
    }
}
