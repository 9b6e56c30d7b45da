ghost use Rattle.std.specs.Prelude.{◌≡◌, ◌++◌, ◌∷◌, [], List, length, IfOk, OnOk};
ghost use Rattle.script_text.specs.declared.line.Line.{Line as LineOf};
ghost use Rattle.script_text.specs.Faults.{is_disordered, is_twice};
ghost use Rattle.script_text.specs.Index.{IsIndex, HasRoom, MayStand};
ghost use Rattle.script_text.specs.Lives.{given, living};

use crate::line::Line;
use crate::lives::Lives;
use std::alloc::{AllocError, Global};
use std::collections::{HashMap, HashSet};

/// What is found of a list of lines without going through it.
#[derive(Drop)]
pub struct Index {
    gives: HashMap<u32, u16>,
    failed: HashSet<u8>,
    lives: Lives,
}

impl Index {
    /// The index of no lines, for so many instances.
    pub fn new(alloc: Global, instances: u16) -> Result<Self, AllocError>
        ensures none { IfOk result (IsIndex []) }
        ensures room { IfOk result (λ index. length index.lives.changes.items ≡ instances) }
    {
        Ok(Index {
            gives: HashMap::new(alloc),
            failed: HashSet::new(alloc),
            lives: Lives::new(alloc, instances)?,
        })
    }

    /// Whether the line is a second `give` of one record or a second `fail` of one replica.
    pub fn is_twice(&self, line: &Line) -> bool
        ensures { (lines : List LineOf) → IsIndex lines self.now → result ≡ is_twice lines line.now }
    {
        match *line {
            Line::Give { item, .. } => self.gives.contains_key(&item),
            Line::Fail { replica, .. } => self.failed.contains(&replica),
            Line::Crash { .. } | Line::Back { .. } => false,
        }
    }

    /// Whether the line is a `crash` or `back` that may not follow the one before it.
    pub fn is_disordered(&self, line: &Line) -> bool
        ensures { (lines : List LineOf) → IsIndex lines self.now → result ≡ is_disordered lines line.now }
    {
        match *line {
            Line::Crash { instance, item, .. } => !self.lives.may_end(instance, item),
            Line::Back { instance, item } => !self.lives.may_begin(instance, item),
            Line::Give { .. } | Line::Fail { .. } => false,
        }
    }

    /// The instance that the record `item` is given to.
    pub fn given(&self, item: u32) -> Option<u16>
        ensures { (lines : List LineOf) → IsIndex lines self.now → result ≡ given lines item }
    {
        self.gives.get(&item).copied()
    }

    /// Whether the instance is living for the record `item`.
    pub fn is_living(&self, instance: u16, item: u32) -> bool
        ensures { (lines : List LineOf) → IsIndex lines self.now → result ≡ living lines instance item }
    {
        self.lives.is_living(instance, item)
    }

    /// Adds a line.
    pub fn add(&mut self, line: &Line) -> Result<(), AllocError>
        requires { HasRoom (length self.old.lives.changes.items) line.now }
        ensures added { OnOk result ((lines : List LineOf) → IsIndex lines self.old → MayStand lines line.now → IsIndex (lines ++ line.now ∷ []) self.new) }
        ensures room { length self.new.lives.changes.items ≡ length self.old.lives.changes.items }
    {
        match *line {
            Line::Give { item, instance } => {
                self.gives.insert(item, instance)?;
                Ok(())
            }
            Line::Crash { instance, item, .. } => self.lives.add(instance, item + 1),
            Line::Back { instance, item } => self.lives.add(instance, item),
            Line::Fail { replica, .. } => {
                self.failed.insert(replica)?;
                Ok(())
            }
        }
    }
}
