ghost use Rattle.std.specs.Prelude.{◌≡◌, ◌≢◌, ◌+◌, ◌%◌, ◌<◌, ◌++◌, ◌∷◌, [], IfErr, IfOk};
ghost use Rattle.script_text.specs.Faults.{fault_of};
ghost use Rattle.script_text.specs.Inside.{MayFollow};
ghost use Rattle.script_text.specs.Lives.{assigned, living};
ghost use Rattle.script_text.specs.Reading.{reading, with_text};
ghost use Rattle.script_text.specs.Scripts.{IsScript, script_of as script_with, sizes_of};

use crate::fault::ScriptFault;
use crate::index::Index;
use crate::line::Line;
use crate::text::{is_skipped, next_line};
use crate::words::line;
use std::alloc::{AllocError, Global};
use std::marker::Model;

/// A script that was read: its lines, and the numbers of instances and replicas that it was read with.
#[derive(Drop)]
pub struct Script {
    lines: Vec<Line>,
    index: Index,
    instances: u16,
    replicas: u8,
}

impl Model for Script {
    ghost use Rattle.script_text.specs.Scripts.{ScriptView, script_of};
    ghost use Rattle.script_text.specs.Inside.{IsIndexed};

    ghost Value = { ScriptView };

    ghost view = { λ s. script_of s.lines.items s.instances s.replicas };

    ghost invariant = { λ s. IsIndexed s.lines.items s.index s.instances s.replicas };
}

/// The script of this text, for so many instances and replicas, or the first fault of its lines.
///
/// The lines are ended by line feeds, which the last may lack, and a carriage return before one is dropped. Empty lines
/// and those that begin with `#` are skipped. The words of a line have one space between them, and the numbers are
/// decimal digits without sign or leading zeros. The faults of one line come in the order of [`ScriptFault`].
pub fn script_of(
    alloc: Global,
    text: &[u8],
    instances: u16,
    replicas: u8,
) -> Result<Script, ScriptFault>
    ensures lines { IfOk result (λ script. reading (sizes_of instances replicas) text.now ≡ Ok script.lines) }
    ensures sizes { IfOk result (λ script. script.sizes ≡ sizes_of instances replicas) }
    ensures fault { IfErr result (λ fault. fault ≢ ScriptFault.Memory → reading (sizes_of instances replicas) text.now ≡ Err fault) }
{
    let mut script = Script::empty(alloc, instances, replicas)?;
    let mut rest = text;
    let mut number = 0u32;
    while let Some((line, after)) = next_line(rest) {
        number = number.saturating_add(1);
        script = script.with_text(alloc, number, line)?;
        rest = after;
    }
    Ok(script)
}

impl Script {
    /// The script of no lines.
    fn empty(alloc: Global, instances: u16, replicas: u8) -> Result<Script, AllocError>
        ensures { IfOk result (λ script. script ≡ script_with [] instances replicas) }
    {
        Ok(Script {
            lines: Vec::new(alloc),
            index: Index::new(alloc, instances)?,
            instances,
            replicas,
        })
    }

    /// The script with the text of this number, or that text's fault.
    fn with_text(self, alloc: Global, number: u32, text: &[u8]) -> Result<Script, ScriptFault>
        ensures lines { IfOk result (λ script. with_text self.sizes number self.lines text.now ≡ Ok script.lines) }
        ensures sizes { IfOk result (λ script. script.sizes ≡ self.sizes) }
        ensures fault { IfErr result (λ fault. fault ≢ ScriptFault.Memory → with_text self.sizes number self.lines text.now ≡ Err fault) }
    {
        if is_skipped(text) {
            return Ok(self);
        }
        let Some(line) = line(alloc, text)? else {
            return Err(ScriptFault::Form(number));
        };
        match self.fault(number, &line) {
            Some(fault) => Err(fault),
            None => Ok(self.with_line(line)?),
        }
    }

    /// The first fault of the line of this number, after the lines before it.
    fn fault(&self, number: u32, line: &Line) -> Option<ScriptFault>
        ensures { result ≡ fault_of number self.now.sizes.instances self.now.sizes.replicas self.now.lines line.now }
    {
        if !line.is_ranged(self.instances, self.replicas) {
            Some(ScriptFault::Range(number))
        } else if self.index.is_twice(line) {
            Some(ScriptFault::Twice(number))
        } else if self.index.is_disordered(line) {
            Some(ScriptFault::Order(number))
        } else {
            None
        }
    }

    /// The script with one line more, which has no fault.
    fn with_line(self, line: Line) -> Result<Script, AllocError>
        requires { MayFollow self.lines self.sizes.instances self.sizes.replicas line }
        ensures { IfOk result (λ script. script ≡ script_with (self.lines ++ line ∷ []) self.sizes.instances self.sizes.replicas) }
    {
        let Script {
            mut lines,
            mut index,
            instances,
            replicas,
        } = self;
        index.add(&line)?;
        lines.push(line)?;
        Ok(Script {
            lines,
            index,
            instances,
            replicas,
        })
    }

    /// What holds of every script. It does nothing.
    pub fn known(&self)
        ensures { IsScript self.now }
    {
        let _ = &self.lines;
    }

    /// The lines in file order.
    pub fn lines(&self) -> &[Line]
        ensures { result.now ≡ self.now.lines }
    {
        &self.lines
    }

    /// Whether the instance is living for the record `item`: it has no crash at a record below that with no back at or
    /// below it after the crash.
    pub fn living(&self, instance: u16, item: u32) -> bool
        ensures { result ≡ living self.now.lines instance item }
    {
        self.index.is_living(instance, item)
    }

    /// The instance that the record `item` is assigned to, None exactly where no instance is living for it: the first
    /// living one from the one that the record is given to, or where it is not given from `first`, on and round.
    pub fn assign(&self, item: u32, first: u16) -> Option<u16>
        requires { first < self.now.sizes.instances }
        ensures { result ≡ assigned self.now.lines self.now.sizes.instances item first }
    {
        let first = self.index.given(item).unwrap_or(first);
        for step in 0..self.instances {
            let instance = round(first, step, self.instances);
            if self.index.is_living(instance, item) {
                return Some(instance);
            }
        }
        None
    }
}

/// The instance so many steps after the first one, round all instances.
fn round(first: u16, steps: u16, instances: u16) -> u16
    requires { 0 < instances }
    ensures { result ≡ (first + steps) % instances }
{
    let place = (u32::from(first) + u32::from(steps)) % u32::from(instances);
    place as u16
}
