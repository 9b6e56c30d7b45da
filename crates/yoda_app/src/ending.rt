// How a command ends: its exit status, and its line on standard error.
ghost use Rattle.std.specs.Prelude.{◌≡◌, ◌≢◌, ◌++◌, OnOk, OnErr, IfErr};
ghost use Rattle.common.specs.Causes.{Rose};
ghost use Rattle.shelf.specs.declared.outside.Kind.TheVariants.{Writing};
ghost use Rattle.shelf.specs.Shelf.{SameContents, SameOthers, NoneFell, StaysSure};
ghost use Rattle.yoda_app.specs.Commands.{Says, line, usage_text, error_name};
ghost use Rattle.yoda_app.specs.Ends.{stop_status, stop_text, end_status, Tells};
ghost use Rattle.yoda_app.specs.Refusals.{memory_text};
ghost use Rattle.yoda_app.specs.Written.{longer, AddsPart};
ghost use Rattle.yoda_app.specs.declared.ending.Stop.TheVariants.{Memory};

use crate::fault_text::{FaultText, status_of};
use crate::writing::append_all;
use plain_run::LoadFault;
use shelf::{Failed, Shelf};
use std::alloc::{AllocError, Global};

/// Why a command was not done.
#[derive(Drop)]
pub enum Stop<'a> {
    /// Memory was refused.
    Memory,
    /// The inputs were not taken, with the text that says why.
    Unloaded(LoadFault, String),
    /// The output of this name could not be written.
    Write(&'a str),
}

impl From<AllocError> for Stop<'_> {
    ghost from_gives = { λ _ e. e ≡ Memory };

    fn from(_: AllocError) -> Self {
        Stop::Memory
    }
}

impl Stop<'_> {
    fn status(&self) -> u8
        ensures status { result ≡ stop_status self.now }
        ensures other { result ≢ 2 }
    {
        match self {
            Stop::Memory => 9,
            Stop::Unloaded(fault, _) => status_of(fault),
            Stop::Write(_) => 4,
        }
    }
}

/// What tells why the inputs were not taken; where there is no memory for its text, that is what stops the command.
pub fn stop_of<'a>(alloc: Global, fault: LoadFault) -> Stop<'a>
    ensures { Tells fault result }
{
    let line = FaultText(&fault);
    match format!(in alloc; "{line}") {
        Ok(text) => Stop::Unloaded(fault, text),
        Err(_) => Stop::Memory,
    }
}

const ERROR: &str = "!";

const LINE_END: &str = "\n";

const USAGE: &str =
    "yoda: usage: plain RULES TRACE SCRIPT OUT REPORT, run RULES TRACE SCRIPT OUT REPORT JOURNAL, drive FLOWS BYTES NUMBER, dump TRACE";

// Adds a line to standard error, in three parts.
fn say_parts<H: Shelf>(shelf: &mut H, head: &str, rest: &str) -> Result<(), Failed>
    ensures all { OnOk result (H.content shelf.new error_name ≡ longer (H.content shelf.old error_name) (head.now ++ rest.now ++ LINE_END.now)) }
    ensures part { AddsPart (H.content shelf.old error_name) (H.content shelf.new error_name) (head.now ++ rest.now ++ LINE_END.now) }
    ensures others { SameOthers error_name (H.content shelf.old) (H.content shelf.new) }
    ensures cause { OnErr result (Rose (H.faults shelf.old Writing error_name) (H.faults shelf.new Writing error_name)) }
    ensures counts { NoneFell (H.faults shelf.old) (H.faults shelf.new) }
    ensures stays { StaysSure (H.sure shelf.old) (H.sure shelf.new) }
{
    append_all(shelf, ERROR, head.as_bytes())?;
    append_all(shelf, ERROR, rest.as_bytes())?;
    append_all(shelf, ERROR, LINE_END.as_bytes())
}

// Adds a line to standard error. A fault in that changes nothing else.
fn say<H: Shelf>(shelf: &mut H, head: &str, rest: &str)
    ensures says { Says (H.content shelf.old error_name) (H.content shelf.new error_name) (H.faults shelf.old Writing error_name) (H.faults shelf.new Writing error_name) (head.now ++ rest.now ++ LINE_END.now) }
    ensures others { SameOthers error_name (H.content shelf.old) (H.content shelf.new) }
    ensures counts { NoneFell (H.faults shelf.old) (H.faults shelf.new) }
    ensures stays { StaysSure (H.sure shelf.old) (H.sure shelf.new) }
{
    let _ = say_parts(shelf, head, rest);
}

// Says why a command was not done.
fn say_stop<H: Shelf>(shelf: &mut H, stop: &Stop<'_>)
    ensures says { Says (H.content shelf.old error_name) (H.content shelf.new error_name) (H.faults shelf.old Writing error_name) (H.faults shelf.new Writing error_name) (line (stop_text stop.now)) }
    ensures others { SameOthers error_name (H.content shelf.old) (H.content shelf.new) }
    ensures counts { NoneFell (H.faults shelf.old) (H.faults shelf.new) }
    ensures stays { StaysSure (H.sure shelf.old) (H.sure shelf.new) }
{
    match stop {
        Stop::Memory => say(shelf, "yoda: no memory", ""),
        Stop::Unloaded(_, text) => say(shelf, "yoda: ", text.as_str()),
        Stop::Write(name) => say(shelf, "yoda: write fault: ", name),
    }
}

/// Answers the exit status of a command with right words that ended so, and says why where it was not done. Nothing
/// else is changed.
pub fn finish<H: Shelf>(shelf: &mut H, end: &Result<(), Stop<'_>>) -> u8
    ensures status { result ≡ end_status end.now }
    // It is not that of wrong words.
    ensures other { result ≢ 2 }
    ensures says { IfErr end.now (λ stop. Says (H.content shelf.old error_name) (H.content shelf.new error_name) (H.faults shelf.old Writing error_name) (H.faults shelf.new Writing error_name) (line (stop_text stop))) }
    ensures silent { OnOk end.now (SameContents (H.content shelf.old) (H.content shelf.new)) }
    ensures others { SameOthers error_name (H.content shelf.old) (H.content shelf.new) }
    ensures counts { NoneFell (H.faults shelf.old) (H.faults shelf.new) }
    ensures stays { StaysSure (H.sure shelf.old) (H.sure shelf.new) }
{
    match end {
        Ok(()) => 0,
        Err(stop) => {
            say_stop(shelf, stop);
            stop.status()
        }
    }
}

/// Says how the program is used, and answers the exit status for that. Nothing else is changed.
pub fn refuse_words<H: Shelf>(shelf: &mut H) -> u8
    ensures status { result ≡ 2 }
    ensures says { Says (H.content shelf.old error_name) (H.content shelf.new error_name) (H.faults shelf.old Writing error_name) (H.faults shelf.new Writing error_name) (line usage_text) }
    ensures others { SameOthers error_name (H.content shelf.old) (H.content shelf.new) }
    ensures counts { NoneFell (H.faults shelf.old) (H.faults shelf.new) }
    ensures stays { StaysSure (H.sure shelf.old) (H.sure shelf.new) }
{
    say(shelf, USAGE, "");
    2
}

/// Says that memory was refused, and answers the exit status for that. Nothing else is changed.
pub fn refuse_memory<H: Shelf>(shelf: &mut H) -> u8
    ensures status { result ≡ 9 }
    ensures says { Says (H.content shelf.old error_name) (H.content shelf.new error_name) (H.faults shelf.old Writing error_name) (H.faults shelf.new Writing error_name) (line memory_text) }
    ensures others { SameOthers error_name (H.content shelf.old) (H.content shelf.new) }
    ensures counts { NoneFell (H.faults shelf.old) (H.faults shelf.new) }
    ensures stays { StaysSure (H.sure shelf.old) (H.sure shelf.new) }
{
    finish(shelf, &Err(Stop::Memory))
}
