// The command `drive`.
ghost use Rattle.std.specs.Prelude.{◌≡◌, ◌<◌, ◌≤◌, [], ◌∷◌, ◌++◌, IfOk, OnOk};
ghost use Rattle.std.specs.String.{string_bytes};
ghost use Rattle.shelf.specs.Changes.{change};
ghost use Rattle.shelf.specs.Shelf.{SameOthers, NoneFell, StaysSure};
ghost use Rattle.yoda_app.specs.DriveCommand.{IsDriven, bytes_lines, drive_over, flows_line, summary_text};
ghost use Rattle.yoda_app.specs.Ends.{IsEnd};

use crate::drive_words::DriveNumbers;
use crate::ending::Stop;
use crate::output::append_output;
use shelf::Shelf;
use std::alloc::{AllocError, Global};
use std::fmt::Write;
use world_model::{MOST_BYTES, MOST_FLOWS, Summary, drive as generate};

const OUTPUT: &str = "-";

// Adds the line of the flows. The one error is want of memory.
fn add_flows(text: &mut String, s: &Summary) -> Result<(), AllocError>
    ensures { OnOk result (string_bytes text.new ≡ string_bytes text.old ++ flows_line s.now) }
{
    let (flows, closed, open, reset) = (s.flows, s.closed, s.open, s.reset);
    write!(
        text,
        "flows {flows} closed {closed} open {open} reset {reset}\n"
    )
}

// Adds the lines of the bytes. The one error is want of memory.
fn add_bytes(text: &mut String, s: &Summary) -> Result<(), AllocError>
    ensures { OnOk result (string_bytes text.new ≡ string_bytes text.old ++ bytes_lines s.now) }
{
    let (to_servers, to_clients) = (s.to_servers, s.to_clients);
    write!(text, "to servers {to_servers}\nto clients {to_clients}\n")
}

// The three lines of a summary. The one error is want of memory.
fn summary_text(alloc: Global, s: &Summary) -> Result<String, AllocError>
    ensures { IfOk result (λ text. string_bytes text ≡ summary_text s.now) }
{
    let mut text = String::new(alloc);
    add_flows(&mut text, s)?;
    add_bytes(&mut text, s)?;
    Ok(text)
}

// Makes the run, and its text. The one error is want of memory.
fn run_text(alloc: Global, numbers: DriveNumbers) -> Result<String, AllocError>
    requires some { 0 < numbers.flows }
    requires few { numbers.flows ≤ MOST_FLOWS }
    requires short { numbers.bytes ≤ MOST_BYTES }
    ensures { IfOk result (λ text. IsDriven numbers (string_bytes text ∷ [])) }
{
    let summary = generate(alloc, numbers.flows, numbers.bytes, numbers.number)?;
    let text = summary_text(alloc, &summary)?;
    Ok(text)
}

/// Makes a generated run, and adds its summary to standard output.
pub fn drive<'a, H: Shelf>(
    alloc: Global,
    shelf: &mut H,
    numbers: DriveNumbers,
) -> Result<(), Stop<'a>>
    requires some { 0 < numbers.flows }
    requires few { numbers.flows ≤ MOST_FLOWS }
    requires short { numbers.bytes ≤ MOST_BYTES }
    ensures end { IsEnd (drive_over numbers) (change H.content H.faults H.sure shelf.old shelf.new) result }
    ensures others { SameOthers OUTPUT.now (H.content shelf.old) (H.content shelf.new) }
    ensures counts { NoneFell (H.faults shelf.old) (H.faults shelf.new) }
    ensures stays { StaysSure (H.sure shelf.old) (H.sure shelf.new) }
{
    let text = run_text(alloc, numbers)?;
    append_output(shelf, OUTPUT, text.as_bytes())
}
