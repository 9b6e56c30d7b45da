// The command `run`.
ghost use Rattle.std.specs.Prelude.{◌≡◌, ◌≢◌, ℕ, List, [], ◌∷◌, IfOk, IfErr, OnOk, None, Ok};
ghost use Rattle.std.specs.String.{string_bytes};
ghost use Rattle.bench.specs.Inputs.{IsInputs};
ghost use Rattle.plain_run.specs.Judgement.{judged};
ghost use Rattle.shelf.specs.Changes.{change, held, AreTold};
ghost use Rattle.shelf.specs.Shelf.{SameContents, NoneFell, StaysSure};
ghost use Rattle.yoda_app.specs.Commands.{AllWritten};
ghost use Rattle.yoda_app.specs.Ends.{IsStop, IsEnd, StopsAmong};
ghost use Rattle.yoda_app.specs.Parts.{AreSpliced, parts_text};
ghost use Rattle.yoda_app.specs.RunCommand.{run_of};

use crate::ending::{Stop, stop_of};
use crate::output::write_output;
use crate::parts::write_parts_output;
use crate::run_texts::{RunTexts, threaded_texts};
use crate::run_words::RunNames;
use crate::words::input_names;
use crate::writing::BUFFER_BYTES;
use plain_run::{Inputs, load};
use run_threads::RunResult;
use shelf::Shelf;
use std::alloc::Global;
use std::sync::Wait;
use std::thread;
use std::thread::{JoinHandle, Threads};

// Reads the inputs and judges them.
fn load_inputs<'a, H: Shelf>(
    alloc: Global,
    shelf: &mut H,
    names: &RunNames<'a>,
) -> Result<Inputs, Stop<'a>>
    ensures are { IfOk result IsInputs }
    ensures judged { IfOk result (λ i. AreTold (H.content shelf.old) (run_of names.now).inputs
        → (let holds = held (H.content shelf.old) in judged (holds names.now.plain.rules.now) (holds names.now.plain.trace.now) (holds names.now.plain.script.now)) ≡ Ok i) }
    ensures stop { IfErr result (IsStop (run_of names.now) (change H.content H.faults H.sure shelf.old shelf.new)) }
    ensures same { SameContents (H.content shelf.old) (H.content shelf.new) }
    ensures counts { NoneFell (H.faults shelf.old) (H.faults shelf.new) }
    ensures stays { StaysSure (H.sure shelf.old) (H.sure shelf.new) }
{
    let owned = input_names(alloc, &names.plain)?;
    match load(alloc, &owned, shelf) {
        Ok(inputs) => Ok(inputs),
        Err(fault) => Err(stop_of(alloc, fault)),
    }
}

// Reads the inputs, judges them, and makes the texts.
fn prepare<'a, R: Threads + Wait + Sync, H: Shelf>(
    rt: &R,
    alloc: Global,
    shelf: &mut H,
    names: &RunNames<'a>,
) -> Result<(Inputs, RunTexts, RunResult), Stop<'a>>
    ensures accepted { OnOk result (AreTold (H.content shelf.old) (run_of names.now).inputs
        → (run_of names.now).refusal (held (H.content shelf.old)) ≡ None) }
    ensures texts { IfOk result (λ r. AreTold (H.content shelf.old) (run_of names.now).inputs
        → (run_of names.now).Gives (held (H.content shelf.old)) (parts_text r.0.trace r.1.out.items ∷ string_bytes r.1.report ∷ r.1.journal.items ∷ [])) }
    ensures spliced { IfOk result (λ r. AreSpliced r.0.trace r.1.out.items) }
    ensures stop { IfErr result (IsStop (run_of names.now) (change H.content H.faults H.sure shelf.old shelf.new)) }
    ensures same { SameContents (H.content shelf.old) (H.content shelf.new) }
    ensures counts { NoneFell (H.faults shelf.old) (H.faults shelf.new) }
    ensures stays { StaysSure (H.sure shelf.old) (H.sure shelf.new) }
{
    let inputs = load_inputs(alloc, shelf, names)?;
    let (texts, left) = threaded_texts(rt, alloc, &inputs)?;
    Ok((inputs, texts, left))
}

// Writes the report and the journal, in this order.
fn write_told<'a, H: Shelf>(
    shelf: &mut H,
    names: &RunNames<'a>,
    texts: &RunTexts,
) -> Result<(), Stop<'a>>
    requires { names.now.plain.report.now ≢ names.now.journal.now }
    ensures all { OnOk result (AllWritten (names.now.plain.report.now ∷ names.now.journal.now ∷ []) (string_bytes texts.now.report ∷ texts.now.journal.items ∷ [])
        (H.content shelf.old) (H.content shelf.new)) }
    ensures stop { IfErr result (StopsAmong (change H.content H.faults H.sure shelf.old shelf.new) (names.now.plain.report.now ∷ names.now.journal.now ∷ [])
        (string_bytes texts.now.report ∷ texts.now.journal.items ∷ [])) }
    ensures others { (n : List ℕ) → n ≢ names.now.plain.report.now → n ≢ names.now.journal.now → H.content shelf.new n ≡ H.content shelf.old n }
    ensures counts { NoneFell (H.faults shelf.old) (H.faults shelf.new) }
    ensures stays { StaysSure (H.sure shelf.old) (H.sure shelf.new) }
{
    write_output(shelf, names.plain.report, texts.report.as_bytes())?;
    write_output(shelf, names.journal, &texts.journal)
}

// Writes the texts in their order.
fn write_texts<'a, H: Shelf>(
    shelf: &mut H,
    names: &RunNames<'a>,
    trace: &[u8],
    texts: &RunTexts,
    buffer: &mut Vec<u8>,
) -> Result<(), Stop<'a>>
    requires spliced { AreSpliced trace.now texts.now.out.items }
    requires empty { buffer.old.items ≡ [] }
    requires report { names.now.plain.out.now ≢ names.now.plain.report.now }
    requires journal { (names.now.plain.out.now ≢ names.now.journal.now) × (names.now.plain.report.now ≢ names.now.journal.now) }
    ensures all { OnOk result (AllWritten (run_of names.now).outputs (parts_text trace.now texts.now.out.items ∷ string_bytes texts.now.report ∷ texts.now.journal.items ∷ [])
        (H.content shelf.old) (H.content shelf.new)) }
    ensures stop { IfErr result (StopsAmong (change H.content H.faults H.sure shelf.old shelf.new) (run_of names.now).outputs
        (parts_text trace.now texts.now.out.items ∷ string_bytes texts.now.report ∷ texts.now.journal.items ∷ [])) }
    ensures others { (n : List ℕ) → n ≢ names.now.plain.out.now → n ≢ names.now.plain.report.now → n ≢ names.now.journal.now
        → H.content shelf.new n ≡ H.content shelf.old n }
    ensures counts { NoneFell (H.faults shelf.old) (H.faults shelf.new) }
    ensures stays { StaysSure (H.sure shelf.old) (H.sure shelf.new) }
{
    match write_parts_output(shelf, names.plain.out, trace, &texts.out, buffer) {
        Ok(()) => write_told(shelf, names, texts),
        Err(stop) => Err(stop),
    }
}

// Gives back what is left of a run, which is many small pieces: in a thread the segments, and in one the calls of the
// histories, if there can be such threads.
fn give_back<R: Threads>(
    rt: &R,
    left: RunResult,
) -> (Option<JoinHandle<()>>, Option<JoinHandle<()>>) {
    let RunResult { result, histories } = left;
    let segments = thread::spawn(rt, move || drop(result)).ok();
    let calls = thread::spawn(rt, move || drop(histories)).ok();
    (segments, calls)
}

// Waits for the thread, if there is one.
fn wait_for<R: Threads>(rt: &R, thread: Option<JoinHandle<()>>) {
    if let Some(thread) = thread {
        thread.join(rt);
    }
}

/// Reads the inputs, and writes what is sent for the trace's records, what became of them, and the calls that the benches
/// had. It may wait for threads.
pub fn run<'a, R: Threads + Wait + Sync, H: Shelf>(
    rt: &R,
    alloc: Global,
    shelf: &mut H,
    names: &RunNames<'a>,
) -> Result<(), Stop<'a>>
    requires report { names.now.plain.out.now ≢ names.now.plain.report.now }
    requires journal { (names.now.plain.out.now ≢ names.now.journal.now) × (names.now.plain.report.now ≢ names.now.journal.now) }
    ensures end { IsEnd (run_of names.now) (change H.content H.faults H.sure shelf.old shelf.new) result }
    ensures others { (n : List ℕ) → n ≢ names.now.plain.out.now → n ≢ names.now.plain.report.now → n ≢ names.now.journal.now
        → H.content shelf.new n ≡ H.content shelf.old n }
    ensures counts { NoneFell (H.faults shelf.old) (H.faults shelf.new) }
    ensures stays { StaysSure (H.sure shelf.old) (H.sure shelf.new) }
{
    let (inputs, texts, left) = prepare(rt, alloc, shelf, names)?;
    let mut buffer = Vec::with_capacity(alloc, BUFFER_BYTES)?;
    let (segments, calls) = give_back(rt, left);
    let written = write_texts(shelf, names, inputs.trace.as_slice(), &texts, &mut buffer);
    wait_for(rt, segments);
    wait_for(rt, calls);
    written
}
