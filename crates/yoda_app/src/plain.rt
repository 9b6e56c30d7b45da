// The command `plain`.
ghost use Rattle.std.specs.Prelude.{◌≡◌, ◌≢◌, ℕ, List, [], ◌∷◌, IfOk, IfErr, OnOk, None, Ok};
ghost use Rattle.std.specs.String.{string_bytes};
ghost use Rattle.bench.specs.Inputs.{IsInputs};
ghost use Rattle.plain_run.specs.Judgement.{judged};
ghost use Rattle.shelf.specs.Changes.{change, held, AreTold};
ghost use Rattle.shelf.specs.Shelf.{SameContents, NoneFell, StaysSure};
ghost use Rattle.yoda_app.specs.Commands.{AllWritten};
ghost use Rattle.yoda_app.specs.Ends.{IsStop, IsEnd, StopsAmong};
ghost use Rattle.yoda_app.specs.Plain.{plain_of};
ghost use Rattle.yoda_app.specs.Spliced.{IsSpliced, text_of};

use crate::ending::{Stop, stop_of};
use crate::output::{write_output, write_spliced_output};
use crate::texts::{Texts, run_texts};
use crate::words::{PlainNames, input_names};
use crate::writing::BUFFER_BYTES;
use plain_run::{Inputs, load};
use shelf::Shelf;
use std::alloc::Global;

// Reads the inputs and judges them.
fn load_inputs<'a, H: Shelf>(
    alloc: Global,
    shelf: &mut H,
    names: &PlainNames<'a>,
) -> Result<Inputs, Stop<'a>>
    ensures are { IfOk result IsInputs }
    ensures judged { IfOk result (λ i. AreTold (H.content shelf.old) (plain_of names.now).inputs
        → (let holds = held (H.content shelf.old) in judged (holds names.now.rules.now) (holds names.now.trace.now) (holds names.now.script.now)) ≡ Ok i) }
    ensures stop { IfErr result (IsStop (plain_of names.now) (change H.content H.faults H.sure shelf.old shelf.new)) }
    ensures same { SameContents (H.content shelf.old) (H.content shelf.new) }
    ensures counts { NoneFell (H.faults shelf.old) (H.faults shelf.new) }
    ensures stays { StaysSure (H.sure shelf.old) (H.sure shelf.new) }
{
    let owned = input_names(alloc, names)?;
    match load(alloc, &owned, shelf) {
        Ok(inputs) => Ok(inputs),
        Err(fault) => Err(stop_of(alloc, fault)),
    }
}

// Reads the inputs, judges them, and makes the texts.
fn prepare<'a, H: Shelf>(
    alloc: Global,
    shelf: &mut H,
    names: &PlainNames<'a>,
) -> Result<(Inputs, Texts), Stop<'a>>
    ensures accepted { OnOk result (AreTold (H.content shelf.old) (plain_of names.now).inputs
        → (plain_of names.now).refusal (held (H.content shelf.old)) ≡ None) }
    ensures texts { IfOk result (λ r. AreTold (H.content shelf.old) (plain_of names.now).inputs
        → (plain_of names.now).Gives (held (H.content shelf.old)) (text_of r.0.trace r.1.out ∷ string_bytes r.1.report ∷ [])) }
    ensures spliced { IfOk result (λ r. IsSpliced r.0.trace r.1.out) }
    ensures stop { IfErr result (IsStop (plain_of names.now) (change H.content H.faults H.sure shelf.old shelf.new)) }
    ensures same { SameContents (H.content shelf.old) (H.content shelf.new) }
    ensures counts { NoneFell (H.faults shelf.old) (H.faults shelf.new) }
    ensures stays { StaysSure (H.sure shelf.old) (H.sure shelf.new) }
{
    let inputs = load_inputs(alloc, shelf, names)?;
    let texts = run_texts(alloc, &inputs)?;
    Ok((inputs, texts))
}

// Writes the texts in their order.
fn write_texts<'a, H: Shelf>(
    shelf: &mut H,
    names: &PlainNames<'a>,
    trace: &[u8],
    texts: &Texts,
    buffer: &mut Vec<u8>,
) -> Result<(), Stop<'a>>
    requires differ { names.now.out.now ≢ names.now.report.now }
    requires spliced { IsSpliced trace.now texts.now.out }
    requires empty { buffer.old.items ≡ [] }
    ensures all { OnOk result (AllWritten (plain_of names.now).outputs (text_of trace.now texts.now.out ∷ string_bytes texts.now.report ∷ [])
        (H.content shelf.old) (H.content shelf.new)) }
    ensures stop { IfErr result (StopsAmong (change H.content H.faults H.sure shelf.old shelf.new) (plain_of names.now).outputs
        (text_of trace.now texts.now.out ∷ string_bytes texts.now.report ∷ [])) }
    ensures others { (n : List ℕ) → n ≢ names.now.out.now → n ≢ names.now.report.now → H.content shelf.new n ≡ H.content shelf.old n }
    ensures counts { NoneFell (H.faults shelf.old) (H.faults shelf.new) }
    ensures stays { StaysSure (H.sure shelf.old) (H.sure shelf.new) }
{
    write_spliced_output(shelf, names.out, trace, &texts.out, buffer)?;
    write_output(shelf, names.report, texts.report.as_bytes())
}

/// Reads the inputs, and writes what is sent for the trace's records and what became of them.
pub fn plain<'a, H: Shelf>(
    alloc: Global,
    shelf: &mut H,
    names: &PlainNames<'a>,
) -> Result<(), Stop<'a>>
    requires { names.now.out.now ≢ names.now.report.now }
    ensures end { IsEnd (plain_of names.now) (change H.content H.faults H.sure shelf.old shelf.new) result }
    ensures others { (n : List ℕ) → n ≢ names.now.out.now → n ≢ names.now.report.now → H.content shelf.new n ≡ H.content shelf.old n }
    ensures counts { NoneFell (H.faults shelf.old) (H.faults shelf.new) }
    ensures stays { StaysSure (H.sure shelf.old) (H.sure shelf.new) }
{
    let (inputs, texts) = prepare(alloc, shelf, names)?;
    let mut buffer = Vec::with_capacity(alloc, BUFFER_BYTES)?;
    write_texts(shelf, names, inputs.trace.as_slice(), &texts, &mut buffer)
}
