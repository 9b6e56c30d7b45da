// The two texts of a run, which are made record by record.
ghost use Rattle.std.specs.Prelude.{◌≡◌, ◌≤◌, [], ◌∷◌, IfOk, OnOk, length};
ghost use Rattle.std.specs.String.{string_bytes};
ghost use Rattle.bench.specs.Inputs.{IsInputs};
ghost use Rattle.pcap_file.specs.Frames.{capture_of, left_of};
ghost use Rattle.pcap_file.specs.Written.{header_bytes};
ghost use Rattle.yoda_app.specs.Plain.{IsPlain};
ghost use Rattle.yoda_app.specs.Spliced.{IsSpliced, text_of};
ghost use Rattle.yoda_app.specs.Texts.{AddsRun};

use crate::outs_text::{add_outs, begin_spliced, packet_at};
use crate::report::{LINE_BYTES, add_end, add_line};
use crate::spliced::Spliced;
use pcap_file::Reader;
use plain_run::{Inputs, Run, plain_laws};
use std::alloc::{AllocError, Global};
use world_model::headline;

/// The two texts that `plain` writes.
#[derive(Drop)]
pub struct Texts {
    /// The capture of what is sent, of which parts stand in the trace.
    pub out: Spliced,
    pub report: String,
}

// The texts before the first record.
fn begin_texts(alloc: Global, inputs: &Inputs) -> Result<Texts, AllocError>
    requires { IsInputs inputs.now }
    ensures own { IfOk result (λ t. t.out.own.items ≡ header_bytes) }
    ensures none { IfOk result (λ t. t.out.splices.items ≡ []) }
    ensures report { IfOk result (λ t. string_bytes t.report ≡ []) }
{
    let out = begin_spliced(alloc, inputs)?;
    let report = String::with_capacity(alloc, inputs.records as usize * LINE_BYTES)?;
    Ok(Texts { out, report })
}

// Adds the texts of the records that a reader of the trace finds, one after the other, and answers how many segments are
// sent.
fn add_records(
    alloc: Global,
    inputs: &Inputs,
    mut reader: Reader,
    texts: &mut Texts,
) -> Result<u32, AllocError>
    requires inputs { IsInputs inputs.now }
    requires left { left_of reader inputs.now.trace ≡ capture_of inputs.now.trace }
    requires inside { reader.place ≤ length inputs.now.trace }
    requires spliced { IsSpliced inputs.now.trace texts.old.out }
    ensures adds { IfOk result (AddsRun inputs.now texts.old texts.new) }
    ensures spliced { OnOk result (IsSpliced inputs.now.trace texts.new.out) }
{
    let trace = inputs.trace.as_slice();
    let mut run = Run::begin(alloc, inputs)?;
    let mut item = 0;
    let mut sent = 0;
    while let Ok(Some(frame)) = reader.next(trace) {
        let handled = run.handle(alloc, inputs, &frame);
        add_line(&mut texts.report, item, &handled.line)?;
        let packet = packet_at(trace, &frame);
        add_outs(
            &mut texts.out,
            trace,
            &frame,
            packet,
            handled.outs.as_slice(),
        )?;
        sent += handled.count();
        item += 1;
    }
    Ok(sent)
}

// Adds the texts of all records of the trace, and answers how many segments are sent.
fn add_run(alloc: Global, inputs: &Inputs, texts: &mut Texts) -> Result<u32, AllocError>
    requires inputs { IsInputs inputs.now }
    requires spliced { IsSpliced inputs.now.trace texts.old.out }
    ensures adds { IfOk result (AddsRun inputs.now texts.old texts.new) }
    ensures spliced { OnOk result (IsSpliced inputs.now.trace texts.new.out) }
{
    match Reader::open(inputs.trace.as_slice()) {
        Ok(reader) => add_records(alloc, inputs, reader, texts),
        Err(_) => Ok(0),
    }
}

/// The texts of a run over the inputs. The one error is want of memory.
pub fn run_texts(alloc: Global, inputs: &Inputs) -> Result<Texts, AllocError>
    requires { IsInputs inputs.now }
    ensures plain { IfOk result (λ t. IsPlain inputs.now (text_of inputs.now.trace t.out ∷ string_bytes t.report ∷ [])) }
    ensures spliced { IfOk result (λ t. IsSpliced inputs.now.trace t.out) }
{
    plain_laws();
    headline();
    inputs.setup.known();
    inputs.script.known();
    let mut texts = begin_texts(alloc, inputs)?;
    let sent = add_run(alloc, inputs, &mut texts)?;
    add_end(&mut texts.report, inputs.records, sent)?;
    Ok(texts)
}
