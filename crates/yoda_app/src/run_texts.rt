// The three texts of a run in threads.
ghost use Rattle.std.specs.Prelude.{◌≡◌, ◌≤◌, ◌+◌, ◌*◌, ◌++◌, All, [], ◌∷◌, length, map, IfOk, OnOk};
ghost use Rattle.std.specs.List.{AllByRecursion};
ghost use Rattle.std.specs.String.{string_bytes};
ghost use Rattle.std.specs.Thread.{IsSync};
ghost use Rattle.bench.specs.Inputs.{IsInputs};
ghost use Rattle.journal_text.specs.Journals.{journal_text};
ghost use Rattle.pcap_file.specs.Frames.{capture_of};
ghost use Rattle.report_text.specs.Reports.{last_text};
ghost use Rattle.yoda_app.specs.Outs.{IsSentFrom, outs_text};
ghost use Rattle.yoda_app.specs.Parts.{AreSpliced, parts_text};
ghost use Rattle.yoda_app.specs.Reports.{report_lines, report_text};
ghost use Rattle.yoda_app.specs.RunCommand.{AreRunTexts};

use crate::report::{LINE_BYTES, add_end, add_line};
use crate::sent_parts::sent_parts;
use crate::spliced::Spliced;
use bench::input::Line;
use bench::{Call, forwarding_laws, job_laws, move_laws, store_laws};
use journal_text::journal;
use pcap_file::Frame;
use plain_run::Inputs;
use run_threads::{
    OpenGate, RunResult, calls_are_named, journal_determines, run_all, verdicts_are_caused,
};
use script_text::assignments;
use seen_lock::Entry;
use std::alloc::{AllocError, Global};
use std::sync::Wait;
use std::thread::{Threads, join};
use tcp_segment::Segment;
use world_model::headline;

/// The three texts that `run` writes.
#[derive(Drop)]
pub struct RunTexts {
    /// The capture of what is sent, in parts, of which slices stand in the trace.
    pub out: Vec<Spliced>,
    pub report: String,
    pub journal: Vec<u8>,
}

// Room for a line of a journal; most are shorter.
const CALL_BYTES: usize = 9;

// Adds the lines of a report, from the first record on.
fn add_lines(report: &mut String, lines: &[Line]) -> Result<(), AllocError>
    requires { length lines.now ≤ 262144 }
    ensures { OnOk result (string_bytes report.new ≡ string_bytes report.old ++ report_lines 0 lines.now) }
{
    let mut rest = lines;
    let mut item = 0;
    while let [line, after @ ..] = rest {
        add_line(report, item, line)?;
        item += 1;
        rest = after;
    }
    Ok(())
}

// The report of records with these lines, for which so many segments are sent.
fn told_text(alloc: Global, lines: &[Line], sent: usize) -> Result<String, AllocError>
    requires lines { length lines.now ≤ 262144 }
    requires sent { sent ≤ 11 * 262144 }
    ensures { IfOk result (λ report. string_bytes report ≡ report_lines 0 lines.now ++ last_text (length lines.now) sent) }
{
    let mut report = String::with_capacity(alloc, lines.len() * LINE_BYTES)?;
    add_lines(&mut report, lines)?;
    add_end(&mut report, lines.len() as u32, sent as u32)?;
    Ok(report)
}

// How many calls there are in these histories, or the largest number.
fn call_count(histories: &[Vec<Entry<Call>>]) -> usize {
    let mut count = 0usize;
    for history in histories {
        count = count.saturating_add(history.len());
    }
    count
}

// The journal of these histories.
fn told_calls(alloc: Global, histories: &[Vec<Entry<Call>>]) -> Result<Vec<u8>, AllocError>
    ensures { IfOk result (λ text. text.items ≡ journal_text (map (λ h. h.items) histories.now)) }
{
    let room = call_count(histories).saturating_mul(CALL_BYTES);
    let mut text = Vec::with_capacity(alloc, room)?;
    journal(histories, &mut text)?;
    Ok(text)
}

// The report and the journal, side by side.
fn told_texts<R: Threads + Sync>(
    rt: &R,
    alloc: Global,
    lines: &[Line],
    sent: usize,
    histories: &[Vec<Entry<Call>>],
) -> (Result<String, AllocError>, Result<Vec<u8>, AllocError>)
    requires lines { length lines.now ≤ 262144 }
    requires sent { sent ≤ 11 * 262144 }
    ensures report { IfOk result.0 (λ report. string_bytes report ≡ report_lines 0 lines.now ++ last_text (length lines.now) sent) }
    ensures journal { IfOk result.1 (λ text. text.items ≡ journal_text (map (λ h. h.items) histories.now)) }
{
    join(
        rt,
        || -> Result<String, AllocError>
            requires { (length lines.now ≤ 262144) × (sent ≤ 11 * 262144) }
            ensures { IfOk result (λ report. string_bytes report ≡ report_lines 0 lines.entry.now ++ last_text (length lines.entry.now) sent) }
        { told_text(alloc, lines, sent) },
        || -> Result<Vec<u8>, AllocError>
            ensures { IfOk result (λ text. text.items ≡ journal_text (map (λ h. h.items) histories.entry.now)) }
        { told_calls(alloc, histories) },
    )
}

// The texts of what a run left, side by side.
fn texts_of<R: Threads + Sync>(
    rt: &R,
    alloc: Global,
    trace: &[u8],
    frames: &[Frame],
    lines: &[Line],
    sent: &[(u32, Segment)],
    histories: &[Vec<Entry<Call>>],
) -> Result<RunTexts, AllocError>
    requires inside { All (λ f. f.at + f.kept ≤ length trace.now) frames.now }
    requires sent { AllByRecursion (IsSentFrom trace.now frames.now) sent.now }
    requires lines { length lines.now ≤ 262144 }
    requires few { length sent.now ≤ 11 * 262144 }
    ensures out { IfOk result (λ t. parts_text trace.now t.out.items ≡ outs_text frames.now sent.now) }
    ensures spliced { IfOk result (λ t. AreSpliced trace.now t.out.items) }
    ensures report { IfOk result (λ t. string_bytes t.report ≡ report_text lines.now sent.now) }
    ensures journal { IfOk result (λ t. t.journal.items ≡ journal_text (map (λ h. h.items) histories.now)) }
{
    let count = sent.len();
    let (out, (report, journal)) = join(
        rt,
        || -> Result<Vec<Spliced>, AllocError>
            requires { IsSync R.row × All (λ f. f.at + f.kept ≤ length trace.now) frames.now × AllByRecursion (IsSentFrom trace.now frames.now) sent.now }
            ensures { IfOk result (λ parts. (parts_text trace.entry.now parts.items ≡ outs_text frames.entry.now sent.entry.now) × AreSpliced trace.entry.now parts.items) }
        { sent_parts(rt, alloc, trace, frames, sent) },
        || -> (Result<String, AllocError>, Result<Vec<u8>, AllocError>)
            requires { IsSync R.row × (length lines.now ≤ 262144) × (count ≤ 11 * 262144) }
            ensures { IfOk result.0 (λ report. string_bytes report ≡ report_lines 0 lines.entry.now ++ last_text (length lines.entry.now) count)
                × IfOk result.1 (λ text. text.items ≡ journal_text (map (λ h. h.items) histories.entry.now)) }
        { told_texts(rt, alloc, lines, count, histories) },
    );
    Ok(RunTexts {
        out: out?,
        report: report?,
        journal: journal?,
    })
}

// The texts of a run over the inputs that left this, where the frames are those of the trace. The one error is want of memory.
fn texts_left<R: Threads + Sync>(
    rt: &R,
    alloc: Global,
    inputs: &Inputs,
    frames: &[Frame],
    ran: &RunResult,
) -> Result<RunTexts, AllocError>
    requires frames { frames.now ≡ (capture_of inputs.now.trace).frames }
    requires inside { All (λ f. f.at + f.kept ≤ length inputs.now.trace) frames.now }
    requires sent { AllByRecursion (IsSentFrom inputs.now.trace (capture_of inputs.now.trace).frames) ran.now.result.outs }
    requires lines { length ran.now.result.lines ≤ 262144 }
    requires few { length ran.now.result.outs ≤ 11 * 262144 }
    ensures out { IfOk result (λ t. parts_text inputs.now.trace t.out.items ≡ outs_text (capture_of inputs.now.trace).frames ran.now.result.outs) }
    ensures spliced { IfOk result (λ t. AreSpliced inputs.now.trace t.out.items) }
    ensures report { IfOk result (λ t. string_bytes t.report ≡ report_text ran.now.result.lines ran.now.result.outs) }
    ensures journal { IfOk result (λ t. t.journal.items ≡ journal_text (map (λ h. h.items) ran.now.histories.items)) }
{
    let trace = inputs.trace.as_slice();
    let lines = ran.result.lines.as_slice();
    let sent = ran.result.outs.as_slice();
    let texts = texts_of(rt, alloc, trace, frames, lines, sent, &ran.histories)?;
    Ok(texts)
}

/// The texts of a run over the inputs, with a thread for each worker where one can be had, and what is left of the run then. The
/// one error is want of memory.
pub fn threaded_texts<R: Threads + Wait + Sync>(
    rt: &R,
    alloc: Global,
    inputs: &Inputs,
) -> Result<(RunTexts, RunResult), AllocError>
    requires { IsInputs inputs.now }
    ensures run { IfOk result (λ r. AreRunTexts inputs.now (parts_text inputs.now.trace r.0.out.items ∷ string_bytes r.0.report ∷ r.0.journal.items ∷ [])) }
    ensures spliced { IfOk result (λ r. AreSpliced inputs.now.trace r.0.out.items) }
{
    calls_are_named();
    verdicts_are_caused();
    journal_determines();
    assignments();
    store_laws();
    job_laws();
    move_laws();
    forwarding_laws();
    headline();
    inputs.setup.known();
    inputs.known();
    let ran = run_all(rt, alloc, inputs, &OpenGate)?;
    let texts = texts_left(rt, alloc, inputs, inputs.frames.as_slice(), &ran)?;
    Ok((texts, ran))
}
