// The capture of what is sent in a run in threads, in parts that are made side by side.
ghost use Rattle.std.specs.Prelude.{◌≡◌, ◌≤◌, ◌+◌, ◌++◌, ◌/◌, ◌∷◌, [], length, take, drop, All, IfOk, OnOk};
ghost use Rattle.std.specs.List.{AllByRecursion};
ghost use Rattle.std.specs.Thread.{IsSync};
ghost use Rattle.yoda_app.specs.Outs.{IsSentFrom, outs_text, sent_record, sent_records};
ghost use Rattle.yoda_app.specs.Parts.{AreSpliced, IsPartOf, first_quarter, second_quarter, third_quarter, fourth_quarter, parts_text};
ghost use Rattle.yoda_app.specs.Spliced.{IsSpliced, text_of};

use crate::outs_text::{add_packet_from, begin_outs, packet_at};
use crate::spliced::Spliced;
use pcap_file::Frame;
use std::alloc::{AllocError, Global};
use std::thread::{Threads, join};
use tcp_segment::Segment;

// Room for the head of a record, and for the headers of its packet.
const HEADS_BYTES: usize = 56;
// What a capture begins with.
const HEADER_BYTES: usize = 24;

// Adds the record of a segment, with the time of its frame among these. The one error is want of memory.
fn add_one(
    part: &mut Spliced,
    trace: &[u8],
    frames: &[Frame],
    sent: &(u32, Segment),
) -> Result<(), AllocError>
    requires spliced { IsSpliced trace.now part.old }
    requires inside { All (λ f. f.at + f.kept ≤ length trace.now) frames.now }
    requires sent { IsSentFrom trace.now frames.now sent.now }
    ensures spliced { OnOk result (IsSpliced trace.now part.new) }
    ensures added { OnOk result (text_of trace.now part.new ≡ text_of trace.now part.old ++ sent_record frames.now sent.now) }
{
    let (number, segment) = sent;
    let frame = &frames[*number as usize];
    let packet = packet_at(trace, frame);
    add_packet_from(part, trace, frame, packet, segment)
}

// Adds a record for each of the segments, in their order. The one error is want of memory.
fn add_sent(
    part: &mut Spliced,
    trace: &[u8],
    frames: &[Frame],
    sent: &[(u32, Segment)],
) -> Result<(), AllocError>
    requires spliced { IsSpliced trace.now part.old }
    requires inside { All (λ f. f.at + f.kept ≤ length trace.now) frames.now }
    requires sent { AllByRecursion (IsSentFrom trace.now frames.now) sent.now }
    ensures spliced { OnOk result (IsSpliced trace.now part.new) }
    ensures added { OnOk result (text_of trace.now part.new ≡ text_of trace.now part.old ++ sent_records frames.now sent.now) }
{
    let mut rest = sent;
    while let [first, after @ ..] = rest {
        add_one(part, trace, frames, first)?;
        rest = after;
    }
    Ok(())
}

// The records of these segments. The one error is want of memory.
fn sent_part(
    alloc: Global,
    trace: &[u8],
    frames: &[Frame],
    sent: &[(u32, Segment)],
) -> Result<Spliced, AllocError>
    requires inside { All (λ f. f.at + f.kept ≤ length trace.now) frames.now }
    requires sent { AllByRecursion (IsSentFrom trace.now frames.now) sent.now }
    ensures { IfOk result (IsPartOf trace.now frames.now sent.now) }
{
    let own = Vec::with_capacity(alloc, sent.len().saturating_mul(HEADS_BYTES))?;
    let mut part = Spliced::begin(alloc, own, sent.len())?;
    add_sent(&mut part, trace, frames, sent)?;
    Ok(part)
}

// The records of the first half of these segments and those of the second one, side by side.
fn two_parts<R: Threads + Sync>(
    rt: &R,
    alloc: Global,
    trace: &[u8],
    frames: &[Frame],
    sent: &[(u32, Segment)],
) -> (Result<Spliced, AllocError>, Result<Spliced, AllocError>)
    requires inside { All (λ f. f.at + f.kept ≤ length trace.now) frames.now }
    requires sent { AllByRecursion (IsSentFrom trace.now frames.now) sent.now }
    ensures first { IfOk result.0 (IsPartOf trace.now frames.now (take (length sent.now / 2) sent.now)) }
    ensures second { IfOk result.1 (IsPartOf trace.now frames.now (drop (length sent.now / 2) sent.now)) }
{
    let (first, second) = sent.split_at(sent.len() / 2);
    join(
        rt,
        || -> Result<Spliced, AllocError>
            requires { All (λ f. f.at + f.kept ≤ length trace.now) frames.now × AllByRecursion (IsSentFrom trace.now frames.now) first.now }
            ensures { IfOk result (IsPartOf trace.entry.now frames.entry.now first.entry.now) }
        { sent_part(alloc, trace, frames, first) },
        || -> Result<Spliced, AllocError>
            requires { All (λ f. f.at + f.kept ≤ length trace.now) frames.now × AllByRecursion (IsSentFrom trace.now frames.now) second.now }
            ensures { IfOk result (IsPartOf trace.entry.now frames.entry.now second.entry.now) }
        { sent_part(alloc, trace, frames, second) },
    )
}

// The five parts in their order. The one error is want of memory.
fn in_order(
    alloc: Global,
    head: Spliced,
    first: Spliced,
    second: Spliced,
    third: Spliced,
    fourth: Spliced,
) -> Result<Vec<Spliced>, AllocError>
    ensures { IfOk result (λ parts. parts.items ≡ head ∷ first ∷ second ∷ third ∷ fourth ∷ []) }
{
    let mut parts = Vec::with_capacity(alloc, 5)?;
    parts.push(head)?;
    parts.push(first)?;
    parts.push(second)?;
    parts.push(third)?;
    parts.push(fourth)?;
    Ok(parts)
}

// The capture of these segments, whose records these parts have, by both halves of both halves. The one error is want of
// memory.
fn capture_in_parts(
    alloc: Global,
    trace: &[u8],
    frames: &[Frame],
    sent: &[(u32, Segment)],
    first: Spliced,
    second: Spliced,
    third: Spliced,
    fourth: Spliced,
) -> Result<Vec<Spliced>, AllocError>
    requires first { IsPartOf trace.now frames.now (first_quarter sent.now) first }
    requires second { IsPartOf trace.now frames.now (second_quarter sent.now) second }
    requires third { IsPartOf trace.now frames.now (third_quarter sent.now) third }
    requires fourth { IsPartOf trace.now frames.now (fourth_quarter sent.now) fourth }
    ensures text { IfOk result (λ parts. parts_text trace.now parts.items ≡ outs_text frames.now sent.now) }
    ensures spliced { IfOk result (λ parts. AreSpliced trace.now parts.items) }
{
    let _ = trace;
    let _ = frames;
    let _ = sent;
    let own = begin_outs(alloc, HEADER_BYTES)?;
    let head = Spliced::begin(alloc, own, 0)?;
    let parts = in_order(alloc, head, first, second, third, fourth)?;
    Ok(parts)
}

/// The capture of what is sent for frames of the trace, whose records are made in four threads where these can be had. The one
/// error is want of memory.
pub fn sent_parts<R: Threads + Sync>(
    rt: &R,
    alloc: Global,
    trace: &[u8],
    frames: &[Frame],
    sent: &[(u32, Segment)],
) -> Result<Vec<Spliced>, AllocError>
    requires inside { All (λ f. f.at + f.kept ≤ length trace.now) frames.now }
    requires sent { AllByRecursion (IsSentFrom trace.now frames.now) sent.now }
    ensures text { IfOk result (λ parts. parts_text trace.now parts.items ≡ outs_text frames.now sent.now) }
    ensures spliced { IfOk result (λ parts. AreSpliced trace.now parts.items) }
{
    let (front, back) = sent.split_at(sent.len() / 2);
    let ((first, second), (third, fourth)) = join(
        rt,
        || -> (Result<Spliced, AllocError>, Result<Spliced, AllocError>)
            requires { IsSync R.row × All (λ f. f.at + f.kept ≤ length trace.now) frames.now × AllByRecursion (IsSentFrom trace.now frames.now) front.now }
            ensures { IfOk result.0 (IsPartOf trace.entry.now frames.entry.now (take (length front.entry.now / 2) front.entry.now))
                × IfOk result.1 (IsPartOf trace.entry.now frames.entry.now (drop (length front.entry.now / 2) front.entry.now)) }
        { two_parts(rt, alloc, trace, frames, front) },
        || -> (Result<Spliced, AllocError>, Result<Spliced, AllocError>)
            requires { IsSync R.row × All (λ f. f.at + f.kept ≤ length trace.now) frames.now × AllByRecursion (IsSentFrom trace.now frames.now) back.now }
            ensures { IfOk result.0 (IsPartOf trace.entry.now frames.entry.now (take (length back.entry.now / 2) back.entry.now))
                × IfOk result.1 (IsPartOf trace.entry.now frames.entry.now (drop (length back.entry.now / 2) back.entry.now)) }
        { two_parts(rt, alloc, trace, frames, back) },
    );
    capture_in_parts(alloc, trace, frames, sent, first?, second?, third?, fourth?)
}
