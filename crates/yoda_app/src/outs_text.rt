// The capture of what is sent, record by record.
ghost use Rattle.std.specs.Prelude.{◌≡◌, ◌≤◌, ◌+◌, ◌++◌, [], length, slice_range, IfOk, OnOk};
ghost use Rattle.std.specs.List.{AllByRecursion};
ghost use Rattle.inplace.specs.Packets.{HoldsSegment};
ghost use Rattle.pcap_file.specs.Written.{header_bytes, record_bytes};
ghost use Rattle.bench.specs.Fitting.{IsShort};
ghost use Rattle.tcp_segment.specs.Written.{packet_bytes};
ghost use Rattle.yoda_app.specs.Outs.{AreMadeOf, frame_records, packet_in};
ghost use Rattle.yoda_app.specs.Spliced.{IsSpliced, text_of};

use crate::spliced::Spliced;
use inplace::{Place, write_front};
use pcap_file::{Frame, network, write_header, write_record_head};
use plain_run::Inputs;
use std::alloc::{AllocError, Global};
use tcp_segment::{Segment, packet_len};

/// A capture without a record, with room for so many bytes. The one error is want of memory.
pub fn begin_outs(alloc: Global, room: usize) -> Result<Vec<u8>, AllocError>
    ensures { IfOk result (λ out. out.items ≡ header_bytes) }
{
    let mut out = Vec::with_capacity(alloc, room)?;
    write_header(&mut out)?;
    Ok(out)
}

/// A capture without a record, with room for the records and the data of a run over this trace. The one error is want of
/// memory.
pub fn begin_spliced(alloc: Global, inputs: &Inputs) -> Result<Spliced, AllocError>
    ensures own { IfOk result (λ out. out.own.items ≡ header_bytes) }
    ensures none { IfOk result (λ out. out.splices.items ≡ []) }
{
    // What is forwarded is about as long as what came in.
    let own = begin_outs(alloc, inputs.trace.as_slice().len())?;
    Spliced::begin(alloc, own, inputs.records as usize)
}

/// Where in the trace the packet of a frame stands; a place without bytes where the frame holds none.
pub fn packet_at(trace: &[u8], frame: &Frame) -> Place
    requires { frame.now.at + frame.now.kept ≤ length trace.now }
    ensures is { slice_range trace.now result.start result.end ≡ packet_in trace.now frame.now }
    ensures ordered { result.start ≤ result.end }
    ensures inside { result.end ≤ length trace.now }
{
    let end = frame.at + frame.kept as usize;
    match network(frame.link, &trace[frame.at..end]) {
        Some(packet) => Place {
            start: end - packet.len(),
            end,
        },
        None => Place { start: end, end },
    }
}

/// Adds a record of the segment's packet, which has the time of this frame, where the segment was made of the packet at this
/// place. The one error is want of memory.
#[tactic(auto, using(tcp_segment::proofs::Again::packet_lengths))]
pub fn add_packet_from(
    out: &mut Spliced,
    trace: &[u8],
    frame: &Frame,
    packet: Place,
    segment: &Segment,
) -> Result<(), AllocError>
    requires spliced { IsSpliced trace.now out.old }
    requires ordered { packet.start ≤ packet.end }
    requires inside { packet.end ≤ length trace.now }
    requires made { HoldsSegment (slice_range trace.now packet.start packet.end) }
    requires short { IsShort segment.now }
    ensures spliced { OnOk result (IsSpliced trace.now out.new) }
    ensures added { OnOk result (text_of trace.now out.new ≡ text_of trace.now out.old ++ record_bytes frame.now.seconds frame.now.micros (packet_bytes segment.now)) }
{
    let own = &mut out.own;
    write_record_head(frame.seconds, frame.micros, packet_len(segment) as u32, own)?;
    let rest = write_front(&trace[packet.start..packet.end], segment, own)?;
    out.add_slice(trace, packet.start + rest.start, packet.start + rest.end)?;
    Ok(())
}

/// Adds a record for each of the segments, in their order, with the time of this frame, for which they are sent, and whose
/// packet stands at this place. The one error is want of memory.
pub fn add_outs(
    out: &mut Spliced,
    trace: &[u8],
    frame: &Frame,
    packet: Place,
    outs: &[Segment],
) -> Result<(), AllocError>
    requires spliced { IsSpliced trace.now out.old }
    requires ordered { packet.start ≤ packet.end }
    requires inside { packet.end ≤ length trace.now }
    requires made { AreMadeOf (slice_range trace.now packet.start packet.end) outs.now }
    requires short { AllByRecursion IsShort outs.now }
    ensures spliced { OnOk result (IsSpliced trace.now out.new) }
    ensures added { OnOk result (text_of trace.now out.new ≡ text_of trace.now out.old ++ frame_records frame.now outs.now) }
{
    let mut rest = outs;
    while let [first, after @ ..] = rest {
        add_packet_from(out, trace, frame, packet, first)?;
        rest = after;
    }
    Ok(())
}
