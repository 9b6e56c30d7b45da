// One line of a dump.
ghost use Rattle.std.specs.Prelude.{◌≡◌, ◌≤◌, ◌+◌, ◌++◌, ◌==◌, OnOk, length};
ghost use Rattle.std.specs.String.{string_bytes};
ghost use Rattle.bench.specs.Incoming.{incoming, segment_of};
ghost use Rattle.yoda_app.specs.Dumps.{letter, flags_text, ends_text, numbers_text, segment_line, dump_line};

use bench::input::{Incoming, incoming_of};
use common::{Address, Endpoint};
use pcap_file::Frame;
use report_text::VerdictText;
use std::alloc::AllocError;
use std::fmt::Write;

fn add_letter(text: &mut String, is_set: bool, flag: &str) -> Result<(), AllocError>
    ensures { OnOk result (string_bytes text.new ≡ string_bytes text.old ++ letter is_set flag.now) }
{
    if is_set { text.push_str(flag) } else { Ok(()) }
}

// Adds the letters of the flags that are set.
fn add_flags(text: &mut String, flags: u8) -> Result<(), AllocError>
    ensures { OnOk result (string_bytes text.new ≡ string_bytes text.old ++ flags_text flags) }
{
    if flags == 0 {
        return text.push_str("-");
    }
    add_letter(text, flags / 128 == 1, "C")?;
    add_letter(text, flags / 64 % 2 == 1, "E")?;
    add_letter(text, flags / 32 % 2 == 1, "U")?;
    add_letter(text, flags / 16 % 2 == 1, "A")?;
    add_letter(text, flags / 8 % 2 == 1, "P")?;
    add_letter(text, flags / 4 % 2 == 1, "R")?;
    add_letter(text, flags / 2 % 2 == 1, "S")?;
    add_letter(text, flags % 2 == 1, "F")
}

// Adds the frame's number, and from whom to whom it goes.
fn add_ends(text: &mut String, number: u32, incoming: &Incoming<'_>) -> Result<(), AllocError>
    ensures { OnOk result (string_bytes text.new ≡ string_bytes text.old ++ ends_text number (segment_of incoming.now)) }
{
    let source = Endpoint {
        address: Address(incoming.source),
        port: incoming.head.source_port,
    };
    let target = Endpoint {
        address: Address(incoming.target),
        port: incoming.head.target_port,
    };
    write!(text, "{number} {source} > {target} ")
}

// Adds the numbers of a segment.
fn add_numbers(text: &mut String, incoming: &Incoming<'_>) -> Result<(), AllocError>
    ensures { OnOk result (string_bytes text.new ≡ string_bytes text.old ++ numbers_text (segment_of incoming.now)) }
{
    let (seq, ack) = (incoming.head.seq.0, incoming.head.ack.0);
    let (window, length) = (incoming.head.window, incoming.body.len());
    write!(text, " {seq} {ack} {window} {length}\n")
}

fn add_segment(text: &mut String, number: u32, incoming: &Incoming<'_>) -> Result<(), AllocError>
    ensures { OnOk result (string_bytes text.new ≡ string_bytes text.old ++ segment_line number (segment_of incoming.now)) }
{
    add_ends(text, number, incoming)?;
    add_flags(text, incoming.head.flags)?;
    add_numbers(text, incoming)
}

/// Adds the line of a frame of the trace, which has this number, to a dump. The one error is want of memory.
pub fn add_line(
    text: &mut String,
    number: u32,
    trace: &[u8],
    frame: &Frame,
) -> Result<(), AllocError>
    requires { frame.now.at + frame.now.kept ≤ length trace.now }
    ensures { OnOk result (string_bytes text.new ≡ string_bytes text.old ++ dump_line number (incoming trace.now frame.now)) }
{
    match incoming_of(trace, frame) {
        Ok(incoming) => add_segment(text, number, &incoming),
        Err(verdict) => {
            let verdict = VerdictText(verdict);
            write!(text, "{number} {verdict}\n")
        }
    }
}
