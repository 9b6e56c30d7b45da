ghost use Rattle.std.specs.Prelude.{◌≡◌, ◌++◌, OnOk, OnErr};
ghost use Rattle.report_text.specs.Reports.{line_text, last_text};

use crate::verdict::VerdictText;
use job_core::Verdict;
use std::alloc::AllocError;

/// The room that is made for a line: most lines fit, and a longer one is given more.
const USUAL_LENGTH: usize = 32;

/// Appends the line of the record with this number, what became of it, and the instance that handled it, if one did. The
/// one error is want of memory, and then `out` is as before.
pub fn report_line(
    record: u32,
    instance: Option<u16>,
    verdict: &Verdict,
    out: &mut Vec<u8>,
) -> Result<(), AllocError>
    ensures line { OnOk result (out.new.items ≡ out.old.items ++ line_text «record» instance verdict.now) }
    ensures refused { OnErr result (out.new.items ≡ out.old.items) }
{
    let verdict = VerdictText(*verdict);
    let mut line = String::with_capacity(*out.allocator(), USUAL_LENGTH)?;
    match instance {
        Some(instance) => write!(line, "{record} {instance} {verdict}\n")?,
        None => write!(line, "{record} - {verdict}\n")?,
    }
    out.extend_from_slice(line.as_bytes())
}

/// Appends the last line: how many records there were, and how many segments were sent for them. The one error is want of
/// memory, and then `out` is as before.
pub fn report_end(records: u32, outs: u32, out: &mut Vec<u8>) -> Result<(), AllocError>
    ensures last { OnOk result (out.new.items ≡ out.old.items ++ last_text records outs) }
    ensures refused { OnErr result (out.new.items ≡ out.old.items) }
{
    let line = format!(in *out.allocator(); "records {records} outs {outs}\n")?;
    out.extend_from_slice(line.as_bytes())
}
