// The report of a run, record by record.
ghost use Rattle.std.specs.Prelude.{◌≡◌, ◌++◌, OnOk, Some};
ghost use Rattle.std.specs.String.{string_bytes};
ghost use Rattle.job_core.specs.declared.verdict.Verdict.TheVariants.{Forwarded};
ghost use Rattle.report_text.specs.Reports.{line_text, last_text};

use bench::input::Line;
use itoa::Buffer;
use job_core::Verdict;
use report_text::VerdictText;
use std::alloc::AllocError;
use std::fmt::Write;

/// Room for a line of a report; most are shorter.
pub const LINE_BYTES: usize = 24;

/// Adds the line of the record with this number, which this instance passed on. Most lines are such, so it is made without
/// a formatter. The one error is want of memory.
fn add_forwarded(report: &mut String, number: u32, instance: u16) -> Result<(), AllocError>
    ensures { OnOk result (string_bytes report.new ≡ string_bytes report.old ++ line_text number (Some instance) Forwarded) }
{
    let mut digits = Buffer::new();
    report.push_str(digits.format(number))?;
    report.push_str(" ")?;
    report.push_str(digits.format(instance))?;
    report.push_str(" forwarded\n")
}

/// Adds the line of the record with this number. The one error is want of memory.
pub fn add_line(report: &mut String, number: u32, line: &Line) -> Result<(), AllocError>
    ensures { OnOk result (string_bytes report.new ≡ string_bytes report.old ++ line_text number line.now.instance line.now.verdict) }
{
    match (line.instance, &line.verdict) {
        (Some(instance), Verdict::Forwarded) => add_forwarded(report, number, instance),
        (Some(instance), verdict) => write!(
            report,
            "{number} {instance} {}\n",
            VerdictText(*verdict)
        ),
        (None, verdict) => write!(report, "{number} - {}\n", VerdictText(*verdict)),
    }
}

/// Adds the last line: how many records there were, and how many segments were sent for them. The one error is want of
/// memory.
pub fn add_end(report: &mut String, records: u32, sent: u32) -> Result<(), AllocError>
    ensures { OnOk result (string_bytes report.new ≡ string_bytes report.old ++ last_text records sent) }
{
    write!(report, "records {records} outs {sent}\n")
}
