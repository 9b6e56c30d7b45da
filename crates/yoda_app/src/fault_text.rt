// Why the inputs of a command are not taken: the exit status, and the text of its line on standard error.
ghost use Rattle.std.specs.Prelude.{◌≡◌, ◌≢◌};
ghost use Rattle.yoda_app.specs.Refusals.{status_of};

use pcap_file::PcapFault;
use plain_run::{Limit, LoadFault};
use script_text::ScriptFault;
use std::fmt;
use std::fmt::{Display, Formatter};

/// The exit status that tells the fault.
pub fn status_of(fault: &LoadFault) -> u8
    ensures status { result ≡ status_of fault.now }
    ensures other { result ≢ 2 }
{
    match fault {
        LoadFault::Read(_) => 3,
        LoadFault::Trace(_) => 5,
        LoadFault::Rules(_) => 6,
        LoadFault::Script(_) => 7,
        LoadFault::Limit(_) => 8,
        LoadFault::Memory => 9,
    }
}

/// A limit, as its line tells it.
#[derive(Clone, Copy)]
struct LimitText(Limit);

impl Display for LimitText {
    ghost use Rattle.std.specs.Prelude.{Some};
    ghost use Rattle.yoda_app.specs.Refusals.{limit_text};

    ghost output = { λ l. Some (limit_text l.0) };

    fn fmt<W: fmt::Write>(&self, f: &mut Formatter<W>) -> fmt::Result {
        match self.0 {
            Limit::Rules(bytes) => write!(f, "rules bytes {bytes}"),
            Limit::Trace(bytes) => write!(f, "trace bytes {bytes}"),
            Limit::Script(bytes) => write!(f, "script bytes {bytes}"),
            Limit::Records(records) => write!(f, "trace records {records}"),
        }
    }
}

/// The fault of a capture, as its line tells it.
#[derive(Clone, Copy)]
struct CaptureText(PcapFault);

impl Display for CaptureText {
    ghost use Rattle.std.specs.Prelude.{Some};
    ghost use Rattle.yoda_app.specs.Refusals.{capture_text};

    ghost output = { λ c. Some (capture_text c.0) };

    fn fmt<W: fmt::Write>(&self, f: &mut Formatter<W>) -> fmt::Result {
        match self.0 {
            PcapFault::HeaderCut(bytes) => write!(f, "header cut at {bytes}"),
            PcapFault::Magic(magic) => write!(f, "magic {magic:08x}"),
            PcapFault::Version { major, minor } => write!(f, "version {major}.{minor}"),
            PcapFault::Link(link) => write!(f, "link {link}"),
            PcapFault::RecordCut(at) => write!(f, "record cut at {at}"),
            PcapFault::TooLarge { at, kept: _ } => write!(f, "record too large at {at}"),
        }
    }
}

/// The fault of a script, as its line tells it.
#[derive(Clone, Copy)]
struct ScriptText(ScriptFault);

impl Display for ScriptText {
    ghost use Rattle.std.specs.Prelude.{Some};
    ghost use Rattle.yoda_app.specs.Refusals.{script_text};

    ghost output = { λ s. Some (script_text s.0) };

    fn fmt<W: fmt::Write>(&self, f: &mut Formatter<W>) -> fmt::Result {
        match self.0 {
            ScriptFault::Form(line) => write!(f, "line {line} form"),
            ScriptFault::Range(line) => write!(f, "line {line} range"),
            ScriptFault::Twice(line) => write!(f, "line {line} twice"),
            ScriptFault::Order(line) => write!(f, "line {line} order"),
            ScriptFault::Memory => write!(f, "no memory"),
        }
    }
}

/// The text of a fault's line, behind the program's name.
#[derive(Clone, Copy)]
pub struct FaultText<'a>(pub &'a LoadFault);

impl Display for FaultText<'_> {
    ghost use Rattle.std.specs.Prelude.{Some};
    ghost use Rattle.yoda_app.specs.Refusals.{refusal_text};

    ghost output = { λ f. Some (refusal_text f.0.now) };

    fn fmt<W: fmt::Write>(&self, f: &mut Formatter<W>) -> fmt::Result {
        match self.0 {
            LoadFault::Read(name) => write!(f, "read fault: {name}"),
            LoadFault::Limit(limit) => {
                let limit = LimitText(*limit);
                write!(f, "limit: {limit}")
            }
            LoadFault::Trace(fault) => {
                let fault = CaptureText(*fault);
                write!(f, "trace refused: {fault}")
            }
            LoadFault::Rules(fault) => write!(f, "rules refused: {fault}"),
            LoadFault::Script(fault) => {
                let fault = ScriptText(*fault);
                write!(f, "script refused: {fault}")
            }
            LoadFault::Memory => write!(f, "no memory"),
        }
    }
}
