use crate::faults::{IpFaultText, TcpFaultText};
use common::{Address, Endpoint};
use flow_id::Flow;
use job_core::{Verdict, Why};
use std::fmt;
use std::fmt::{Display, Formatter};

/// A verdict, as it is written in a report, and in a dump's line of a frame that holds no segment. Checksums are four
/// lower-case hex digits, flags are two, and all other numbers are decimal.
#[derive(Clone, Copy, Debug, PartialEq, Eq)]
pub struct VerdictText(pub Verdict);

impl Display for VerdictText {
    ghost use Rattle.std.specs.Prelude.{Some};
    ghost use Rattle.report_text.specs.Verdicts.{verdict_text};

    ghost output = { λ t. Some (verdict_text t.0) };

    fn fmt<W: fmt::Write>(&self, f: &mut Formatter<W>) -> fmt::Result {
        match self.0 {
            Verdict::Answered => write!(f, "answered"),
            Verdict::Held(end) => write!(f, "held {end}"),
            Verdict::Ahead { end, offset } => write!(f, "ahead {end} {offset}"),
            Verdict::Waiting => write!(f, "waiting"),
            Verdict::LetGo => write!(f, "letgo"),
            Verdict::Asked { server, port } => write!(f, "asked {server} {port}"),
            Verdict::Opened => write!(f, "opened"),
            Verdict::Forwarded => write!(f, "forwarded"),
            Verdict::Refused(why) => write!(f, "refused {}", WhyText(why)),
            Verdict::TurnedAway => write!(f, "turnedaway"),
            Verdict::Unknown => write!(f, "unknown"),
            Verdict::OtherNumber(number) => write!(f, "othernumber {number}"),
            Verdict::BadAck(number) => write!(f, "badack {number}"),
            Verdict::OtherOpen(number) => write!(f, "otheropen {number}"),
            Verdict::PortsTaken(owners) => write!(f, "portstaken{}", OwnersText(owners)),
            Verdict::Early => write!(f, "early"),
            Verdict::Odd(flags) => write!(f, "odd {flags:02x}"),
            Verdict::NotOurs => write!(f, "notours"),
            Verdict::NotIpv4 => write!(f, "notipv4"),
            Verdict::SnapCut => write!(f, "snapcut"),
            Verdict::BadIp(fault) => write!(f, "badip {}", IpFaultText(fault)),
            Verdict::BadTcp(fault) => write!(f, "badtcp {}", TcpFaultText(fault)),
            Verdict::StoreDown => write!(f, "storedown"),
            Verdict::Crashed => write!(f, "crashed"),
            Verdict::NoInstance => write!(f, "noinstance"),
            Verdict::NoMemory { calls } => write!(f, "nomemory {calls}"),
        }
    }
}

/// Why a client's bytes are refused.
#[derive(Clone, Copy)]
struct WhyText(Why);

impl Display for WhyText {
    ghost use Rattle.std.specs.Prelude.{Some};
    ghost use Rattle.report_text.specs.Verdicts.{why_text};

    ghost output = { λ t. Some (why_text t.0) };

    fn fmt<W: fmt::Write>(&self, f: &mut Formatter<W>) -> fmt::Result {
        match self.0 {
            Why::TooLong => write!(f, "toolong"),
            Why::BadHead => write!(f, "badhead"),
            Why::NoRule => write!(f, "norule"),
        }
    }
}

/// A space and a client's address and port for each of these flows.
#[derive(Clone, Copy)]
struct OwnersText([Flow; 8]);

impl Display for OwnersText {
    ghost use Rattle.std.specs.Prelude.{Some};
    ghost use Rattle.std.specs.Prelude.{◌++◌, codes};
    ghost use Rattle.std.specs.List.{flat_map};
    ghost use Rattle.common.specs.Text.{end_text};

    ghost output = { λ t. Some (flat_map (λ flow. codes " " ++ end_text flow.address flow.port) t.0) };

    fn fmt<W: fmt::Write>(&self, f: &mut Formatter<W>) -> fmt::Result {
        for flow in self.0 {
            let client = Endpoint {
                address: Address(flow.address),
                port: flow.port,
            };
            write!(f, " {client}")?;
        }
        Ok(())
    }
}
