use ipv4::IpFault;
use std::fmt;
use std::fmt::{Display, Formatter};
use tcp_segment::TcpFault;

/// The fault of a packet, as it is written in reports and dumps.
#[derive(Clone, Copy, Debug, PartialEq, Eq)]
pub struct IpFaultText(pub IpFault);

impl Display for IpFaultText {
    ghost use Rattle.std.specs.Prelude.{Some};
    ghost use Rattle.report_text.specs.Verdicts.{ip_fault_text};

    ghost output = { λ t. Some (ip_fault_text t.0) };

    fn fmt<W: fmt::Write>(&self, f: &mut Formatter<W>) -> fmt::Result {
        match self.0 {
            IpFault::Short { need, have } => write!(f, "short {need} {have}"),
            IpFault::Version(version) => write!(f, "version {version}"),
            IpFault::HeaderLength(words) => write!(f, "headerlength {words}"),
            IpFault::TotalLength(total) => write!(f, "totallength {total}"),
            IpFault::BadSum { kept, computed } => write!(f, "sum {kept:04x} {computed:04x}"),
            IpFault::Fragment => write!(f, "fragment"),
            IpFault::Protocol(protocol) => write!(f, "protocol {protocol}"),
        }
    }
}

/// The fault of a segment, as it is written in reports and dumps.
#[derive(Clone, Copy, Debug, PartialEq, Eq)]
pub struct TcpFaultText(pub TcpFault);

impl Display for TcpFaultText {
    ghost use Rattle.std.specs.Prelude.{Some};
    ghost use Rattle.report_text.specs.Verdicts.{tcp_fault_text};

    ghost output = { λ t. Some (tcp_fault_text t.0) };

    fn fmt<W: fmt::Write>(&self, f: &mut Formatter<W>) -> fmt::Result {
        match self.0 {
            TcpFault::Short { need, have } => write!(f, "short {need} {have}"),
            TcpFault::Offset(words) => write!(f, "offset {words}"),
            TcpFault::BadSum { kept, computed } => write!(f, "sum {kept:04x} {computed:04x}"),
            TcpFault::OptionCut(at) => write!(f, "option {at}"),
        }
    }
}
