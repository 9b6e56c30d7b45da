//! The texts of a report: a line for each record of a capture with what became of it, and a last line that counts.
#![tactic(auto)]

mod faults;
mod line;
mod verdict;

pub use faults::{IpFaultText, TcpFaultText};
pub use line::{report_end, report_line};
pub use verdict::VerdictText;

#[cfg(test)]
mod tests;
