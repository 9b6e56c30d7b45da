//! How flows end: the resets that the balancer sends itself (RFC 9293, 3.5.2), and the record of a FIN.
#![tactic(auto)]

mod closing;
mod laws;

pub use closing::{fin_record, reset_for, turned};
pub use laws::{reset_numbers, turned_numbers};

#[cfg(test)]
mod tests;
