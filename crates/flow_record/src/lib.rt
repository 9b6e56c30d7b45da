//! The records that the balancer keeps of its flows, what it asks of the store that keeps them, and their byte form:
//! one form for each record, and each fault of bytes that are none.
#![tactic(auto)]

mod fit;
mod form;
mod laws;
mod record;

pub use fit::fits;
pub use form::{RecordFault, read_form, write_form};
pub use laws::{fitting_has_form, one_form};
pub use record::{Ask, Record};

#[cfg(test)]
mod tests;
