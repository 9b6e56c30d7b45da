//! The names under which the balancer keeps its state: a flow is one connection of a client to a service, and a key
//! names one record of a flow or of a source port. Beside them stands what a flow's hash gives: the forged sequence
//! number, the candidate source ports and the draw between servers, and the shard that holds a flow's records. And the
//! hashers of maps by such names.
#![tactic(auto)]

mod hash;
mod hashed;
mod key;
mod keyed;
mod laws;
mod port;

pub use hash::{Marks, draw, marks_of};
pub use key::{Flow, Key, Side};
pub use keyed::Keyed;
pub use laws::{candidate_laws, key_laws};
pub use port::{candidate, port_shard, shard};

#[cfg(test)]
mod tests;
