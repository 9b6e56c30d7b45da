//! A run in threads: one worker for each instance, over a lock for each shard's bench.
#![tactic(auto)]

mod block;
mod crew;
mod due;
mod gate;
mod handle;
mod handling;
mod item;
mod laws;
mod locks;
mod made;
mod merge;
mod object;
mod outcome;
mod owner;
mod pool;
mod run;
mod seat;
mod serving;
mod thread;

pub use gate::{Gate, OpenGate};
pub use laws::{calls_are_named, journal_determines, verdicts_are_caused};
pub use locks::{Crew, Locks};
pub use made::Made;
pub use object::BenchObject;
pub use run::{RunResult, run_all};
pub use serving::serve;

#[cfg(test)]
mod tests;
