//! The balancer between its clients and servers: the world in which any segment is lost, repeated or reordered, and what
//! holds after every list of its events.
#![tactic(auto)]

mod aborting;
mod at;
mod calm_part;
mod client;
mod client_list;
mod crashing;
mod delivery;
mod driven_world;
mod driver;
mod driving;
mod enabled;
mod event;
mod failing;
mod laws;
mod laying;
mod posted;
mod posting;
mod replying;
mod rough_part;
mod route;
mod server_end;
mod server_ends;
mod serving;
mod shard;
mod state;
mod summary;
mod swapping;
#[cfg(test)]
mod tests;
mod world;

pub use at::At;
pub use client::ClientSpec;
pub use driver::drive;
pub use driving::{MOST_BYTES, MOST_FLOWS};
pub use event::{Event, Happened};
pub use laws::{first_flow, headline, steps_are_events, streams_agree, wrong_worlds};
pub use posted::{Posted, Sender};
pub use server_end::ServerEnd;
pub use summary::Summary;
pub use world::World;
