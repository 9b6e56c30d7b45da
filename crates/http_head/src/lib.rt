//! The head of an HTTP request (RFC 9112): whether bytes that have come begin with one, hold none, or hold none and
//! nothing ends its lines yet, and what of it chooses a server.
#![tactic(auto)]

mod cookie;
mod laws;
mod lines;
mod pieces;
mod read;

pub use cookie::{Fields, fields_of, has_cookie, has_cookie_in};
pub use laws::readings;
pub use pieces::{Pieces, cookies};
pub use read::{FIELD_LINES, HeadRead, HttpHead, Part, head};

#[cfg(test)]
mod tests;
