//! The plain slow program beside the definition of a session: lists that are copied and walked. Its contract is the
//! definition, so that what it answers can be held against any other body.
#![tactic(auto)]

mod content;
mod entries;
mod ids;
mod lines;
mod place;
mod questions;
mod rows;
mod same;
mod session;
mod source;
mod space;
mod stamp;
mod state;
mod version;

pub use rows::{WorkedSession, map_and_read, no_line, two_views};
pub use session::{End, PlainSession, plain_session};
