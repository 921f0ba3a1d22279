//! Streams of TCP: the bytes of one direction of a connection, put in order.
#![tactic(auto)]

mod direction;
mod front;
pub mod laws;
pub mod limits;
mod putting;
mod runs;
mod taken;

pub use direction::Direction;
pub use taken::{Refusal, Taken};
