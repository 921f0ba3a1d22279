//! Connections of TCP: the session packets in the segments of a capture.
#![tactic(auto)]

mod channel;
mod closing;
mod connections;
mod cutting;
pub mod laws;
pub mod limits;
mod piece;
mod taken;

pub use connections::Connections;
pub use piece::Ends;
pub use taken::{LeftOut, Reason, Taken};
