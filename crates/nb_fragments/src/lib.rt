//! Fragments of IP, put together to the packets that they are of.
#![tactic(auto)]

mod fragments;
mod key;
pub mod laws;
pub mod limits;
mod taken;
mod waiting;

pub use fragments::Fragments;
pub use key::Key;
pub use taken::{Refusal, Taken};
