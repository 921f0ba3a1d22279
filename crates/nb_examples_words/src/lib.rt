//! What the examples of every crate share: the words of a line, bytes as text, a device, faults,
//! and the marks that stand round a call whose requests for memory are counted.
#![tactic(auto)]

mod byte_text;
mod calls;
pub mod devices;
pub mod fault;
pub mod line;
mod saying;
