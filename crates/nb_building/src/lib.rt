//! Packets from words: what each of them has, as texts, and the packets as the lines of a capture.
#![tactic(auto)]

mod arguments;
mod build_fault;
mod building;
mod datagram;
mod forms;
mod response;
mod service;
mod session;

pub use build_fault::BuildFault;
pub use building::capture_lines;
pub use forms::{Field, PACKETS, WordKind, fields_of};
