//! Packets, told to a sink field by field, and their texts, as `nbt show` prints them.
#![tactic(auto)]

mod brief;
mod datagrams;
mod fields;
mod fronts;
pub mod laws;
mod records;
mod services;
mod sessions;
mod showing;
pub mod tags;
mod views;
mod words;

pub use brief::push_brief;
pub use fronts::{push_front, tell_front};
pub use showing::{packet_object, push_packet, tell_packet};
