//! NetBIOS packets for callers in C: the calls of include/nbt.h.
#![tactic(auto)]

pub mod absorbing;
pub mod cutting;
pub mod datagrams;
pub mod names;
pub mod service;
pub mod service_entries;
pub mod service_parts;
pub mod service_reading;
pub mod sessions;
pub mod showing;
pub mod stations;
pub mod statuses;
pub mod tables;
pub mod taking;
pub mod version;
