//! What the calls of the library for C do.
#![tactic(auto)]

pub mod absorbing;
pub mod cutting;
pub mod datagrams;
pub mod handle;
pub mod laws;
pub mod names;
pub mod output;
pub mod service;
pub mod service_entries;
pub mod service_parts;
pub mod service_reading;
pub mod sessions;
pub mod showing;
pub mod stations;
pub mod statuses;
pub mod tables;
pub mod taken;
pub mod taking;
