//! What a thing has, as a packet, is reported once, field by field, to a sink. One sink writes
//! text, another JSON.
#![tactic(auto)]

mod json_sink;
mod sink;
mod text_sink;

pub use json_sink::{JsonRoom, JsonSink};
pub use sink::{FieldTag, Flag, Shows, Sink, tell_place};
