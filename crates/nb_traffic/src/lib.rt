//! What the frames of a capture bring of the three services: datagrams of UDP and segments of TCP,
//! of one frame, or whole by the fragments of IP of which the frame has the last to come.
#![tactic(auto)]

mod brought;
pub mod laws;
mod traffic;

pub use brought::{Brought, FragmentFault, Packet, Segment, Unfinished};
pub use traffic::{Room, Traffic};
