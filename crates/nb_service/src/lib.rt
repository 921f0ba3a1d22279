//! Name service packets: the packets of port 137, decoded, built and encoded.
#![tactic(auto)]

mod building;
pub mod classes;
mod decoding;
mod encoding;
mod fault;
mod flags;
mod header;
pub mod kinds;
pub mod laws;
pub mod limits;
mod packet;
mod parts;
mod record;
mod seeing;
mod seen;
mod views;

pub use building::{node_status_request, query, refresh, registration, release, response};
pub use decoding::{decode, outline};
pub use encoding::encode;
pub use fault::{PushFault, RecordFault, ServiceFault};
pub use flags::{NmFlags, NodeFlags, ont, opcode, rcode};
pub use header::{Header, read_header};
pub use packet::{Packet, Questions, Records, Section};
pub use parts::{Part, Parts};
pub use record::{Extent, Fields, Question, Rdata, Record};
pub use seeing::{Walked, see_item, see_question, see_record, walk};
pub use seen::Seen;
pub use views::{AddressEntries, AddressEntry, NodeName, NodeStatus};
