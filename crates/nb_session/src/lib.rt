//! Session packets: the packets of port 139, parsed, encoded, and taken from streams.
#![tactic(auto)]

mod encoding;
mod fault;
pub mod laws;
pub mod limits;
mod packet;
mod packet_bytes;
mod packet_reading;
mod parsing;
mod stream;

pub use encoding::encode;
pub use fault::SessionFault;
pub use packet::{Kind, LentPacket, MessageData, Packet, TooLong};
pub use packet_bytes::PacketBytes;
pub use packet_reading::{ReadFault, Room, read_lent_packet, read_packet};
pub use parsing::{Header, LentParsed, Parsed, front_header, parse, parse_lent};
pub use stream::{FeedFault, Next, Stream};
