//! The datagram service's fragments and datagrams (RFC 1002 section 4.4).
#![tactic(auto)]

mod datagram;
mod decoding;
mod encoding;
pub mod error_codes;
mod fault;
mod fragment;
mod front;
mod key;
pub mod laws;
pub mod limits;
mod packet;

pub use datagram::{Datagram, UserData, cut};
pub use decoding::{decode, decode_lent};
pub use encoding::encode;
pub use fault::{CutFault, DatagramFault, TooLong};
pub use fragment::{Fragment, LentFragment};
pub use front::{FragmentFront, Front, read_front};
pub use key::{Key, Kind, kind_name, push_key};
pub use packet::{
    Datagrams, ErrorPacket, ErrorPackets, LentPacket, LentQuery, Packet, Pieces, QueryKind,
    QueryPacket,
};
