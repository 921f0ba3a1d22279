//! Packets of the datagram service, and lists of them.
ghost use Rattle.std.specs.Prelude.{◌≡◌};
ghost use Rattle.nb_datagram.specs.Header.{query_type};

use crate::datagram::Datagram;
use crate::fragment::Fragment;
use crate::key::Key;
use crate::limits::{NEGATIVE_RESPONSE, POSITIVE_RESPONSE, QUERY_REQUEST};
use nb_names::{LentName, Name, NameForm};
use nb_streams::Items;

/// A packet of the datagram service (RFC 1002 section 4.4). Its names stand in the form `N`.
///
/// A fragment's data is lent. All eight bits of each packet's FLAGS are kept.
#[derive(Drop, PartialEq, Eq)]
pub enum Packet<'a, N: NameForm = Name> {
    /// A datagram, or a part of one: MSG_TYPE 10, 11 or 12.
    Direct(Fragment<'a, N>),
    /// Why a datagram wasn't taken: MSG_TYPE 13.
    Error(ErrorPacket),
    /// A question to a distribution server, or its answer: MSG_TYPE 14, 15 or 16.
    Query(QueryPacket<N>),
}

/// A packet whose names are lent too.
pub type LentPacket<'a> = Packet<'a, LentName<'a>>;

/// An error packet: why a datagram wasn't taken (RFC 1002 section 4.4.3).
#[derive(Clone, Copy, Debug, PartialEq, Eq)]
pub struct ErrorPacket {
    /// FLAGS, all eight bits.
    pub flags: u8,
    /// The address and port of the station that sends the error, and the datagram's identifier.
    pub key: Key,
    /// ERROR_CODE, any number; those that the RFC names are in `error_codes`.
    pub code: u8,
}

/// A question to a distribution server, whether it has a name, or its answer (RFC 1002 section
/// 4.4.4). The name stands in the form `N`.
#[derive(Debug, Drop, PartialEq, Eq)]
pub struct QueryPacket<N: NameForm = Name> {
    /// The question, or which answer.
    pub kind: QueryKind,
    /// FLAGS, all eight bits.
    pub flags: u8,
    /// The sender's address and port, and the identifier.
    pub key: Key,
    /// The name asked for.
    pub destination: N,
}

/// A query packet whose name is lent.
pub type LentQuery<'a> = QueryPacket<LentName<'a>>;

impl<'a> LentPacket<'a> {
    /// The packet, with its names in place. No memory is taken.
    pub fn to_packet(&self) -> Packet<'a>
        ensures { result ≡ self.now }
    {
        match self {
            Packet::Direct(fragment) => Packet::Direct(fragment.to_fragment()),
            Packet::Error(error) => Packet::Error(*error),
            Packet::Query(query) => Packet::Query(QueryPacket {
                kind: query.kind,
                flags: query.flags,
                key: query.key,
                destination: query.destination.to_name(),
            }),
        }
    }
}

/// What a query packet says (RFC 1002 section 4.4.1, MSG_TYPE 14 to 16).
#[derive(Clone, Copy, Debug, PartialEq, Eq)]
pub enum QueryKind {
    /// The question: DATAGRAM QUERY REQUEST.
    Request,
    /// The server has the name: DATAGRAM POSITIVE QUERY RESPONSE.
    Positive,
    /// The server doesn't have it: DATAGRAM NEGATIVE QUERY RESPONSE.
    Negative,
}

impl QueryKind {
    /// The packet's MSG_TYPE.
    pub fn message_type(self) -> u8
        ensures { result ≡ query_type self }
    {
        match self {
            QueryKind::Request => QUERY_REQUEST,
            QueryKind::Positive => POSITIVE_RESPONSE,
            QueryKind::Negative => NEGATIVE_RESPONSE,
        }
    }
}

/// A list of fragments, as the pieces into which a datagram is cut. Their data is lent.
pub type Pieces<'a> = Items<Fragment<'a>>;

/// A list of datagrams.
pub type Datagrams = Items<Datagram>;

/// A list of error packets.
pub type ErrorPackets = Items<ErrorPacket>;
