//! The kinds of packets.
ghost use Rattle.std.specs.Prelude.{◌≡◌, IfSome};
ghost use Rattle.nbt_look.specs.Kinds.{datagram_kind, is_of, is_of_any, is_of_kinds, is_taken, kind_word, names_kind, session_kind};

use crate::counting::Outcome;
use crate::heading::Heading;
use crate::hearing::Heard;
use nb_service::{opcode, rcode};

/// A kind of packets, as `--kind` calls it.
#[derive(Clone, Copy)]
pub enum Kind {
    /// A name query, or its answer (RFC 1002 sections 4.2.12 to 4.2.15).
    Query,
    /// A node status request, or its answer (4.2.17, 4.2.18).
    Status,
    /// A name registration, or its answer (4.2.2, 4.2.3, 4.2.5 to 4.2.8).
    Registration,
    /// A name refresh, or its answer (4.2.4).
    Refresh,
    /// A name release, or its answer (4.2.9 to 4.2.11).
    Release,
    /// A wait acknowledgement (4.2.16).
    Wack,
    /// Any response of port 137.
    Response,
    /// One that refuses a name which another station has, or says that a name is in conflict.
    Conflict,
    /// A direct or broadcast datagram, or a piece of one (4.4.2).
    Datagram,
    /// A direct unique datagram.
    Unique,
    /// A direct group datagram.
    Group,
    /// A broadcast datagram.
    Broadcast,
    /// A piece of a datagram.
    Fragment,
    /// A datagram error (4.4.3).
    Error,
    /// A datagram query request (4.4.4).
    Find,
    /// A positive datagram query response (4.4.4).
    Found,
    /// A negative datagram query response (4.4.4).
    Missing,
    /// Any packet of port 139 (4.3.1).
    Session,
    /// A session request (4.3.2).
    Request,
    /// A session retarget response (4.3.5).
    Retarget,
    /// A session message (4.3.6).
    Message,
    /// A session keep alive (4.3.7).
    Keepalive,
    /// A response that grants, finds or accepts.
    Positive,
    /// A response that refuses, or finds nothing.
    Negative,
    /// A packet that is refused.
    Malformed,
    /// A packet of which not all is there.
    LeftOut,
}

/// The kind that a word names.
pub fn kind_of(word: &str) -> Option<Kind>
    ensures { IfSome result (λ kind. word.now ≡ kind_word kind) }
{
    Some(match word {
        "query" => Kind::Query,
        "status" => Kind::Status,
        "registration" => Kind::Registration,
        "refresh" => Kind::Refresh,
        "release" => Kind::Release,
        "wack" => Kind::Wack,
        "response" => Kind::Response,
        "conflict" => Kind::Conflict,
        "datagram" => Kind::Datagram,
        "unique" => Kind::Unique,
        "group" => Kind::Group,
        "broadcast" => Kind::Broadcast,
        "fragment" => Kind::Fragment,
        "error" => Kind::Error,
        "find" => Kind::Find,
        "found" => Kind::Found,
        "missing" => Kind::Missing,
        "session" => Kind::Session,
        "request" => Kind::Request,
        "retarget" => Kind::Retarget,
        "message" => Kind::Message,
        "keepalive" => Kind::Keepalive,
        "positive" => Kind::Positive,
        "negative" => Kind::Negative,
        "malformed" => Kind::Malformed,
        "left-out" => Kind::LeftOut,
        _ => return None,
    })
}

/// What says of which kinds a packet is.
#[derive(Clone, Copy)]
pub struct Marks {
    /// How it counts.
    pub outcome: Outcome,
    /// What its header says.
    pub heading: Heading,
    /// What was heard of what stands behind the header.
    pub heard: Heard,
}

impl Marks {
    /// Whether the packet is of one of these kinds; it is where there is none.
    pub fn is_of_kinds(&self, kinds: &[Kind]) -> bool
        ensures { result ≡ is_of_kinds kinds.now self.now }
    {
        kinds.is_empty() || self.is_of_any(kinds)
    }

    /// Whether the packet is of one of these kinds.
    fn is_of_any(&self, kinds: &[Kind]) -> bool
        ensures { result ≡ is_of_any kinds.now self.now }
    {
        kinds.iter().any(|kind| self.is_of(*kind))
    }

    /// Whether the packet is of this kind.
    fn is_of(&self, kind: Kind) -> bool
        ensures { result ≡ is_of kind self.now }
    {
        match kind {
            Kind::Malformed => matches!(self.outcome, Outcome::Malformed),
            Kind::LeftOut => matches!(self.outcome, Outcome::LeftOut(_)),
            _ => match self.heading {
                Heading::Names(word) => is_names_kind(kind, word, self.heard),
                Heading::Datagram(message_type, is_piece) => {
                    is_datagram_kind(kind, message_type, is_piece)
                }
                Heading::Session(packet_type) => is_session_kind(kind, packet_type),
                Heading::Nothing => false,
            },
        }
    }
}

/// Whether a packet of port 137 with this flag word is of this kind.
fn is_names_kind(kind: Kind, word: u16, heard: Heard) -> bool
    ensures { result ≡ names_kind kind word heard }
{
    let operation = opcode(word);
    let code = rcode(word);
    let is_response = 0x8000 <= word;
    match kind {
        Kind::Query => operation == 0 && !heard.status,
        Kind::Status => heard.status,
        Kind::Registration => (operation == 5 || operation == 15) && !heard.status,
        Kind::Refresh => (operation == 8 || operation == 9) && !heard.status,
        Kind::Release => operation == 6 && !heard.status,
        Kind::Wack => operation == 7 && !heard.status,
        Kind::Response => is_response,
        Kind::Conflict => is_response && (is_taken(operation, code) || heard.conflict),
        Kind::Positive => is_response && code == 0 && operation != 7,
        // A name conflict demand answers nothing.
        Kind::Negative => is_response && code != 0 && !(operation == 5 && code == 7),
        _ => false,
    }
}

/// Whether a response of this OPCODE and RCODE says that a name is in conflict, or refuses one that
/// another station has.
fn is_taken(operation: u8, code: u8) -> bool
    ensures { result ≡ is_taken operation code }
{
    code == 7 || (code == 6 && matches!(operation, 5 | 8 | 9 | 15))
}

/// Whether a packet of port 138 with this MSG_TYPE is of this kind.
fn is_datagram_kind(kind: Kind, message_type: u8, is_piece: bool) -> bool
    ensures { result ≡ datagram_kind kind message_type is_piece }
{
    match kind {
        Kind::Datagram => 0x10 <= message_type && message_type <= 0x12,
        Kind::Fragment => 0x10 <= message_type && message_type <= 0x12 && is_piece,
        Kind::Unique => message_type == 0x10,
        Kind::Group => message_type == 0x11,
        Kind::Broadcast => message_type == 0x12,
        Kind::Error => message_type == 0x13,
        Kind::Find => message_type == 0x14,
        Kind::Found | Kind::Positive => message_type == 0x15,
        Kind::Missing | Kind::Negative => message_type == 0x16,
        _ => false,
    }
}

/// Whether a packet of port 139 with this TYPE is of this kind.
fn is_session_kind(kind: Kind, packet_type: u8) -> bool
    ensures { result ≡ session_kind kind packet_type }
{
    match kind {
        Kind::Session => true,
        Kind::Message => packet_type == 0x00,
        Kind::Request => packet_type == 0x81,
        Kind::Positive => packet_type == 0x82,
        Kind::Negative => packet_type == 0x83,
        Kind::Retarget => packet_type == 0x84,
        Kind::Keepalive => packet_type == 0x85,
        _ => false,
    }
}
