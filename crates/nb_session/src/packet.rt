//! Session packets as values, and their kinds.
ghost use Rattle.std.specs.Prelude.{◌≡◌, ◌≤◌, ◌<◌, length, MatchResult, ◌↔◌, ℕ, IsTrue, MatchOption};
ghost use Rattle.nb_session.specs.declared.limits.TheConstants.{MAX_MESSAGE};
ghost use Rattle.nb_session.specs.Packet.{kind_of};
ghost use Rattle.nb_session.specs.Header.{type_of, MayHave};

use crate::limits::{MAX_MESSAGE, MAX_REQUEST, MIN_REQUEST};
use nb_names::{LentName, Name, NameForm};
use std::error::Error;
use std::fmt;
use std::marker::Model;

/// A session packet (RFC 1002 section 4.3). Its names stand in the form `N`, and its message is
/// lent.
#[derive(Debug, Drop, PartialEq, Eq)]
pub enum Packet<'a, N: NameForm = Name> {
    /// Data of the session (section 4.3.6).
    Message(MessageData<'a>),
    /// A session is asked for (section 4.3.2).
    Request {
        /// Who is called.
        called: N,
        /// Who calls.
        calling: N,
    },
    /// The session is established (section 4.3.3).
    Positive,
    /// The session is refused (section 4.3.4). In hexadecimal, 80: the station called doesn't
    /// listen on that name, 81: nor for this caller, 82: it has no such name, 83: it lacks
    /// resources, 8f: it gives no reason. Any other code is kept.
    Negative(u8),
    /// The called name listens at another place (section 4.3.5).
    Retarget {
        /// The IPv4 address there.
        address: [u8; 4],
        /// The TCP port there.
        port: u16,
    },
    /// The session is still there (section 4.3.7).
    Keepalive,
}

impl<N: NameForm> Packet<'_, N> {
    /// What the packet is for.
    pub fn kind(&self) -> Kind
        ensures { result ≡ kind_of self.now }
    {
        match self {
            Packet::Message(_) => Kind::Message,
            Packet::Request { .. } => Kind::Request,
            Packet::Positive => Kind::Positive,
            Packet::Negative(_) => Kind::Negative,
            Packet::Retarget { .. } => Kind::Retarget,
            Packet::Keepalive => Kind::Keepalive,
        }
    }
}

/// A packet whose names are lent too. It takes a few words, where one whose names stand in place
/// has room for both scopes.
pub type LentPacket<'a> = Packet<'a, LentName<'a>>;

impl<'a> LentPacket<'a> {
    /// The packet, with its names in place. No memory is taken.
    pub fn to_packet(&self) -> Packet<'a>
        ensures { result ≡ self.now }
    {
        match self {
            Packet::Message(message) => Packet::Message(MessageData::of(message.bytes())),
            Packet::Request { called, calling } => Packet::Request {
                called: called.to_name(),
                calling: calling.to_name(),
            },
            Packet::Positive => Packet::Positive,
            Packet::Negative(code) => Packet::Negative(*code),
            Packet::Retarget { address, port } => Packet::Retarget {
                address: *address,
                port: *port,
            },
            Packet::Keepalive => Packet::Keepalive,
        }
    }
}

/// What a session packet is for (RFC 1002 section 4.3.1, TYPE 00 and 81 to 85).
#[derive(Clone, Copy, Debug, PartialEq, Eq)]
pub enum Kind {
    /// SESSION MESSAGE.
    Message,
    /// SESSION REQUEST.
    Request,
    /// POSITIVE SESSION RESPONSE.
    Positive,
    /// NEGATIVE SESSION RESPONSE.
    Negative,
    /// RETARGET SESSION RESPONSE.
    Retarget,
    /// SESSION KEEP ALIVE.
    Keepalive,
}

impl Kind {
    /// The packet's TYPE.
    pub fn packet_type(self) -> u8
        ensures { result ≡ type_of self }
    {
        match self {
            Kind::Message => 0x00,
            Kind::Request => 0x81,
            Kind::Positive => 0x82,
            Kind::Negative => 0x83,
            Kind::Retarget => 0x84,
            Kind::Keepalive => 0x85,
        }
    }

    /// The kind with this TYPE.
    pub fn of_type(packet_type: u8) -> Option<Kind>
        ensures { MatchOption result ((kind : Kind) → ¬ (type_of kind ≡ packet_type))
            (λ kind. type_of kind ≡ packet_type) }
    {
        match packet_type {
            0x00 => Some(Kind::Message),
            0x81 => Some(Kind::Request),
            0x82 => Some(Kind::Positive),
            0x83 => Some(Kind::Negative),
            0x84 => Some(Kind::Retarget),
            0x85 => Some(Kind::Keepalive),
            _ => None,
        }
    }

    /// Whether the body of a packet of this kind may have this many bytes.
    pub fn may_have(self, length: usize) -> bool
        ensures { IsTrue result ↔ MayHave self length }
    {
        match self {
            Kind::Message => true,
            Kind::Request => MIN_REQUEST <= length && length <= MAX_REQUEST,
            Kind::Positive | Kind::Keepalive => length == 0,
            Kind::Negative => length == 1,
            Kind::Retarget => length == 6,
        }
    }
}

/// The data of a message: at most 131,071 bytes, lent.
#[derive(Debug, Drop)]
pub struct MessageData<'a> {
    bytes: &'a [u8],
}

impl<'a> Model for MessageData<'a> {
    ghost use Rattle.std.specs.Prelude.{ℕ, List, ◌≤◌, length};
    ghost use Rattle.nb_session.specs.declared.limits.TheConstants.{MAX_MESSAGE};

    ghost Value = { List ℕ };

    ghost view = { λ m. m.bytes.now };

    ghost invariant = { λ m. length m.bytes.now ≤ MAX_MESSAGE };
}

/// The bytes are more than a message has.
#[derive(Clone, Copy, Debug, PartialEq, Eq)]
pub struct TooLong;

impl fmt::Display for TooLong {
    ghost use Rattle.std.specs.Prelude.{Some, codes};

    ghost output = { λ _. Some (codes "too long") };

    fn fmt<W: fmt::Write>(&self, f: &mut fmt::Formatter<W>) -> fmt::Result {
        f.write_str("too long")
    }
}

impl Error for TooLong {}

impl<'a> MessageData<'a> {
    /// These bytes, as the data of a message.
    ///
    /// # Errors
    ///
    /// [`TooLong`] where they are more than 131,071.
    pub fn new(bytes: &'a [u8]) -> Result<MessageData<'a>, TooLong>
        ensures { MatchResult result
            (λ message. (message ≡ bytes.entry.now) × (length bytes.entry.now ≤ MAX_MESSAGE))
            (λ _. MAX_MESSAGE < length bytes.entry.now) }
    {
        if bytes.len() > MAX_MESSAGE {
            return Err(TooLong);
        }
        Ok(MessageData::of(bytes))
    }

    /// Bytes that are at most 131,071.
    pub(crate) fn of(bytes: &'a [u8]) -> MessageData<'a>
        requires { length bytes.now ≤ MAX_MESSAGE }
        ensures { result ≡ bytes.now }
    {
        MessageData { bytes }
    }

    /// The bytes.
    pub fn bytes(&self) -> &'a [u8]
        ensures value { result.now ≡ self.now }
        ensures within { length self.now ≤ MAX_MESSAGE }
    {
        self.bytes
    }
}

impl PartialEq for MessageData<'_> {
    ghost use Rattle.std.specs.Prelude.{◌==◌};
    ghost use Rattle.std.specs.Cmp.Lexicographic.{pointwise};
    ghost use Rattle.std.proofs.Common.{rules};
    ghost use Rattle.std.specs.Cmp.Rules.{comparing};

    ghost eq = { pointwise ◌==◌ };

    ghost laws = { Prim.search (comparing, rules) };

    fn eq(&self, other: &Self) -> bool {
        self.bytes == other.bytes
    }
}

impl Eq for MessageData<'_> {
    ghost use Rattle.std.proofs.Common.{rules};
    ghost use Rattle.std.specs.Cmp.Rules.{comparing};

    ghost laws = { Prim.search (comparing, rules) };
}
