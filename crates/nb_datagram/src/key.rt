//! Keys and kinds of datagrams, and their texts.
#![tactic(auto, using(nb_streams::specs::Growth::front_stays))]

ghost use Rattle.std.specs.Prelude.{◌≡◌, ◌++◌, OnOk, string_bytes};
ghost use Rattle.nb_streams.specs.Growth.{OnlyAdds};
ghost use Rattle.nb_datagram.specs.Packet.{type_of};
ghost use Rattle.nb_datagram.specs.FaultTexts.{key_text, kind_text};
ghost use Rattle.std.proofs.Common.{rules};
ghost use Rattle.std.specs.Cmp.Rules.{comparing};
ghost use Rattle.nb_datagram.specs.Key.{key_cmp};
ghost use Rattle.std.specs.Cmp.{partial_order_from_own_ties};
ghost use Rattle.std.specs.Ordering.{as_partial_cmp};

use crate::limits::{BROADCAST, DIRECT_GROUP, DIRECT_UNIQUE};
use nb_streams::{NoMemory, push_address, push_decimal, push_word_digits};
use std::cmp::Ordering;

/// Which datagram a packet is of: its sender's address and port, and the identifier that the sender
/// gave it.
///
/// Keys are ordered as numbers, by address, port and identifier (our choice).
///
/// RFC 1002 section 4.4.1.
#[derive(Clone, Copy, Debug, PartialEq, Eq)]
pub struct Key {
    /// The sender's address, SOURCE_IP.
    pub ip: [u8; 4],
    /// The sender's port, SOURCE_PORT.
    pub port: u16,
    /// The identifier, DGM_ID.
    pub id: u16,
}

impl Ord for Key {
    ghost cmp = { key_cmp };

    ghost total = { Prim.search (comparing, rules) };

    ghost matches_partial_cmp = { Prim.search (comparing, rules) };

    ghost matches_eq = { Prim.search (comparing, rules) };

    fn cmp(&self, other: &Self) -> Ordering {
        self.ip.cmp(&other.ip).then_with(|| {
            self.port
                .cmp(&other.port)
                .then_with(|| self.id.cmp(&other.id))
        })
    }
}

impl PartialOrd for Key {
    ghost partial_cmp = { as_partial_cmp key_cmp };

    ghost laws = { partial_order_from_own_ties (Prim.search (comparing, rules))
        (Prim.search (comparing, rules)) };

    fn partial_cmp(&self, other: &Self) -> Option<Ordering> {
        Some(self.cmp(other))
    }
}

/// Whom a datagram is for (RFC 1002 section 4.4.1, MSG_TYPE 10 to 12).
#[derive(Clone, Copy, Debug, PartialEq, Eq)]
pub enum Kind {
    /// One station: DIRECT_UNIQUE.
    Unique,
    /// The members of a group: DIRECT_GROUP.
    Group,
    /// All stations of a scope: BROADCAST.
    Broadcast,
}

impl Kind {
    /// The packet's MSG_TYPE.
    pub fn message_type(self) -> u8
        ensures { result ≡ type_of self }
    {
        match self {
            Kind::Unique => DIRECT_UNIQUE,
            Kind::Group => DIRECT_GROUP,
            Kind::Broadcast => BROADCAST,
        }
    }
}

/// Adds a key, `ADDRESS:PORT/ID`: the address with dots and the port in decimal, the identifier as
/// four hexadecimal digits.
///
/// # Errors
///
/// [`NoMemory`] where memory ran out; some of the text may then be added.
///
/// The form is our choice.
pub fn push_key(key: Key, text: &mut String) -> Result<(), NoMemory>
    ensures added { OnOk result (string_bytes text.new ≡ string_bytes text.old ++ key_text key) }
    ensures front { OnlyAdds (string_bytes text.old) (string_bytes text.new) }
{
    push_address(key.ip, text)?;
    text.push_str(":")?;
    push_decimal(u64::from(key.port), text)?;
    text.push_str("/")?;
    push_word_digits(key.id, text)
}

/// The word for a kind: `unique`, `group` or `broadcast` (our choice).
pub fn kind_name(kind: Kind) -> &'static str
    ensures { result.now ≡ kind_text kind }
{
    match kind {
        Kind::Unique => "unique",
        Kind::Group => "group",
        Kind::Broadcast => "broadcast",
    }
}
