//! A packet of port 137 as the tables hear it, and a word that it says.
ghost use Rattle.std.specs.Prelude.{◌≡◌, IfOk};

use crate::word::Word;
use nb_names::DomainName;
use nb_service::AddressEntry;
use std::net::IpAddr;

/// A frame of a capture, and from where to where its packet goes.
#[derive(Clone, Copy, Debug, PartialEq, Eq)]
pub struct Frame {
    /// Its number in the capture; no two of a capture have the same one.
    pub number: u64,
    /// Its time, in nanoseconds since 1970.
    pub time: Option<u64>,
    /// Where the packet comes from.
    pub source: IpAddr,
    /// Where it goes.
    pub target: IpAddr,
    /// The MAC that it comes from.
    pub mac: Option<[u8; 6]>,
    /// Whether the MAC that it goes to is a group's; none where there is none.
    pub is_to_group: Option<bool>,
}

/// What rows have of a packet itself.
#[derive(Clone, Copy, Debug, PartialEq, Eq)]
pub struct Facts {
    /// The frame that it came in.
    pub frame: Frame,
    /// Its identifier, NAME_TRN_ID: a response has that of its request.
    pub id: u16,
    /// The TTL of the NB record of its name, in seconds; none where none stands.
    pub ttl: Option<u32>,
    /// Whether it is malformed behind what was read.
    pub is_malformed: bool,
}

/// A name of a node status, with the scope of its record, and its NAME_FLAGS.
///
/// RFC 1002 section 4.2.18.
#[derive(Debug, Drop)]
pub struct Listed {
    /// The name.
    pub name: DomainName,
    /// NAME_FLAGS.
    pub flags: u16,
}

/// A packet of port 137, as far as it stands.
#[derive(Debug, Drop)]
pub struct Heard {
    /// What rows have of the packet itself.
    pub facts: Facts,
    /// Its flag word: R, OPCODE, NM_FLAGS and RCODE.
    pub flags: u16,
    /// The name of its first question, else of its first record; none where none stands.
    pub name: Option<DomainName>,
    /// The type of that question or record; none where it doesn't stand.
    pub kind: Option<u16>,
    /// The entries of the NB records of its name.
    pub entries: Vec<AddressEntry>,
    /// The names of its node statuses.
    pub listed: Vec<Listed>,
    /// The operation that a wait acknowledgement is about: OPCODE in its RDATA, which is the flag
    /// word of the request.
    pub waits_for: Option<u8>,
}

/// A name at an address.
#[derive(Debug, Drop)]
pub struct Place {
    /// The name.
    pub name: DomainName,
    /// The address.
    pub address: IpAddr,
}

/// A word that a packet says of a name at an address.
#[derive(Debug, Drop)]
pub struct Said {
    /// Of what it is said.
    pub place: Place,
    /// The word.
    pub word: Word,
    /// Whether the name is a group's; none where the word doesn't tell.
    pub group: Option<bool>,
    /// The packet.
    pub facts: Facts,
}
