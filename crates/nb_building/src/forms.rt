//! The packets, and the words that each takes.
ghost use Rattle.std.specs.Prelude.{◌≡◌, map, option_map};
ghost use Rattle.nb_building.specs.Words.{kinds_of};

/// What a word has to be.
#[derive(Clone, Copy, Debug, PartialEq, Eq)]
pub enum WordKind {
    /// A number of sixteen bits.
    Digits,
    /// A number of eight bits.
    Code,
    /// The text of a name.
    Name,
    /// A decimal number to 65,535.
    ShortNumber,
    /// A decimal number to 4,294,967,295.
    LongNumber,
    /// An IPv4 address.
    Address,
    /// A datagram's key.
    Key,
    /// Data.
    Data,
    /// The data of a record, whose type is the word but one before.
    Rdata,
}

/// A word of a packet: what it is called, what it has to be, and one that is taken.
#[derive(Clone, Copy)]
pub struct Field(pub &'static str, pub WordKind, pub &'static str);

const ID: Field = Field("ID", WordKind::Digits, "0001");

const WORD: Field = Field("WORD", WordKind::Digits, "8500");

const TYPE: Field = Field("TYPE", WordKind::Digits, "0020");

const FLAGS: Field = Field("FLAGS", WordKind::Digits, "0000");

const NAME: Field = Field("NAME", WordKind::Name, "FRED<20>");

const CALLED: Field = Field("CALLED", WordKind::Name, "FRED<20>");

const CALLING: Field = Field("CALLING", WordKind::Name, "FRED<20>");

const SOURCE: Field = Field("SOURCE", WordKind::Name, "FRED<20>");

const DESTINATION: Field = Field("DESTINATION", WordKind::Name, "FRED<20>");

const TTL: Field = Field("TTL", WordKind::LongNumber, "300000");

const PORT: Field = Field("PORT", WordKind::ShortNumber, "139");

const MOST: Field = Field("MOST", WordKind::ShortNumber, "512");

const ADDRESS: Field = Field("ADDRESS", WordKind::Address, "10.0.0.5");

const KEY: Field = Field("KEY", WordKind::Key, "10.0.0.5:138/0001");

const CODE: Field = Field("CODE", WordKind::Code, "82");

const HEX: Field = Field("HEX", WordKind::Data, "00ff");

/// HEX of a record whose type is given.
const RDATA: Field = Field("HEX", WordKind::Rdata, "00");

/// The words that name packets.
pub const PACKETS: [&str; 19] = [
    "query",
    "status",
    "registration",
    "refresh",
    "release",
    "response",
    "request",
    "message",
    "positive",
    "negative",
    "retarget",
    "keepalive",
    "unique",
    "group",
    "broadcast",
    "error",
    "find",
    "found",
    "missing",
];

/// The words that the packet of this name takes, if there is one.
///
/// The words are our choice.
pub fn fields_of(what: &str) -> Option<&'static [Field]>
    ensures { option_map (λ fields. map (λ field. field.1) fields.now) result
        ≡ kinds_of what.now }
{
    match what {
        "query" | "status" => Some(&[ID, NAME]),
        "registration" | "refresh" => Some(&[ID, NAME, TTL, FLAGS, ADDRESS]),
        "release" => Some(&[ID, NAME, FLAGS, ADDRESS]),
        "response" => Some(&[ID, WORD, NAME, TYPE, TTL, RDATA]),
        "request" => Some(&[CALLED, CALLING]),
        "message" => Some(&[HEX]),
        "positive" | "keepalive" => Some(&[]),
        "negative" => Some(&[CODE]),
        "retarget" => Some(&[ADDRESS, PORT]),
        "unique" | "group" | "broadcast" => Some(&[KEY, SOURCE, DESTINATION, HEX, MOST]),
        "error" => Some(&[KEY, CODE]),
        "find" | "found" | "missing" => Some(&[KEY, NAME]),
        _ => None,
    }
}
