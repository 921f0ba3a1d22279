//! The numbers of operations and results, the words for these and for kinds of packets, and the
//! flags of a packet by their names.
ghost use Rattle.std.specs.Prelude.{◌≡◌, option_map};
ghost use Rattle.nb_telling.specs.Texts.{names_of};
ghost use Rattle.nb_text.specs.Words.{datagram_word, operation_word, query_word, rcode_word, session_word, is_set, names_set, packet_flags};

use bitflags::{Flag as Named, Flags};
use nb_datagram::{Kind, QueryKind, kind_name};
use nb_service::NmFlags;
use nb_telling::Flag;

// OPCODEs (RFC 1002 section 4.2.1.1). That 8 is a refresh too, and 15 the registration of a host of
// several addresses, is our choice.
pub const QUERY: u8 = 0;

pub const REGISTRATION: u8 = 5;

pub const RELEASE: u8 = 6;

pub const WACK: u8 = 7;

pub const REFRESH: u8 = 8;

pub const OTHER_REFRESH: u8 = 9;

pub const MULTI_HOMED: u8 = 15;

// RCODEs (RFC 1002 sections 4.2.6, 4.2.11 and 4.2.14).
pub const OK: u8 = 0;

pub const FMT_ERR: u8 = 1;

pub const SRV_ERR: u8 = 2;

pub const NAM_ERR: u8 = 3;

pub const IMP_ERR: u8 = 4;

pub const RFS_ERR: u8 = 5;

pub const ACT_ERR: u8 = 6;

pub const CFT_ERR: u8 = 7;

/// The name of an operation (RFC 1002 section 4.2.1.1).
pub fn operation_name(opcode: u8) -> Option<&'static str>
    ensures { option_map (λ name. name.now) result ≡ operation_word opcode }
{
    match opcode {
        QUERY => Some("query"),
        REGISTRATION => Some("registration"),
        RELEASE => Some("release"),
        WACK => Some("wack"),
        REFRESH | OTHER_REFRESH => Some("refresh"),
        _ => None,
    }
}

/// The name of a result.
pub fn rcode_name(rcode: u8) -> Option<&'static str>
    ensures { option_map (λ name. name.now) result ≡ rcode_word rcode }
{
    match rcode {
        OK => Some("ok"),
        FMT_ERR => Some("FMT_ERR"),
        SRV_ERR => Some("SRV_ERR"),
        NAM_ERR => Some("NAM_ERR"),
        IMP_ERR => Some("IMP_ERR"),
        RFS_ERR => Some("RFS_ERR"),
        ACT_ERR => Some("ACT_ERR"),
        CFT_ERR => Some("CFT_ERR"),
        _ => None,
    }
}

/// The word for a query packet of port 138.
pub fn query_name(kind: QueryKind) -> &'static str
    ensures { result.now ≡ query_word kind }
{
    match kind {
        QueryKind::Request => "find",
        QueryKind::Positive => "found",
        QueryKind::Negative => "missing",
    }
}

/// The word for an error packet of port 138.
pub const ERROR: &str = "error";

/// The word for packets of port 138 of a MSG_TYPE.
pub fn datagram_name(message_type: u8) -> Option<&'static str>
    ensures { option_map (λ name. name.now) result ≡ datagram_word message_type }
{
    match message_type {
        0x10 => Some(kind_name(Kind::Unique)),
        0x11 => Some(kind_name(Kind::Group)),
        0x12 => Some(kind_name(Kind::Broadcast)),
        0x13 => Some(ERROR),
        0x14 => Some(query_name(QueryKind::Request)),
        0x15 => Some(query_name(QueryKind::Positive)),
        0x16 => Some(query_name(QueryKind::Negative)),
        _ => None,
    }
}

// The words for packets of port 139, by TYPE (RFC 1002 section 4.3.1).
pub const MESSAGE: &str = "message";

pub const REQUEST: &str = "request";

pub const POSITIVE: &str = "positive";

pub const NEGATIVE: &str = "negative";

pub const RETARGET: &str = "retarget";

pub const KEEPALIVE: &str = "keepalive";

/// The word for packets of port 139 of a TYPE.
pub fn session_name(packet_type: u8) -> Option<&'static str>
    ensures { option_map (λ name. name.now) result ≡ session_word packet_type }
{
    match packet_type {
        0x00 => Some(MESSAGE),
        0x81 => Some(REQUEST),
        0x82 => Some(POSITIVE),
        0x83 => Some(NEGATIVE),
        0x84 => Some(RETARGET),
        0x85 => Some(KEEPALIVE),
        _ => None,
    }
}

/// The flags of a packet, and which of them are set in its flag word.
pub fn packet_flags_of(word: u16) -> [Flag; 5]
    ensures { names_of result ≡ names_set packet_flags word }
{
    [
        packet_flag(&NmFlags::FLAGS[0], word),
        packet_flag(&NmFlags::FLAGS[1], word),
        packet_flag(&NmFlags::FLAGS[2], word),
        packet_flag(&NmFlags::FLAGS[3], word),
        packet_flag(&NmFlags::FLAGS[4], word),
    ]
}

/// A flag of packets, and whether it is set in a word.
#[inline(always)]
fn packet_flag(flag: &Named<NmFlags>, word: u16) -> Flag
    ensures named { result.name.now ≡ flag.now.name.now }
    ensures set { result.is_set ≡ is_set word flag.now.value.0 }
{
    Flag {
        name: flag.name(),
        is_set: word & flag.value().bits() != 0,
    }
}
