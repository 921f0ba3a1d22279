//! The numbers that calls answer. Each stands for one thing, in all versions, and has its words.
//!
//! Where a text, a name or a saved table has a role, as a source's name, the number is that of the
//! fault of one without a role, and that of the role.
ghost use Rattle.std.specs.Prelude.{◌≡◌, map, option_map};
ghost use Rattle.nb_calls.specs.Statuses.{status_word, word_beside};

/// No role: a text, a name or a saved table that is the only one of its call, or the first.
pub const NO_ROLE: u32 = 0;
/// The role of a source's text.
pub const SOURCE_TEXT: u32 = 2;
/// The role of a destination's text.
pub const DESTINATION_TEXT: u32 = 4;
/// The role of a source's name.
pub const SOURCE: u32 = 10;
/// The role of a destination's name.
pub const DESTINATION: u32 = 20;
/// The role of the second of two saved tables.
pub const SECOND: u32 = 10;

/// Done.
pub const DONE: u32 = 0;

pub(crate) const NO_ROOM: u32 = 1;

pub(crate) const NO_MEMORY: u32 = 2;

pub(crate) const BAD_TEXT: u32 = 10;

pub(crate) const LONG_TEXT: u32 = 11;

pub(crate) const NAME_TRUNCATED: u32 = 20;

pub(crate) const NAME_RESERVED_LABEL: u32 = 21;

pub(crate) const NAME_POINTER: u32 = 22;

pub(crate) const NAME_LONG: u32 = 23;

pub(crate) const NAME_NOT_NETBIOS: u32 = 24;

pub(crate) const NAME_TRAILING_BYTES: u32 = 25;

pub(crate) const NAME_BAD_POINTER: u32 = 26;

pub(crate) const TRUNCATED: u32 = 50;

pub(crate) const UNKNOWN_TYPE: u32 = 51;

pub(crate) const MORE: u32 = 52;

pub(crate) const RESERVED_FLAGS: u32 = 53;

pub(crate) const BAD_LENGTH: u32 = 54;

pub(crate) const TRAILING_BYTES: u32 = 55;

pub(crate) const NAME_RDATA: u32 = 56;

pub(crate) const NO_ITEM: u32 = 57;

pub(crate) const OTHER_RDATA: u32 = 58;

pub(crate) const NO_PART: u32 = 59;

pub(crate) const UNKNOWN_REQUEST: u32 = 60;

pub(crate) const ZERO_PIECE: u32 = 61;

pub(crate) const LONG_DATA: u32 = 62;

pub(crate) const TABLE_BAD_MAGIC: u32 = 70;

pub(crate) const TABLE_TRUNCATED: u32 = 71;

pub(crate) const TABLE_NOT_CANONICAL: u32 = 72;

pub(crate) const TABLE_LONG: u32 = 73;

pub(crate) const TABLE_FULL_SOURCE: u32 = 74;

pub(crate) const TABLE_FULL: u32 = 75;

pub(crate) const MISPLACED_FIRST: u32 = 90;

pub(crate) const LONG: u32 = 91;

pub(crate) const FULL_SOURCE: u32 = 92;

pub(crate) const FULL: u32 = 93;

pub(crate) const NAME_PRESENT: u32 = 100;

pub(crate) const TOO_MANY_NAMES: u32 = 101;
/// No station.
pub const NO_STATION: u32 = 102;

pub(crate) const OTHER_TYPE: u32 = 110;

pub(crate) const BAD_LINE: u32 = 120;

/// Unknown status.
pub const UNKNOWN_STATUS: u32 = 255;

/// Each status, and its words. In a role they begin with the words of the role.
pub(crate) const WORDS: [(u32, &str); 63] = [
    (DONE, "done"),
    (NO_ROOM, "no room"),
    (NO_MEMORY, "memory"),
    (BAD_TEXT, "bad text"),
    (LONG_TEXT, "text too long"),
    (SOURCE_TEXT + BAD_TEXT, "source: bad text"),
    (SOURCE_TEXT + LONG_TEXT, "source: text too long"),
    (DESTINATION_TEXT + BAD_TEXT, "destination: bad text"),
    (DESTINATION_TEXT + LONG_TEXT, "destination: text too long"),
    (NAME_TRUNCATED, "name: truncated"),
    (NAME_RESERVED_LABEL, "name: reserved label"),
    (NAME_POINTER, "name: pointer not allowed"),
    (NAME_LONG, "name: too long"),
    (NAME_NOT_NETBIOS, "name: not netbios"),
    (NAME_BAD_POINTER, "name: bad pointer"),
    (NAME_TRAILING_BYTES, "name: trailing bytes"),
    (SOURCE + NAME_TRUNCATED, "source name: truncated"),
    (SOURCE + NAME_RESERVED_LABEL, "source name: reserved label"),
    (SOURCE + NAME_POINTER, "source name: pointer not allowed"),
    (SOURCE + NAME_LONG, "source name: too long"),
    (SOURCE + NAME_NOT_NETBIOS, "source name: not netbios"),
    (SOURCE + NAME_BAD_POINTER, "source name: bad pointer"),
    (DESTINATION + NAME_TRUNCATED, "destination name: truncated"),
    (
        DESTINATION + NAME_RESERVED_LABEL,
        "destination name: reserved label",
    ),
    (
        DESTINATION + NAME_POINTER,
        "destination name: pointer not allowed",
    ),
    (DESTINATION + NAME_LONG, "destination name: too long"),
    (
        DESTINATION + NAME_NOT_NETBIOS,
        "destination name: not netbios",
    ),
    (
        DESTINATION + NAME_BAD_POINTER,
        "destination name: bad pointer",
    ),
    (TRUNCATED, "truncated"),
    (UNKNOWN_TYPE, "unknown type"),
    (MORE, "more bytes needed"),
    (RESERVED_FLAGS, "reserved flags"),
    (BAD_LENGTH, "bad length"),
    (TRAILING_BYTES, "trailing bytes"),
    (NAME_RDATA, "name rdata"),
    (NO_ITEM, "no item"),
    (OTHER_RDATA, "other rdata"),
    (NO_PART, "no part"),
    (UNKNOWN_REQUEST, "unknown request"),
    (ZERO_PIECE, "zero piece"),
    (LONG_DATA, "data too long"),
    (TABLE_BAD_MAGIC, "table: bad magic"),
    (TABLE_TRUNCATED, "table: truncated"),
    (TABLE_NOT_CANONICAL, "table: not canonical"),
    (TABLE_LONG, "table: too long"),
    (TABLE_FULL_SOURCE, "table: full source"),
    (TABLE_FULL, "table: full"),
    (SECOND + TABLE_BAD_MAGIC, "second table: bad magic"),
    (SECOND + TABLE_TRUNCATED, "second table: truncated"),
    (SECOND + TABLE_NOT_CANONICAL, "second table: not canonical"),
    (SECOND + TABLE_LONG, "second table: too long"),
    (SECOND + TABLE_FULL_SOURCE, "second table: full source"),
    (SECOND + TABLE_FULL, "second table: full"),
    (MISPLACED_FIRST, "misplaced first"),
    (LONG, "too long"),
    (FULL_SOURCE, "full source"),
    (FULL, "full"),
    (NAME_PRESENT, "name: present"),
    (TOO_MANY_NAMES, "too many names"),
    (NO_STATION, "no station"),
    (OTHER_TYPE, "other type"),
    (BAD_LINE, "bad line"),
    (UNKNOWN_STATUS, "unknown status"),
];

/// The words of a status, if it is one.
pub fn status_words(status: u32) -> Option<&'static str>
    ensures { option_map (λ words. words.now) result ≡ status_word status }
{
    words_beside(&WORDS, status)
}

/// The words beside a number, in the first row that has it.
fn words_beside(rows: &[(u32, &'static str)], number: u32) -> Option<&'static str>
    ensures { option_map (λ words. words.now) result
        ≡ word_beside (map (λ row. (row.0, row.1.now)) rows.now) number }
{
    rows.iter().find(|row| row.0 == number).map(|row| row.1)
}
