//! What the program may say where it refuses, and what to do then.

use crate::advice::with_words;
use crate::limits::{FULL_ADVICE, MEMORY_ADVICE, NAMES_ADVICE};
use nb_building::BuildFault;
use nb_entries::LoadFault;
use nb_names::{NameFault, TextFault};
use nbt_command::Fault;

/// Why something is refused, and what to do then.
pub struct Refusal {
    /// The words, without what stands before a colon, and without the number after them.
    pub words: &'static str,
    /// What that number is called, after a space; empty where there is none.
    pub number: &'static str,
    /// The commands that may say it.
    pub by: &'static [&'static str],
    /// What it means, and what to do then.
    pub advice: &'static str,
}

/// What is said of a fault; nothing of options that are given together.
pub(crate) fn refusal_of(fault: Fault) -> Option<&'static Refusal> {
    let words = match fault {
        Fault::Arguments => return None,
        Fault::Text(fault) | Fault::Build(BuildFault::Text(_, fault)) => match fault {
            TextFault::BadText(_) => "bad text",
            TextFault::TooLong => "too long",
        },
        Fault::Name(NameFault::Truncated(_)) | Fault::Load(LoadFault::Truncated) => "truncated",
        Fault::Name(NameFault::ReservedLabel(_)) => "reserved label",
        Fault::Name(NameFault::PointerNotAllowed(_)) => "pointer not allowed",
        Fault::Name(NameFault::BadPointer(_)) => "bad pointer",
        Fault::Name(NameFault::NotNetbios(_)) => "not netbios",
        Fault::Name(NameFault::TooLong(_)) | Fault::Build(BuildFault::TooLong) => "too long",
        Fault::Load(LoadFault::TooLong) | Fault::TooLong => "too long",
        Fault::Build(BuildFault::What | BuildFault::Count | BuildFault::Word(_)) => "arguments",
        Fault::Build(BuildFault::ZeroPiece) => "zero piece",
        Fault::Load(LoadFault::BadMagic) => "bad magic",
        Fault::Load(LoadFault::NotCanonical(_)) => "not canonical",
        Fault::Load(LoadFault::FullSource) | Fault::FullSource => "full source",
        Fault::Load(LoadFault::Full) | Fault::Full => "full",
        Fault::BadHex => "bad hex",
        Fault::TrailingBytes(_) => "trailing bytes",
        Fault::Line(_) => "line",
        Fault::TooManyNames => "too many names",
        Fault::NoTables => "no tables",
        Fault::TwoTablesWanted => "two tables wanted",
        Fault::Read => "read",
        Fault::Write => "write",
        Fault::Build(BuildFault::Memory) | Fault::Load(LoadFault::NoMemory) | Fault::Memory => {
            "memory"
        }
    };
    with_words(&REFUSALS, words)
}

/// All commands.
const EACH: [&str; 8] = [
    "name", "show", "build", "replay", "save", "merge", "list", "agree",
];

/// All refusals, those of packets first. No two have the same words.
pub const REFUSALS: [Refusal; 29] = [
    Refusal {
        words: "truncated",
        number: " AT",
        by: &["name", "show", "replay", "merge", "list", "agree"],
        advice: "the bytes end inside a packet, name or table: capture whole packets, as by \
                 `tcpdump -s 0`, or save the table again",
    },
    Refusal {
        words: "unknown type",
        number: "",
        by: &["show", "replay"],
        advice: "the first byte is none of the port's types, such as 85 of port 139: other \
                 traffic, or a stream that was cut inside a packet",
    },
    Refusal {
        words: "reserved flags",
        number: "",
        by: &["show"],
        advice: "the second byte has a bit that no session packet has: cut the stream where a \
                 packet begins, as `139 0 85000000` does",
    },
    Refusal {
        words: "bad length",
        number: "",
        by: &["show"],
        advice: "bytes 2 and 3 are a length that no packet of this type has: cut the stream where \
                 one begins, as `139 0 85000000` does",
    },
    Refusal {
        words: "reserved label",
        number: " AT",
        by: &["name", "show", "replay"],
        advice: "byte AT is no length of a label: other traffic, or a later piece of a datagram \
                 that was cut by RFC 1002, section 5.3",
    },
    Refusal {
        words: "bad pointer",
        number: " AT",
        by: &["show"],
        advice: "the pointer leads forward or to itself, not back as c00c does: leave the packet \
                 out, its sender is broken or hostile",
    },
    Refusal {
        words: "pointer not allowed",
        number: " AT",
        by: &["name", "show", "replay"],
        advice: "a pointer stands where a name is spelled out: spell it as `nbt name 'FRED<20>'` \
                 prints it",
    },
    Refusal {
        words: "not netbios",
        number: " AT",
        by: &["name", "show", "replay"],
        advice: "byte AT of the name is wrong: a NetBIOS name is 20 and 32 letters A to P, as `nbt \
                 name 'FRED<20>'` prints it; perhaps other traffic",
    },
    Refusal {
        words: "name rdata",
        number: " AT",
        by: &["show"],
        advice: "the name in an NS record ends before or after the record's data: leave the packet \
                 out, its sender is broken or hostile",
    },
    Refusal {
        words: "trailing bytes",
        number: " AT",
        by: &["name", "show"],
        advice: "bytes follow the name of a spelling, or the two names of a session request: leave \
                 out the bytes from AT on",
    },
    Refusal {
        words: "misplaced first",
        number: "",
        by: &["replay"],
        advice: "the flag F (02) is clear at offset 0, or set at another: `nbt show` prints flags \
                 and offset; set F at offset 0 alone",
    },
    Refusal {
        words: "unheard",
        number: "",
        by: &["replay"],
        advice: "the station has no name that is the destination's: give it, in the same case, as \
                 `nbt show` prints it: destination=FRED<20>",
    },
    Refusal {
        words: "too long",
        number: " AT",
        by: &["name", "show", "build", "replay"],
        advice: "more than 15 characters before `<20>`, 63 in a label or 222 in a scope, or more \
                 than 65535 bytes in a datagram: shorten it",
    },
    Refusal {
        words: "bad text",
        number: " AT",
        by: &["name", "build", "replay"],
        advice: "invalid at character AT: a name ends with its last byte, as in 'FRED<20>', and \
                 a space is \\20",
    },
    Refusal {
        words: "too many names",
        number: "",
        by: &["replay"],
        advice: NAMES_ADVICE,
    },
    Refusal {
        words: "bad hex",
        number: "",
        by: &["name"],
        advice: "no spelling in hexadecimal: give two digits a byte, 0 to 9 and a to f, as `nbt \
                 name 'FRED<20>'` prints them",
    },
    Refusal {
        words: "arguments",
        number: "",
        by: &["show", "build"],
        advice: "the words make no packet, as `nbt build query 0003 'FRED<20>'` does: see `nbt \
                 build --help`; of --brief and --partial give one",
    },
    Refusal {
        words: "zero piece",
        number: "",
        by: &["build"],
        advice: "MOST, how many bytes of data a fragment has at most, is 0: give 1 or more, such \
                 as 512",
    },
    Refusal {
        words: "line",
        number: " N",
        by: &["show", "replay", "save", "merge", "list", "agree"],
        advice: "no line of a capture, as `138 0 00ff` and `tick 1` are, or no table of `nbt \
                 save`: leave out \\r; nbt-look --lines makes lines of a pcap",
    },
    Refusal {
        words: "bad magic",
        number: "",
        by: &["merge", "list", "agree"],
        advice: "it isn't a saved table: `nbt save <capture` prints one, which begins with \
                 4e425432",
    },
    Refusal {
        words: "not canonical",
        number: " AT",
        by: &["merge", "list", "agree"],
        advice: "the saved table was changed: save it again, as in `nbt save <capture >table`",
    },
    Refusal {
        words: "no tables",
        number: "",
        by: &["merge", "list"],
        advice: "the input is empty: give it saved tables, as in `cat one other | nbt merge`",
    },
    Refusal {
        words: "two tables wanted",
        number: "",
        by: &["agree"],
        advice: "the input doesn't have exactly two lines: give it two tables, as in `cat one \
                 other | nbt agree`",
    },
    Refusal {
        words: "full",
        number: "",
        by: &["replay", "save", "merge", "list"],
        advice: FULL_ADVICE,
    },
    Refusal {
        words: "full source",
        number: "",
        by: &["replay", "save", "merge", "list"],
        advice: "more keys of one address than --per-source allows: allow more, as in \
                 `--per-source 1024`, or leave the option out",
    },
    Refusal {
        words: "unexpected argument",
        number: "",
        by: &["show", "save", "merge", "list", "agree"],
        advice: "the command takes no such word: what it reads comes on standard input, as in `nbt \
                 show <capture`",
    },
    Refusal {
        words: "read",
        number: "",
        by: &EACH,
        advice: "the input can't be read, as a folder can't, or it is too long, or a word isn't \
                 UTF-8: allow more, as in `--input-limit 99999999`",
    },
    Refusal {
        words: "write",
        number: "",
        by: &EACH,
        advice: "standard output is full or closed: make room, or read it to its end, which `head` \
                 doesn't do",
    },
    Refusal {
        words: "memory",
        number: "",
        by: &EACH,
        advice: MEMORY_ADVICE,
    },
];
