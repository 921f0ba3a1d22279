//! The limits of the command line (our choice), each with the texts that say it.

/// The most keys that `--keys` and `--per-source` may say.
pub const MOST_KEYS: u64 = 65_535;

/// How many keys a table may hold where `--keys` isn't given.
pub const KEYS: u64 = 1_024;

/// The same, as words of a command line have it.
pub const KEYS_WORD: &str = "1024";

/// The most bytes that `--input-limit` may say.
pub const MOST_INPUT: u64 = 18_446_744_073_709_551_615;

/// What the help says of `--keys`.
pub const KEYS_HELP: &str = "How many keys a table may hold, 1 to 65535";

/// What the help says of `--per-source`.
pub const PER_SOURCE_HELP: &str =
    "How many keys of one address a table may hold, 1 to 65535; no limit if not given";

/// What the help says of `--input-limit`.
pub const INPUT_HELP: &str =
    "How many bytes the input may have, 1 to 18446744073709551615; 16777216 if not given";

/// What to do where there are more names than a station holds.
pub const NAMES_ADVICE: &str =
    "a station has at most 254 names: replay the capture again for the others, as by `nbt replay \
     'FRED<20>'`";

/// What to do where there are more keys than `--keys`.
pub const FULL_ADVICE: &str =
    "more keys than --keys allows: allow more, as in `--keys 65535`, or have a tick each second in \
     the capture";

/// What to do where memory ran out.
pub const MEMORY_ADVICE: &str =
    "memory ran out: allow fewer keys, as in `--keys 1024`, or save the capture in parts and merge \
     them";
