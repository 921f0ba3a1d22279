//! What the command line asks for, as values.
ghost use Rattle.std.specs.Prelude.{◌≡◌, ◌++◌, ◌∷◌, IfSome};
ghost use Rattle.std.specs.Net.Grammar.{IsIpText};
ghost use Rattle.core.specs.Str.Parse.{digits_value, without_leading_plus};
ghost use Rattle.nbt_look.specs.Asking.{MeansPrefix, form_of, in_utc, slash, width_of};

use crate::asked::{Asked, Form, Layout, Times};
use crate::kinds::{Kind, kind_of};
use crate::wanted::{Filter, Prefix};
use clap::ArgMatches;
use nb_streams::{Bytes, Items, NoMemory};
use std::alloc::Global;
use std::net::IpAddr;
use std::str;

/// Why a word of `--host` asks for nothing.
const NO_HOST: &str = "no address: give one such as 10.0.0.5, or a network as 10.0.0.0/8";

/// Why a word of `--kind` does.
const NO_KIND: &str = "no kind: give query, status, registration, refresh, release, wack, \
response, conflict, datagram, unique, group, broadcast, fragment, error, find, found, missing, \
session, request, retarget, message, keepalive, positive, negative, malformed or left-out";

/// Why a word of `--time` does.
const NO_TIME: &str = "no way to show times: give start, or utc";

/// Why a word of `--color` does.
const NO_COLOUR: &str = "no way to choose colours: give auto, always, or never";

/// Why the options of two forms do.
const NO_BOTH: &str = "it goes without --json: give one of them";

/// Why the options of a form do that isn't asked for.
const NO_LINES: &str = "they go with --lines";

/// Why the words of a command line ask for nothing.
pub enum AskFault<'a> {
    /// This word does, for this reason.
    Word(&'a str, &'static str),
    /// Memory ran out.
    NoMemory,
}

impl From<NoMemory> for AskFault<'_> {
    fn from(_fault: NoMemory) -> Self {
        AskFault::NoMemory
    }
}

/// What the options ask of the list, whose output is plain or takes colours.
///
/// # Errors
///
/// [`AskFault::Word`] for the first word that is no address and no prefix, no kind, or none of the
/// words of its option, and [`AskFault::NoMemory`] where memory ran out.
pub fn asked_of<'a>(
    alloc: Global,
    matches: &ArgMatches<'a>,
    is_plain: bool,
) -> Result<Asked, AskFault<'a>> {
    let wanted = Filter {
        names: names_of(alloc, matches.get_strs("name").unwrap_or(&[]))?,
        hosts: hosts_of(alloc, matches.get_strs("host").unwrap_or(&[]))?,
        ports: ports_of(alloc, matches.get_strs("port").unwrap_or(&[]))?,
        kinds: kinds_of(alloc, matches.get_strs("kind").unwrap_or(&[]))?,
        most: matches.get_one("count"),
    };
    let times = match matches.get_str("time").unwrap_or("start") {
        "start" => Times::Since,
        "utc" => Times::Utc,
        word => return Err(AskFault::Word(word, NO_TIME)),
    };
    let word = matches.get_str("color").unwrap_or("auto");
    let Some(form) = form_of(word, is_plain) else {
        return Err(AskFault::Word(word, NO_COLOUR));
    };
    if let Some(other) = other_form(matches)? {
        return Ok(in_utc(wanted, other, matches.get_flag("quiet")));
    }
    Ok(Asked {
        wanted,
        times,
        form,
        has_counts: true,
    })
}

/// The form that `--json` or `--lines` asks for, where one of them is given.
fn other_form<'a>(matches: &ArgMatches<'_>) -> Result<Option<Form>, AskFault<'a>> {
    let layout = Layout {
        is_bare: matches.get_flag("bare"),
        has_ticks: !matches.get_flag("no-ticks"),
        has_cut: matches.get_flag("cut"),
    };
    match (matches.get_flag("lines"), matches.get_flag("json")) {
        (true, true) => Err(AskFault::Word("--lines", NO_BOTH)),
        (true, false) => Ok(Some(Form::Capture(layout))),
        (false, _) if layout.is_bare || !layout.has_ticks || layout.has_cut => {
            Err(AskFault::Word("--bare, --no-ticks, --cut", NO_LINES))
        }
        (false, true) => Ok(Some(Form::Objects)),
        (false, false) => Ok(None),
    }
}

/// What is asked where packets are shown in a form whose times are in UTC, with counts or not.
fn in_utc(wanted: Filter, form: Form, is_quiet: bool) -> Asked
    ensures { result ≡ in_utc wanted form is_quiet }
{
    Asked {
        wanted,
        times: Times::Utc,
        form,
        has_counts: !is_quiet,
    }
}

/// How lines are shown where `--color` has this word, on an output that is plain, or one that
/// isn't; none where it is no such word.
fn form_of(word: &str, is_plain: bool) -> Option<Form>
    ensures { result ≡ form_of word.now is_plain }
{
    match word {
        "auto" if is_plain => Some(Form::Lines),
        "auto" | "always" => Some(Form::Colours),
        "never" => Some(Form::Lines),
        _ => None,
    }
}

/// The names that these words are.
fn names_of<'a>(alloc: Global, words: &[&'a str]) -> Result<Items<Bytes>, AskFault<'a>> {
    let mut names = Items::from_vec(Vec::new(alloc));
    for word in words {
        names.push(Bytes::copy(alloc, word.as_bytes())?)?;
    }
    Ok(names)
}

/// The hosts that these words mean.
fn hosts_of<'a>(alloc: Global, words: &[&'a str]) -> Result<Items<Prefix>, AskFault<'a>> {
    let mut hosts = Items::from_vec(Vec::new(alloc));
    for word in words {
        match prefix_of(word.as_bytes()) {
            Some(prefix) => hosts.push(prefix)?,
            None => return Err(AskFault::Word(*word, NO_HOST)),
        }
    }
    Ok(hosts)
}

/// The ports that these words mean, which are numbers of sixteen bits.
fn ports_of<'a>(alloc: Global, words: &[&'a str]) -> Result<Items<u16>, AskFault<'a>> {
    let mut ports = Items::from_vec(Vec::new(alloc));
    for word in words {
        if let Ok(port) = word.parse() {
            ports.push(port)?;
        }
    }
    Ok(ports)
}

/// The kinds that these words name, each with commas between them.
fn kinds_of<'a>(alloc: Global, words: &[&'a str]) -> Result<Items<Kind>, AskFault<'a>> {
    let mut kinds = Items::from_vec(Vec::new(alloc));
    for word in words {
        add_kinds(word, &mut kinds)?;
    }
    Ok(kinds)
}

/// Adds the kinds that a word names.
fn add_kinds<'a>(words: &'a str, kinds: &mut Items<Kind>) -> Result<(), AskFault<'a>> {
    for word in words.split(',') {
        match kind_of(word) {
            Some(kind) => kinds.push(kind)?,
            None => return Err(AskFault::Word(word, NO_KIND)),
        }
    }
    Ok(())
}

/// The addresses that a word means: one, or after `/` how many of its first bits they have.
fn prefix_of(word: &[u8]) -> Option<Prefix>
    ensures { IfSome result (MeansPrefix word.now) }
{
    match at_slash(word) {
        None => {
            let start = address_of(word)?;
            Some(Prefix {
                start,
                bits: width_of(start),
            })
        }
        Some((address, count)) => {
            let start = address_of(address)?;
            let bits = count_of(count)?;
            if width_of(start) < bits {
                return None;
            }
            Some(Prefix { start, bits })
        }
    }
}

/// What stands before the first slash, and what after it.
fn at_slash(word: &[u8]) -> Option<(&[u8], &[u8])>
    ensures { IfSome result (λ parts. word.now ≡ parts.0.now ++ slash ∷ parts.1.now) }
{
    let at = word.iter().position(|byte| *byte == b'/')?;
    Some((&word[..at], &word[at + 1..]))
}

/// The address that a word means.
fn address_of(word: &[u8]) -> Option<IpAddr>
    ensures { IfSome result (IsIpText word.now) }
{
    IpAddr::parse_ascii(word).ok()
}

/// The number of at most eight bits that decimal digits mean.
fn count_of(digits: &[u8]) -> Option<u8>
    ensures { IfSome result (λ count. digits_value 10 (without_leading_plus digits.now) ≡ count) }
{
    str::from_utf8(digits).ok()?.parse().ok()
}

/// How many bits an address of this version has.
fn width_of(address: IpAddr) -> u8
    ensures { result ≡ width_of address }
{
    match address {
        IpAddr::V4(_) => 32,
        IpAddr::V6(_) => 128,
    }
}
