//! The program's command line.
ghost use Rattle.std.specs.Prelude.{◌≡◌, IfOk, codes, false};
ghost use Rattle.clap.specs.Words.{app_of, new_app, rule_of};
ghost use Rattle.nbt_look.specs.CommandLine.{count_rule, files_rule, flag_rule, look_app, once_rule, port_rule, read_rule, repeated_rule};

use clap::builder::ValueParser;
use clap::{Arg, ArgAction, Command};
use std::alloc::{AllocError, Global};

/// The program's version, as `--version` prints it.
const VERSION: &str = "0.1.0";

/// What stands after the help.
const AFTER: &str = "\
A line for each packet of ports 137 and 138 of UDP and of port 139 of TCP: frame, time, from, to, \
what it says; a packet of several segments or fragments of IP stands where the last of them came. \
The last lines count frames, packets, those that are malformed, and what is left out, by reason. \
A port is shown where it isn't the service's own, and %eth1 after a sender where a packet came by \
another interface than the first one.

Kinds of port 137: query, status (of a node), registration, refresh, release, wack, each with its \
answers; response, any answer; conflict, which refuses a name that another station has, or says \
that one is in conflict. Of port 138: datagram, for unique, group and broadcast; fragment, a piece \
of one; error, find, found, missing. Of port 139: session, any packet; request, retarget, message, \
keepalive. Of all: positive and negative, answers; malformed; left-out.

Live: tcpdump --immediate-mode -U -w - -i eth0 'port 137 or 138 or 139' | nbt-look -

Exit status: 0 all was read; 1 the file is no capture file or ends early, and what stands before \
is shown; 2 the command line was bad; 3 the file can't be opened, a read or a write failed, or \
memory ran out.";

/// The command line: `[--quiet] [--name TEXT].. [--host ADDRESS].. [--port PORT]..
/// [--kind KIND,..].. [-c N] [--time WHEN] [--color WHEN] [--json] [--lines] [--bare] [--no-ticks]
/// [--cut] [-r FILE].. [FILE]..`.
///
/// # Errors
///
/// `AllocError` where memory ran out.
pub fn command<'a>(alloc: Global) -> Result<Command<'a>, AllocError>
    ensures { IfOk result (λ command. app_of command ≡ look_app) }
{
    let top = described(alloc).version(VERSION);
    let quiet = top.arg(flag(alloc, "quiet", QUIET))?;
    let name = quiet.arg(repeated(alloc, "name", "TEXT", NAME))?;
    let host = name.arg(repeated(alloc, "host", "ADDRESS", HOST))?;
    let port = host.arg(port_option(alloc))?;
    let kind = port.arg(repeated(alloc, "kind", "KIND,..", KIND))?;
    let count = kind.arg(count_option(alloc))?;
    let time = count.arg(once(alloc, "time", "WHEN", TIME))?;
    let colour = time.arg(once(alloc, "color", "WHEN", COLOUR))?;
    let json = colour.arg(flag(alloc, "json", JSON))?;
    let lines = json.arg(flag(alloc, "lines", LINES))?;
    let bare = lines.arg(flag(alloc, "bare", BARE))?;
    let ticks = bare.arg(flag(alloc, "no-ticks", NO_TICKS))?;
    let cut = ticks.arg(flag(alloc, "cut", CUT))?;
    let read = cut.arg(read_option(alloc))?;
    let whole = read.arg(file_words(alloc))?;
    Ok(whole)
}

/// What the help says of each option.
const QUIET: &str = "No progress, which the list has none of, and with --json or --lines no counts";

const NAME: &str = "Packets with this name: FRED, or 'FRED<20>' of one kind; several may be given";

const HOST: &str =
    "Packets from or to this address, or this network as 10.0.0.0/8; several may be given";

const KIND: &str = "Packets of these kinds, of those below";

const TIME: &str = "Times: start, in seconds since the first frame, or utc";

const COLOUR: &str = "Colours: auto, on a terminal unless NO_COLOR is set, always, or never";

const JSON: &str = "A JSON object for each packet, and one with the counts; times are in UTC";

const LINES: &str = "The text of a capture, which nbt reads: a comment and a line for each packet";

const BARE: &str = "With --lines, no comment before each payload";

const NO_TICKS: &str = "With --lines, no ticks: for a table of all of it, by nbt save or nbt-dask";

const CUT: &str =
    "With --lines, payloads too that the snap length cut, as far as the file has them";

/// The command with the texts before and after its help, and no argument.
fn described<'a>(alloc: Global) -> Command<'a>
    ensures { app_of result ≡ new_app (codes "nbt-look") }
{
    Command::new(alloc, "nbt-look")
        .about("The NetBIOS packets of a capture file, a line for each, in words")
        .after_help(AFTER)
}

/// An option without a value.
fn flag<'a>(alloc: Global, name: &'a str, help: &'a str) -> Arg<'a>
    ensures rule { rule_of result ≡ flag_rule name.entry.now }
    ensures local { result.global ≡ false }
{
    Arg::new(alloc, name)
        .long(name)
        .help(help)
        .action(ArgAction::SetTrue)
}

/// An option with a value, which may be given once.
fn once<'a>(alloc: Global, name: &'a str, value: &'a str, help: &'a str) -> Arg<'a>
    ensures rule { rule_of result ≡ once_rule name.entry.now }
    ensures local { result.global ≡ false }
{
    Arg::new(alloc, name)
        .long(name)
        .value_name(value)
        .help(help)
        .action(ArgAction::Set)
}

/// An option with a value, which may be given several times.
fn repeated<'a>(alloc: Global, name: &'a str, value: &'a str, help: &'a str) -> Arg<'a>
    ensures rule { rule_of result ≡ repeated_rule name.entry.now }
    ensures local { result.global ≡ false }
{
    Arg::new(alloc, name)
        .long(name)
        .value_name(value)
        .help(help)
        .action(ArgAction::Append)
}

/// The option `--port PORT`.
fn port_option<'a>(alloc: Global) -> Arg<'a>
    ensures rule { rule_of result ≡ port_rule }
    ensures local { result.global ≡ false }
{
    repeated(
        alloc,
        "port",
        "PORT",
        "Packets from or to this port; several may be given",
    )
    .value_parser(ValueParser::unsigned(0, 65535))
}

/// The option `-c N`.
fn count_option<'a>(alloc: Global) -> Arg<'a>
    ensures rule { rule_of result ≡ count_rule }
    ensures local { result.global ≡ false }
{
    Arg::new(alloc, "count")
        .short('c')
        .value_name("N")
        .help("The first N packets, after which nothing more is read")
        .value_parser(ValueParser::unsigned(1, u64::MAX))
        .action(ArgAction::Set)
}

/// The option `-r FILE`.
fn read_option<'a>(alloc: Global) -> Arg<'a>
    ensures rule { rule_of result ≡ read_rule }
    ensures local { result.global ≡ false }
{
    Arg::new(alloc, "read")
        .short('r')
        .value_name("FILE")
        .help("The same as FILE")
        .action(ArgAction::Append)
}

/// The words FILE.
fn file_words<'a>(alloc: Global) -> Arg<'a>
    ensures rule { rule_of result ≡ files_rule }
    ensures local { result.global ≡ false }
{
    Arg::new(alloc, "FILE")
        .help(
            "Pcap or pcapng files, several of which are one capture, their frames in the order of \
their times, and numbered so; or - for standard input",
        )
        .num_args(0..)
        .action(ArgAction::Append)
}
