//! What is said of packets of port 137 besides the name: a row for each packet, and its end.

ghost use Rattle.std.specs.Prelude.{◌≡◌, ◌==◌, ◌∷◌, []};
ghost use Rattle.nb_text.specs.Forms.{form_of, request_form, response_form, says};
ghost use Rattle.nb_text.specs.Said.{Adds};
ghost use Rattle.nb_text.specs.ServiceSaid.{addresses_said, ending_said, few_said, held_said, names_said, reason_said, reason_words, server_said, time_said, unit_said};
ghost use Rattle.nb_text.specs.Words.{is_set};

use crate::brief::gist::{Few, Gist, MOST_LISTED};
use crate::brief::pieces::{push_count, push_each, push_text};
use crate::words::{
    ACT_ERR, CFT_ERR, FMT_ERR, IMP_ERR, MULTI_HOMED, NAM_ERR, OK, OTHER_REFRESH, QUERY, REFRESH,
    REGISTRATION, RELEASE, RFS_ERR, SRV_ERR, WACK,
};
use bitflags::Flags;
use nb_names::{DomainName, push_domain};
use nb_service::kinds::{NBSTAT, NS};
use nb_service::limits::UNIT_ID_LENGTH;
use nb_service::{NmFlags, NodeFlags, opcode, rcode};
use nb_streams::{NoMemory, push_decimal, push_digits};

/// R of a flag word (RFC 1002 section 4.2.1.1): the packet is a response.
const RESPONSE: u16 = 0x8000;

/// What a phrase says after the name.
#[derive(Clone, Copy)]
pub enum Ending {
    /// Nothing.
    Nothing,
    /// For whom, and for how long.
    Claim,
    /// For whom.
    Holder,
    /// Where the name is.
    Found,
    /// Which names and which unit the node has.
    Status,
    /// Which name server knows the name.
    Server,
    /// That the name is not found, and why.
    NotFound,
    /// At which addresses.
    Place,
    /// Why not.
    Reason,
    /// For how long.
    Time,
    /// Which operation it is.
    Operation,
}

/// What stands before the name and after it, of a packet of RFC 1002 section 4.2, by its flag word
/// and the type of what it is about.
pub fn form_of(word: u16, kind: Option<u16>) -> (&'static str, Ending)
    ensures { says result.0.now result.1 ≡ form_of word kind }
{
    if word & RESPONSE == 0 {
        request_form(word, kind)
    } else {
        response_form(word, kind)
    }
}

/// The same of a request.
fn request_form(word: u16, kind: Option<u16>) -> (&'static str, Ending)
    ensures { says result.0.now result.1 ≡ request_form word kind }
{
    match opcode(word) {
        QUERY if kind == Some(NBSTAT) => ("asks for the node status of ", Ending::Nothing),
        QUERY => ("asks for ", Ending::Nothing),
        REGISTRATION if has(word, NmFlags::RD) => ("claims ", Ending::Claim),
        REGISTRATION => ("overwrites ", Ending::Claim),
        RELEASE => ("releases ", Ending::Holder),
        REFRESH | OTHER_REFRESH => ("refreshes ", Ending::Claim),
        MULTI_HOMED => ("claims as one of several addresses ", Ending::Claim),
        _ => ("makes another request about ", Ending::Operation),
    }
}

/// The same of a response.
fn response_form(word: u16, kind: Option<u16>) -> (&'static str, Ending)
    ensures { says result.0.now result.1 ≡ response_form word kind }
{
    let good = rcode(word) == OK;
    let asks = has(word, NmFlags::RD) && !has(word, NmFlags::RA);
    match opcode(word) {
        QUERY if !good => ("answers: ", Ending::NotFound),
        QUERY if kind == Some(NBSTAT) => ("answers: ", Ending::Status),
        QUERY if kind == Some(NS) => ("answers: ", Ending::Server),
        QUERY => ("answers: ", Ending::Found),
        REGISTRATION if rcode(word) == CFT_ERR => ("conflict about ", Ending::Nothing),
        REGISTRATION if good && asks => ("asks to challenge ", Ending::Place),
        RELEASE if good => ("grants the release of ", Ending::Nothing),
        RELEASE => ("refuses the release of ", Ending::Reason),
        WACK => ("asks to wait for ", Ending::Time),
        REGISTRATION | REFRESH | OTHER_REFRESH | MULTI_HOMED if good => ("grants ", Ending::Claim),
        REGISTRATION | REFRESH | OTHER_REFRESH | MULTI_HOMED => ("refuses ", Ending::Reason),
        _ => ("makes another response about ", Ending::Operation),
    }
}

/// Whether a flag is set in a flag word.
fn has(word: u16, flag: NmFlags) -> bool
    ensures { result ≡ is_set word flag.0 }
{
    word & flag.bits() != 0
}

/// Adds what stands after the name, of a packet of this flag word whose records tell so much.
pub fn push_ending(
    ending: Ending,
    word: u16,
    told: &Gist,
    text: &mut String,
) -> Result<(), NoMemory>
    ensures { Adds result text.old text.new (ending_said ending word told.now) }
{
    match ending {
        Ending::Nothing => Ok(()),
        Ending::Claim => {
            push_held(" as a group for ", " for ", told, text)?;
            push_time(told.ttl, text)
        }
        Ending::Holder => push_held(" as a group for ", " for ", told, text),
        Ending::Found => push_held(" is a group at ", " is at ", told, text),
        Ending::Status => {
            push_names(&told.listed, text)?;
            push_unit(told.unit, text)
        }
        Ending::Server => {
            push_text(" is known to ", text)?;
            push_server(&told.server, text)?;
            push_addresses(" at ", &told.listed, text)
        }
        Ending::Place => push_addresses(" at ", &told.listed, text),
        Ending::NotFound => {
            push_text(" is not found", text)?;
            push_reason(word, text)
        }
        Ending::Reason => push_reason(word, text),
        Ending::Time => push_time(told.ttl, text),
        Ending::Operation => {
            push_text(", operation ", text)?;
            push_decimal(u64::from(opcode(word)), text)
        }
    }
}

/// Adds the addresses, after what is said of a group or of one node (G of RFC 1002 sections 4.2.13
/// and 4.2.18).
fn push_held(group: &str, one: &str, told: &Gist, text: &mut String) -> Result<(), NoMemory>
    ensures { Adds result text.old text.new (held_said group.now one.now told.now) }
{
    let lead = match told.flags {
        Some(flags) if flags & NodeFlags::G.bits() != 0 => group,
        _ => one,
    };
    push_addresses(lead, &told.listed, text)
}

/// Adds for how long, if that is known.
fn push_time(ttl: Option<u32>, text: &mut String) -> Result<(), NoMemory>
    ensures { Adds result text.old text.new (time_said ttl) }
{
    match ttl {
        Some(ttl) => push_count(", for ", u64::from(ttl), " s", text),
        None => Ok(()),
    }
}

/// Adds the addresses that are listed.
fn push_addresses(lead: &str, listed: &Few, text: &mut String) -> Result<(), NoMemory>
    ensures { Adds result text.old text.new (lead.now ∷ addresses_said listed.now) }
{
    push_text(lead, text)?;
    if listed.count == 0 {
        return push_text("no address", text);
    }
    push_few(listed, text)
}

/// Adds the first ones of what is listed, and how many more there are.
fn push_few(listed: &Few, text: &mut String) -> Result<(), NoMemory>
    ensures { Adds result text.old text.new (few_said listed.now) }
{
    push_each(listed.first.as_slice(), text)?;
    if listed.count > MOST_LISTED as u64 {
        return push_count(" and ", listed.count - MOST_LISTED as u64, " more", text);
    }
    Ok(())
}

/// Adds the names of a node.
fn push_names(listed: &Few, text: &mut String) -> Result<(), NoMemory>
    ensures { Adds result text.old text.new (names_said listed.now) }
{
    if listed.count == 0 {
        return push_text(" has no names", text);
    }
    push_count(" has ", listed.count, " names: ", text)?;
    push_few(listed, text)
}

/// Adds the unit of a node, if that is known.
fn push_unit(unit: Option<[u8; UNIT_ID_LENGTH]>, text: &mut String) -> Result<(), NoMemory>
    ensures { Adds result text.old text.new (unit_said unit) }
{
    match unit {
        Some(unit) => {
            push_text(", unit ", text)?;
            push_digits(&unit, text)
        }
        None => Ok(()),
    }
}

/// Adds the name of a name server.
fn push_server(server: &Option<DomainName>, text: &mut String) -> Result<(), NoMemory>
    ensures { Adds result text.old text.new (server_said server.now ∷ []) }
{
    match server {
        Some(server) => push_domain(text, &server.lent()),
        None => push_text("no name", text),
    }
}

/// Adds what RCODE says (RFC 1002 sections 4.2.6, 4.2.11 and 4.2.14).
fn push_reason(word: u16, text: &mut String) -> Result<(), NoMemory>
    ensures { Adds result text.old text.new (reason_said word) }
{
    push_text(": ", text)?;
    push_text(reason_words(rcode(word)), text)
}

/// What RCODE says, in words.
fn reason_words(rcode: u8) -> &'static str
    ensures { result.now ≡ reason_words rcode }
{
    match rcode {
        FMT_ERR => "wrong form (FMT_ERR)",
        SRV_ERR => "server failure (SRV_ERR)",
        NAM_ERR => "no such name (NAM_ERR)",
        IMP_ERR => "not supported (IMP_ERR)",
        RFS_ERR => "refused by policy (RFS_ERR)",
        ACT_ERR => "owned by another node (ACT_ERR)",
        CFT_ERR => "in conflict (CFT_ERR)",
        _ => "unknown error",
    }
}
