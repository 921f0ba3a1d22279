//! What a packet of port 137 says, where it is looked at alone.
ghost use Rattle.std.specs.Prelude.{◌≡◌, ◌++◌, ◌∷◌, [], OnOk, IfOk, Some, None, filter, map};
ghost use Rattle.nb_survey.specs.Sayings.{group_told, is_of_a_name, is_of_record, is_positive, is_wildcard, listed_word, of_entry, of_listed, of_name, of_record, said_at, sayings, word_from, worded};

use crate::heard::{Heard, Listed, Place, Said};
use crate::key::same_address;
use crate::word::{Word, word_of};
use nb_names::DomainName;
use nb_service::{AddressEntry, opcode, rcode};
use nb_streams::NoMemory;
use std::alloc::Global;
use std::net::{IpAddr, Ipv4Addr};

/// G of NB_FLAGS and of NAME_FLAGS (RFC 1002 sections 4.2.13 and 4.2.18): the name is a group's.
const GROUP: u16 = 0x8000;

/// CNF of NAME_FLAGS: the name is in conflict.
const CONFLICT: u16 = 0x0800;

/// ACT of NAME_FLAGS: the name is active.
const ACTIVE: u16 = 0x0400;

/// The letters of `*` and fifteen zero bytes.
const STAR_AND_ZEROS: &[u8] = b"CKAAAAAAAAAAAAAAAAAAAAAAAAAAAAAA";

/// The letters of `*`, fourteen spaces and a zero byte.
const STAR_AND_SPACES: &[u8] = b"CKCACACACACACACACACACACACACACAAA";

/// What a packet says of which names at which addresses, where it is looked at alone: a response to
/// a claim or a release of which no request is known is about the addresses in its record, or about
/// where it goes. The wildcard `*` is no name.
///
/// # Errors
///
/// [`NoMemory`] where memory ran out.
///
/// RFC 1002 sections 4.2.2 to 4.2.18.
pub fn say(alloc: Global, heard: &Heard) -> Result<Vec<Said>, NoMemory>
    ensures { IfOk result (λ said. said.items ≡ sayings heard.now) }
{
    let mut said = Vec::new(alloc);
    let Some(name) = &heard.name else {
        return Ok(said);
    };
    push_worded(&mut said, heard, name)?;
    drop_wildcards(&mut said);
    Ok(said)
}

/// Drops what is said of the wildcard.
fn drop_wildcards(said: &mut Vec<Said>)
    ensures { said.new.items ≡ filter is_of_a_name said.old.items }
{
    said.retain(|one| !is_wildcard(&one.place.name));
}

/// Whether a name is the wildcard, of any scope.
pub(crate) fn is_wildcard(name: &DomainName) -> bool
    ensures { result ≡ is_wildcard name.now }
{
    match name.label(0) {
        Some(label) => label == STAR_AND_ZEROS || label == STAR_AND_SPACES,
        None => false,
    }
}

/// Adds what a packet says of this name, and of those that it lists.
fn push_worded(said: &mut Vec<Said>, heard: &Heard, name: &DomainName) -> Result<(), NoMemory>
    ensures { OnOk result (said.new.items ≡ said.old.items
        ++ of_name heard.now (Some name.now)) }
{
    match word_of(heard.flags) {
        Some(word) => push_one_word(said, heard, name, word),
        None if is_positive(heard.flags) => {
            push_record(said, heard, name, Word::Answers)?;
            push_listed(said, heard)
        }
        None => Ok(()),
    }
}

/// Adds what a request says, or a response to a claim or a release.
fn push_one_word(
    said: &mut Vec<Said>,
    heard: &Heard,
    name: &DomainName,
    word: Word,
) -> Result<(), NoMemory>
    ensures { OnOk result (said.new.items ≡ said.old.items
        ++ worded heard.now name.now (Some word)) }
{
    let frame = heard.facts.frame;
    match word.asking() {
        Some(_) if heard.entries.as_slice().is_empty() => {
            push_at(said, heard, name, frame.source, word)
        }
        Some(_) => push_record(said, heard, name, word),
        None if is_of_record(word) => push_record(said, heard, name, word),
        None => push_at(said, heard, name, frame.target, word),
    }
}

/// Adds a word of a name at an address, which doesn't tell whether it is a group's.
fn push_at(
    said: &mut Vec<Said>,
    heard: &Heard,
    name: &DomainName,
    address: IpAddr,
    word: Word,
) -> Result<(), NoMemory>
    ensures { OnOk result (said.new.items ≡ said.old.items
        ++ said_at heard.now name.now address word None ∷ []) }
{
    said.push(said_at(heard, name, address, word, None))?;
    Ok(())
}

/// Adds what a packet says of the addresses in its record.
fn push_record(
    said: &mut Vec<Said>,
    heard: &Heard,
    name: &DomainName,
    word: Word,
) -> Result<(), NoMemory>
    ensures { OnOk result (said.new.items ≡ said.old.items
        ++ of_record heard.now name.now word) }
{
    'entries: for each in &heard.entries {
        said.push(of_entry(heard, name, word, each))?;
    }
    Ok(())
}

/// Adds what a node status says of its names.
fn push_listed(said: &mut Vec<Said>, heard: &Heard) -> Result<(), NoMemory>
    ensures { OnOk result (said.new.items ≡ said.old.items
        ++ map (of_listed heard.now) heard.now.listed.items) }
{
    'names: for each in &heard.listed {
        said.push(of_listed(heard, each))?;
    }
    Ok(())
}

/// What a packet says of the address of an entry.
fn of_entry(heard: &Heard, name: &DomainName, word: Word, entry: &AddressEntry) -> Said
    ensures { result ≡ of_entry heard.now name.now word entry.now }
{
    let address = IpAddr::V4(Ipv4Addr::from_octets(entry.address));
    let word = word_from(word, address, heard.facts.frame.source);
    said_at(heard, name, address, word, group_told(word, entry.flags))
}

/// What a node status says of one of its names.
fn of_listed(heard: &Heard, listed: &Listed) -> Said
    ensures { result ≡ of_listed heard.now listed.now }
{
    let group = Some(listed.flags & GROUP != 0);
    let source = heard.facts.frame.source;
    said_at(
        heard,
        &listed.name,
        source,
        listed_word(listed.flags),
        group,
    )
}

/// A word that a packet says of a name at an address.
pub(crate) fn said_at(
    heard: &Heard,
    name: &DomainName,
    address: IpAddr,
    word: Word,
    group: Option<bool>,
) -> Said
    ensures { result ≡ said_at heard.now name.now address word group }
{
    Said {
        place: Place {
            name: name.copied(),
            address,
        },
        word,
        group,
        facts: heard.facts,
    }
}

/// The word of a packet from a sender for an address: who answers says it of its own.
fn word_from(word: Word, address: IpAddr, source: IpAddr) -> Word
    ensures { result ≡ word_from word address source }
{
    match word {
        Word::Answers if !same_address(address, source) => Word::SaidToHaveIt,
        _ => word,
    }
}

/// Whether a name is a group's, where the word tells it.
pub(crate) fn group_told(word: Word, flags: u16) -> Option<bool>
    ensures { result ≡ group_told word flags }
{
    if word.tells_group() {
        return Some(flags & GROUP != 0);
    }
    None
}

/// The word for a name of a node status.
fn listed_word(flags: u16) -> Word
    ensures { result ≡ listed_word flags }
{
    if flags & CONFLICT != 0 {
        return Word::ListsInConflict;
    }
    if flags & ACTIVE != 0 {
        return Word::Lists;
    }
    Word::ListsInactive
}

/// Whether a response is about the addresses in its record, where no request is known.
fn is_of_record(word: Word) -> bool
    ensures { result ≡ is_of_record word }
{
    matches!(word, Word::Granted | Word::AsksHolder | Word::Released)
}

/// Whether a flag word is that of a positive response to a query.
fn is_positive(flags: u16) -> bool
    ensures { result ≡ is_positive flags }
{
    flags & 0x8000 != 0 && opcode(flags) == 0 && rcode(flags) == 0
}
