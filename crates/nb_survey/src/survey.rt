//! The tables of a summary, packet by packet.
ghost use Rattle.std.specs.Prelude.{◌≡◌, ◌<◌, ◌≤◌, ◌+◌, ◌++◌, ◌∷◌, [], ℕ, List, IfOk, OnOk, None, true, false, filter, IsSome};
ghost use Rattle.std.specs.List.{list_any};
ghost use Rattle.std.specs.Map.{lookup};
ghost use Rattle.nb_survey.specs.Code.Kept.{is_whole, IsRenewed, Keeps, kept_count, left_out, of_name};
ghost use Rattle.nb_survey.specs.Keys.{name_key, refusal_key, same_key};
ghost use Rattle.nb_survey.specs.Places.{same_name};
ghost use Rattle.nb_survey.specs.Queries.{queries_of, step};
ghost use Rattle.nb_survey.specs.Rows.{keys_of, row_at};
ghost use Rattle.nb_survey.specs.Sums.{IsBounded, KeepsAll, Sums, Takes};
ghost use Rattle.nb_survey.specs.Telling.{about, answer_of, answers_to, group_at, is_about, of_request, told, words_of};
ghost use Rattle.nb_survey.specs.Words.{word_of};
ghost use Rattle.nb_survey.specs.declared.heard.Heard.{Heard as HeardValue};
ghost use Rattle.nb_survey.specs.declared.heard.Said.{Said as SaidValue};
ghost use Rattle.nb_survey.specs.declared.key.Key.{Key as KeyValue};
ghost use Rattle.nb_survey.specs.declared.limits.TheConstants.{MAX_REQUESTS};

use crate::heard::{Heard, Said};
use crate::key::{Key, same_address};
use crate::limits::MAX_NAMES;
use crate::query::{Query, take_query};
use crate::requests::{Request, answered, renew};
use crate::row::Row;
use crate::rows::Tables;
use crate::saying::{said_at, say};
use crate::word::{Asking, Word, word_of};
use nb_names::DomainName;
use nb_service::{AddressEntry, opcode};
use nb_streams::NoMemory;
use std::alloc::Global;
use std::collections::btree_map::{Iter, Keys};
use std::collections::{BTreeMap, BTreeSet};
use std::net::{IpAddr, Ipv4Addr};

/// What is kept of a name besides its rows.
#[derive(Drop)]
pub struct Kept {
    /// Whether all that is said of it is kept.
    is_whole: bool,
    /// Its latest requests, one for each address and what is asked.
    requests: Vec<Request>,
    /// The queries about it.
    queries: Vec<Query>,
}

impl Kept {
    /// Takes a word that is said of the name, whose row had room or not, where there are so many
    /// requests of all names.
    fn hear(&mut self, said: &Said, has_room: bool, count: &mut usize) -> Result<(), NoMemory>
        ensures heard { OnOk result ((self.new.is_whole ≡ true →
            IsRenewed self.old self.new said.now has_room)
            × (count.new < MAX_REQUESTS → has_room ≡ true →
            self.new.is_whole ≡ self.old.is_whole)) }
        ensures queries { self.new.queries.items ≡ self.old.queries.items }
        ensures counted { kept_count self.new + count.old ≤ kept_count self.old + count.new }
        ensures within { count.old ≤ MAX_REQUESTS → count.new ≤ MAX_REQUESTS }
        ensures grows { count.old ≤ count.new }
    {
        if !has_room || !renew(&mut self.requests, said, count)? {
            self.is_whole = false;
        }
        Ok(())
    }

    /// Takes a packet about the name, where there are so many requests of all names.
    fn ask(&mut self, heard: &Heard, count: &mut usize) -> Result<(), NoMemory>
        ensures asked { OnOk result ((self.new.is_whole ≡ true → (self.old.is_whole ≡ true)
            × (self.new.queries.items ≡ step self.old.queries.items heard.now))
            × (count.new < MAX_REQUESTS → self.new.is_whole ≡ self.old.is_whole)) }
        ensures requests { self.new.requests.items ≡ self.old.requests.items }
        ensures counted { kept_count self.new + count.old ≤ kept_count self.old + count.new }
        ensures within { count.old ≤ MAX_REQUESTS → count.new ≤ MAX_REQUESTS }
        ensures grows { count.old ≤ count.new }
    {
        if !take_query(&mut self.queries, heard, count)? {
            self.is_whole = false;
        }
        Ok(())
    }
}

/// What the packets of a capture say of names.
#[derive(Drop)]
pub struct Survey {
    alloc: Global,
    by_name: BTreeMap<DomainName, Kept>,
    tables: Tables,
    /// Names that found no room.
    others: BTreeSet<DomainName>,
    /// How many requests of all names are kept, at most.
    count: usize,
}

impl Survey {
    /// Before the first packet. No memory is taken.
    pub fn new(alloc: Global) -> Survey
        ensures sums { Sums result [] }
        ensures bounded { IsBounded result }
        ensures kept { KeepsAll result }
    {
        Survey {
            alloc,
            by_name: BTreeMap::new(alloc),
            tables: Tables::new(alloc),
            others: BTreeSet::new(alloc),
            count: 0,
        }
    }

    /// Takes a packet, the next one of the capture.
    ///
    /// # Errors
    ///
    /// [`NoMemory`] where memory ran out; rows may then lack some of what the packet says.
    pub fn take(&mut self, heard: &Heard) -> Result<(), NoMemory>
        ensures sums { OnOk result ((packets : List HeardValue) → Sums self.old packets →
            Sums self.new (packets ++ heard.now ∷ [])) }
        ensures kept { OnOk result (KeepsAll self.old → KeepsAll self.new) }
        ensures bounded { IsBounded self.old → IsBounded self.new }
    {
        let said = self.told(heard)?;
        self.ask(heard)?;
        self.hear_all(said.as_slice())
    }

    /// A row of the table of names, or of that of refusals where the key has a reason, by all
    /// packets so far; none where they say nothing of it. It may lack some of what they say where
    /// not [all](Survey::is_whole) of the name is kept.
    pub fn row(&self, key: &Key) -> Option<Row>
        ensures { (packets : List HeardValue) → Sums self.now packets →
            is_whole self.now key.now.name ≡ true → result
            ≡ row_at (keys_of key.now.reason) key.now (words_of key.now.name packets) }
    {
        match key.reason {
            None => self.tables.names.row(key),
            Some(_) => self.tables.refusals.row(key),
        }
    }

    /// The rows of the table of names, in their order.
    pub fn names(&self) -> Iter<'_, Key, Row>
        ensures { (packets : List HeardValue) → Sums self.now packets → (key : KeyValue) →
            is_whole self.now key.name ≡ true →
            lookup (same_key key) result ≡ row_at name_key key (words_of key.name packets) }
    {
        self.tables.names.iter()
    }

    /// The rows of the table of refusals, in their order.
    pub fn refusals(&self) -> Iter<'_, Key, Row>
        ensures { (packets : List HeardValue) → Sums self.now packets → (key : KeyValue) →
            is_whole self.now key.name ≡ true →
            lookup (same_key key) result ≡ row_at refusal_key key (words_of key.name packets) }
    {
        self.tables.refusals.iter()
    }

    /// The names of which something is kept, in their order: one that isn't among them, where
    /// [all](Survey::is_whole) of it is kept, has no queries.
    pub fn kept_names(&self) -> Keys<'_, DomainName, Kept>
        ensures { (packets : List HeardValue) → Sums self.now packets → (name : List (List ℕ)) →
            is_whole self.now name ≡ true → list_any (same_name name) result ≡ false →
            queries_of name packets ≡ [] }
    {
        self.by_name.keys()
    }

    /// The queries about a name, each with its repeats and what came of it, in the order of their
    /// first packets. Some may lack where not [all](Survey::is_whole) of the name is kept.
    pub fn queries(&self, name: &DomainName) -> &[Query]
        ensures { (packets : List HeardValue) → Sums self.now packets →
            is_whole self.now name.now ≡ true → result.now ≡ queries_of name.now packets }
    {
        match self.by_name.get(name) {
            Some(kept) => kept.queries.as_slice(),
            None => &[],
        }
    }

    /// Whether all is kept that the packets say of a name. Of a name without rows it isn't known
    /// once a name found no room.
    pub fn is_whole(&self, name: &DomainName) -> bool
        ensures { result ≡ is_whole self.now name.now }
    {
        match self.by_name.get(name) {
            Some(kept) => kept.is_whole,
            None => self.others.is_empty(),
        }
    }

    /// How many names found no room, up to [`MAX_NAMES`]; where it is 0, none did.
    pub fn left_out(&self) -> usize
        ensures { result ≡ left_out self.now }
    {
        self.others.len()
    }

    /// Takes a packet to the queries about its name.
    fn ask(&mut self, heard: &Heard) -> Result<(), NoMemory>
        ensures heard { OnOk result (Takes self.old self.new [] (heard.now ∷ [])) }
        ensures bounded { IsBounded self.old → IsBounded self.new }
    {
        let Some(name) = &heard.name else {
            return Ok(());
        };
        if !self.admit(name)? {
            return Ok(());
        }
        let Some(kept) = self.by_name.get_mut(name) else {
            return Ok(());
        };
        kept.ask(heard, &mut self.count)
    }

    /// Takes words that are said, in order.
    fn hear_all(&mut self, said: &[Said]) -> Result<(), NoMemory>
        ensures heard { OnOk result (Takes self.old self.new said.now []) }
        ensures bounded { IsBounded self.old → IsBounded self.new }
    {
        'words: for one in said {
            self.hear(one)?;
        }
        Ok(())
    }

    /// Takes a word that is said.
    fn hear(&mut self, said: &Said) -> Result<(), NoMemory>
        ensures heard { OnOk result (Takes self.old self.new (said.now ∷ []) []) }
        ensures bounded { IsBounded self.old → IsBounded self.new }
    {
        let name = &said.place.name;
        if !self.admit(name)? {
            return Ok(());
        }
        let Some(kept) = self.by_name.get_mut(name) else {
            return Ok(());
        };
        let has_room = self.tables.hear(said)?;
        kept.hear(said, has_room, &mut self.count)
    }

    /// Admits a name, where there is room for it; whether it is kept.
    fn admit(&mut self, name: &DomainName) -> Result<bool, NoMemory>
        ensures admitted { OnOk result (Takes self.old self.new [] []) }
        ensures kept { IfOk result (λ is_kept. is_kept ≡ true →
            IsSome (of_name self.new name.now)) }
        ensures left { IfOk result (λ is_kept. is_kept ≡ false →
            (of_name self.new name.now ≡ None) × (0 < left_out self.new)) }
        ensures bounded { IsBounded self.old → IsBounded self.new }
    {
        if self.by_name.contains_key(name) {
            return Ok(true);
        }
        if self.by_name.len() >= MAX_NAMES || self.others.len() > 0 {
            self.leave_out(name)?;
            return Ok(false);
        }
        let kept = Kept {
            is_whole: true,
            requests: Vec::new(self.alloc),
            queries: Vec::new(self.alloc),
        };
        self.by_name.insert(name.copied(), kept)?;
        Ok(true)
    }

    /// Counts a name that finds no room.
    fn leave_out(&mut self, name: &DomainName) -> Result<(), NoMemory>
        ensures left { OnOk result (0 < left_out self.new) }
        ensures kept { self.new ≡ record self.old { others = self.new.others } }
        ensures bounded { IsBounded self.old → IsBounded self.new }
    {
        if self.others.len() < MAX_NAMES {
            self.others.insert(name.copied())?;
        }
        Ok(())
    }

    /// What a packet says, after all that was said before.
    fn told(&self, heard: &Heard) -> Result<Vec<Said>, NoMemory>
        ensures { IfOk result (λ said. (name : List (List ℕ)) (before : List SaidValue) →
            Keeps self.now name before →
            filter (is_about name) said.items ≡ filter (is_about name) (told before heard.now)) }
    {
        let Some(asking) = answer_of(heard) else {
            return say(self.alloc, heard);
        };
        let Some(name) = &heard.name else {
            return say(self.alloc, heard);
        };
        let Some(kept) = self.by_name.get(name) else {
            return say(self.alloc, heard);
        };
        let found = answered(self.alloc, kept.requests.as_slice(), asking, &heard.facts)?;
        about(self.alloc, heard, name, found.as_slice())
    }
}

/// What a packet says, where these are the requests that it answers.
fn about(
    alloc: Global,
    heard: &Heard,
    name: &DomainName,
    found: &[Request],
) -> Result<Vec<Said>, NoMemory>
    ensures { IfOk result (λ said.
        said.items ≡ about heard.now (word_of heard.now.flags) name.now found.now) }
{
    let Some(word) = word_of(heard.flags) else {
        return say(alloc, heard);
    };
    if found.is_empty() {
        return say(alloc, heard);
    }
    let mut said = Vec::new(alloc);
    'requests: for request in found {
        said.push(of_request(heard, name, word, request))?;
    }
    Ok(said)
}

/// What a response says of the address of a request that it answers.
fn of_request(heard: &Heard, name: &DomainName, word: Word, request: &Request) -> Said
    ensures { result ≡ of_request heard.now name.now word request.now }
{
    let group = if word.tells_group() {
        group_at(request.address, heard.entries.as_slice())
    } else {
        None
    };
    said_at(heard, name, request.address, word, group)
}

/// Whether a name is a group's, by the last of these entries that has the address.
fn group_at(address: IpAddr, entries: &[AddressEntry]) -> Option<bool>
    ensures { result ≡ group_at address entries.now }
{
    let mut group = None;
    'entries: for entry in entries {
        if same_address(IpAddr::V4(Ipv4Addr::from_octets(entry.address)), address) {
            group = Some(entry.flags & 0x8000 != 0);
        }
    }
    group
}

/// What a packet answers, where it is a response.
fn answer_of(heard: &Heard) -> Option<Asking>
    ensures { result ≡ answer_of heard.now }
{
    if heard.flags & 0x8000 == 0 {
        return None;
    }
    answers_to(opcode(heard.flags), heard.waits_for)
}

/// What a response answers, by its operation, and a wait acknowledgement by that in its RDATA.
fn answers_to(operation: u8, waits_for: Option<u8>) -> Option<Asking>
    ensures { result ≡ answers_to operation waits_for }
{
    match operation {
        5 | 8 | 9 | 15 => Some(Asking::Claim),
        6 => Some(Asking::Release),
        7 if waits_for == Some(6) => Some(Asking::Release),
        7 => Some(Asking::Claim),
        _ => None,
    }
}
