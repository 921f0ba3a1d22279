//! What is heard of the bytes of a packet of port 137.
ghost use Rattle.std.specs.Prelude.{◌≡◌, ◌++◌, ◌∷◌, [], ◌<◌, List, IfOk, OnOk, MatchOption, length};
ghost use Rattle.nb_service.specs.Header.{HasHeader, header_value};
ghost use Rattle.nb_service.specs.Items.{PacketItem, Sees, section_of};
ghost use Rattle.nb_service.specs.Record.{ResourceRecord};
ghost use Rattle.nb_service.specs.declared.limits.TheConstants.{HEADER_LENGTH};
ghost use Rattle.nb_survey.specs.Code.Finding.{Finds, HasFound};
ghost use Rattle.nb_survey.specs.Hearing.{IsFirst, IsHeard, is_named, listed_in, operation_in, own_entries, own_ttl, records_in, scope_of};

use crate::heard::{Facts, Frame, Heard, Listed};
use nb_names::limits::POINTED_OFFSETS;
use nb_names::{DomainName, Name, NameReader, Pointers, Scope};
use nb_service::laws::one_item;
use nb_service::limits::{HEADER_LENGTH, SHORT_PACKET};
use nb_service::{
    AddressEntry, Header, Rdata, Record, Section, Seen, opcode, read_header, see_item,
};
use nb_streams::NoMemory;
use nb_streams::numbers::number_16;
use std::alloc::Global;
use std::cmp::Ordering;

/// What is heard of the payload of a packet of port 137 that came in a frame, by its questions and
/// records that stand whole, and by the name and type of the first where it is cut; none where its
/// header doesn't stand. A payload `is_cut` where the capture has less of it than was sent: what it
/// lacks then is no fault of it.
///
/// Names of a node status have the scope of their RR_NAME, none where that is no NetBIOS name (our
/// choice).
///
/// # Errors
///
/// [`NoMemory`] where memory ran out.
///
/// RFC 1002 sections 4.2.1 to 4.2.18.
pub fn hear(
    alloc: Global,
    frame: Frame,
    payload: &[u8],
    is_cut: bool,
) -> Result<Option<Heard>, NoMemory>
    ensures { IfOk result (λ read. MatchOption read (length payload.now < HEADER_LENGTH)
        (IsHeard frame is_cut payload.now)) }
{
    if payload.len() <= SHORT_PACKET {
        return hear_judged(alloc, frame, &NameReader::of(payload, &mut []), is_cut);
    }
    let mut ends = [0; POINTED_OFFSETS];
    hear_judged(alloc, frame, &NameReader::of(payload, &mut ends), is_cut)
}

/// What is heard of the payload whose names are read so.
fn hear_judged(
    alloc: Global,
    frame: Frame,
    names: &NameReader<'_, '_>,
    is_cut: bool,
) -> Result<Option<Heard>, NoMemory>
    ensures { IfOk result (λ read. MatchOption read (length names.now < HEADER_LENGTH)
        (IsHeard frame is_cut names.now)) }
{
    let Ok(header) = read_header(names.packet()) else {
        return Ok(None);
    };
    let (name, kind) = first_of(names, &header);
    let mut found = Found {
        ttl: None,
        entries: Vec::new(alloc),
        listed: Vec::new(alloc),
        waits_for: None,
    };
    let is_whole = found.take_all(names, &header, &name)?;
    Ok(Some(Heard {
        facts: Facts {
            frame,
            id: header.id,
            ttl: found.ttl,
            is_malformed: !is_cut && !is_whole,
        },
        flags: header.word,
        name,
        kind,
        entries: found.entries,
        listed: found.listed,
        waits_for: found.waits_for,
    }))
}

/// The name and the type of the first item, as far as they stand.
fn first_of(names: &NameReader<'_, '_>, header: &Header) -> (Option<DomainName>, Option<u16>)
    ensures { IsFirst names.now (header_value header.now) result.0 result.1 }
{
    let records = header.answers as usize
        + header.authorities as usize
        + header.additional as usize;
    if header.questions as usize + records == 0 {
        return (None, None);
    }
    let Ok((name, after)) = names.read_domain(HEADER_LENGTH, Pointers::Followed) else {
        return (None, None);
    };
    let packet = names.packet();
    if packet.len() - after < 2 {
        return (Some(name), None);
    }
    (Some(name), Some(number_16(packet, after)))
}

/// What was found in the records of a packet so far.
#[derive(Drop)]
pub(crate) struct Found {
    ttl: Option<u32>,
    entries: Vec<AddressEntry>,
    listed: Vec<Listed>,
    waits_for: Option<u8>,
}

impl Found {
    /// Takes the records of a packet about a name that stand whole; whether all of its items do.
    fn take_all(
        &mut self,
        names: &NameReader<'_, '_>,
        header: &Header,
        name: &Option<DomainName>,
    ) -> Result<bool, NoMemory>
        requires header { HasHeader names.now (header_value header.now) }
        requires none { HasFound name.now self.old [] }
        ensures { IfOk result (Finds names.now (header_value header.now) name.now self.new) }
    {
        // For the clause: what stands in a packet is one, and is counted. The call does nothing.
        one_item();
        let mut number = 0;
        let mut at = HEADER_LENGTH;
        'items: loop {
            match see_item(names, header, number, at) {
                Ok(Some((section, seen))) => {
                    self.take_item(names, name, section, &seen)?;
                    number += 1;
                    at = seen.fields.extent.next;
                }
                Ok(None) => return Ok(true),
                Err(_) => return Ok(false),
            }
        }
    }

    /// Takes the next item of a packet about a name: where it is a record, what that has.
    fn take_item(
        &mut self,
        names: &NameReader<'_, '_>,
        name: &Option<DomainName>,
        section: Option<Section>,
        seen: &Seen,
    ) -> Result<(), NoMemory>
        requires { (item : PacketItem) × Sees names.now item seen.now
            × (section ≡ section_of item) }
        ensures { OnOk result ((item : PacketItem) (items : List PacketItem) →
            Sees names.now item seen.now → section ≡ section_of item →
            HasFound name.now self.old (records_in items) →
            HasFound name.now self.new (records_in (items ++ item ∷ []))) }
    {
        if section.is_none() {
            return Ok(());
        }
        self.take(name, &seen.record(names))
    }

    /// Takes the next record of a packet about a name.
    fn take(&mut self, name: &Option<DomainName>, entry: &Record<'_>) -> Result<(), NoMemory>
        ensures { OnOk result ((records : List ResourceRecord) →
            HasFound name.now self.old records →
            HasFound name.now self.new (records ++ entry.now ∷ [])) }
    {
        self.ttl = self.ttl.or(own_ttl(name, entry));
        self.waits_for = self.waits_for.or(operation_in(entry));
        push_own(&mut self.entries, name, entry)?;
        push_listed(&mut self.listed, entry)
    }
}

/// Whether a record is about this name.
fn is_named(name: &Option<DomainName>, entry: &Record<'_>) -> bool
    ensures { result ≡ is_named name.now entry.now }
{
    match name {
        Some(name) => entry.name().cmp(name) == Ordering::Equal,
        None => false,
    }
}

/// The TTL of a record about this name that has NB entries.
fn own_ttl(name: &Option<DomainName>, entry: &Record<'_>) -> Option<u32>
    ensures { result ≡ own_ttl name.now entry.now }
{
    match entry.address_entries() {
        Some(entries) if entries.len() > 0 && is_named(name, entry) => Some(entry.ttl()),
        _ => None,
    }
}

/// Adds the NB entries of a record about this name.
fn push_own(
    found: &mut Vec<AddressEntry>,
    name: &Option<DomainName>,
    entry: &Record<'_>,
) -> Result<(), NoMemory>
    ensures { OnOk result (found.new.items
        ≡ found.old.items ++ own_entries name.now entry.now) }
{
    let Some(entries) = entry.address_entries() else {
        return Ok(());
    };
    if !is_named(name, entry) {
        return Ok(());
    }
    'entries: for place in 0..entries.len() {
        found.push(entries.get(place).unwrap())?;
    }
    Ok(())
}

/// Adds the names of a node status.
fn push_listed(found: &mut Vec<Listed>, entry: &Record<'_>) -> Result<(), NoMemory>
    ensures { OnOk result (found.new.items ≡ found.old.items ++ listed_in entry.now) }
{
    let Some(status) = entry.node_status() else {
        return Ok(());
    };
    let scope = scope_of(entry.name());
    'names: for place in 0..status.len() {
        let name = status.get(place).unwrap();
        found.push(Listed {
            name: Name::new(name.bytes, scope.copied()).to_domain(),
            flags: name.flags,
        })?;
    }
    Ok(())
}

/// The scope of a name, if it is a NetBIOS name; others have none.
fn scope_of(domain: &DomainName) -> Scope
    ensures { result ≡ scope_of domain.now }
{
    match Name::from_domain(domain) {
        Ok(name) => name.scope().copied(),
        Err(_) => Scope::empty(),
    }
}

/// The operation of a flag word that a record's RDATA begins with.
fn operation_in(entry: &Record<'_>) -> Option<u8>
    ensures { result ≡ operation_in entry.now }
{
    match entry.rdata() {
        Rdata::Bytes([high, low, ..]) => Some(opcode(u16::from_be_bytes([*high, *low]))),
        _ => None,
    }
}
