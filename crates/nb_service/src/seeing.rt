//! Packets, judged where they stand: the one walk along their items, and what is seen of an item.
//! Items are judged in line with their callers: a walk then keeps no more than it needs.
ghost use Rattle.std.specs.Prelude.{◌≡◌, ◌+◌, ◌^◌, ◌<◌, ◌≤◌, ℕ, length, IfOk, IfErr, OnOk, IsOkAnd, IfSome, IsSomeAnd, MatchOption, min};
ghost use Rattle.nb_service.specs.declared.record.Question.{Question as QuestionValue};
ghost use Rattle.nb_service.specs.Items.{SeesQuestion, SeesRecord, IsRecordOf, ItemAt, ItemFails, PacketItem, Sees, section_of, Walks, walked_of};
ghost use Rattle.nb_service.specs.Packet.{QuestionAt, RdataAt, RecordAt};
ghost use Rattle.nb_service.specs.Record.{ResourceData, ResourceRecord};
ghost use Rattle.nb_service.specs.ServiceFaults.{QuestionFails, DomainFails, RecordFails, item_count};
ghost use Rattle.nb_service.specs.Header.{header_value, HasHeader};

use crate::fault::ServiceFault;
use crate::header::Header;
use crate::kinds::NS;
use crate::laws::{one_item, one_question, one_record};
use crate::limits::HEADER_LENGTH;
use crate::packet::Section;
use crate::record::{Extent, Fields};
use crate::seen::{Seen, see_plain_question};
use nb_names::{NameReader, Pointers};
use nb_streams::numbers::{number_16, number_32};

/// The bytes of a question after its name: QUESTION_TYPE, QUESTION_CLASS.
pub(crate) const QUESTION_FIELDS: usize = 4;

/// The bytes of a record between its name and its RDATA: RR_TYPE, RR_CLASS, TTL, RDLENGTH.
const RECORD_FIELDS: usize = 10;

/// How far the items of a packet stand whole, one after another from the end of its header on, and
/// why no further.
#[derive(Clone, Copy, Debug, PartialEq, Eq)]
pub struct Walked {
    /// How many questions stand.
    pub questions: usize,
    /// How many answers.
    pub answers: usize,
    /// How many authorities.
    pub authorities: usize,
    /// How many additional records.
    pub additional: usize,
    /// Where they end.
    pub next: usize,
    /// What is wrong with the next item; nothing where all stand that the header promises.
    pub fault: Option<ServiceFault>,
}

/// Judges the items after the header of a packet, one after another, up to the first in which there
/// is a fault. No memory is taken.
///
/// RFC 1002 section 4.2.1.
#[inline(always)]
pub fn walk(names: &NameReader<'_, '_>, header: &Header) -> Walked
    requires { HasHeader names.now (header_value header.now) }
    ensures { Walks names.now (header_value header.now) result }
{
    // For the clause: what stands in a packet is one, and is counted. The call does nothing.
    one_item();
    let mut number = 0;
    let mut at = HEADER_LENGTH;
    'items: loop {
        match see_item(names, header, number, at) {
            Ok(Some((_, seen))) => {
                number += 1;
                at = seen.fields.extent.next;
            }
            Ok(None) => return in_sections(header, number, at, None),
            Err(fault) => return in_sections(header, number, at, Some(fault)),
        }
    }
}

/// What is answered where so many items stand: how many are in each section.
fn in_sections(header: &Header, items: usize, next: usize, fault: Option<ServiceFault>) -> Walked
    ensures { result ≡ walked_of (header_value header.now) items next fault }
{
    let questions = items.min(header.questions as usize);
    let records = items - questions;
    let answers = records.min(header.answers as usize);
    let rest = records - answers;
    let authorities = rest.min(header.authorities as usize);
    Walked {
        questions,
        answers,
        authorities,
        additional: rest - authorities,
        next,
        fault,
    }
}

/// What is seen of the question that stands at an offset of a packet. No memory is taken.
///
/// # Errors
///
/// What is wrong first: the name's fault, or that the packet ends before the question does
/// (`Truncated`).
///
/// RFC 1002 section 4.2.1.2.
#[inline(always)]
pub fn see_question(names: &NameReader<'_, '_>, at: usize) -> Result<Seen, ServiceFault>
    // What is answered is of what stands there, and of what stands there it is answered.
    ensures found { IfOk result (λ seen. (seen.at ≡ at)
        × ((question : QuestionValue) × SeesQuestion names.now question seen)) }
    ensures only { (question : QuestionValue) (next : ℕ) → QuestionAt names.now at question next →
        IsOkAnd result (λ seen. (seen.at ≡ at) × SeesQuestion names.now question seen
        × (seen.fields.extent.next ≡ next)) }
    ensures within { IfOk result (λ seen. seen.fields.extent.next ≤ length names.now) }

    // Which fault it is, and where.
    ensures fault { IfErr result (QuestionFails names.now at) }
{
    // The law on which the clause `only` stands; the call does nothing.
    one_question();
    let packet = names.packet();
    if at == HEADER_LENGTH {
        if let Some(first) = see_plain_question(packet) {
            return Ok(first);
        }
    }
    let name = names.skip_domain(at, Pointers::Followed)?;
    let after = name.next;
    if packet.len() - after < QUESTION_FIELDS {
        return Err(ServiceFault::Truncated(packet.len()));
    }
    let next = after + QUESTION_FIELDS;
    let fields = Fields {
        kind: number_16(packet, after),
        class: number_16(packet, after + 2),
        ttl: 0,
        extent: Extent { rdata: next, next },
    };
    Ok(Seen { at, name, fields })
}

/// Judges the RDATA of a record of a type: the `size` bytes at `begin`.
#[inline(always)]
fn check_rdata(
    names: &NameReader<'_, '_>,
    begin: usize,
    size: usize,
    kind: u16,
) -> Result<(), ServiceFault>
    requires there { begin + size ≤ length names.now }
    requires fits { begin + size < 2 ^ 64 }
    ensures found { OnOk result
        ((rdata : ResourceData) × RdataAt names.now begin size kind rdata) }
    ensures fault { IfErr result (λ fault. (kind ≡ NS) × DomainFails names.now begin size fault) }
{
    if kind != NS {
        return Ok(());
    }
    let name = names.skip_domain(begin, Pointers::Followed)?;
    if name.next != begin + size {
        return Err(ServiceFault::NameRdata(begin));
    }
    Ok(())
}

/// What is seen of the record that stands at an offset of a packet. No memory is taken.
///
/// # Errors
///
/// What is wrong first: the name's fault, that the packet ends before the record does
/// (`Truncated`), or of a record of type NS the fault of the name in its RDATA.
///
/// RFC 1002 section 4.2.1.3.
#[inline(always)]
pub fn see_record(names: &NameReader<'_, '_>, at: usize) -> Result<Seen, ServiceFault>
    // What is answered is of what stands there, and of what stands there it is answered.
    ensures found { IfOk result (λ seen. (seen.at ≡ at)
        × ((entry : ResourceRecord) × SeesRecord names.now entry seen)) }
    ensures only { (entry : ResourceRecord) (next : ℕ) → RecordAt names.now at entry next →
        IsOkAnd result (λ seen. (seen.at ≡ at) × SeesRecord names.now entry seen
        × (seen.fields.extent.next ≡ next)) }
    ensures within { IfOk result (λ seen. seen.fields.extent.next ≤ length names.now) }

    // Which fault it is, and where.
    ensures fault { IfErr result (RecordFails names.now at) }
{
    // The law on which the clause `only` stands; the call does nothing.
    one_record();
    let packet = names.packet();
    let name = names.skip_domain(at, Pointers::Followed)?;
    let after = name.next;
    if packet.len() - after < RECORD_FIELDS {
        return Err(ServiceFault::Truncated(packet.len()));
    }
    let kind = number_16(packet, after);
    let size = number_16(packet, after + 8) as usize;
    let begin = after + RECORD_FIELDS;
    if packet.len() - begin < size {
        return Err(ServiceFault::Truncated(packet.len()));
    }
    check_rdata(names, begin, size, kind)?;
    let fields = Fields {
        kind,
        class: number_16(packet, after + 2),
        ttl: number_32(packet, after + 4),
        extent: Extent {
            rdata: begin,
            next: begin + size,
        },
    };
    Ok(Seen { at, name, fields })
}

/// The section of the record that is the item of a number; none past the last record.
fn section_of(header: &Header, number: usize) -> Option<Section>
    requires { header.now.questions ≤ number }
    ensures { MatchOption result (item_count (header_value header.now) ≤ number)
        (IsRecordOf (header_value header.now) number) }
{
    let answers_end = header.questions as usize + header.answers as usize;
    let authorities_end = answers_end + header.authorities as usize;
    if number < answers_end {
        return Some(Section::Answer);
    }
    if number < authorities_end {
        return Some(Section::Authority);
    }
    if number < authorities_end + header.additional as usize {
        return Some(Section::Additional);
    }
    None
}

/// What is seen of the item of a number, counted from 0, that stands at an offset of a packet of
/// this header, and its section; none where the header says that there are no more. A question has
/// no section. No memory is taken.
///
/// The first item, of number 0, stands at byte 12
/// ([`HEADER_LENGTH`](crate::limits::HEADER_LENGTH)), and each other where the one before it ends.
/// Whether the packet stands whole isn't looked at: seen so, the items of a packet of which the
/// front alone is there are all that stand whole.
///
/// # Errors
///
/// What is wrong first with this item, as [`see_question`] and [`see_record`] say it; never
/// `NoMemory`.
///
/// RFC 1002 section 4.2.1.
#[inline(always)]
pub fn see_item(
    names: &NameReader<'_, '_>,
    header: &Header,
    number: usize,
    at: usize,
) -> Result<Option<(Option<Section>, Seen)>, ServiceFault>
    // What is answered is of the item that stands there, and of what stands there it is answered.
    ensures found { IfOk result (λ read. MatchOption read
        (item_count (header_value header.now) ≤ number) (λ seen. (seen.1.at ≡ at)
        × ((item : PacketItem)
        × ItemAt names.now (header_value header.now) number at item seen.1.fields.extent.next
        × Sees names.now item seen.1 × (seen.0 ≡ section_of item)))) }
    ensures only { (item : PacketItem) (next : ℕ) →
        ItemAt names.now (header_value header.now) number at item next →
        IsOkAnd result (λ read. IsSomeAnd read (λ seen. (seen.1.at ≡ at)
        × (seen.1.fields.extent.next ≡ next)
        × Sees names.now item seen.1 × (seen.0 ≡ section_of item))) }
    ensures within { IfOk result (λ read.
        IfSome read (λ seen. seen.1.fields.extent.next ≤ length names.now)) }

    // Which fault it is, and where.
    ensures fault { IfErr result (ItemFails names.now (header_value header.now) number at) }
{
    // The law on which the clause `only` stands; the call does nothing.
    one_item();
    if number < header.questions as usize {
        let seen = see_question(names, at)?;
        return Ok(Some((None, seen)));
    }
    let Some(section) = section_of(header, number) else {
        return Ok(None);
    };
    let seen = see_record(names, at)?;
    Ok(Some((Some(section), seen)))
}
