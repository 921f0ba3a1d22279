//! Packets, decoded.
ghost use Rattle.std.specs.Prelude.{◌≡◌, ◌≤◌, ◌<◌, ℕ, None, length, IfOk, IfErr, IsOkAnd, OnErr, MatchResult, List};
ghost use Rattle.nb_service.specs.Header.{header_value};
ghost use Rattle.nb_service.specs.Packet.{ServicePacket, header_of, IsPacket, HasOutline, HasSections, QuestionAt, RecordAt};
ghost use Rattle.nb_service.specs.ServiceFaults.{item_count, PacketFails, IsRefused};
ghost use Rattle.nb_service.specs.Items.{Walks};
ghost use Rattle.nb_service.specs.declared.record.Question.{Question as QuestionValue};
ghost use Rattle.nb_service.specs.Code.Steps.{HasRow, RowOf};
ghost use Rattle.nb_service.specs.Record.{ResourceRecord};

use crate::fault::ServiceFault;
use crate::header::{Header, read_header};
use crate::laws::{one_packet, one_service_fault, sections_in_order};
use crate::limits::{HEADER_LENGTH, SHORT_PACKET};
use crate::packet::{Packet, Questions, Records};
use crate::seeing::{Walked, see_question, see_record, walk};
use nb_names::NameReader;
use nb_names::limits::POINTED_OFFSETS;
use nb_streams::NoMemory;
use std::alloc::Global;

/// Decodes the packet at the front of bytes, and how many of them it takes up.
///
/// Names are read over all of the bytes, with pointers followed; offsets in pointers and in faults
/// count from the first byte. What stands after the last record doesn't count towards the length
/// (our choice); only a label that a pointer leads to can reach into it. Numbers and bits without a
/// meaning here come through unchanged. A record's bytes are lent from the input. Memory is taken
/// for the four lists alone, once the whole packet has been checked. Of a packet of more than 576
/// bytes the ends of all chains of pointers are found first, in 32 kB of the stack, so that no name
/// costs a walk along a chain.
///
/// # Errors
///
/// What is wrong first, read from the front; `NoMemory` only where the bytes begin with a packet
/// that has a question or a record.
///
/// RFC 1002 section 4.2.1. That the RDATA of an NS record is a domain name, with pointers followed,
/// which ends where the RDATA does, is our own rule.
pub fn decode<'a>(alloc: Global, bytes: &'a [u8]) -> Result<(Packet<'a>, usize), ServiceFault>
    // What is answered stands there, and what stands there is answered, unless memory runs out.
    ensures found { IfOk result (λ read. IsPacket bytes.now read.0 read.1) }
    ensures only { (packet : ServicePacket) (used : ℕ) → IsPacket bytes.now packet used →
        MatchResult result (λ read. (read.0 ≡ packet) × (read.1 ≡ used))
        (λ fault. fault ≡ ServiceFault.NoMemory) }
    ensures sections { IfOk result (λ read. HasSections bytes.now read.0 read.1) }
    ensures within { IfOk result (λ read. read.1 ≤ length bytes.now) }

    // Which fault it is, and where; NoMemory only where a packet with an item stands.
    ensures fault { IfErr result (IsRefused bytes.now) }
{
    if bytes.len() <= SHORT_PACKET {
        return decode_names(alloc, &NameReader::of(bytes, &mut []));
    }
    let mut ends = [0; POINTED_OFFSETS];
    decode_names(alloc, &NameReader::of(bytes, &mut ends))
}

/// The header of the packet with which a reader's bytes begin, and how many of them it takes up.
///
/// The packet is judged whole, as [`decode`] judges it, and not made; its questions begin after the
/// header, and its records after them ([`see_question`](crate::see_question),
/// [`see_record`](crate::see_record)). No memory is taken.
///
/// # Errors
///
/// What is wrong first, read from the front; never `NoMemory`.
///
/// RFC 1002 section 4.2.1.
#[inline(always)]
pub fn outline(names: &NameReader<'_, '_>) -> Result<(Header, usize), ServiceFault>
    // What is answered stands there, and what stands there is answered.
    ensures found { IfOk result (λ seen. HasOutline names.now (header_value seen.0) seen.1) }
    ensures only { (packet : ServicePacket) (used : ℕ) → IsPacket names.now packet used →
        IsOkAnd result (λ seen. (header_value seen.0 ≡ header_of packet) × (seen.1 ≡ used)) }

    // Which fault it is, and where.
    ensures fault { IfErr result (PacketFails names.now) }
{
    // The laws on which the clause `only` stands; the calls do nothing.
    one_packet();
    one_service_fault();
    let header = read_header(names.packet())?;
    let walked = walk(names, &header);
    match walked.fault {
        None => Ok((header, walked.next)),
        Some(fault) => Err(fault),
    }
}

/// Makes the packet whose items were all seen to stand.
fn build<'a>(
    alloc: Global,
    names: &NameReader<'a, '_>,
    header: &Header,
    walked: &Walked,
) -> Result<(Packet<'a>, usize), NoMemory>
    requires stands { Walks names.now (header_value header.now) walked.now }
    requires whole { walked.now.fault ≡ None }
    ensures found { IfOk result (λ read. IsPacket names.now read.0 read.1) }
    ensures memory { OnErr result (0 < item_count (header_value header.now)) }
{
    let (questions, at) = list_questions(alloc, names, HEADER_LENGTH, walked.questions)?;
    let (answers, at) = list_records(alloc, names, at, walked.answers)?;
    let (authorities, at) = list_records(alloc, names, at, walked.authorities)?;
    let (additional, next) = list_records(alloc, names, at, walked.additional)?;
    let packet = Packet {
        id: header.id,
        word: header.word,
        questions,
        answers,
        authorities,
        additional,
    };
    Ok((packet, next))
}

/// Decodes the packet at the front of the bytes whose names are read so.
fn decode_names<'a>(
    alloc: Global,
    names: &NameReader<'a, '_>,
) -> Result<(Packet<'a>, usize), ServiceFault>
    ensures found { IfOk result (λ read. IsPacket names.now read.0 read.1) }
    ensures only { (packet : ServicePacket) (used : ℕ) → IsPacket names.now packet used →
        MatchResult result (λ read. (read.0 ≡ packet) × (read.1 ≡ used))
        (λ fault. fault ≡ ServiceFault.NoMemory) }
    ensures sections { IfOk result (λ read. HasSections names.now read.0 read.1) }
    ensures within { IfOk result (λ read. read.1 ≤ length names.now) }
    ensures fault { IfErr result (IsRefused names.now) }
{
    // The laws on which the clauses `only` and `sections` stand; the calls do nothing.
    one_packet();
    one_service_fault();
    sections_in_order();
    let header = read_header(names.packet())?;
    let walked = walk(names, &header);
    if let Some(fault) = walked.fault {
        return Err(fault);
    }
    Ok(build(alloc, names, &header, &walked)?)
}

/// The questions of a row that stands at an offset, and the offset after it.
pub(crate) fn list_questions(
    alloc: Global,
    names: &NameReader<'_, '_>,
    at: usize,
    count: usize,
) -> Result<(Questions, usize), NoMemory>
    requires { (next : ℕ) × HasRow (QuestionAt names.now) at count next }
    ensures { (questions : List QuestionValue) (next : ℕ) →
        RowOf (QuestionAt names.now) at count questions next →
        MatchResult result (λ read. (read.0 ≡ questions) × (read.1 ≡ next)) (λ _. 0 < count) }
{
    let mut questions = Vec::new(alloc);
    let mut next = at;
    for _ in 0..count {
        let seen = see_question(names, next).unwrap();
        questions.push(seen.question(names))?;
        next = seen.fields.extent.next;
    }
    Ok((Questions::from_vec(questions), next))
}

/// The records of a row that stands at an offset, and the offset after it.
pub(crate) fn list_records<'a>(
    alloc: Global,
    names: &NameReader<'a, '_>,
    at: usize,
    count: usize,
) -> Result<(Records<'a>, usize), NoMemory>
    requires { (next : ℕ) × HasRow (RecordAt names.now) at count next }
    ensures { (records : List ResourceRecord) (next : ℕ) →
        RowOf (RecordAt names.now) at count records next →
        MatchResult result (λ read. (read.0 ≡ records) × (read.1 ≡ next)) (λ _. 0 < count) }
{
    let mut records = Vec::new(alloc);
    let mut next = at;
    for _ in 0..count {
        let seen = see_record(names, next).unwrap();
        records.push(seen.record(names))?;
        next = seen.fields.extent.next;
    }
    Ok((Records::from_vec(records), next))
}
