//! Packets, encoded.
ghost use Rattle.std.specs.Prelude.{◌≡◌, ◌++◌, ◌<◌, ◌^◌, ℕ, List, length, OnOk, IfOk};
ghost use Rattle.std.specs.Int.{w16, to_be_bytes};
ghost use Rattle.std.specs.List.{AllByRecursion, flat_map};
ghost use Rattle.nb_names.specs.DomainName.{IsDomain};
ghost use Rattle.nb_service.specs.Encoding.{header_bytes, packet_bytes, is_pointed, name_bytes, question_bytes, record_bytes, IsQuestion, IsRecord};
ghost use Rattle.nb_service.specs.Packet.{header_of, IsPacket};

use crate::laws::encoding_is_read;
use crate::limits::HEADER_LENGTH;
use crate::packet::Packet;
use crate::record::{Question, Rdata, Record};
use nb_names::DomainName;
use nb_streams::{Bytes, NoMemory};
use std::alloc::Global;

/// Encodes a packet.
///
/// A record's name that has a label and is the first question's is written as a pointer to it. All
/// other names are spelled plainly, also the one in the RDATA of an NS record (our choice).
///
/// # Errors
///
/// [`NoMemory`] where memory ran out.
///
/// RFC 1002 section 4.2.1.
pub fn encode(alloc: Global, packet: &Packet<'_>) -> Result<Bytes, NoMemory>
    ensures value { IfOk result (λ bytes. bytes ≡ packet_bytes packet.now) }

    // Whatever follows these bytes, what is read is the packet, and they are all that it takes up.
    ensures found { IfOk result (λ bytes. (rest : List ℕ) →
        IsPacket (bytes ++ rest) packet.now (length bytes)) }
{
    // The law on which the clause `found` stands; the call does nothing.
    encoding_is_read();
    let mut bytes = Vec::new(alloc);
    let questions = packet.questions().as_slice();
    write_header(&mut bytes, packet)?;
    write_questions(&mut bytes, questions)?;
    write_records(&mut bytes, questions, packet.answers().as_slice())?;
    write_records(&mut bytes, questions, packet.authorities().as_slice())?;
    write_records(&mut bytes, questions, packet.additional().as_slice())?;
    Ok(Bytes::from_vec(bytes))
}

/// Writes the header of a packet.
fn write_header(bytes: &mut Vec<u8>, packet: &Packet<'_>) -> Result<(), NoMemory>
    ensures written { OnOk result
        (bytes.new.items ≡ bytes.old.items ++ header_bytes (header_of packet.now)) }
    ensures fits { OnOk result ((packet.now.id < 2 ^ 16) × (packet.now.word < 2 ^ 16)) }
{
    write_16(bytes, packet.id())?;
    write_16(bytes, packet.word())?;
    write_16(bytes, packet.questions().as_slice().len() as u16)?;
    write_16(bytes, packet.answers().as_slice().len() as u16)?;
    write_16(bytes, packet.authorities().as_slice().len() as u16)?;
    write_16(bytes, packet.additional().as_slice().len() as u16)
}

/// The two bytes of a pointer to the first question's name (RFC 1002 section 4.1).
const QUESTION_POINTER: [u8; 2] = [0xc0, HEADER_LENGTH as u8];

/// Whether a name has a label and is the first question's.
fn is_first_question(questions: &[Question], name: &DomainName) -> bool
    ensures { result ≡ is_pointed questions.now name.now }
{
    match questions.first() {
        Some(question) => !name.is_empty() && question.name == *name,
        None => false,
    }
}

/// Writes bytes.
#[inline]
fn write_bytes(bytes: &mut Vec<u8>, more: &[u8]) -> Result<(), NoMemory>
    ensures { OnOk result (bytes.new.items ≡ bytes.old.items ++ more.now) }
{
    bytes.extend_from_slice(more)?;
    Ok(())
}

/// Writes a number of two bytes.
fn write_16(bytes: &mut Vec<u8>, number: u16) -> Result<(), NoMemory>
    ensures { OnOk result (bytes.new.items ≡ bytes.old.items ++ to_be_bytes w16 number) }
{
    write_bytes(bytes, &number.to_be_bytes())
}

/// Writes a question.
fn write_question(bytes: &mut Vec<u8>, question: &Question) -> Result<(), NoMemory>
    ensures written { OnOk result
        (bytes.new.items ≡ bytes.old.items ++ question_bytes question.now) }
    ensures formed { OnOk result (IsQuestion question.now) }
{
    write_bytes(bytes, question.name.spelling())?;
    write_16(bytes, question.kind)?;
    write_16(bytes, question.class)
}

/// Writes the name of a record after these questions.
fn write_name(
    bytes: &mut Vec<u8>,
    questions: &[Question],
    name: &DomainName,
) -> Result<(), NoMemory>
    ensures written { OnOk result
        (bytes.new.items ≡ bytes.old.items ++ name_bytes questions.now name.now) }
    ensures domain { OnOk result (IsDomain name.now) }
{
    let spelling = name.spelling();
    if is_first_question(questions, name) {
        write_bytes(bytes, &QUESTION_POINTER)
    } else {
        write_bytes(bytes, spelling)
    }
}

/// Writes a record of a packet with these questions.
fn write_record(
    bytes: &mut Vec<u8>,
    questions: &[Question],
    entry: &Record<'_>,
) -> Result<(), NoMemory>
    ensures written { OnOk result
        (bytes.new.items ≡ bytes.old.items ++ record_bytes questions.now entry.now) }
    ensures formed { OnOk result (IsRecord entry.now) }
{
    write_name(bytes, questions, entry.name())?;
    write_16(bytes, entry.kind())?;
    write_16(bytes, entry.class())?;
    write_bytes(bytes, &entry.ttl().to_be_bytes())?;
    let rdata = match entry.rdata() {
        Rdata::Bytes(rdata) => rdata,
        Rdata::Domain(name) => name.spelling(),
    };
    write_16(bytes, rdata.len() as u16)?;
    write_bytes(bytes, rdata)
}

/// Writes questions, one after the other.
fn write_questions(bytes: &mut Vec<u8>, questions: &[Question]) -> Result<(), NoMemory>
    ensures written { OnOk result
        (bytes.new.items ≡ bytes.old.items ++ flat_map question_bytes questions.now) }
    ensures formed { OnOk result (AllByRecursion IsQuestion questions.now) }
{
    for question in questions {
        write_question(bytes, question)?;
    }
    Ok(())
}

/// Writes records of a packet with these questions, one after the other.
fn write_records(
    bytes: &mut Vec<u8>,
    questions: &[Question],
    records: &[Record<'_>],
) -> Result<(), NoMemory>
    ensures written { OnOk result
        (bytes.new.items ≡ bytes.old.items ++ flat_map (record_bytes questions.now) records.now) }
    ensures formed { OnOk result (AllByRecursion IsRecord records.now) }
{
    for record in records {
        write_record(bytes, questions, record)?;
    }
    Ok(())
}
