//! Packets of port 137: read, and made of the items of others.

use nb_examples_words::line::Line;
use nb_examples_words::{asked, called, said};
use nb_names::DomainName;
use nb_service::{Packet, Question, Rdata, Record, Section, ServiceFault, decode, encode};

/// The most items of a packet that are said.
const MOST_ITEMS: usize = 16;

/// `decode BYTES`: the packet that the bytes begin with, and how many bytes it takes up. Of one
/// with more than sixteen items only their numbers are said.
pub fn decoded(line: &mut Line<'_>) {
    let bytes = line.bytes();
    let answer = called!(line, decode(line.alloc(), bytes.as_slice()));
    match answer {
        Ok((packet, used)) => {
            say_packet(line, &packet);
            line.says(&used);
        }
        Err(fault) => line.refuses(&fault),
    }
}

/// Says a packet, or its identifier, its flag word and how many items its lists have.
fn say_packet(line: &mut Line<'_>, packet: &Packet<'_>) {
    let questions = packet.questions().as_slice();
    let additional = packet.additional().as_slice();
    if questions.len().max(additional.len()) <= MOST_ITEMS {
        return line.says(packet);
    }
    line.says(&(packet.id(), packet.word()));
    say_counts(line, packet);
}

/// Says how many items the lists of a packet have.
fn say_counts(line: &mut Line<'_>, packet: &Packet<'_>) {
    line.begin();
    let questions = packet.questions().as_slice().len();
    let answers = packet.answers().as_slice().len();
    let authorities = packet.authorities().as_slice().len();
    let additional = packet.additional().as_slice().len();
    line.end();
    line.says(&(questions, answers, authorities, additional));
}

/// The packet at the front; an empty one where there is none.
pub fn front<'a>(line: &mut Line<'_>, bytes: &'a [u8]) -> Packet<'a> {
    match decode(line.alloc(), bytes) {
        Ok((packet, _)) => return packet,
        Err(ServiceFault::NoMemory) => line.no_memory(),
        Err(_) => line.bad_words(),
    }
    Packet::new(line.alloc(), 0, 0)
}

/// `push BYTES BYTES`: the first packet's bytes, after the questions and the records of the second
/// were added to it, one after another; or the faults of those that aren't, and how many questions,
/// answers, authorities and additional records there are then.
pub fn pushed(line: &mut Line<'_>) {
    let (first, second) = (line.bytes(), line.bytes());
    say_pushed(line, first.as_slice(), second.as_slice());
}

/// Says the packet at the front of some bytes, with the items of a second one.
fn say_pushed<'a>(line: &mut Line<'_>, first: &'a [u8], second: &'a [u8]) {
    let mut packet = front(line, first);
    let added = front(line, second);
    match push_all(line, &mut packet, &added) {
        true => say_encoded(line, &packet),
        false => say_counts(line, &packet),
    }
}

/// Says a packet's bytes, made between marks.
pub fn say_encoded(line: &mut Line<'_>, packet: &Packet<'_>) {
    said!(line, gives, encode(line.alloc(), packet));
}

/// Adds the questions and the records of a packet to another: whether all were added.
fn push_all<'a>(line: &mut Line<'_>, packet: &mut Packet<'a>, added: &Packet<'a>) -> bool {
    let mut is_whole = true;
    for question in added.questions().as_slice() {
        is_whole = push_question(line, packet, question) && is_whole;
    }
    for section in [Section::Answer, Section::Authority, Section::Additional] {
        is_whole = push_records(line, packet, added, section) && is_whole;
    }
    is_whole
}

/// Adds a question to a packet: whether it was added.
fn push_question(line: &mut Line<'_>, packet: &mut Packet<'_>, question: &Question) -> bool {
    let answer = asked!(
        line,
        packet.push_question(copy_of_question(question)),
        encode(line.alloc(), packet).ok()
    );
    line.is_done(&answer)
}

/// The same question.
pub fn copy_of_question(question: &Question) -> Question {
    Question {
        name: question.name.copied(),
        kind: question.kind,
        class: question.class,
    }
}

/// Adds the records of a section of a packet to that of another: whether all were added.
fn push_records<'a>(
    line: &mut Line<'_>,
    packet: &mut Packet<'a>,
    added: &Packet<'a>,
    section: Section,
) -> bool {
    let records = match section {
        Section::Answer => added.answers(),
        Section::Authority => added.authorities(),
        Section::Additional => added.additional(),
    };
    let mut is_whole = true;
    for record in records.as_slice() {
        is_whole = push_record(line, packet, record, section) && is_whole;
    }
    is_whole
}

/// Adds a record to a section of a packet: whether it was added.
fn push_record<'a>(
    line: &mut Line<'_>,
    packet: &mut Packet<'a>,
    record: &Record<'a>,
    section: Section,
) -> bool {
    let answer = asked!(
        line,
        packet.push(section, copy_of_record(record)),
        encode(line.alloc(), packet).ok()
    );
    line.is_done(&answer)
}

/// The same record; the name of a record of bytes that can't be so is the root, which shows.
pub fn copy_of_record<'a>(record: &Record<'a>) -> Record<'a> {
    let name = record.name().copied();
    let (class, ttl) = (record.class(), record.ttl());
    match record.rdata() {
        Rdata::Domain(target) => Record::ns(name, class, ttl, target.copied()),
        Rdata::Bytes(bytes) => match Record::bytes(name, record.kind(), class, ttl, bytes) {
            Ok(record) => record,
            Err(_) => Record::ns(DomainName::root(), class, ttl, DomainName::root()),
        },
    }
}

/// `word WORD`: the opcode, the result code and the flags of a packet's flag word.
pub fn word(line: &mut Line<'_>) {
    let word = line.hex_16();
    let made = called!(line, Packet::new(line.alloc(), 0, word));
    said!(line, says, (made.opcode(), made.rcode(), made.nm_flags()));
}
