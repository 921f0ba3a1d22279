//! The phrases of payloads of port 137.

ghost use Rattle.std.specs.Prelude.{◌≡◌, ◌∷◌, [], ℕ, List, Option};
ghost use Rattle.nb_service.specs.declared.limits.TheConstants.{HEADER_LENGTH};
ghost use Rattle.nb_service.specs.declared.record.Question.{Question};
ghost use Rattle.nb_service.specs.Code.Steps.{HasRow, RowOf};
ghost use Rattle.nb_service.specs.Header.{header_value};
ghost use Rattle.nb_service.specs.Packet.{IsPacket, QuestionAt, RecordAt, ServicePacket, header_of};
ghost use Rattle.nb_service.specs.Record.{ResourceRecord};
ghost use Rattle.nb_text.specs.Said.{Adds};
ghost use Rattle.nb_text.specs.SaysPacket.{AddsPhrase};
ghost use Rattle.nb_text.specs.ServiceSaid.{About, IsAbout, about_first, name_said, service_refused_said, service_said, type_of};

use crate::brief::form::{form_of, push_ending};
use crate::brief::gist::Gist;
use crate::brief::pieces::{counts_in, push_follow, push_refused, push_text};
use crate::records::tell_name;
use crate::tags::field_tag;
use nb_names::NameReader;
use nb_names::limits::POINTED_OFFSETS;
use nb_service::kinds::NBSTAT;
use nb_service::limits::{HEADER_LENGTH, SHORT_PACKET};
use nb_service::{Header, Seen, ServiceFault, read_header, see_question, see_record, walk};
use nb_streams::NoMemory;

/// Adds the phrase of a payload of port 137.
///
/// Of a packet of more than [`SHORT_PACKET`] bytes the ends of all chains of pointers are found
/// first, as [`decode`](nb_service::decode) does.
pub fn push_service(payload: &[u8], text: &mut String) -> Result<(), NoMemory>
    ensures { AddsPhrase result payload.now 137 text.old text.new }
{
    if payload.len() <= SHORT_PACKET {
        return push_judged(&NameReader::of(payload, &mut []), text);
    }
    let mut ends = [0; POINTED_OFFSETS];
    push_judged(&NameReader::of(payload, &mut ends), text)
}

/// Adds the phrase of the payload whose names are read so.
fn push_judged(names: &NameReader<'_, '_>, text: &mut String) -> Result<(), NoMemory>
    ensures { AddsPhrase result names.now 137 text.old text.new }
{
    let header = match read_header(names.packet()) {
        Ok(header) => header,
        Err(fault) => return push_fault(fault, text),
    };
    let walked = walk(names, &header);
    match walked.fault {
        None => {
            push_packet(names, &header, text)?;
            push_follow(walked.next, names.packet().len(), text)
        }
        Some(fault) => push_fault(fault, text),
    }
}

/// Adds what the packet is that stands whole behind this header.
fn push_packet(
    names: &NameReader<'_, '_>,
    header: &Header,
    text: &mut String,
) -> Result<(), NoMemory>
    requires { (packet : ServicePacket) × (used : ℕ) × IsPacket names.now packet used
        × (header_of packet ≡ header_value header.now) }
    ensures { (packet : ServicePacket) (used : ℕ) → IsPacket names.now packet used →
        header_of packet ≡ header_value header.now →
        Adds result text.old text.new (service_said packet) }
{
    let questions = usize::from(header.questions);
    let records = usize::from(header.answers)
        + usize::from(header.authorities)
        + usize::from(header.additional);
    let (about, at) = first_of(names, questions, records);
    let kind = kind_of(&about);
    let told = Gist::of(names, at, records, kind == Some(NBSTAT));
    let (opening, ending) = form_of(header.word, kind);
    push_text(opening, text)?;
    push_subject(names, &about, text)?;
    push_ending(ending, header.word, &told, text)
}

/// What is seen of the first of so many questions, or else of the first of so many records that
/// stand behind them, and where the records begin.
fn first_of(names: &NameReader<'_, '_>, questions: usize, records: usize) -> (Option<Seen>, usize)
    requires { (at : ℕ) × (next : ℕ)
        × HasRow (QuestionAt names.now) HEADER_LENGTH questions at
        × HasRow (RecordAt names.now) at records next }
    ensures { (asked : List Question) (told : List ResourceRecord) (at next : ℕ) →
        RowOf (QuestionAt names.now) HEADER_LENGTH questions asked at →
        RowOf (RecordAt names.now) at records told next →
        IsAbout names.now (about_first asked told) result.0 × (result.1 ≡ at) }
{
    let mut first = None;
    let mut next = HEADER_LENGTH;
    for _ in 0..questions {
        let seen = see_question(names, next).unwrap();
        next = seen.fields.extent.next;
        first = first.or(Some(seen));
    }
    if first.is_some() || records == 0 {
        return (first, next);
    }
    (Some(see_record(names, next).unwrap()), next)
}

/// The type of what a packet is about.
fn kind_of(about: &Option<Seen>) -> Option<u16>
    ensures { (packet : List ℕ) (subject : Option About) →
        IsAbout packet subject about.now → result ≡ type_of subject }
{
    match about {
        Some(seen) => Some(seen.fields.kind),
        None => None,
    }
}

/// Adds the name of what a packet is about.
fn push_subject(
    names: &NameReader<'_, '_>,
    about: &Option<Seen>,
    text: &mut String,
) -> Result<(), NoMemory>
    requires { (subject : Option About) × IsAbout names.now subject about.now }
    ensures { (subject : Option About) → IsAbout names.now subject about.now →
        Adds result text.old text.new (name_said subject ∷ []) }
{
    match about {
        Some(seen) => tell_name(field_tag!("", ""), names, seen, text),
        None => push_text("no name", text),
    }
}

/// Adds why there is no packet.
fn push_fault(fault: ServiceFault, text: &mut String) -> Result<(), NoMemory>
    ensures { Adds result text.old text.new (service_refused_said fault) }
{
    let counted = match fault {
        ServiceFault::Name(fault) => counts_in(fault),
        _ => "",
    };
    push_refused(fault.subject(), fault.words(), fault.place(), counted, text)
}
