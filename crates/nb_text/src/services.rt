//! A name service packet, told to a sink.
ghost use Rattle.std.specs.Prelude.{◌≡◌, ◌∷◌, Bool, None, Some, OnOk, fold};
ghost use Rattle.nb_service.specs.Header.{PacketHeader, header_value};
ghost use Rattle.nb_service.specs.Items.{Walks};
ghost use Rattle.nb_telling.specs.Telling.{Grows};
ghost use Rattle.nb_text.specs.FrontFields.{names_header_fields};
ghost use Rattle.nb_text.specs.Tags.{tag_named, id_tag};
ghost use Rattle.nb_text.specs.Fields.{word_field};
ghost use Rattle.nb_text.specs.ServiceFields.{count_fields, header_fields, lists_fields, state_fields};
ghost use Rattle.nb_text.specs.TellsFront.{ServiceTold};

use crate::fields::{tell_named, tell_number, tell_refusal, tell_used, tell_word};
use crate::records::{tell_questions, tell_section};
use crate::tags::field_tag;
use crate::words::{operation_name, packet_flags_of, rcode_name};
use nb_names::NameReader;
use nb_names::limits::POINTED_OFFSETS;
use nb_service::limits::{HEADER_LENGTH, SHORT_PACKET};
use nb_service::{Header, ServiceFault, Walked, opcode, rcode, read_header, walk};
use nb_streams::NoMemory;
use nb_telling::Sink;

/// Tells a payload of port 137: the packet that it begins with, or why it begins with none, and
/// then, if more is asked for, what still stands at its front.
///
/// Of a packet of more than [`SHORT_PACKET`] bytes the ends of all chains of pointers are found
/// first, as [`decode`](nb_service::decode) does.
pub fn tell_service<S: Sink>(payload: &[u8], more: bool, sink: &mut S) -> Result<(), NoMemory>
    ensures told { OnOk result
        (ServiceTold S.after payload.now more (S.seen sink.old) (S.seen sink.new)) }
    ensures front { Grows S.is_front (S.seen sink.old) (S.seen sink.new) }
{
    if payload.len() <= SHORT_PACKET {
        return tell_judged(&NameReader::of(payload, &mut []), more, sink);
    }
    let mut ends = [0; POINTED_OFFSETS];
    tell_judged(&NameReader::of(payload, &mut ends), more, sink)
}

/// Tells the payload whose names are read so.
fn tell_judged<S: Sink>(
    names: &NameReader<'_, '_>,
    more: bool,
    sink: &mut S,
) -> Result<(), NoMemory>
    ensures told { OnOk result
        (ServiceTold S.after names.now more (S.seen sink.old) (S.seen sink.new)) }
    ensures front { Grows S.is_front (S.seen sink.old) (S.seen sink.new) }
{
    let header = match read_header(names.packet()) {
        Ok(header) => header,
        Err(fault) => return tell_refusal(fault, fault.place(), sink),
    };
    let walked = walk(names, &header);
    match walked.fault {
        None => tell_whole(names, &header, &walked, sink),
        Some(fault) => tell_cut(fault, more, names, &header, &walked, sink),
    }
}

/// Tells a packet that stands whole, after which there is nothing more to tell.
fn tell_whole<S: Sink>(
    names: &NameReader<'_, '_>,
    header: &Header,
    walked: &Walked,
    sink: &mut S,
) -> Result<(), NoMemory>
    requires stands { Walks names.now (header_value header.now) walked.now }
    requires whole { walked.now.fault ≡ None }
    ensures told { (more : Bool) → OnOk result
        (ServiceTold S.after names.now more (S.seen sink.old) (S.seen sink.new)) }
    ensures front { Grows S.is_front (S.seen sink.old) (S.seen sink.new) }
{
    tell_header(header, walked.next, sink)?;
    tell_lists(names, walked, sink)
}

/// Tells why a payload begins with no packet, and if more is asked for, what stands at its front.
fn tell_cut<S: Sink>(
    fault: ServiceFault,
    more: bool,
    names: &NameReader<'_, '_>,
    header: &Header,
    walked: &Walked,
    sink: &mut S,
) -> Result<(), NoMemory>
    requires stands { Walks names.now (header_value header.now) walked.now }
    requires cut { walked.now.fault ≡ Some fault }
    ensures told { OnOk result
        (ServiceTold S.after names.now more (S.seen sink.old) (S.seen sink.new)) }
    ensures front { Grows S.is_front (S.seen sink.old) (S.seen sink.new) }
{
    tell_refusal(fault, fault.place(), sink)?;
    if !more {
        return Ok(());
    }
    tell_front_header(header, sink)?;
    tell_lists(names, walked, sink)
}

/// Tells the lists of the items that stand, each read where it stands.
fn tell_lists<S: Sink>(
    names: &NameReader<'_, '_>,
    walked: &Walked,
    sink: &mut S,
) -> Result<(), NoMemory>
    requires { (header : PacketHeader) × Walks names.now header walked.now }
    ensures told { (header : PacketHeader) (seen : Walks names.now header walked.now) →
        OnOk result (S.seen sink.new
        ≡ fold S.after (S.seen sink.old) (lists_fields seen.part)) }
    ensures front { Grows S.is_front (S.seen sink.old) (S.seen sink.new) }
{
    let Walked {
        questions,
        answers,
        authorities,
        additional,
        ..
    } = *walked;
    let at = tell_questions(names, HEADER_LENGTH, questions, sink)?;
    let at = tell_section("answers", "  answer", names, at, answers, sink)?;
    let at = tell_section("authorities", "  authority", names, at, authorities, sink)?;
    tell_section("additional", "  additional", names, at, additional, sink)?;
    Ok(())
}

/// Tells the line of a header after which no packet stands whole.
fn tell_front_header<S: Sink>(header: &Header, sink: &mut S) -> Result<(), NoMemory>
    ensures told { OnOk result (S.seen sink.new ≡ fold S.after (S.seen sink.old)
        (names_header_fields (header_value header.now))) }
    ensures front { Grows S.is_front (S.seen sink.old) (S.seen sink.new) }
{
    sink.words("  ")?;
    tell_words(header, sink)?;
    tell_counts(header, sink)?;
    sink.line_ends()
}

/// Tells the header.
fn tell_header<S: Sink>(header: &Header, used: usize, sink: &mut S) -> Result<(), NoMemory>
    ensures told { OnOk result (S.seen sink.new
        ≡ fold S.after (S.seen sink.old) (header_fields (header_value header.now) used)) }
    ensures front { Grows S.is_front (S.seen sink.old) (S.seen sink.new) }
{
    tell_words(header, sink)?;
    tell_counts(header, sink)?;
    tell_used(used, sink)
}

/// Tells the identifier, the flag word and what that says.
fn tell_words<S: Sink>(header: &Header, sink: &mut S) -> Result<(), NoMemory>
    ensures told { OnOk result (S.seen sink.new ≡ fold S.after (S.seen sink.old)
        (word_field id_tag header.now.id ∷ word_field (tag_named "word") header.now.word
        ∷ state_fields header.now.word)) }
    ensures front { Grows S.is_front (S.seen sink.old) (S.seen sink.new) }
{
    tell_word(field_tag!("id", "id="), header.id, sink)?;
    tell_word(field_tag!("word"), header.word, sink)?;
    tell_state(header.word, sink)
}

/// Tells what the flag word says.
fn tell_state<S: Sink>(word: u16, sink: &mut S) -> Result<(), NoMemory>
    ensures told { OnOk result
        (S.seen sink.new ≡ fold S.after (S.seen sink.old) (state_fields word)) }
    ensures front { Grows S.is_front (S.seen sink.old) (S.seen sink.new) }
{
    let (operation, outcome) = (opcode(word), rcode(word));
    tell_named(field_tag!("op"), operation_name(operation), operation, sink)?;
    sink.set(field_tag!("flags"), &packet_flags_of(word))?;
    tell_named(field_tag!("rcode"), rcode_name(outcome), outcome, sink)
}

/// Tells how many questions, answers, authorities and additional records there are.
fn tell_counts<S: Sink>(header: &Header, sink: &mut S) -> Result<(), NoMemory>
    ensures told { OnOk result (S.seen sink.new
        ≡ fold S.after (S.seen sink.old) (count_fields (header_value header.now))) }
    ensures front { Grows S.is_front (S.seen sink.old) (S.seen sink.new) }
{
    tell_number(field_tag!("qd"), header.questions, sink)?;
    tell_number(field_tag!("an"), header.answers, sink)?;
    tell_number(field_tag!("ns"), header.authorities, sink)?;
    tell_number(field_tag!("ar"), header.additional, sink)
}
