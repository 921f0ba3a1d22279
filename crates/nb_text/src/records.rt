//! The questions and the records of a name service packet, told to a sink.
ghost use Rattle.std.specs.Prelude.{◌≡◌, ◌∷◌, [], ℕ, List, IfOk, OnOk, fold, codes};
ghost use Rattle.std.specs.List.{flat_map};
ghost use Rattle.nb_names.specs.declared.reading.Pointers.TheVariants.{Followed};
ghost use Rattle.nb_names.specs.NameText.{labels_written};
ghost use Rattle.nb_names.specs.Skipped.{IsSkipped};
ghost use Rattle.nb_service.specs.Code.Steps.{HasRow, RowOf};
ghost use Rattle.nb_service.specs.Items.{SeesRecord, SeesQuestion};
ghost use Rattle.nb_service.specs.Packet.{RecordAt, QuestionAt};
ghost use Rattle.nb_service.specs.Record.{ResourceRecord, of_bytes};
ghost use Rattle.nb_service.specs.declared.record.Question.{Question as QuestionValue};
ghost use Rattle.nb_telling.specs.Telling.{Data, LineEnds, Text, Grows, tag_of};
ghost use Rattle.nb_text.specs.Tags.{tag_named};
ghost use Rattle.nb_text.specs.Fields.{list_fields};
ghost use Rattle.nb_text.specs.ServiceFields.{head_fields, rdata_field, record_fields, named_fields, question_fields};
ghost use Rattle.nb_text.specs.Views.{fields_by};

use crate::fields::{end_part, tell_word};
use crate::tags::field_tag;
use crate::views::tell_view;
use nb_names::{DomainName, NameReader, Pointers};
use nb_service::{Rdata, Seen, see_question, see_record};
use nb_streams::NoMemory;
use nb_telling::{FieldTag, Sink};

/// Tells the list of so many records, a section of this name, which stand one after the other from
/// an offset on, and answers where they end. In text each record begins with the lead.
pub fn tell_section<S: Sink>(
    section: &str,
    lead: &str,
    names: &NameReader<'_, '_>,
    at: usize,
    count: usize,
    sink: &mut S,
) -> Result<usize, NoMemory>
    requires { (next : ℕ) × HasRow (RecordAt names.now) at count next }
    ensures told { (records : List ResourceRecord) (next : ℕ) →
        RowOf (RecordAt names.now) at count records next → IfOk result (λ after.
        (after ≡ next) × (S.seen sink.new ≡ fold S.after (S.seen sink.old)
        (list_fields section.now (flat_map (record_fields lead.now) records)))) }
    ensures front { Grows S.is_front (S.seen sink.old) (S.seen sink.new) }
{
    sink.begins(section)?;
    let next = tell_records(lead, names, at, count, sink)?;
    sink.ends()?;
    Ok(next)
}

/// Tells so many records.
fn tell_records<S: Sink>(
    lead: &str,
    names: &NameReader<'_, '_>,
    at: usize,
    count: usize,
    sink: &mut S,
) -> Result<usize, NoMemory>
    requires { (next : ℕ) × HasRow (RecordAt names.now) at count next }
    ensures told { (records : List ResourceRecord) (next : ℕ) →
        RowOf (RecordAt names.now) at count records next → IfOk result (λ after.
        (after ≡ next) × (S.seen sink.new
        ≡ fold S.after (S.seen sink.old) (flat_map (record_fields lead.now) records))) }
    ensures front { Grows S.is_front (S.seen sink.old) (S.seen sink.new) }
{
    let mut next = at;
    for _ in 0..count {
        next = tell_record_at(lead, names, next, sink)?;
    }
    Ok(next)
}

/// Tells the record that stands at an offset, with the parts of its RDATA, and answers where it
/// ends.
///
/// It is no part of the loop, so that a section without records makes no room for one.
#[inline(never)]
fn tell_record_at<S: Sink>(
    lead: &str,
    names: &NameReader<'_, '_>,
    at: usize,
    sink: &mut S,
) -> Result<usize, NoMemory>
    requires { (entry : ResourceRecord) × (next : ℕ) × RecordAt names.now at entry next }
    ensures told { (entry : ResourceRecord) (next : ℕ) → RecordAt names.now at entry next →
        IfOk result (λ after. (after ≡ next) × (S.seen sink.new
        ≡ fold S.after (S.seen sink.old) (record_fields lead.now entry))) }
    ensures front { Grows S.is_front (S.seen sink.old) (S.seen sink.new) }
{
    let seen = see_record(names, at).unwrap();
    sink.part(lead)?;
    tell_head(names, &seen, sink)?;
    tell_rdata(names, &seen, sink)?;
    sink.part_ends()?;
    Ok(seen.fields.extent.next)
}

/// Tells what a record has before its RDATA.
fn tell_head<S: Sink>(names: &NameReader<'_, '_>, seen: &Seen, sink: &mut S) -> Result<(), NoMemory>
    requires { (labels : List (List ℕ)) × IsSkipped names.now Followed seen.now.at labels
        seen.now.name }
    ensures told { (labels : List (List ℕ)) →
        IsSkipped names.now Followed seen.now.at labels seen.now.name → OnOk result
        (S.seen sink.new ≡ fold S.after (S.seen sink.old) (head_fields labels seen.now.fields.kind
        seen.now.fields.class seen.now.fields.ttl)) }
    ensures front { Grows S.is_front (S.seen sink.old) (S.seen sink.new) }
{
    tell_named_fields(names, seen, sink)?;
    sink.number(field_tag!("ttl"), u64::from(seen.fields.ttl))
}

/// Tells the RDATA of a record, and what it says.
fn tell_rdata<S: Sink>(
    names: &NameReader<'_, '_>,
    seen: &Seen,
    sink: &mut S,
) -> Result<(), NoMemory>
    requires { (entry : ResourceRecord) × SeesRecord names.now entry seen.now }
    ensures told { (entry : ResourceRecord) → SeesRecord names.now entry seen.now →
        OnOk result (S.seen sink.new ≡ fold S.after (S.seen sink.old)
        (rdata_field entry.rdata ∷ LineEnds ∷ fields_by entry.kind entry.rdata)) }
    ensures front { Grows S.is_front (S.seen sink.old) (S.seen sink.new) }
{
    match seen.rdata(names) {
        Rdata::Bytes(bytes) => tell_bytes(seen.fields.kind, bytes, sink),
        Rdata::Domain(domain) => tell_domain(&domain, sink),
    }
}

/// Tells RDATA that is a domain name.
fn tell_domain<S: Sink>(domain: &DomainName, sink: &mut S) -> Result<(), NoMemory>
    ensures told { OnOk result (S.seen sink.new ≡ fold S.after (S.seen sink.old)
        (Text (tag_named "domain") (labels_written domain.now) ∷ LineEnds ∷ [])) }
    ensures front { Grows S.is_front (S.seen sink.old) (S.seen sink.new) }
{
    sink.shown(field_tag!("domain"), domain)?;
    sink.line_ends()
}

/// Tells RDATA of bytes, and what it says.
fn tell_bytes<S: Sink>(kind: u16, bytes: &[u8], sink: &mut S) -> Result<(), NoMemory>
    ensures told { OnOk result (S.seen sink.new ≡ fold S.after (S.seen sink.old)
        (Data (tag_named "data") bytes.now ∷ LineEnds ∷ fields_by kind (of_bytes bytes.now))) }
    ensures front { Grows S.is_front (S.seen sink.old) (S.seen sink.new) }
{
    sink.data(field_tag!("data"), bytes)?;
    sink.line_ends()?;
    tell_view(kind, bytes, sink)
}

/// Tells the list of so many questions, which stand one after the other from an offset on, and
/// answers where they end.
pub fn tell_questions<S: Sink>(
    names: &NameReader<'_, '_>,
    at: usize,
    count: usize,
    sink: &mut S,
) -> Result<usize, NoMemory>
    requires { (next : ℕ) × HasRow (QuestionAt names.now) at count next }
    ensures told { (questions : List QuestionValue) (next : ℕ) →
        RowOf (QuestionAt names.now) at count questions next → IfOk result (λ after.
        (after ≡ next) × (S.seen sink.new ≡ fold S.after (S.seen sink.old)
        (list_fields (codes "questions") (flat_map question_fields questions)))) }
    ensures front { Grows S.is_front (S.seen sink.old) (S.seen sink.new) }
{
    sink.begins("questions")?;
    let next = tell_each_question(names, at, count, sink)?;
    sink.ends()?;
    Ok(next)
}

/// Tells so many questions.
fn tell_each_question<S: Sink>(
    names: &NameReader<'_, '_>,
    at: usize,
    count: usize,
    sink: &mut S,
) -> Result<usize, NoMemory>
    requires { (next : ℕ) × HasRow (QuestionAt names.now) at count next }
    ensures told { (questions : List QuestionValue) (next : ℕ) →
        RowOf (QuestionAt names.now) at count questions next → IfOk result (λ after.
        (after ≡ next) × (S.seen sink.new
        ≡ fold S.after (S.seen sink.old) (flat_map question_fields questions))) }
    ensures front { Grows S.is_front (S.seen sink.old) (S.seen sink.new) }
{
    let mut next = at;
    for _ in 0..count {
        let seen = see_question(names, next).unwrap();
        tell_question(names, &seen, sink)?;
        next = seen.fields.extent.next;
    }
    Ok(next)
}

/// Tells a question.
fn tell_question<S: Sink>(
    names: &NameReader<'_, '_>,
    seen: &Seen,
    sink: &mut S,
) -> Result<(), NoMemory>
    requires { (question : QuestionValue) × SeesQuestion names.now question seen.now }
    ensures told { (question : QuestionValue) → SeesQuestion names.now question seen.now →
        OnOk result
        (S.seen sink.new ≡ fold S.after (S.seen sink.old) (question_fields question)) }
    ensures front { Grows S.is_front (S.seen sink.old) (S.seen sink.new) }
{
    sink.part("  question")?;
    tell_named_fields(names, seen, sink)?;
    end_part(sink)
}

/// Tells the name, the type and the class of a question or a record.
pub fn tell_named_fields<S: Sink>(
    names: &NameReader<'_, '_>,
    seen: &Seen,
    sink: &mut S,
) -> Result<(), NoMemory>
    requires { (labels : List (List ℕ)) × IsSkipped names.now Followed seen.now.at labels
        seen.now.name }
    ensures told { (labels : List (List ℕ)) →
        IsSkipped names.now Followed seen.now.at labels seen.now.name → OnOk result
        (S.seen sink.new ≡ fold S.after (S.seen sink.old)
        (named_fields labels seen.now.fields.kind seen.now.fields.class)) }
    ensures front { Grows S.is_front (S.seen sink.old) (S.seen sink.new) }
{
    tell_name(field_tag!("name", " "), names, seen, sink)?;
    tell_word(field_tag!("type"), seen.fields.kind, sink)?;
    tell_word(field_tag!("class"), seen.fields.class, sink)
}

/// Tells the name of a question or a record, from where it stands if it stands there in one
/// stretch.
pub fn tell_name<S: Sink>(
    key: FieldTag,
    names: &NameReader<'_, '_>,
    seen: &Seen,
    sink: &mut S,
) -> Result<(), NoMemory>
    requires { (labels : List (List ℕ)) × IsSkipped names.now Followed seen.now.at labels
        seen.now.name }
    ensures told { (labels : List (List ℕ)) →
        IsSkipped names.now Followed seen.now.at labels seen.now.name → OnOk result
        (S.seen sink.new ≡ S.after (S.seen sink.old) (Text (tag_of key) (labels_written labels))) }
    ensures front { Grows S.is_front (S.seen sink.old) (S.seen sink.new) }
{
    match names.lent_at(seen.at, Pointers::Followed, &seen.name) {
        Some(name) => sink.shown(key, &name),
        None => sink.shown(
            key,
            &names.domain_at(seen.at, Pointers::Followed, &seen.name),
        ),
    }
}
