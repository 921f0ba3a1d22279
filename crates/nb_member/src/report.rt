//! The fields of what became of a line of a capture (our choice), told to a sink, and parts of its
//! report as text.
#![tactic(auto, using(nb_telling::proofs::FoldLemmas::told_both))]

ghost use Rattle.std.specs.Prelude.{◌≡◌, ◌≢◌, ◌∷◌, ◌++◌, [], Err, OnOk, fold, string_bytes};
ghost use Rattle.nb_names.specs.NameText.{written};
ghost use Rattle.nb_streams.specs.Growth.{OnlyAdds};
ghost use Rattle.nb_datagram.specs.FaultTexts.{key_text, kind_text};
ghost use Rattle.nb_telling.specs.Telling.{Grows, Text, Data};
ghost use Rattle.nb_member.specs.Tags.{outcome_tag, key_tag, kind_tag, source_tag, destination_tag, data_tag};
ghost use Rattle.nb_member.specs.Code.Outcomes.{answer_of};
ghost use Rattle.nb_member.specs.Report.{parts_text};
ghost use Rattle.nb_member.specs.ReportFields.{dropped_fields, error_fields, parts_fields, refused_fields, result_fields};

use crate::laws::texts_of_reports;
use crate::outcome::{Dropped, LentOutcome, MemberFault};
use crate::tags::{COUNT, DATA, DESTINATION, ERROR, KEY, KIND, OUTCOME, REFUSED, SOURCE};
use nb_datagram::{Datagram, ErrorPacket, Key, Kind, Packet, encode, kind_name};
use nb_names::LentName;
use nb_streams::NoMemory;
use nb_table::TableFault;
use nb_telling::{Sink, tell_place};
use std::alloc::Global;

/// Tells what a look at the clock dropped.
pub(crate) fn tell_dropped<S: Sink>(dropped: Dropped, sink: &mut S) -> Result<(), NoMemory>
    ensures told { OnOk result
        (S.seen sink.new ≡ fold S.after (S.seen sink.old) (dropped_fields dropped.keys)) }
    ensures front { Grows S.is_front (S.seen sink.old) (S.seen sink.new) }
{
    sink.text(OUTCOME, "dropped")?;
    sink.number(COUNT, u64::from(dropped.keys))
}

/// Tells what became of a payload of port 138. An error packet's bytes take memory.
pub(crate) fn tell_taken<S: Sink>(
    alloc: Global,
    taken: Result<LentOutcome<'_>, MemberFault>,
    sink: &mut S,
) -> Result<(), NoMemory>
    ensures told { OnOk result
        ((answer_of taken.entry ≢ Err (MemberFault.Table TableFault.NoMemory)) × (S.seen sink.new
        ≡ fold S.after (S.seen sink.old) (result_fields (answer_of taken.entry)))) }
    ensures front { Grows S.is_front (S.seen sink.old) (S.seen sink.new) }
{
    match taken {
        Ok(LentOutcome::Kept(key)) => tell_of("kept", key, sink),
        Ok(LentOutcome::Spoilt(key)) => tell_of("spoilt", key, sink),
        Ok(LentOutcome::Delivered(fragment, bytes)) => {
            tell_of("delivered", fragment.key(), sink)?;
            tell_lent(
                fragment.kind(),
                fragment.source(),
                fragment.destination(),
                bytes.as_slice(),
                sink,
            )
        }
        Ok(LentOutcome::Unheard(key, error)) => {
            tell_of("unheard", key, sink)?;
            tell_error(alloc, error, sink)
        }
        Ok(LentOutcome::Other) => sink.text(OUTCOME, "other"),
        Err(MemberFault::Table(TableFault::NoMemory)) => Err(NoMemory),
        Err(fault) => tell_refused(alloc, fault, sink),
    }
}

/// Tells what became of a payload, and the key that it is about.
#[inline(always)]
fn tell_of<S: Sink>(word: &str, key: Key, sink: &mut S) -> Result<(), NoMemory>
    ensures told { OnOk result (S.seen sink.new ≡ fold S.after (S.seen sink.old)
        (Text outcome_tag word.now ∷ Text key_tag (key_text key) ∷ [])) }
    ensures front { Grows S.is_front (S.seen sink.old) (S.seen sink.new) }
{
    sink.text(OUTCOME, word)?;
    sink.shown(KEY, &key)
}

/// Tells why a payload was refused.
fn tell_refused<S: Sink>(alloc: Global, fault: MemberFault, sink: &mut S) -> Result<(), NoMemory>
    ensures told { OnOk result
        (S.seen sink.new ≡ fold S.after (S.seen sink.old) (refused_fields fault)) }
    ensures front { Grows S.is_front (S.seen sink.old) (S.seen sink.new) }
{
    sink.displayed(REFUSED, fault)?;
    tell_place(fault.place(), sink)?;
    match fault {
        MemberFault::Packet(_, error) => tell_error(alloc, error, sink),
        MemberFault::Table(_) => Ok(()),
    }
}

/// Tells a datagram's kind, source, destination and data.
pub(crate) fn tell_parts<S: Sink>(datagram: &Datagram, sink: &mut S) -> Result<(), NoMemory>
    ensures told { OnOk result
        (S.seen sink.new ≡ fold S.after (S.seen sink.old) (parts_fields datagram.now)) }
    ensures front { Grows S.is_front (S.seen sink.old) (S.seen sink.new) }
{
    let source = datagram.source().lent();
    let destination = datagram.destination().lent();
    tell_lent(
        datagram.kind(),
        &source,
        &destination,
        datagram.bytes(),
        sink,
    )
}

/// Tells these parts of a datagram.
fn tell_lent<S: Sink>(
    kind: Kind,
    source: &LentName<'_>,
    destination: &LentName<'_>,
    bytes: &[u8],
    sink: &mut S,
) -> Result<(), NoMemory>
    ensures told { OnOk result (S.seen sink.new ≡ fold S.after (S.seen sink.old)
        (Text kind_tag (kind_text kind) ∷ Text source_tag (written source.now)
        ∷ Text destination_tag (written destination.now) ∷ Data data_tag bytes.now ∷ [])) }
    ensures front { Grows S.is_front (S.seen sink.old) (S.seen sink.new) }
{
    sink.text(KIND, kind_name(kind))?;
    sink.shown(SOURCE, source)?;
    sink.shown(DESTINATION, destination)?;
    sink.data(DATA, bytes)
}

/// Tells the bytes of an error packet, if there is one.
fn tell_error<S: Sink>(
    alloc: Global,
    error: Option<ErrorPacket>,
    sink: &mut S,
) -> Result<(), NoMemory>
    ensures told { OnOk result
        (S.seen sink.new ≡ fold S.after (S.seen sink.old) (error_fields error)) }
    ensures front { Grows S.is_front (S.seen sink.old) (S.seen sink.new) }
{
    let Some(error) = error else {
        return Ok(());
    };
    let bytes = encode(alloc, &Packet::Error(error))?;
    sink.digits(ERROR, bytes.as_slice())
}

/// Adds a datagram's kind, source, destination and data, each after a space, as the report has
/// them: `unique`, `group` or `broadcast`; names as their texts; data in hexadecimal, or `empty`.
///
/// # Errors
///
/// `NoMemory` where memory ran out. What stood in the text is still its front.
#[tactic(auto, using(nb_streams::specs::Growth::front_stays))]
pub fn push_parts(datagram: &Datagram, text: &mut String) -> Result<(), NoMemory>
    ensures added { OnOk result
        (string_bytes text.new ≡ string_bytes text.old ++ parts_text datagram.now) }
    ensures front { OnlyAdds (string_bytes text.old) (string_bytes text.new) }
{
    texts_of_reports();
    tell_parts(datagram, text)
}
