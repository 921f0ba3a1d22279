//! What stands after the list: the counts, as lines or as an object.
#![tactic(auto, using(nb_telling::proofs::FoldLemmas::told_both))]

ghost use Rattle.std.specs.Prelude.{◌≡◌, IfOk, OnOk, fold};
ghost use Rattle.nb_telling.specs.ObjectLines.{IsObject};
ghost use Rattle.nbt_look.specs.Totals.{counts_fields, lacks_fields, last_text, left_out_fields, packets_fields, reasons_fields, rest_fields, said_fields};

use crate::asked::Form;
use crate::counting::{ALL, Counts, LACKS, Lack, LeftOut};
use crate::listing::Listing;
use crate::objects::bare;
use crate::totals::{push_counts, push_last};
use nb_streams::{Bytes, NoMemory};
use nb_telling::{JsonRoom, JsonSink, Sink};
use std::alloc::Global;

/// Tells how often a reason left something out, as a part of a list, where it did.
fn tell_reason<S: Sink>(counts: &Counts, reason: LeftOut, sink: &mut S) -> Result<(), NoMemory>
    ensures { OnOk result (S.seen sink.new
        ≡ fold S.after (S.seen sink.old) (said_fields counts.now reason)) }
{
    let count = counts.of(reason);
    if count == 0 {
        return Ok(());
    }
    sink.part("")?;
    sink.text(bare("reason"), reason.words())?;
    sink.number(bare("frames"), count)?;
    sink.part_ends()
}

/// Tells how often each of these reasons did, where it did.
fn tell_reasons<S: Sink>(counts: &Counts, reasons: &[LeftOut], sink: &mut S) -> Result<(), NoMemory>
    ensures { OnOk result (S.seen sink.new
        ≡ fold S.after (S.seen sink.old) (reasons_fields counts.now reasons.now)) }
{
    for reason in reasons {
        tell_reason(counts, *reason, sink)?;
    }
    Ok(())
}

/// Tells how many frames and packets there are.
fn tell_packets<S: Sink>(counts: &Counts, sink: &mut S) -> Result<(), NoMemory>
    ensures { OnOk result
        (S.seen sink.new ≡ fold S.after (S.seen sink.old) (packets_fields counts.now)) }
{
    sink.number(bare("frames"), counts.frames)?;
    sink.number(bare("packets"), counts.packets)?;
    sink.number(bare("malformed"), counts.malformed)
}

/// Tells the list of the reasons that left something out.
fn tell_left_out<S: Sink>(counts: &Counts, sink: &mut S) -> Result<(), NoMemory>
    ensures { OnOk result
        (S.seen sink.new ≡ fold S.after (S.seen sink.old) (left_out_fields counts.now)) }
{
    sink.begins("left_out")?;
    tell_reasons(counts, &ALL, sink)?;
    sink.ends()
}

/// Tells how many frames without a packet have each of these.
fn tell_lacks<S: Sink>(counts: &Counts, lacks: &[Lack], sink: &mut S) -> Result<(), NoMemory>
    ensures { OnOk result (S.seen sink.new
        ≡ fold S.after (S.seen sink.old) (lacks_fields counts.now lacks.now)) }
{
    for lack in lacks {
        sink.number(bare(lack.member()), counts.lacking(*lack))?;
    }
    Ok(())
}

/// Tells how many frames have no packet, and how many lines there are.
fn tell_rest<S: Sink>(listing: &Listing, sink: &mut S) -> Result<(), NoMemory>
    ensures { OnOk result
        (S.seen sink.new ≡ fold S.after (S.seen sink.old) (rest_fields listing.now)) }
{
    tell_lacks(&listing.counts, &LACKS, sink)?;
    sink.number(bare("shown"), listing.shown)
}

/// Tells how many frames and packets there are, and what they have.
fn tell_counts<S: Sink>(listing: &Listing, sink: &mut S) -> Result<(), NoMemory>
    ensures { OnOk result
        (S.seen sink.new ≡ fold S.after (S.seen sink.old) (counts_fields listing.now)) }
{
    tell_packets(&listing.counts, sink)?;
    tell_left_out(&listing.counts, sink)?;
    tell_rest(listing, sink)
}

/// The object of the counts, as a line.
fn counts_object(listing: &Listing, room: JsonRoom) -> Result<JsonRoom, NoMemory>
    ensures { IfOk result (IsObject (counts_fields listing.now)) }
{
    let mut sink = JsonSink::begin(room)?;
    tell_counts(listing, &mut sink)?;
    let mut made = sink.end()?;
    made.end_line()?;
    Ok(made)
}

/// What stands after the list, in the form that is asked for.
pub fn last_of(alloc: Global, listing: &Listing) -> Result<Bytes, NoMemory>
    ensures { IfOk result (λ last. last ≡ last_text listing.now) }
{
    if !listing.asked.has_counts {
        return Bytes::copy(alloc, &[]);
    }
    match listing.asked.form {
        Form::Lines | Form::Colours => {
            let mut text = String::new(alloc);
            push_last(listing, &mut text)?;
            Bytes::copy(alloc, text.as_bytes())
        }
        Form::Capture(_) => {
            let mut text = String::new(alloc);
            text.push_str("# ")?;
            push_counts(listing, &mut text)?;
            Bytes::copy(alloc, text.as_bytes())
        }
        Form::Objects => {
            let made = counts_object(listing, JsonRoom::new(alloc))?;
            Bytes::copy(alloc, made.as_slice())
        }
    }
}
