//! Saved entries, which borrow their runs: read, kept, and written.
ghost use Rattle.std.specs.Prelude.{◌≡◌, IfOk, OnOk};
ghost use Rattle.nb_entries.specs.Entry.{is_short as is_short_entry, EntryFacts};
ghost use Rattle.nb_entries.specs.Sinks.{Puts};
ghost use Rattle.nb_entries.specs.Saved.{facts_bytes, entry_bytes, IsNamed};
ghost use Rattle.nb_entries.specs.SavedReading.{facts_at, entry_at, most_of as most_reading};
ghost use Rattle.nb_entries.specs.Maps.{Held, OnHeld};
ghost use Rattle.nb_entries.specs.declared.saved.SavedForm.TheVariants.{Second};
ghost use Rattle.nb_entries.specs.Codes.{entry_facts_code};
ghost use Rattle.nb_entries.specs.Cover.{AreCoverFacts};
ghost use Rattle.nb_entries.specs.Runs.{map_of_runs};

use super::fields::{read_byte, read_kind, read_marks, read_plain_name};
use super::runs::{SavedRuns, read_runs};
use super::{ByteSink, LoadFault, SavedForm};
use crate::cover::CoverFacts;
use crate::cover::marks::Marks;
use crate::entry::{Entry, EntryFacts};
use crate::slot::Slot;
use nb_datagram::Kind;
use nb_datagram::limits::MAX_LENGTH;
use nb_names::LentName;
use nb_streams::NoMemory;
use std::alloc::Global;
use std::marker::Model;

/// What a saved entry holds. The names and the bytes are lent from the input.
#[derive(Drop)]
pub struct SavedFacts<'a> {
    kind: Kind,
    source: LentName<'a>,
    destination: LentName<'a>,
    marks: Marks,
    runs: SavedRuns<'a>,
}

impl<'a> Model for SavedFacts<'a> {
    ghost Value = { EntryFacts };

    ghost coded = { entry_facts_code };

    ghost view = { λ f. record {
      kind = f.kind;
      source = f.source;
      destination = f.destination;
      cover = record { bytes = map_of_runs f.runs; marks = f.marks };
    } };

    ghost invariant = { λ f.
        AreCoverFacts (record { bytes = map_of_runs f.runs; marks = f.marks }) };
}

/// The place that no run passes: the end, where it is known.
fn most_of(end: Option<u32>) -> u32
    ensures { result ≡ most_reading end }
{
    end.unwrap_or(MAX_LENGTH as u32)
}

/// What is held by the entry at an offset.
fn read_facts<'a>(
    form: SavedForm,
    input: &'a [u8],
    at: usize,
) -> Result<(SavedFacts<'a>, usize), LoadFault>
    ensures { facts_at form input.now at result }
{
    let (kind, after_kind) = read_kind(input, at)?;
    let (source, after_source) = read_plain_name(input, after_kind)?;
    let (destination, after_names) = read_plain_name(input, after_source)?;
    let (marks, after_marks) = read_marks(form, input, after_names)?;
    let (runs, next) = read_runs(input, most_of(marks.end), after_marks)?;
    let facts = SavedFacts {
        kind,
        source,
        destination,
        marks,
        runs,
    };
    Ok((facts, next))
}

impl<'a> SavedFacts<'a> {
    /// Whether no run, no end and no promise passes the limit.
    fn is_short(&self, limit: u16) -> bool
        ensures { result ≡ is_short_entry limit (Held self.now) }
    {
        self.runs.are_short(limit) && self.marks.are_up_to(u32::from(limit))
    }

    /// The facts, kept.
    fn load(&self, alloc: Global) -> Result<EntryFacts, NoMemory>
        ensures { IfOk result (λ facts. facts ≡ self.now) }
    {
        let cover = CoverFacts::load(alloc, &self.runs, self.marks)?;
        EntryFacts::new(alloc, self.kind, &self.source, &self.destination, cover)
    }
}

impl EntryFacts {
    /// Puts the kind, both names and the cover.
    fn put_to<S: ByteSink>(&self, sink: &mut S) -> Result<(), S::Fault>
        ensures puts { Puts S.takes S.breaks sink.old sink.new
            (facts_bytes Second self.now) result }
        ensures named { IsNamed self.now }
    {
        // For the clause `named`; the calls do nothing.
        let _ = self.source().bytes();
        let _ = self.destination().bytes();
        sink.put(&[self.kind().message_type()])?;
        sink.put(self.source().to_domain().spelling())?;
        sink.put(self.destination().to_domain().spelling())?;
        self.cover().put_to(sink)
    }
}

/// A saved entry: spoilt, or what it holds.
pub type SavedEntry<'a> = Slot<SavedFacts<'a>>;

/// The entry at an offset, and the offset after it. No memory is taken.
///
/// # Errors
///
/// The first fault of its fields, in the order in which they stand: `Truncated` or `NotCanonical`
/// (our choice).
pub fn read_entry<'a>(
    form: SavedForm,
    input: &'a [u8],
    at: usize,
) -> Result<(SavedEntry<'a>, usize), LoadFault>
    ensures { entry_at form input.now at result }
{
    let (state, next) = read_byte(input, at)?;
    match state {
        0 => Ok((Slot::Spoilt, next)),
        1 => {
            let (facts, after) = read_facts(form, input, next)?;
            Ok((Slot::Held(facts), after))
        }
        _ => Err(LoadFault::NotCanonical(at)),
    }
}

impl<'a> Slot<SavedFacts<'a>> {
    /// Whether the entry is spoilt, or no run, no end and no promise of it passes the limit.
    pub fn is_short(&self, limit: u16) -> bool
        ensures { result ≡ is_short_entry limit self.now }
    {
        match self {
            Slot::Held(facts) => facts.is_short(limit),
            Slot::Spoilt => true,
        }
    }

    /// The entry, kept.
    ///
    /// # Errors
    ///
    /// `NoMemory` where memory ran out.
    pub fn load(&self, alloc: Global) -> Result<Entry, NoMemory>
        ensures { IfOk result (λ entry. entry ≡ self.now) }
    {
        match self {
            Slot::Held(facts) => Ok(Slot::Held(facts.load(alloc)?)),
            Slot::Spoilt => Ok(Slot::Spoilt),
        }
    }
}

impl Slot<EntryFacts> {
    /// Puts whether the entry is held, and what is, in the second form.
    ///
    /// # Errors
    ///
    /// Why the sink takes no more.
    pub fn put_to<S: ByteSink>(&self, sink: &mut S) -> Result<(), S::Fault>
        ensures puts { Puts S.takes S.breaks sink.old sink.new
            (entry_bytes Second self.now) result }
        ensures named { OnOk result (OnHeld IsNamed self.now) }
    {
        match self {
            Slot::Held(facts) => {
                sink.put(&[1])?;
                facts.put_to(sink)
            }
            Slot::Spoilt => sink.put(&[0]),
        }
    }
}
