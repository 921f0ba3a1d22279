//! Whole saved tables, and their keys with their entries: judged, kept, and written.
ghost use Rattle.std.specs.Prelude.{◌≡◌, ◌⊎◌, ◌&&◌, IfOk, IfErr, OnOk, [], OnErr};
ghost use Rattle.std.specs.BTreeMap.{IsOrdered};
ghost use Rattle.std.specs.List.{AllByRecursion};
ghost use Rattle.std.specs.FinMap as maps;
ghost use Rattle.nb_streams.specs.Places.{StandsAt};
ghost use Rattle.nb_datagram.specs.Key.{key_cmp};
ghost use Rattle.nb_entries.specs.Entry.{is_short as is_short_entry};
ghost use Rattle.nb_entries.specs.Sinks.{Puts};
ghost use Rattle.nb_entries.specs.declared.saved.SavedForm.TheVariants.{Second};
ghost use Rattle.nb_entries.specs.declared.saved.LoadFault.TheVariants.{NoMemory as no_memory};
ghost use Rattle.nb_table.specs.Code.SavedTables.{AreJudged, AreKept, HasNames, IsJudged};
ghost use Rattle.nb_table.specs.Saved.{entries_bytes, keyed_bytes, entries_at, magic, saved as saved_bytes, IsRead};
ghost use Rattle.nb_table.specs.Code.Each.{Passes, Breaks};

use super::{DigitsSink, Part, Sources, put_key, read_key};
use crate::entries::Entries;
use nb_datagram::Key;
use nb_entries::saved::{ByteSink, SavedEntry, SavedForm, put_four_bytes, read_count, read_entry};
use nb_entries::{Entry, LoadFault};
use nb_streams::{Bytes, Counted, DeviceFault, NoMemory};
use std::alloc::Global;
use std::collections::BTreeMap;
use std::io::Write;

/// How many keys a saved table of this form has, and what the limits say of its entries and of the
/// keys of each address. No memory is taken.
pub(crate) fn judge(
    form: SavedForm,
    input: &[u8],
    limit: u16,
    most: u32,
) -> Result<(u32, Within), LoadFault>
    requires { StandsAt input.now 0 (magic form) }
    ensures found { IfOk result (λ read. IsJudged input.now limit most read.0
        read.1.is_short read.1.are_few) }
    ensures fault { IfErr result (λ fault. IsRead input.now (Err fault)) }
{
    let (count, first) = read_count(input, 4)?;
    let (within, last) = judge_entries(form, input, count, limit, most, first)?;
    if last < input.len() {
        return Err(LoadFault::NotCanonical(last));
    }
    Ok((count, within))
}

/// The saved bytes of entries with their keys.
pub(crate) fn save_entries(alloc: Global, entries: &BTreeMap<Key, Entry>) -> Result<Bytes, NoMemory>
    ensures value { IfOk result (λ bytes.
        bytes ≡ saved_bytes (maps.from_entries {R = key_cmp} entries.now.entries)) }
    ensures named { OnOk result (AllByRecursion HasNames
        (maps.entries (maps.from_entries {R = key_cmp} entries.now.entries))) }
{
    let mut saved = Vec::new(alloc);
    put_table(&mut saved, entries)?;
    Ok(Bytes::from_vec(saved))
}

/// Writes the digits of the saved bytes of entries with their keys. No memory is taken.
pub(crate) fn write_saved<W: Write>(
    writer: &mut Counted<W>,
    entries: &BTreeMap<Key, Entry>,
) -> Result<(), DeviceFault>
    ensures passes { OnOk result (Passes W.contents writer.old writer.new
        (saved_bytes (maps.from_entries {R = key_cmp} entries.now.entries)) []) }
    ensures breaks { OnErr result (Breaks W.contents writer.old writer.new
        (saved_bytes (maps.from_entries {R = key_cmp} entries.now.entries))) }
{
    let mut sink = DigitsSink {
        writer,
        part: Part::new(),
    };
    put_table(&mut sink, entries)?;
    sink.write_out()
}

/// Whether none so far passes the limit, and this entry neither.
fn still_short(so_far: bool, entry: &SavedEntry<'_>, limit: u16) -> bool
    ensures { result ≡ (so_far && is_short_entry limit entry.now) }
{
    so_far && entry.is_short(limit)
}

/// What the limits say of entries and their keys.
#[derive(Clone, Copy)]
pub(crate) struct Within {
    /// Whether no entry passes the limit.
    pub(crate) is_short: bool,
    /// Whether no more keys of one address are there than may be.
    pub(crate) are_few: bool,
}

/// What the limits say of this many entries with their keys, from an offset on, and the offset
/// after them.
pub(crate) fn judge_entries(
    form: SavedForm,
    input: &[u8],
    count: u32,
    limit: u16,
    most: u32,
    at: usize,
) -> Result<(Within, usize), LoadFault>
    ensures found { IfOk result (λ read. AreJudged form input.now count limit most at
        read.0.is_short read.0.are_few read.1) }
    ensures fault { IfErr result (λ fault. entries_at form input.now count None at (Err fault)) }
{
    let mut before = None;
    let mut here = at;
    let mut is_short = true;
    let mut sources = Sources::none();
    for _ in 0..count {
        let (key, after) = read_key(input, before, here)?;
        let (entry, next) = read_entry(form, input, after)?;
        is_short = still_short(is_short, &entry, limit);
        sources = sources.with(before, key, most);
        before = Some(key);
        here = next;
    }
    let are_few = sources.are_few;
    Ok((Within { is_short, are_few }, here))
}

/// This many entries with their keys, from an offset on.
pub(crate) fn load_entries(
    alloc: Global,
    are_counted: bool,
    form: SavedForm,
    input: &[u8],
    count: u32,
    at: usize,
) -> Result<Entries, LoadFault>
    ensures kept { IfOk result (AreKept form input.now count at) }
    ensures fault { IfErr result (λ fault.
        (fault ≡ no_memory) ⊎ entries_at form input.now count None at (Err fault)) }
{
    let mut map = Entries::new(alloc, are_counted);
    let mut before = None;
    let mut here = at;
    for _ in 0..count {
        let (key, after) = read_key(input, before, here)?;
        let (entry, next) = read_entry(form, input, after)?;
        map.insert_new(key, entry.load(alloc)?)?;
        before = Some(key);
        here = next;
    }
    Ok(map)
}

/// Puts a key and its entry.
fn put_entry<S: ByteSink>(sink: &mut S, key: Key, entry: &Entry) -> Result<(), S::Fault>
    ensures puts { Puts S.takes S.breaks sink.old sink.new
        (keyed_bytes Second (key, entry.now)) result }
    ensures named { OnOk result (HasNames (key, entry.now)) }
{
    put_key(sink, key)?;
    entry.put_to(sink)
}

/// Puts keys and their entries.
pub(crate) fn put_entries<S: ByteSink>(
    sink: &mut S,
    entries: &BTreeMap<Key, Entry>,
) -> Result<(), S::Fault>
    ensures puts { Puts S.takes S.breaks sink.old sink.new
        (entries_bytes Second entries.now.entries) result }
    ensures named { OnOk result (AllByRecursion HasNames entries.now.entries) }
    ensures ordered { IsOrdered key_cmp entries.now }
{
    for (key, entry) in entries {
        put_entry(sink, *key, entry)?;
    }
    Ok(())
}

/// The form that a saved table begins with.
pub(crate) fn form_of(input: &[u8]) -> Result<SavedForm, LoadFault>
    ensures found { IfOk result (λ form. StandsAt input.now 0 (magic form)) }
    ensures fault { IfErr result (λ fault. IsRead input.now (Err fault)) }
{
    if input.starts_with(b"NBT2") {
        return Ok(SavedForm::Second);
    }
    if input.starts_with(b"NBT1") {
        return Ok(SavedForm::First);
    }
    Err(LoadFault::BadMagic)
}

/// Puts the saved bytes of entries with their keys.
fn put_table<S: ByteSink>(sink: &mut S, entries: &BTreeMap<Key, Entry>) -> Result<(), S::Fault>
    ensures puts { Puts S.takes S.breaks sink.old sink.new
        (saved_bytes (maps.from_entries {R = key_cmp} entries.now.entries)) result }
    ensures named { OnOk result (AllByRecursion HasNames
        (maps.entries (maps.from_entries {R = key_cmp} entries.now.entries))) }
{
    sink.put(b"NBT2")?;
    put_four_bytes(sink, entries.len() as u64)?;
    put_entries(sink, entries)
}
