//! What a table knows of its keys, a line for each: as text, and as JSON objects.
#![tactic(auto, using(nb_streams::specs::Growth::front_stays, nb_telling::proofs::FoldLemmas::told_both))]

ghost use Rattle.std.specs.Prelude.{◌≡◌, ◌++◌, [], IfOk, IsOk, OnOk, string_bytes, fold, map};
ghost use Rattle.std.specs.FinMap as maps;
ghost use Rattle.nb_streams.specs.Growth.{OnlyAdds};
ghost use Rattle.nb_telling.specs.Telling.{Grows};
ghost use Rattle.nb_telling.specs.ObjectLines.{IsObject};
ghost use Rattle.nb_table.specs.Contents.{outline_at, ranges_at, datagram_at};
ghost use Rattle.nb_member.specs.Listing.{key_line, listing};
ghost use Rattle.nb_member.specs.ListingFields.{key_fields, listed_objects, further_range, known_fields, outline_fields, places_fields, ranges_fields};

use crate::laws::{fields_are_members, texts_of_listings};
use crate::report::tell_parts;
use crate::tags::{DESTINATION, END, HELD, KIND, LISTED, MORE, RUNS, SOURCE, STATE};
use nb_datagram::{Key, kind_name};
use nb_streams::NoMemory;
use nb_table::{Outline, Ranges, Table};
use nb_telling::{JsonRoom, JsonSink, Sink};
use std::alloc::Global;

/// The lines of a table's keys, ascending, as `nbt list` prints them (our choice): the key, and
/// `whole` with its datagram, `partial` with what is known of it, or `spoilt`. No memory is wanted
/// where there are no keys.
///
/// # Errors
///
/// `NoMemory` where memory ran out.
pub fn list_keys(alloc: Global, table: &Table) -> Result<String, NoMemory>
    ensures listed { IfOk result (λ lines. string_bytes lines ≡ listing table.now.contents) }
    ensures without_memory { maps.keys table.now.contents ≡ [] → IsOk result }
{
    let mut lines = String::new(alloc);
    for key in table.keys() {
        push_key_line(table, key, &mut lines)?;
    }
    Ok(lines)
}

/// Adds the line of a key that is held, as [`list_keys`] has it. Of one that isn't held it says
/// `spoilt`: whoever has such keys asks the table first.
///
/// # Errors
///
/// `NoMemory` where memory ran out. What stood in the text is still its front; some of the line may
/// stand after it.
pub fn push_key_line(table: &Table, key: Key, text: &mut String) -> Result<(), NoMemory>
    ensures added { OnOk result
        (string_bytes text.new ≡ string_bytes text.old ++ key_line table.now.contents key) }
    ensures front { OnlyAdds (string_bytes text.old) (string_bytes text.new) }
{
    texts_of_listings();
    tell_key(table, key, text)
}

/// The objects (RFC 8259) of a table's keys, ascending, each a line, as `nbt list --json` prints
/// them (our choice): their members are the fields that [`tell_key`] tells.
///
/// # Errors
///
/// [`NoMemory`] where memory ran out.
pub fn list_objects(alloc: Global, table: &Table) -> Result<Vec<u8>, NoMemory>
    ensures { IfOk result (λ objects. objects.items ≡ listed_objects table.now.contents) }
{
    let mut objects = Vec::new(alloc);
    let mut room = JsonRoom::new(alloc);
    for key in table.keys() {
        room = key_object(table, key, room)?;
        objects.extend_from_slice(room.as_slice())?;
    }
    Ok(objects)
}

/// The object of a key, as a line.
fn key_object(table: &Table, key: Key, room: JsonRoom) -> Result<JsonRoom, NoMemory>
    ensures { IfOk result (IsObject (key_fields table.now.contents key)) }
{
    fields_are_members();
    let mut sink = JsonSink::begin(room)?;
    tell_key(table, key, &mut sink)?;
    let mut made = sink.end()?;
    made.end_line()?;
    Ok(made)
}

/// Tells a sink what a table knows of a key that is held: `whole` with its datagram, `partial` with
/// what is known of it, or `spoilt`. Of one that isn't held it tells `spoilt`: whoever has such
/// keys asks the table first.
///
/// # Errors
///
/// [`NoMemory`] where memory ran out. What the sink had is still its front; some of the fields may
/// be told after it.
///
/// The fields are our choice.
pub fn tell_key<S: Sink>(table: &Table, key: Key, sink: &mut S) -> Result<(), NoMemory>
    ensures told { OnOk result (S.seen sink.new
        ≡ fold S.after (S.seen sink.old) (key_fields table.now.contents key)) }
    ensures front { Grows S.is_front (S.seen sink.old) (S.seen sink.new) }
{
    sink.shown(LISTED, &key)?;
    tell_known(table, &key, sink)?;
    sink.line_ends()
}

/// Tells what is known of a key; of one that isn't held, that it is spoilt.
fn tell_known<S: Sink>(table: &Table, key: &Key, sink: &mut S) -> Result<(), NoMemory>
    ensures told { OnOk result (S.seen sink.new ≡ fold S.after (S.seen sink.old)
        (known_fields (datagram_at table.now.contents key.now)
        (outline_at table.now.contents key.now) (ranges_at table.now.contents key.now))) }
    ensures front { Grows S.is_front (S.seen sink.old) (S.seen sink.new) }
{
    if let Some(datagram) = table.datagram(key)? {
        sink.text(STATE, "whole")?;
        return tell_parts(&datagram, sink);
    }
    match table.outline(key) {
        Some(outline) => {
            sink.text(STATE, "partial")?;
            tell_outline(&outline, sink)?;
            tell_places(table.ranges(key), outline.awaited, sink)
        }
        None => sink.text(STATE, "spoilt"),
    }
}

/// Tells what is known of a datagram that isn't whole but for its places.
fn tell_outline<S: Sink>(outline: &Outline, sink: &mut S) -> Result<(), NoMemory>
    ensures told { OnOk result
        (S.seen sink.new ≡ fold S.after (S.seen sink.old) (outline_fields outline.now)) }
    ensures front { Grows S.is_front (S.seen sink.old) (S.seen sink.new) }
{
    sink.text(KIND, kind_name(outline.kind))?;
    sink.shown(SOURCE, &outline.source)?;
    sink.shown(DESTINATION, &outline.destination)?;
    sink.number(HELD, u64::from(outline.held))?;
    sink.known(END, outline.end.map(u64::from))?;
    sink.number(RUNS, u64::from(outline.runs))
}

/// Tells the list of the ranges of known places, and then the place of a promise past these.
fn tell_places<S: Sink>(
    ranges: Ranges<'_>,
    awaited: Option<u32>,
    sink: &mut S,
) -> Result<(), NoMemory>
    ensures told { OnOk result
        (S.seen sink.new ≡ fold S.after (S.seen sink.old) (places_fields ranges.entry awaited)) }
    ensures front { Grows S.is_front (S.seen sink.old) (S.seen sink.new) }
{
    sink.begins("places")?;
    tell_ranges(ranges, sink)?;
    sink.ends()?;
    match awaited {
        Some(place) => sink.number(MORE, u64::from(place)),
        None => Ok(()),
    }
}

/// Tells ranges of places.
fn tell_ranges<S: Sink>(mut ranges: Ranges<'_>, sink: &mut S) -> Result<(), NoMemory>
    ensures told { OnOk result
        (S.seen sink.new ≡ fold S.after (S.seen sink.old) (ranges_fields ranges.entry)) }
    ensures front { Grows S.is_front (S.seen sink.old) (S.seen sink.new) }
{
    match ranges.next() {
        Some(range) => {
            sink.range(" ", u64::from(range.from), u64::from(range.to))?;
            tell_further(ranges, sink)
        }
        None => sink.words(" -"),
    }
}

/// Tells further ranges of places.
fn tell_further<S: Sink>(ranges: Ranges<'_>, sink: &mut S) -> Result<(), NoMemory>
    ensures told { OnOk result
        (S.seen sink.new ≡ fold S.after (S.seen sink.old) (map further_range ranges.entry)) }
    ensures front { Grows S.is_front (S.seen sink.old) (S.seen sink.new) }
{
    for range in ranges {
        sink.range(",", u64::from(range.from), u64::from(range.to))?;
    }
    Ok(())
}
