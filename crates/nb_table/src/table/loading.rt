//! Tables, saved and loaded.
ghost use Rattle.std.specs.Prelude.{◌≡◌, Err, IfOk, IfErr, OnOk, OnErr};
ghost use Rattle.std.specs.Io.KnownBytes.{Appends};
ghost use Rattle.nb_streams.specs.Devices.{AppendsFront, GrowTo, ShowsWriteFault};
ghost use Rattle.nb_streams.specs.Hexadecimal.{digits_text};
ghost use Rattle.nb_entries.specs.declared.saved.LoadFault.{LoadFault};
ghost use Rattle.nb_table.specs.Saved.{IsReadAs, LoadFails, IsSaved, saved as saved_bytes, IsRead, FitsSaved};

use super::{Table, are_counted};
use crate::saved::entries::{form_of, judge, load_entries, save_entries, write_saved};
use nb_entries::LoadFault;
use nb_streams::{Bytes, Counted, DeviceFault, NoMemory};
use std::alloc::Global;
use std::io::Write;

/// The table whose saved bytes these are, with these limits: how many keys it may hold, how many of
/// one address, and how many bytes a datagram may have.
///
/// The bytes are those that [`Table::save`] gives for the table, and no others but those of the
/// first form, for a table without promises: that form begins with "NBT1", and lacks the field for
/// the promise. No memory is taken before all of the input and the limits are judged.
///
/// # Errors
///
/// `BadMagic` where the bytes begin with neither "NBT2" nor "NBT1". Then what is met first from the
/// front to the end of the input, a field being judged before the next one is asked for:
/// `Truncated` where a field that has to follow is missing or cut off; `NotCanonical` with the
/// offset of what no saved table has there. Then `TooLong` where an entry that isn't spoilt has
/// a byte, an end or a promise past the longest datagram; `FullSource` where there are more keys of
/// one address than may be held; `Full` where there are more keys than may be held in all;
/// `NoMemory` where memory ran out. The form is our choice.
pub fn load(
    alloc: Global,
    input: &[u8],
    keys: u32,
    per_source: u32,
    longest: u16,
) -> Result<Table, LoadFault>
    // What is loaded is the table that stands there, and these are its bytes, saved.
    ensures found { IfOk result (λ table. IsReadAs input.now table.contents) }
    ensures bytes { IfOk result (λ table. IsSaved input.now table.contents) }
    ensures limits { IfOk result (λ table.
        table.limits ≡ record { keys = keys; per_source = per_source; longest = longest }) }

    // Which fault it is, and that a fault of what stands in the input is answered.
    ensures fault { IfErr result
        (LoadFails input.now (record { keys = keys; per_source = per_source; longest = longest })) }
    ensures only { (fault : LoadFault) → IsRead input.now (Err fault) → result ≡ Err fault }
{
    let form = form_of(input)?;
    let (count, within) = judge(form, input, longest, per_source)?;
    if !within.is_short {
        return Err(LoadFault::TooLong);
    }
    if !within.are_few {
        return Err(LoadFault::FullSource);
    }
    if count > keys {
        return Err(LoadFault::Full);
    }
    let entries = load_entries(alloc, are_counted(keys, per_source), form, input, count, 8)?;
    Ok(Table {
        entries,
        keys,
        per_source,
        longest,
        alloc,
    })
}

impl Table {
    /// The bytes of the table's contents, for a file or another program. Limits aren't saved.
    ///
    /// They begin with "NBT2" and the number of keys, in four bytes. Then stands each key,
    /// ascending: the address, port and identifier; 00 where the key is spoilt, else 01, the kind,
    /// both names as they are spelled, the end (00, or 01 and two bytes), the promise likewise, the
    /// number of runs, in two bytes, and each of the maximal runs of known bytes, ascending: its
    /// start and length, in two bytes each, and its bytes. Numbers stand with their high byte first
    /// (our choice). The fields have room for each table, and no other contents have its bytes.
    ///
    /// # Errors
    ///
    /// `NoMemory` where memory ran out.
    pub fn save(&self) -> Result<Bytes, NoMemory>
        ensures value { IfOk result (λ bytes. bytes ≡ saved_bytes self.now.contents) }
        ensures fits { OnOk result (FitsSaved self.now.contents) }

        // The bytes are read as this table, and so as no other.
        ensures read_again { IfOk result (λ bytes. IsReadAs bytes self.now.contents) }
    {
        // For the proof of `fits` and `read_again` alone: limits that are read are numbers of their
        // types.
        let _keys = self.keys;
        let _longest = self.longest;
        let saved = save_entries(self.alloc, self.entries.as_map())?;
        Ok(saved)
    }

    /// Writes the hexadecimal digits of the bytes that [`Table::save`] gives, two for each, in
    /// lower case. No memory is taken: the digits are made of the table where it stands, those of
    /// 256 bytes at a time.
    ///
    /// # Errors
    ///
    /// [`DeviceFault`] where a write failed, took no byte, or was interrupted 1,024 times in a row.
    /// A front of the digits is written then. The form is our choice.
    pub fn write_saved<W: Write>(&self, writer: &mut Counted<W>) -> Result<(), DeviceFault>
        ensures written { OnOk result (Appends (W.contents writer.old.inner)
            (W.contents writer.new.inner) (digits_text (saved_bytes self.now.contents))) }
        ensures grow { GrowTo writer.old.counts writer.new.counts }
        ensures err { OnErr result (AppendsFront (W.contents writer.old.inner)
            (W.contents writer.new.inner) (digits_text (saved_bytes self.now.contents))) }
        ensures why { OnErr result (ShowsWriteFault writer.old.counts writer.new.counts) }
    {
        write_saved(writer, self.entries.as_map())
    }
}
