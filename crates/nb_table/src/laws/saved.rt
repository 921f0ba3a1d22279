//! Saved tables: what their bytes tell, and what is read of bytes.
#![tactic(auto, using(crate::proofs::LawLemmas::saved_laws))]

ghost use Rattle.std.specs.Prelude.{◌≡◌, ℕ, List, Ok, length, ◌↔◌, ◌<◌, ◌^◌, None, Some};
ghost use Rattle.std.specs.FinMap as maps;
ghost use Rattle.nb_datagram.specs.declared.key.Key.{Key};
ghost use Rattle.nb_datagram.specs.declared.limits.TheConstants.{MAX_LENGTH};
ghost use Rattle.nb_datagram.specs.Key.{key_cmp};
ghost use Rattle.nb_table.specs.Contents.{Contents};
ghost use Rattle.nb_entries.specs.Entry.{EntryValue};
ghost use Rattle.nb_table.specs.Join.{IsTable, join};
ghost use Rattle.nb_table.specs.Limits.{TableValue, with_contents};
ghost use Rattle.nb_table.specs.Saved.{IsReadAs, HasNoPromise, IsSaved, saved, saved_first, FitsSaved, IsRead};
ghost use Rattle.nb_table.specs.Merging.{AllShort};
ghost use Rattle.nb_entries.specs.SavedReading.{Outcome};
ghost use Rattle.nb_datagram.specs.Header.{IsKey};
ghost use Rattle.nb_entries.specs.Maps.{OnHeld};
ghost use Rattle.nb_table.specs.SavedExample.{example_saved, example_saved_first, example_table};
ghost use Rattle.nb_entries.specs.Saved.{IsNamed};

use nb_names::laws::labels_tell_the_name;

/// Of an input either a saved table is read or one fault, and no other.
pub fn saved_bytes_have_one_reading()
    ensures { (input : List ℕ) (outcome other : Outcome (List (Key × EntryValue))) →
        IsRead input outcome → IsRead input other → outcome ≡ other }
{}

/// An input is read as one table at most: equal saved bytes are those of equal tables.
pub fn an_input_is_read_as_one_table()
    ensures { (input : List ℕ) (t u : Contents) → IsReadAs input t → IsReadAs input u → t ≡ u }
{}

/// An input of which a table is read is the saved bytes of that table, in the second form or the
/// first.
pub fn what_is_read_is_saved()
    ensures bytes { (input : List ℕ) (entries : List (Key × EntryValue)) (last : ℕ) →
        IsRead input (Ok (entries, last)) →
        IsSaved input (maps.from_entries {R = key_cmp} entries) }
    ensures entries { (input : List ℕ) (entries : List (Key × EntryValue)) (last : ℕ) →
        IsRead input (Ok (entries, last)) →
        maps.entries (maps.from_entries {R = key_cmp} entries) ≡ entries }
    ensures formed { (input : List ℕ) (entries : List (Key × EntryValue)) (last : ℕ) →
        IsRead input (Ok (entries, last)) → IsTable (maps.from_entries {R = key_cmp} entries) }
{}

/// The saved bytes of a well-formed table of datagrams of at most 65,535 bytes, which fits the
/// fields of a saved table, are read as that table.
pub fn a_saved_table_is_read()
    ensures { (t : Contents) → FitsSaved t → IsTable t → AllShort MAX_LENGTH t →
        IsRead (saved t) (Ok (maps.entries t, length (saved t))) }
{}

/// The same holds of a table without promises that is saved in the first form.
pub fn a_table_saved_in_the_first_form_is_read()
    ensures { (t : Contents) → HasNoPromise t → FitsSaved t → IsTable t → AllShort MAX_LENGTH t →
        IsRead (saved_first t) (Ok (maps.entries t, length (saved_first t))) }
{}

/// Two tables are saved, each in either form, and loaded: what is loaded, merged, has the join of
/// the contents that were saved. Their entries are well formed and of datagrams of at most 65,535
/// bytes, and fit the fields of a saved table, as those of each table do.
pub fn merging_saved_tables_joins_them()
    ensures { (input other : List ℕ) (t u : Contents) (first second merged : TableValue) →
        IsSaved input t → FitsSaved t → IsTable t → AllShort MAX_LENGTH t →
        IsSaved other u → FitsSaved u → IsTable u → AllShort MAX_LENGTH u →
        IsReadAs input first.contents → IsReadAs other second.contents →
        merged ≡ with_contents first (join first.contents second.contents) →
        merged.contents ≡ join t u }
{}

/// Two tables that fit the fields of a saved table have equal bytes exactly where they are equal.
pub fn saved_bytes_tell_the_table()
    ensures { (t u : Contents) → FitsSaved t → FitsSaved u → (saved t ≡ saved u) ↔ (t ≡ u) }
{
    labels_tell_the_name();
}

/// A table of datagrams of at most 65,535 bytes and of fewer than 2^32 keys fits the fields of a
/// saved table.
pub fn short_tables_fit_the_fields()
    ensures { (t : Contents) → maps.len t < 2 ^ 32 → AllShort MAX_LENGTH t →
        ((k : Key) (e : EntryValue) → maps.get t k ≡ Some e → IsKey k × OnHeld IsNamed e) →
        FitsSaved t }
{}

/// The bytes of a table of which no two fields are equal, written out, in both forms.
pub fn saved_fields_stand_in_order()
    ensures second { saved (example_table (Some 3341)) ≡ example_saved }
    ensures first { saved_first (example_table None) ≡ example_saved_first }
{}
