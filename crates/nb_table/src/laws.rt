//! The laws of the definitions, each the contract of a function that does nothing.
//!
//! They speak of the values of `specs/` alone. They say that the definitions mean what they are
//! called, and that no order of arrival, no repeat and no split among stations makes a difference.
//! First those on the table of a list of fragments and on joins of tables, on when fragments
//! contradict each other, and on what all pieces give; then those on the limits on keys: what fits
//! a table, which of the two limits a refusal reports, and which key it names.
#![tactic(auto, using(crate::proofs::LawLemmas::laws))]

ghost use Rattle.std.specs.Prelude.{◌≡◌, ◌≤◌, ◌↔◌, ◌++◌, ℕ, Bool, IsTrue, List, Some, ◌<◌, map, None};
ghost use Rattle.std.specs.FinMap as maps;
ghost use Rattle.nb_datagram.specs.declared.key.Key.{Key};
ghost use Rattle.nb_datagram.specs.Fragment.{Core, Covers, EndsAt, core_of, DatagramParts, FragmentParts};
ghost use Rattle.nb_entries.specs.declared.slot.Slot.TheVariants.{Spoilt, Held};
ghost use Rattle.nb_entries.specs.Maps.{joined_at};
ghost use Rattle.nb_entries.specs.Entry.{EntryFacts, join_entry};
ghost use Rattle.nb_table.specs.Conflict.{IsSpoilt, PastEnd, Conflict, conflicts, is_spoilt, keyed, without_key};
ghost use Rattle.nb_table.specs.Contents.{Contents, IsTableOf, HasByte, HasEnd, HasPromise, table_of, entry_at, IsWholeAt, datagram_at};
ghost use Rattle.nb_table.specs.Join.{join, IsTable, SameCores};
ghost use Rattle.nb_entries.specs.declared.outline.State.{State};
ghost use Rattle.nb_entries.specs.Change.{Change};
ghost use Rattle.nb_table.specs.Change.{IsChange};
ghost use Rattle.nb_table.specs.State.{IsState};
ghost use Rattle.nb_entries.specs.Marks.{Promises};
ghost use Rattle.nb_datagram.specs.Pieces.{pieces};
ghost use Rattle.nb_table.specs.Sender.{HasPartsAlone, HasAll, Gives};
ghost use Rattle.nb_table.specs.Limits.{FewOfEach, every_key, held_keys, of_source, Limits, TableValue};
ghost use Rattle.nb_table.specs.Merging.{SourcesFit, first_unfit, IsRefused};
ghost use Rattle.nb_table.specs.declared.fault.TableFault.TheVariants.{Full, FullSource};
ghost use Rattle.nb_table.specs.Insert.{Refuses, with_fragment};
ghost use Rattle.nb_table.specs.Saved.{IsReadAs, LoadFails};
ghost use Rattle.nb_table.specs.Refusals.{IsNew, below};
ghost use Rattle.nb_entries.specs.declared.saved.LoadFault.TheVariants as faults;

mod saved;

use nb_datagram::laws::pieces_are_parts;
pub use nb_entries::laws::{
    a_map_has_one_row_of_ranges, an_awaited_promise_is_past_the_bytes, cover_join_is_associative,
    cover_join_is_commutative, cover_join_is_idempotent, cover_join_is_well_formed,
    covers_are_equal_where_contents_are, datagram_has_the_bytes_of_its_entry,
    entries_are_equal_where_contents_are, entry_agreement_is_the_relation,
    entry_join_is_associative, entry_join_is_commutative, entry_join_is_idempotent,
    entry_join_is_well_formed, map_of_runs_gives_them_back, promised_place_is_past_the_covered,
    ranges_of_a_map_have_its_places, runs_of_a_map_are_apart, runs_of_a_map_give_it_back,
};
pub use saved::{
    a_saved_table_is_read, a_table_saved_in_the_first_form_is_read, an_input_is_read_as_one_table,
    merging_saved_tables_joins_them, saved_bytes_have_one_reading, saved_bytes_tell_the_table,
    saved_fields_stand_in_order, short_tables_fit_the_fields, what_is_read_is_saved,
};

/// The pieces of a datagram are parts of it, cover all its places, and one of them has M clear, so
/// that their table gives that datagram.
pub fn pieces_are_all_parts()
    ensures alone { (d : DatagramParts) (m : ℕ) → 1 ≤ m →
        HasPartsAlone (map core_of (pieces d m)) d }
    ensures all { (d : DatagramParts) (m : ℕ) → 1 ≤ m → HasAll (map core_of (pieces d m)) d }
    ensures gives { (d : DatagramParts) (m : ℕ) → 1 ≤ m →
        Gives (table_of (map core_of (pieces d m))) d }
{
    pieces_are_parts();
}

/// A table has at each key the entry that its list has there.
pub fn table_has_the_entry_of_its_list()
    ensures { (L : List Core) (k : Key) → maps.get (table_of L) k ≡ entry_at L k }
{}

/// A table has Spoilt at a key exactly where two fragments of its list with that key disagree.
pub fn table_is_spoilt_where_fragments_disagree()
    ensures { (L : List Core) (k : Key) → (maps.get (table_of L) k ≡ Some Spoilt) ↔ IsSpoilt L k }
{}

/// The table of a list has at each key what the list says of it.
pub fn table_of_a_list_is_its_table()
    ensures { (L : List Core) → IsTableOf L (table_of L) }
{}

/// No other table has at each key what the list says of it.
pub fn table_of_a_list_is_the_only_one()
    ensures { (L : List Core) (t : Contents) → IsTableOf L t → t ≡ table_of L }
{}

/// Whatever the order of its fragments, an entry that isn't spoilt has a byte at a place exactly
/// where some fragment of its key covers the place with that byte.
pub fn table_has_the_bytes_of_its_fragments()
    ensures { (L : List Core) (k : Key) (e : EntryFacts) → maps.get (table_of L) k ≡ Some (Held e) →
        (i x : ℕ) → (maps.get e.cover.bytes i ≡ Some x) ↔ HasByte L k i x }
{}

/// Whatever the order of its fragments, an entry that isn't spoilt ends at a place exactly where
/// some fragment of its key ends there.
pub fn table_has_the_ends_of_its_fragments()
    ensures { (L : List Core) (k : Key) (e : EntryFacts) → maps.get (table_of L) k ≡ Some (Held e) →
        (n : ℕ) → (e.cover.marks.end ≡ Some n) ↔ HasEnd L k n }
{}

/// Whatever the order of its fragments, an entry that isn't spoilt has as its promise the greatest
/// place that some fragment of its key promises.
pub fn table_has_the_greatest_promise_of_its_fragments()
    ensures { (L : List Core) (k : Key) (e : EntryFacts) → maps.get (table_of L) k ≡ Some (Held e) →
        (r : ℕ) → (e.cover.marks.promise ≡ Some r) ↔
        (HasPromise L k r × ((s : ℕ) → HasPromise L k s → s ≤ r)) }
{}

/// The table of any list is well formed.
pub fn table_of_a_list_is_well_formed()
    ensures { (L : List Core) → IsTable (table_of L) }
{}

/// The table of one list after another is the join of both tables.
pub fn table_of_two_lists_is_the_join()
    ensures { (L M : List Core) → table_of (L ++ M) ≡ join (table_of L) (table_of M) }
{}

/// Lists with the same set of cores have the same table.
pub fn same_cores_make_the_same_table()
    ensures { (L M : List Core) → SameCores L M → table_of L ≡ table_of M }
{}

/// Two lists have the same cores whichever stands first.
pub fn lists_swapped_have_the_same_cores()
    ensures { (L M : List Core) → SameCores (L ++ M) (M ++ L) }
{}

/// The keys of a table that pass a test are the table of the fragments whose keys pass it.
pub fn keeping_keys_keeps_their_fragments()
    ensures { (L : List Core) (p : Key → Bool) →
        maps.retain_keys (table_of L) p ≡ table_of (keyed p L) }
{}

/// A table without a key is the table of its list without that key's fragments.
pub fn dropping_a_key_drops_its_fragments()
    ensures { (L : List Core) (k : Key) → maps.remove (table_of L) k ≡ table_of (without_key k L) }
{}

/// It makes no difference which of two tables is joined into the other.
pub fn table_join_is_commutative()
    ensures { (a b : Contents) → join a b ≡ join b a }
{}

/// It makes no difference in which groups three tables are joined.
pub fn table_join_is_associative()
    ensures { (a b c : Contents) → join (join a b) c ≡ join a (join b c) }
{}

/// A well-formed table joined with itself is as it was.
pub fn table_join_is_idempotent()
    ensures { (a : Contents) → IsTable a → join a a ≡ a }
{}

/// The join of two well-formed tables is well formed.
pub fn table_join_is_well_formed()
    ensures { (a b : Contents) → IsTable a → IsTable b → IsTable (join a b) }
{}

/// The join of two tables has the keys of either: what one alone has stands as it is there, and a
/// key of both has the join of the entries.
pub fn table_join_has_the_keys_of_either()
    ensures { (a b : Contents) (k : Key) →
        maps.get (join a b) k ≡ joined_at join_entry (maps.get a k) (maps.get b k) }
{}

/// A table gives a datagram at a key exactly where the key is whole in it.
pub fn whole_keys_have_a_datagram()
    ensures { (t : Contents) (k : Key) →
        IsWholeAt t k ↔ ((d : DatagramParts) × (datagram_at t k ≡ Some d)) }
{}

/// One change at most is that between two tables at a key.
pub fn a_change_is_one()
    ensures { (before after : Contents) (k : Key) (c d : Change) →
        IsChange before after k c → IsChange before after k d → c ≡ d }
{}

/// A key is in one state at most.
pub fn a_state_is_one()
    ensures { (t : Contents) (k : Key) (s r : State) → IsState t k s → IsState t k r → s ≡ r }
{}

/// Two fragments fail the test of agreement exactly where they contradict each other.
pub fn conflict_test_is_the_relation()
    ensures { (f g : Core) → IsTrue (conflicts f g) ↔ Conflict f g }
{}

/// A key passes the test for spoilt exactly where two of the list's fragments of it disagree.
pub fn spoilt_test_is_the_relation()
    ensures { (L : List Core) (k : Key) → IsTrue (is_spoilt L k) ↔ IsSpoilt L k }
{}

/// A fragment passes the end of another exactly where it covers a place at or past that end.
pub fn past_an_end_a_place_is_covered()
    ensures { (f g : Core) →
        PastEnd f g ↔ ((n i x : ℕ) × EndsAt f n × Covers g i x × (n ≤ i)) }
{}

/// A fragment that covers the very place at which another ends contradicts it.
pub fn a_byte_at_an_end_conflicts()
    ensures { (f g : Core) (n x : ℕ) → EndsAt f n → Covers g n x → Conflict f g }
{}

/// A fragment that ends past the place at which, or after which, another promises a byte doesn't
/// contradict it, where kinds and names are the same and so is each byte of both.
pub fn an_end_past_a_promise_fits()
    ensures { (f g : Core) (n r : ℕ) → EndsAt f n → Promises g r → r < n →
        f.kind ≡ g.kind → f.source ≡ g.source → f.destination ≡ g.destination →
        ((i x y : ℕ) → Covers f i x → Covers g i y → x ≡ y) → Conflict f g → ⊥ }
{}

/// A fragment that ends at the very place at which, or after which, another promises a byte
/// contradicts it.
pub fn an_end_at_a_promise_conflicts()
    ensures { (f g : Core) (n : ℕ) → EndsAt f n → Promises g n → Conflict f g }
{}

/// Where all fragments of a list with a datagram's key are parts of it, the key is spoilt neither
/// in the list nor in the list's table.
pub fn parts_are_not_spoilt()
    ensures list { (L : List Core) (d : DatagramParts) → HasPartsAlone L d → IsSpoilt L d.key → ⊥ }
    ensures table { (L : List Core) (d : DatagramParts) → HasPartsAlone L d →
        maps.get (table_of L) d.key ≡ Some Spoilt → ⊥ }
{}

/// A key that has parts of one datagram alone is whole if and only if each byte of the datagram
/// came in some part, and so did a part that says that no more follow (M clear).
pub fn parts_are_whole_where_all_are_there()
    ensures { (L : List Core) (d : DatagramParts) → HasPartsAlone L d →
        (IsWholeAt (table_of L) d.key ↔ HasAll L d) }
{}

/// Where all fragments with a datagram's key are parts of it, cover all its places, and one of them
/// has M clear, the table gives that datagram.
pub fn all_parts_give_the_datagram()
    ensures { (L : List Core) (d : DatagramParts) → HasPartsAlone L d → HasAll L d →
        Gives (table_of L) d }
{}

/// All keys of a second table fit a first, which has at most n, exactly where their join has at
/// most n.
pub fn keys_fit_where_the_join_has_no_more()
    ensures { (n : ℕ) (s t : Contents) → maps.len s ≤ n →
        (first_unfit n every_key s t ≡ None) ↔ (maps.len (join s t) ≤ n) }
{}

/// The keys of each address fit a table that has at most n of each exactly where the join has at
/// most n of each.
pub fn sources_fit_where_the_join_has_few_of_each()
    ensures { (n : ℕ) (s t : Contents) → FewOfEach n s →
        SourcesFit n s t ↔ FewOfEach n (join s t) }
{}

/// `Full` is reported only where no address would have more keys than it may: where one would, the
/// fault is `FullSource`, whatever the number of keys in all.
pub fn an_address_over_its_limit_is_reported_first()
    ensures insert { (t : TableValue) (f : FragmentParts) (k : Key) →
        FewOfEach t.limits.per_source t.contents → Refuses t f (Full k) →
        FewOfEach t.limits.per_source (with_fragment t f).contents }
    ensures merge { (l : Limits) (s t : Contents) (k : Key) →
        FewOfEach l.per_source s → IsRefused l s t (Full k) →
        FewOfEach l.per_source (join s t) }
    ensures load { (input : List ℕ) (l : Limits) (t : Contents) →
        IsReadAs input t → LoadFails input l faults.Full → FewOfEach l.per_source t }
{}

/// The key with which a merge is refused as `Full` is the least that finds no room: it is new, and
/// with the other's lesser keys as many would be held as may be.
pub fn full_names_the_least_key()
    ensures new { (l : Limits) (s t : Contents) (k : Key) →
        IsRefused l s t (Full k) → IsNew s t k }
    ensures least { (l : Limits) (s t : Contents) (k : Key) → maps.len s ≤ l.keys →
        IsRefused l s t (Full k) → maps.len (join s (below k t)) ≡ l.keys }
{}

/// The key with which a merge is refused as `FullSource` is the least that finds no room: it is
/// new, with the other's lesser keys as many of its address would be held as may be, and of no
/// address more.
pub fn full_source_names_the_least_key()
    ensures new { (l : Limits) (s t : Contents) (k : Key) →
        IsRefused l s t (FullSource k) → IsNew s t k }
    ensures least { (l : Limits) (s t : Contents) (k : Key) → FewOfEach l.per_source s →
        IsRefused l s t (FullSource k) →
        held_keys (of_source k.ip) (join s (below k t)) ≡ l.per_source }
    ensures others { (l : Limits) (s t : Contents) (k : Key) → FewOfEach l.per_source s →
        IsRefused l s t (FullSource k) → FewOfEach l.per_source (join s (below k t)) }
{}
