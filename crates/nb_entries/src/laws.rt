//! The laws of the definitions, each the contract of a function that does nothing.
//!
//! They speak of the values of `specs/` alone, and say that the definitions mean what they are
//! called.
#![tactic(auto, using(crate::proofs::LawLemmas::laws))]

ghost use Rattle.std.specs.Prelude.{◌≡◌, ℕ, ◌↔◌, IsTrue, Some, List, ◌≤◌, ◌+◌, length};
ghost use Rattle.std.specs.FinMap as maps;
ghost use Rattle.nb_entries.specs.Marks.{GoesOnFrom, Promises};
ghost use Rattle.nb_entries.specs.Cover.{CoverFacts, CoverValue, join_cover, IsCover};
ghost use Rattle.nb_entries.specs.Entry.{EntryValue, join_entry, IsEntry, EntryFacts, FactsFit, facts_agree};
ghost use Rattle.nb_entries.specs.Equal.{same_cover, same_entry};
ghost use Rattle.nb_datagram.specs.Fragment.{Core, Covers, DatagramParts};
ghost use Rattle.nb_datagram.specs.declared.key.Key.{Key};
ghost use Rattle.nb_entries.specs.Maps.{Held};
ghost use Rattle.nb_entries.specs.Piece.{PieceParts};
ghost use Rattle.nb_entries.specs.CoverChange.{IsData, data_of, known_of, with_piece};
ghost use Rattle.nb_entries.specs.Whole.{IsDatagram, datagram_of, IsAwaited, awaited_of};
ghost use Rattle.std.specs.Ordering.{nat_cmp};
ghost use Rattle.nb_entries.specs.Runs.{RunValue, AreApart, map_of_runs, runs_of_map, AreRangesOf, ranges_of_map};
ghost use Rattle.nb_entries.specs.declared.ranges.PlaceRange.{PlaceRange};

/// Two entries pass the test of agreement exactly where they don't contradict each other: one kind,
/// the same names, and covers of which neither contradicts the other.
pub fn entry_agreement_is_the_relation()
    ensures { (a b : EntryFacts) → IsTrue (facts_agree a b) ↔ FactsFit a b }
{}

/// It makes no difference which of two covers is joined into the other.
pub fn cover_join_is_commutative()
    ensures { (a b : CoverValue) → join_cover a b ≡ join_cover b a }
{}

/// It makes no difference in which groups three covers are joined.
pub fn cover_join_is_associative()
    ensures { (a b c : CoverValue) → join_cover (join_cover a b) c ≡ join_cover a (join_cover b c) }
{}

/// A well-formed cover joined with itself is as it was.
pub fn cover_join_is_idempotent()
    ensures { (a : CoverValue) → IsCover a → join_cover a a ≡ a }
{}

/// The join of two well-formed covers is well formed.
#[tactic(auto, using(crate::specs::Shared::EntryLemmas::join_cover_formed))]
pub fn cover_join_is_well_formed()
    ensures { (a b : CoverValue) → IsCover a → IsCover b → IsCover (join_cover a b) }
{}

/// It makes no difference which of two entries is joined into the other.
pub fn entry_join_is_commutative()
    ensures { (a b : EntryValue) → join_entry a b ≡ join_entry b a }
{}

/// It makes no difference in which groups three entries are joined.
pub fn entry_join_is_associative()
    ensures { (a b c : EntryValue) → join_entry (join_entry a b) c ≡ join_entry a (join_entry b c) }
{}

/// A well-formed entry joined with itself is as it was.
pub fn entry_join_is_idempotent()
    ensures { (a : EntryValue) → IsEntry a → join_entry a a ≡ a }
{}

/// The join of two well-formed entries is well formed.
#[tactic(auto, using(crate::specs::Shared::EntryLemmas::join_entry_formed))]
pub fn entry_join_is_well_formed()
    ensures { (a b : EntryValue) → IsEntry a → IsEntry b → IsEntry (join_entry a b) }
{}

/// Two covers are equal exactly where their contents are.
#[tactic(auto, using(crate::specs::Shared::EqualLemmas::cover_decides))]
pub fn covers_are_equal_where_contents_are()
    ensures { (a b : CoverValue) → IsTrue (same_cover a b) ↔ (a ≡ b) }
{}

/// Two entries are equal exactly where their contents are.
#[tactic(auto, using(crate::specs::Shared::EqualLemmas::entry_decides))]
pub fn entries_are_equal_where_contents_are()
    ensures { (a b : EntryValue) → IsTrue (same_entry a b) ↔ (a ≡ b) }
{}

/// A fragment promises a place exactly where it has M set, and the places that it covers are over
/// there.
#[tactic(auto, using(crate::proofs::Covers::goes_on_from))]
pub fn promised_place_is_past_the_covered()
    ensures { (f : Core) (r : ℕ) → Promises f r ↔ GoesOnFrom f r }
{}

/// The datagram of an entry has its key, kind and names, and its bytes up to the end, in order.
#[tactic(auto, using(crate::specs::Shared::WholeLemmas::datagram_exactly))]
pub fn datagram_has_the_bytes_of_its_entry()
    ensures { (k : Key) (e : EntryFacts) (d : DatagramParts) →
        (datagram_of k (Held e) ≡ Some d) ↔ IsDatagram k e d }
{}

/// It makes no difference in which order two pieces are joined into a cover.
#[tactic(auto, using(crate::proofs::LawLemmas::pieces_turned))]
pub fn pieces_may_come_in_any_order()
    ensures { (c : CoverValue) (p q : PieceParts) →
        with_piece (with_piece c p) q ≡ with_piece (with_piece c q) p }
{}

/// A piece that is joined into a cover again changes nothing.
#[tactic(auto, using(crate::proofs::LawLemmas::piece_again))]
pub fn a_piece_again_changes_nothing()
    ensures { (c : CoverValue) (p : PieceParts) → with_piece (with_piece c p) p ≡ with_piece c p }
{}

/// A piece adds at most as many places as it has bytes.
#[tactic(auto, using(crate::proofs::CoverChanges::known_more))]
pub fn a_piece_adds_at_most_its_bytes()
    ensures { (c : CoverValue) (p : PieceParts) →
        known_of (with_piece c p) ≤ known_of c + length p.bytes }
{}

/// The data of a cover is its bytes up to its end, in order.
#[tactic(auto, using(crate::proofs::CoverChanges::data_exactly))]
pub fn data_has_the_bytes_of_its_cover()
    ensures { (c : CoverFacts) (xs : List ℕ) → (data_of (Held c) ≡ Some xs) ↔ IsData c xs }
{}

/// The runs of a map of bytes are apart, and ascend.
#[tactic(auto, using(crate::specs::Shared::RunsLemmas::runs_apart))]
pub fn runs_of_a_map_are_apart()
    ensures { (m : maps.FinMap nat_cmp ℕ) → AreApart (runs_of_map m) }
{}

/// The map of the runs of a map is that map.
#[tactic(auto, using(crate::specs::Shared::RunsLemmas::given_back))]
pub fn runs_of_a_map_give_it_back()
    ensures { (m : maps.FinMap nat_cmp ℕ) → map_of_runs (runs_of_map m) ≡ m }
{}

/// The runs of the map of a row of runs that are apart are that row.
#[tactic(auto, using(crate::specs::Shared::RunsLemmas::runs_back))]
pub fn map_of_runs_gives_them_back()
    ensures { (rs : List RunValue) → AreApart rs → runs_of_map (map_of_runs rs) ≡ rs }
{}

/// The ranges of a map of bytes are apart, ascend, and have the places of its bytes and no other.
#[tactic(auto, using(crate::proofs::Runs::ranges_are))]
pub fn ranges_of_a_map_have_its_places()
    ensures { (m : maps.FinMap nat_cmp ℕ) → AreRangesOf m (ranges_of_map m) }
{}

/// No other row of ranges does.
pub fn a_map_has_one_row_of_ranges()
    ensures { (m : maps.FinMap nat_cmp ℕ) (rs ss : List PlaceRange) →
        AreRangesOf m rs → AreRangesOf m ss → rs ≡ ss }
{}

/// A promise is awaited exactly where each known byte lies below its place.
pub fn an_awaited_promise_is_past_the_bytes()
    ensures { (c : CoverFacts) (r : ℕ) → (awaited_of c ≡ Some r) ↔ IsAwaited c r }
{}
