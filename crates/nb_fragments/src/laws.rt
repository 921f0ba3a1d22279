//! The laws of the definitions, each the contract of a function that does nothing.
ghost use Rattle.std.specs.Prelude.{◌≡◌, ◌≢◌, ◌↔◌, ◌++◌, ◌∷◌, [], List, IsTrue};
ghost use Rattle.nb_fragments.specs.declared.key.Key.{Key};
ghost use Rattle.nb_fragments.specs.Keys.{same_key};
ghost use Rattle.nb_entries.specs.Cover.{CoverValue};
ghost use Rattle.nb_fragments.specs.Live.{Came, cover_at};
ghost use Rattle.nb_fragments.specs.Taking.{IsTaken};
ghost use Rattle.nb_fragments.specs.declared.taken.Taken.TheVariants.{Again, Kept};

/// Two keys are one exactly where their addresses, protocols and numbers are.
#[tactic(auto, using(crate::proofs::LawLemmas::keys_decide))]
pub fn keys_are_one_where_their_parts_are()
    ensures { (a b : Key) → IsTrue (same_key a b) ↔ (a ≡ b) }
{}

/// A fragment of another packet changes nothing of what the fragments of this one say.
#[tactic(auto, using(crate::proofs::LawLemmas::others_change_nothing))]
pub fn a_fragment_of_another_packet_changes_nothing()
    ensures { (key : Key) (live : List Came) (came : Came) → came.key ≢ key →
        cover_at key (live ++ came ∷ []) ≡ cover_at key live }
{}

/// It makes no difference which of two fragments comes first.
#[tactic(auto, using(crate::proofs::LawLemmas::either_first))]
pub fn fragments_may_come_in_any_order()
    ensures { (key : Key) (live : List Came) (one other : Came) →
        cover_at key ((live ++ one ∷ []) ++ other ∷ [])
        ≡ cover_at key ((live ++ other ∷ []) ++ one ∷ []) }
{}

/// No fragment has both answers: that its packet isn't whole yet, and that it was whole before.
pub fn a_packet_is_whole_or_not()
    ensures { (before after : CoverValue) → IsTaken before after Again →
        IsTaken before after Kept → ⊥ }
{}
