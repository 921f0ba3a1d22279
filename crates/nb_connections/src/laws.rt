//! Laws of the definitions that the contracts cite. Each is proved; a call does nothing.
ghost use Rattle.std.specs.Prelude.{◌≡◌, ℕ, ◌++◌, ◌∷◌, List, Some, None, true, false, filter};
ghost use Rattle.nb_connections.specs.Channels.{begins};
ghost use Rattle.nb_connections.specs.Course.{AfterBadHeader, AfterGap, reading_at};
ghost use Rattle.nb_connections.specs.Directions.{Came, is_of, since};
ghost use Rattle.nb_connections.specs.Reading.{started};
ghost use Rattle.nb_connections.specs.declared.piece.Ends.{Ends};
ghost use Rattle.nb_connections.specs.declared.limits.TheConstants.{MAX_DIRECTIONS, MAX_KEPT};

/// The same SYN again changes nothing. One with another number begins a direction anew, and nothing
/// else does.
pub fn another_syn_begins_anew()
    ensures same { begins 5 true 5 ≡ false }
    ensures another { begins 5 true 6 ≡ true }
    ensures none { begins 5 false 6 ≡ false }
{}

/// After a gap a direction goes on with the number at which the awaited packet ends, and with no
/// other; after a bad header it doesn't go on.
pub fn a_gap_ends_where_the_packet_does()
    ensures there { reading_at (AfterGap (Some 7)) 7 ≡ Some (started 7) }
    ensures elsewhere { reading_at (AfterGap (Some 7)) 8 ≡ None }
    ensures unknown { (number : ℕ) → reading_at (AfterGap None) number ≡ None }
    ensures header { (number : ℕ) → reading_at AfterBadHeader number ≡ None }
{}

/// Segments of other directions, and those that are of none, change nothing of one.
pub fn others_change_nothing()
    ensures { (ends : Ends) (before later : List Came) (other : Came) →
        is_of ends other ≡ false →
        since (filter (is_of ends) (before ++ other ∷ later))
        ≡ since (filter (is_of ends) (before ++ later)) }
{}

/// The numbers that the definitions cite.
pub fn numbers()
    ensures directions { MAX_DIRECTIONS ≡ 65536 }
    ensures kept { MAX_KEPT ≡ 67108864 }
{}
