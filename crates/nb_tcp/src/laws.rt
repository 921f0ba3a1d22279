//! Laws of the definitions that the contracts cite. Each is proved; a call does nothing.
ghost use Rattle.std.specs.Prelude.{◌≡◌, [], ◌∷◌, Some, None};
ghost use Rattle.nb_tcp.specs.Order.{OnePlace, StandsAt, placed, reach_after};
ghost use Rattle.nb_tcp.specs.declared.limits.TheConstants.{START, LAST, ROOM, TAIL, RUN_COST};

/// A sequence number has one place.
pub fn a_number_has_one_place()
    ensures { OnePlace }
{}

/// After the number 4,294,967,295 comes 0.
pub fn numbers_wrap()
    ensures last { StandsAt 4294967295 4294967296 4294967295 4294967296 }
    ensures first { StandsAt 4294967295 4294967296 0 4294967297 }
    ensures back { StandsAt 5 4294967296 4 4294967295 }
{}

/// Of `ab` and then `xc`, sent one byte later, the bytes are `abc`.
pub fn the_first_byte_counts()
    ensures first { placed (record { place = 100; bytes = 97 ∷ 98 ∷ []; numbers = 2 }
        ∷ record { place = 101; bytes = 120 ∷ 99 ∷ []; numbers = 2 } ∷ []) 101 ≡ Some 98 }
    ensures after { placed (record { place = 100; bytes = 97 ∷ 98 ∷ []; numbers = 2 }
        ∷ record { place = 101; bytes = 120 ∷ 99 ∷ []; numbers = 2 } ∷ []) 102 ≡ Some 99 }
{}

/// Of three bytes of which a snap length left one, the others are missing; a keep-alive, one byte
/// before the end of what was sent, doesn't bring the last one, and a repeat of the two does.
pub fn a_keep_alive_sends_nothing()
    ensures cut { placed (record { place = 100; bytes = 97 ∷ []; numbers = 3 } ∷ []) 102 ≡ None }
    ensures reach { reach_after 0 (record { place = 100; bytes = 97 ∷ []; numbers = 3 } ∷ [])
        ≡ 103 }
    ensures keep_alive { placed (record { place = 100; bytes = 97 ∷ []; numbers = 3 }
        ∷ record { place = 102; bytes = 0 ∷ []; numbers = 1 } ∷ []) 102 ≡ None }
    ensures again { placed (record { place = 100; bytes = 97 ∷ []; numbers = 3 }
        ∷ record { place = 101; bytes = 98 ∷ 99 ∷ []; numbers = 2 } ∷ []) 102 ≡ Some 99 }
{}

/// The numbers that the definitions cite.
pub fn numbers()
    ensures places { (START ≡ 4294967296) × (LAST ≡ 4611686018427387904) }
    ensures room { (ROOM ≡ 1048576) × (TAIL ≡ 65536) × (RUN_COST ≡ 64) }
{}
