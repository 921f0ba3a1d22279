//! Laws of the definitions that the contracts cite. Each is proved; a call does nothing.
ghost use Rattle.std.specs.Prelude.{◌≡◌, ◌∷◌, [], codes};
ghost use Rattle.nbt_usage.specs.CommandLine.{keys_rule};
ghost use Rattle.nbt_usage.specs.declared.limits.TheConstants.{KEYS, MOST_INPUT, MOST_KEYS};

/// The limits of the command line, as numbers, and the word for keys where none is given.
pub fn limits_are_these_numbers()
    ensures keys { MOST_KEYS ≡ 65535 }
    ensures usual { (KEYS ≡ 1024) × (keys_rule.defaults ≡ codes "1024" ∷ []) }
    ensures input { MOST_INPUT ≡ 18446744073709551615 }
{}
