//! Laws of the definitions that the contracts cite. Each is proved; a call does nothing.
ghost use Rattle.std.specs.Prelude.{◌≡◌, ◌⊎◌, ◌↔◌, ℕ, ◌<◌, List, [], ◌∷◌, ◌++◌};
ghost use Rattle.std.specs.List.{flat_map};
ghost use Rattle.nb_streams.specs.declared.limits.TheConstants.{MAX_INPUT, MAX_INTERRUPTS};
ghost use Rattle.nb_streams.specs.Places.{AreBytes};
ghost use Rattle.nb_streams.specs.Lines.{HasLines};
ghost use Rattle.nb_streams.specs.Growth.{IsFrontOf, OnlyAdds};

/// The limits of the definitions, as numbers.
pub fn numbers()
    ensures input { MAX_INPUT ≡ 16777216 }
    ensures interrupts { MAX_INTERRUPTS ≡ 1024 }
    ensures byte { (byte : ℕ) → AreBytes (byte ∷ []) ↔ (byte < 256) }
{}

/// A text has its lines in exactly one way. With a line feed after each they make the text, or the
/// text with the line feed that its last line lacks.
pub fn text_has_its_lines()
    ensures lines { (text : List ℕ) → (lines : List (List ℕ)) × HasLines text lines }
    ensures one { (text : List ℕ) (lines more : List (List ℕ)) →
        HasLines text lines → HasLines text more → lines ≡ more }
    ensures joined { (text : List ℕ) (lines : List (List ℕ)) → HasLines text lines →
        (flat_map (λ line. line ++ 10 ∷ []) lines ≡ text)
        ⊎ (flat_map (λ line. line ++ 10 ∷ []) lines ≡ text ++ 10 ∷ []) }
{}

/// What only adds to a text leaves the text itself as a front of what it is then, and such a text
/// was only added to.
pub fn what_only_adds_keeps_the_text()
    ensures kept { (old new : List ℕ) → OnlyAdds old new → IsFrontOf old new }
    ensures only { (old new : List ℕ) → IsFrontOf old new → OnlyAdds old new }
{}
