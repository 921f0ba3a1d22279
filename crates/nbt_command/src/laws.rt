//! Laws of the definitions that the contracts cite. Each is proved; a call does nothing.
ghost use Rattle.std.specs.Prelude.{◌≡◌, ◌∷◌, [], ℕ, List, codes};
ghost use Rattle.nb_capture.specs.declared.line.Line.TheVariants.{Packet, Tick};
ghost use Rattle.nb_telling.specs.Telling.{Number, Text as Said};
ghost use Rattle.nbt_command.specs.declared.fault.Status.TheVariants.{Done, Refused, BadUsage, Failed};
ghost use Rattle.nbt_command.specs.Objects.{bare_tag, head_fields};
ghost use Rattle.nbt_command.specs.Status.{code_of};

/// The exit statuses, as numbers.
pub fn numbers()
    ensures { (code_of Done ≡ 0) × (code_of Refused ≡ 1) × (code_of BadUsage ≡ 2)
        × (code_of Failed ≡ 3) }
{}

/// What the object of a line begins with, in this order: the line's number, the port of a payload,
/// the moment, and the comment before it, if there is one. No text has these tags.
pub fn objects_begin()
    ensures tags { (name : List ℕ) → bare_tag name ≡ record { name = name; lead = [] } }
    ensures packets { (n port moment : ℕ) (payload : List ℕ) →
        head_fields n (Packet port moment payload) [] ≡ Number (bare_tag (codes "line")) n
        ∷ Number (bare_tag (codes "port")) port ∷ Number (bare_tag (codes "moment")) moment ∷ [] }
    ensures commented { (n port moment first : ℕ) (payload rest : List ℕ) →
        head_fields n (Packet port moment payload) (first ∷ rest)
        ≡ Number (bare_tag (codes "line")) n ∷ Number (bare_tag (codes "port")) port
        ∷ Number (bare_tag (codes "moment")) moment
        ∷ Said (bare_tag (codes "comment")) (first ∷ rest) ∷ [] }
    ensures ticks { (n now : ℕ) → head_fields n (Tick now) []
        ≡ Number (bare_tag (codes "line")) n ∷ Number (bare_tag (codes "moment")) now ∷ [] }
{}
