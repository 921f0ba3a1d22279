//! Laws of the definitions that the contracts cite. Each is proved; a call does nothing.
ghost use Rattle.std.specs.Prelude.{◌≡◌, ◌⊎◌, ◌<◌, ◌≤◌, ◌^◌, ◌++◌, ◌∷◌, ℕ, List, length};
ghost use Rattle.std.specs.Fmt.{decimal};
ghost use Rattle.nb_capture.specs.declared.limits.TheConstants.{MAX_LINE, MAX_HELD, MAX_MOMENT_DIGITS};
ghost use Rattle.nb_streams.specs.declared.limits.TheConstants.{MAX_READ};
ghost use Rattle.nb_streams.specs.Places.{AreBytes};
ghost use Rattle.nb_capture.specs.declared.line.Line.{Line};
ghost use Rattle.nb_capture.specs.declared.line.Line.TheVariants.{Packet, Tick};
ghost use Rattle.nb_capture.specs.Capture.{line_feed, space, number_sign, HasValue, PortText, SaysNothing, IsMalformed, comment_line, packet_line, tick_line};
ghost use Rattle.nb_capture.specs.LineReading.{ManyCalls, RoomValue, nothing_within};

/// The limits, and the characters of a capture's lines, as numbers.
pub fn limits_are_these_numbers()
    ensures line { MAX_LINE ≡ 262200 }
    ensures read { MAX_READ ≡ 4096 }
    ensures held { MAX_HELD ≡ 266296 }
    ensures digits { MAX_MOMENT_DIGITS ≡ 20 }
    ensures line_feed { line_feed ≡ 10 }
    ensures space { space ≡ 32 }
    ensures number_sign { number_sign ≡ 35 }
{}

/// A line of a capture says one thing at most, and none that says nothing.
pub fn a_line_has_one_value()
    ensures one { (line : List ℕ) (value other : Line) →
        HasValue line value → HasValue line other → value ≡ other }
    ensures alone { (line : List ℕ) (value : Line) →
        HasValue line value → ¬ SaysNothing line }
{}

/// Any bytes are a line that says nothing, one that has a value, or a malformed one.
#[tactic(auto, using(crate::proofs::CaptureLemmas::LineValues::one_of_three))]
pub fn a_line_is_one_of_three()
    ensures { (line : List ℕ) →
        SaysNothing line ⊎ (((value : Line) × HasValue line value) ⊎ IsMalformed line) }
{}

/// What calls for lines got from a reader is what they handed out, and then what the room still
/// holds: no byte is lost, and none is handed out twice.
pub fn what_came_is_handed_out_or_held()
    ensures { (most : ℕ) (handed got : List ℕ) (room : RoomValue) →
        ManyCalls (nothing_within most) handed got room → got ≡ handed ++ room.rest }
{}

/// What is written is read: the line of a payload, of as many bytes as a packet of any service may
/// have, has this port, this moment and these bytes, a tick its moment, and a comment says nothing.
pub fn a_written_line_is_read()
    ensures packet { (port moment : ℕ) (payload : List ℕ) → PortText port (decimal port)
        → moment < 2 ^ 64 → AreBytes payload → length payload ≤ 131075
        → HasValue (packet_line port moment payload) (Packet port moment payload) }
    ensures tick { (now : ℕ) → now < 2 ^ 64 → HasValue (tick_line now) (Tick now) }
    ensures comment { (text : List ℕ) → length (comment_line (number_sign ∷ text)) ≤ 262200
        → SaysNothing (comment_line (number_sign ∷ text)) }
{}
