//! Laws of the definitions that the contracts cite. Each is proved; a call does nothing.
ghost use Rattle.std.specs.Prelude.{◌≡◌, ◌≢◌, ◌↔◌, ◌⊎◌, ℕ, ◌+◌, ◌*◌, ◌/◌, ◌%◌, ◌<◌, ◌≤◌, List, ◌++◌, length, slice_index, IsTrue};
ghost use Rattle.std.specs.Int.{w16, to_be_bytes};
ghost use Rattle.nb_names.specs.declared.fault.NameFault.{NameFault};
ghost use Rattle.nb_names.specs.declared.fault.NameFault.TheVariants.{Truncated};
ghost use Rattle.nb_names.specs.declared.limits.TheConstants.{MAX_LABEL, MAX_SPELLING, MAX_SCOPE, NAME_LENGTH, FRONT_LENGTH, LETTERS, POINTED_OFFSETS};
ghost use Rattle.nb_names.specs.declared.reading.Pointers.{Pointers};
ghost use Rattle.nb_names.specs.DomainName.{spelling, IsDomain};
ghost use Rattle.nb_streams.specs.Places.{AreBytes};
ghost use Rattle.nb_names.specs.FirstLevel.{letters, IsLetter};
ghost use Rattle.nb_names.specs.Labels.{NameAt, pointer_bytes};
ghost use Rattle.nb_streams.specs.Places.{StandsAt};
ghost use Rattle.nb_names.specs.Name.{NetbiosName, IsName, IsNoName, labels_of_name};
ghost use Rattle.nb_names.specs.NameFaults.{FaultAt, NetbiosFaultAt};
ghost use Rattle.nb_names.specs.Skipped.{IsSkipped};
ghost use Rattle.nb_names.specs.declared.reading.Skipped.{Skipped};
ghost use Rattle.nb_names.specs.NameText.{IsText, IsFaultOf, is_plain};
ghost use Rattle.nb_names.specs.declared.fault.TextFault.{TextFault};

/// The limits of the definitions, as numbers.
pub fn numbers()
    ensures label { MAX_LABEL ≡ 63 }
    ensures spelling { MAX_SPELLING ≡ 255 }
    ensures scope { MAX_SCOPE ≡ 222 }
    ensures bytes { NAME_LENGTH ≡ 16 }
    ensures front { FRONT_LENGTH ≡ 15 }
    ensures letters { LETTERS ≡ 32 }
    ensures pointed { POINTED_OFFSETS ≡ 16384 }
{}

/// Where labels stand they make a domain name, and no other labels and no other offset stand there.
pub fn one_reading()
    ensures domain { (packet : List ℕ) (pointers : Pointers) (at : ℕ)
        (labels : List (List ℕ)) (next : ℕ) →
        NameAt packet pointers at labels next → IsDomain labels }
    ensures one { (packet : List ℕ) (pointers : Pointers) (at : ℕ)
        (labels others : List (List ℕ)) (next other : ℕ) →
        NameAt packet pointers at labels next → NameAt packet pointers at others other →
        (labels ≡ others) × (next ≡ other) }
{}

/// Where a domain name has a fault, no labels stand, and there is no other fault.
pub fn one_fault()
    ensures alone { (packet : List ℕ) (pointers : Pointers) (at : ℕ) (fault : NameFault)
        (labels : List (List ℕ)) (next : ℕ) →
        FaultAt packet pointers at fault → ¬ NameAt packet pointers at labels next }
    ensures one { (packet : List ℕ) (pointers : Pointers) (at : ℕ) (fault other : NameFault) →
        FaultAt packet pointers at fault → FaultAt packet pointers at other → fault ≡ other }
{}

/// Where a NetBIOS name has a fault, the labels of no name stand, and there is no other fault.
pub fn one_netbios_fault()
    ensures alone { (packet : List ℕ) (pointers : Pointers) (at : ℕ) (fault : NameFault)
        (name : NetbiosName) (next : ℕ) →
        NetbiosFaultAt packet pointers at fault → IsName name →
        ¬ NameAt packet pointers at (labels_of_name name) next }
    ensures one { (packet : List ℕ) (pointers : Pointers) (at : ℕ) (fault other : NameFault) →
        NetbiosFaultAt packet pointers at fault → NetbiosFaultAt packet pointers at other →
        fault ≡ other }
{}

/// A spelling that stands in a packet is read as the labels that it spells, whatever stands before
/// and after it, and whether or not pointers are followed.
pub fn spelling_is_read()
    ensures { (front rest : List ℕ) (pointers : Pointers) (labels : List (List ℕ)) →
        IsDomain labels →
        NameAt (front ++ (spelling labels ++ rest)) pointers (length front)
        labels (length front + length (spelling labels)) }
{}

/// The last stretch of a name lies in its packet. Where it is as long as the spelling of the name's
/// labels, that spelling stands there.
pub fn spelled_in_one_stretch()
    ensures within { (packet : List ℕ) (pointers : Pointers) (at : ℕ) (labels : List (List ℕ))
        (seen : Skipped) → IsSkipped packet pointers at labels seen →
        (seen.stretch < seen.stretch_end) × (seen.stretch_end ≤ length packet) }
    ensures stands { (packet : List ℕ) (pointers : Pointers) (at : ℕ) (labels : List (List ℕ))
        (seen : Skipped) → IsSkipped packet pointers at labels seen →
        seen.stretch + seen.spelled_len ≡ seen.stretch_end →
        StandsAt packet seen.stretch (spelling labels) }
{}

/// At each offset of a packet labels stand or there is a fault, for domain names and for NetBIOS
/// names. By [`one_fault`] and [`one_netbios_fault`] it is never both.
pub fn name_or_fault()
    ensures domain { (packet : List ℕ) (pointers : Pointers) (at : ℕ) → AreBytes packet →
        ((labels : List (List ℕ)) × (next : ℕ) × NameAt packet pointers at labels next)
        ⊎ ((fault : NameFault) × FaultAt packet pointers at fault) }
    ensures netbios { (packet : List ℕ) (pointers : Pointers) (at : ℕ) → AreBytes packet →
        ((name : NetbiosName) × (next : ℕ) × IsName name
        × NameAt packet pointers at (labels_of_name name) next)
        ⊎ ((fault : NameFault) × NetbiosFaultAt packet pointers at fault) }
{}

/// Bytes after a packet change neither a name that stands in it nor a fault, but for the fault that
/// bytes are missing.
pub fn more_behind()
    ensures name { (packet more : List ℕ) (pointers : Pointers) (at : ℕ)
        (labels : List (List ℕ)) (next : ℕ) →
        NameAt packet pointers at labels next → NameAt (packet ++ more) pointers at labels next }
    ensures fault { (packet more : List ℕ) (pointers : Pointers) (at : ℕ) (fault : NameFault) →
        FaultAt packet pointers at fault → ((count : ℕ) → fault ≢ Truncated count) →
        FaultAt (packet ++ more) pointers at fault }
{}

/// A pointer is its offset plus c000, as a number of two bytes.
pub fn pointer_is_a_number()
    ensures { (target : ℕ) → target < 16384 →
        pointer_bytes target ≡ to_be_bytes w16 (49152 + target) }
{}

/// The letters of a byte, by its place: the one of its high half, and then that of its low half,
/// counted from `A`, which is 65.
pub fn letters_by_place()
    ensures count { (bytes : List ℕ) → length (letters bytes) ≡ 2 * length bytes }
    ensures high { (bytes : List ℕ) (place : ℕ) → place < length bytes →
        slice_index (letters bytes) (2 * place) ≡ 65 + slice_index bytes place / 16 }
    ensures low { (bytes : List ℕ) (place : ℕ) → place < length bytes →
        slice_index (letters bytes) (2 * place + 1) ≡ 65 + slice_index bytes place % 16 }
{}

/// At a place above 0 that is answered for labels of no name, the byte of their spelling is no
/// letter, and those between the length byte and it are.
pub fn place_in_spelling()
    ensures there { (labels : List (List ℕ)) (place : ℕ) → IsNoName labels place → 0 < place →
        ¬ IsLetter (slice_index (spelling labels) place) }
    ensures before { (labels : List (List ℕ)) (place before : ℕ) → IsNoName labels place →
        0 < before → before < place → IsLetter (slice_index (spelling labels) before) }
{}

/// A name's labels make a domain name, and no other name has them.
pub fn labels_tell_the_name()
    ensures domain { (name : NetbiosName) → IsName name → IsDomain (labels_of_name name) }
    ensures one { (name other : NetbiosName) → labels_of_name name ≡ labels_of_name other →
        name ≡ other }
{}

/// A text is the text of one name.
pub fn one_name()
    ensures { (text : List ℕ) (a b : NetbiosName) → IsText a text → IsText b text → a ≡ b }
{}

/// A text has one fault at most, and none where it is a name's.
pub fn one_text_fault()
    ensures one { (text : List ℕ) (a b : TextFault) →
        IsFaultOf text a → IsFaultOf text b → a ≡ b }
    ensures none { (text : List ℕ) (name : NetbiosName) (fault : TextFault) →
        IsText name text → ¬ IsFaultOf text fault }
{}

/// The bytes that stand for themselves are 21 to 7e in hexadecimal, but `.`, `<`, `>` and `\`.
pub fn plain_bytes()
    ensures { (byte : ℕ) → IsTrue (is_plain byte) ↔ ((33 ≤ byte) × (byte ≤ 126)
        × (byte ≢ 46) × (byte ≢ 60) × (byte ≢ 62) × (byte ≢ 92)) }
{}
