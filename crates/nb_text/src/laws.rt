//! Laws of the definitions that the contracts cite. Each is proved; a call does nothing.
ghost use Rattle.std.specs.Prelude.{◌≡◌, ◌≢◌, ◌≤◌, ◌/◌, ◌%◌, ℕ, List, [], ◌∷◌, ◌++◌, Option, Some, None, codes};
ghost use Rattle.std.specs.Fmt.{decimal};
ghost use Rattle.nb_names.specs.DomainName.{IsDomain, AreByteLabels};
ghost use Rattle.nb_streams.specs.Places.{AreBytes};
ghost use Rattle.nb_streams.specs.Hexadecimal.{data_text};
ghost use Rattle.nb_names.specs.Name.{NetbiosName, IsName, IsByteName, IsNoName, labels_of_name};
ghost use Rattle.nb_names.specs.NameText.{ScopeText, domain_written, labels_written, name_of_labels, written};
ghost use Rattle.nb_service.specs.declared.flags.TheConstants.NmFlags.{AA, TC, RD, RA, B};
ghost use Rattle.nb_service.specs.declared.flags.TheConstants.NodeFlags.{G, DRG, CNF, ACT, PRM};
ghost use Rattle.nb_service.specs.Header.{nm_bits, node_bits, ont_of, opcode_of, rcode_of};
ghost use Rattle.nb_service.specs.Packet.{ServicePacket, IsPacket as IsServicePacket};
ghost use Rattle.nb_service.specs.declared.fault.ServiceFault.{ServiceFault};
ghost use Rattle.nb_service.specs.FaultTexts.{service_fault_place, service_fault_text};
ghost use Rattle.nb_session.specs.Packet.{Packet as SessionPacket};
ghost use Rattle.nb_session.specs.declared.parsing.Parsed.TheVariants.{Whole};
ghost use Rattle.nb_session.specs.Parsing.{Parsed, Parses};
ghost use Rattle.nb_session.specs.declared.fault.SessionFault.{SessionFault};
ghost use Rattle.nb_session.specs.FaultTexts.{session_fault_place, session_fault_text};
ghost use Rattle.nb_datagram.specs.declared.key.Key.{Key};
ghost use Rattle.nb_datagram.specs.declared.packet.QueryKind.TheVariants.{Request, Positive, Negative};
ghost use Rattle.nb_datagram.specs.Header.{IsKey};
ghost use Rattle.nb_datagram.specs.Packet.{Packet as DatagramPacket, IsPacket as IsDatagramPacket};
ghost use Rattle.nb_datagram.specs.FaultTexts.{key_text, datagram_fault_place, datagram_fault_text};
ghost use Rattle.nb_datagram.specs.declared.fault.DatagramFault.{DatagramFault};
ghost use Rattle.nb_telling.specs.Telling.{Field};
ghost use Rattle.nb_telling.specs.Members.{AreMembers};
ghost use Rattle.nb_telling.specs.Texts.{text_of};
ghost use Rattle.nb_text.specs.DatagramFields.{datagram_fields};
ghost use Rattle.nb_text.specs.DatagramText.{datagram_text};
ghost use Rattle.nb_text.specs.FaultEnds.{IsPlaceIn};
ghost use Rattle.nb_text.specs.Fields.{AreLines, IsWord, refused_fields};
ghost use Rattle.nb_text.specs.Lines.{refused_text};
ghost use Rattle.nb_text.specs.SaysPacket.{IsSaid};
ghost use Rattle.nb_text.specs.ServiceFields.{service_fields};
ghost use Rattle.nb_text.specs.ServiceText.{service_text};
ghost use Rattle.nb_text.specs.SessionFields.{session_fields};
ghost use Rattle.nb_text.specs.SessionText.{session_text};
ghost use Rattle.nb_text.specs.Shown.{Shown};
ghost use Rattle.nb_text.specs.Tells.{Tells};
ghost use Rattle.nb_text.specs.Views.{name_flags};
ghost use Rattle.nb_text.specs.Words.{flag, operation_word, packet_flags, query_word, rcode_word, set_text};
ghost use Rattle.nb_text.specs.TellsFront.{TellsFront};

mod phrases;
mod texts;

use nb_datagram::laws as datagrams;
pub use phrases::{
    answers_in_words, codes_in_words, datagrams_in_words, names_in_words, numbers,
    outcomes_in_words, redirects_in_words, refusals_in_words, relays_in_words, requests_in_words,
    sessions_in_words,
};
pub use texts::{lines_of_datagrams, lines_of_names, lines_of_sessions};

/// A payload has one text for a port, one list of fields, and one phrase.
pub fn one_telling()
    ensures text { (payload : List ℕ) (port : ℕ) (text other : List ℕ) →
        Shown payload port text → Shown payload port other → text ≡ other }
    ensures fields { (payload : List ℕ) (port : ℕ) (fields others : List Field) →
        Tells payload port fields → Tells payload port others → fields ≡ others }
    ensures phrase { (payload : List ℕ) (port : ℕ) (text other : List ℕ) →
        IsSaid payload port text → IsSaid payload port other → text ≡ other }
{}

/// A text is lines of printable ASCII: a line of words with one space between them, and then the
/// lines of its parts, each of which two or four spaces begin.
pub fn a_text_is_lines()
    ensures { (payload : List ℕ) (port : ℕ) (text : List ℕ) → AreBytes payload →
        Shown payload port text → AreLines text }
{}

/// The text of a payload's fields is the payload's text: of a packet, and of a payload that begins
/// with none.
pub fn texts_of_fields()
    ensures services { (packet : ServicePacket) (used : ℕ) →
        text_of (service_fields packet used) ≡ service_text packet used }
    ensures datagrams { (packet : DatagramPacket) (used : ℕ) →
        text_of (datagram_fields packet used) ≡ datagram_text packet used }
    ensures sessions { (parsed : Parsed) → text_of (session_fields parsed) ≡ session_text parsed }
    ensures refusals { (fault : List ℕ) (place : Option ℕ) →
        text_of (refused_fields fault place) ≡ refused_text fault }
{}

/// The fields of a payload are members of an object: each list in them ends, and each part of one,
/// and lists stand in parts of lists at most.
pub fn fields_are_members()
    ensures { (payload : List ℕ) (port : ℕ) (fields : List Field) → Tells payload port fields →
        AreMembers 2 fields }
{}

/// The place of a fault is the number with which the fault's text ends; a fault without a place has
/// no digit in its text.
pub fn places_end_texts()
    ensures services { (fault : ServiceFault) →
        IsPlaceIn (service_fault_place fault) (service_fault_text fault) }
    ensures datagrams { (fault : DatagramFault) →
        IsPlaceIn (datagram_fault_place fault) (datagram_fault_text fault) }
    ensures sessions { (fault : SessionFault) →
        IsPlaceIn (session_fault_place fault) (session_fault_text fault) }
{}

/// No field has a space: names, data, keys, numbers, and sets of flags are one word of printable
/// ASCII each.
pub fn fields_are_words()
    ensures names { (name : NetbiosName) → IsByteName name → IsWord (written name) }
    ensures labels { (labels : List (List ℕ)) → IsDomain labels → AreByteLabels labels →
        IsWord (labels_written labels) }
    ensures bytes { (bytes : List ℕ) → AreBytes bytes → IsWord (data_text bytes) }
    ensures keys { (key : Key) → IsKey key → AreBytes key.ip → IsWord (key_text key) }
    ensures numbers { (n : ℕ) → IsWord (decimal n) }
    ensures packet_sets { (word : ℕ) → IsWord (set_text packet_flags word) }
    ensures name_sets { (word : ℕ) → IsWord (set_text name_flags word) }
{}

/// No two names are written alike, nor two lists of labels, two rows of bytes, or two keys.
pub fn a_field_tells_its_value()
    ensures names { (name other : NetbiosName) → IsByteName name → IsByteName other →
        written name ≡ written other → name ≡ other }
    ensures labels { (labels others : List (List ℕ)) → IsDomain labels → AreByteLabels labels →
        IsDomain others → AreByteLabels others →
        labels_written labels ≡ labels_written others → labels ≡ others }
    ensures bytes { (bytes others : List ℕ) → AreBytes bytes → AreBytes others →
        data_text bytes ≡ data_text others → bytes ≡ others }
    ensures keys { (key other : Key) → IsKey key → AreBytes key.ip → IsKey other →
        AreBytes other.ip → key_text key ≡ key_text other → key ≡ other }
{}

/// Which labels are a NetBIOS name's: those that spell it, and no others.
pub fn labels_of_one_name()
    ensures spelled { (name : NetbiosName) → IsName name →
        name_of_labels (labels_of_name name) ≡ Some name }
    ensures only { (labels : List (List ℕ)) (name : NetbiosName) → IsDomain labels →
        name_of_labels labels ≡ Some name → IsName name × (labels ≡ labels_of_name name) }
    ensures none { (labels : List (List ℕ)) (place : ℕ) → IsNoName labels place →
        name_of_labels labels ≡ None }
{}

/// Labels that spell a NetBIOS name are written as that name, with its scope, and others as a
/// domain name. That is the text of a scope with these labels, without the `.` at its front, and
/// `.` alone where there is no label.
///
/// The vectors are of the name that RFC 1001 section 14.1 spells, and of three labels that spell
/// none.
pub fn labels_as_text()
    ensures names { (name : NetbiosName) → IsName name →
        labels_written (labels_of_name name) ≡ written name }
    ensures domains { (labels : List (List ℕ)) → IsDomain labels →
        ((name : NetbiosName) → IsName name → labels ≢ labels_of_name name) →
        labels_written labels ≡ domain_written labels }
    ensures dotted { (first : List ℕ) (labels : List (List ℕ)) → IsDomain (first ∷ labels) →
        AreByteLabels (first ∷ labels) →
        ScopeText (first ∷ labels) (46 ∷ domain_written (first ∷ labels)) }
    ensures no_label { domain_written [] ≡ codes "." }
    ensures a_name { labels_written (codes "EGFCEFEECACACACACACACACACACACACA"
        ∷ codes "NETBIOS" ∷ codes "COM" ∷ []) ≡ codes "FRED<20>.NETBIOS.COM" }
    ensures a_domain { labels_written (codes "ab" ∷ codes "c d" ∷ codes "e" ∷ [])
        ≡ codes "ab.c" ++ 92 ∷ codes "20d.e" }
{}

/// The text of a packet tells the packet: two packets of a port that are shown by the same text are
/// equal in all parts. What the text says for `used` takes no part, so that may be any number:
/// `shown` in the one, `again` in the other.
///
/// No part is an exception. Where a word stands for more than one value, as `refresh` for the
/// operations 8 and 9, or a bit has no name, the line has the number in hexadecimal too.
pub fn a_text_tells_its_packet()
    ensures sessions { (payload other : List ℕ) (packet same : SessionPacket)
        (used after shown again : ℕ) → AreBytes payload → AreBytes other →
        Parses payload (Whole packet used) → Parses other (Whole same after) →
        session_text (Whole packet shown) ≡ session_text (Whole same again) → packet ≡ same }
    ensures datagrams { (payload other : List ℕ) (packet same : DatagramPacket)
        (used after shown again : ℕ) → AreBytes payload → AreBytes other →
        IsDatagramPacket payload packet used → IsDatagramPacket other same after →
        datagram_text packet shown ≡ datagram_text same again → packet ≡ same }
    ensures names { (payload other : List ℕ) (packet same : ServicePacket)
        (used after shown again : ℕ) → AreBytes payload → AreBytes other →
        IsServicePacket payload packet used → IsServicePacket other same after →
        service_text packet shown ≡ service_text same again → packet ≡ same }
{}

/// The words for numbers, one by one: operations (RFC 1002 section 4.2.1.1), results (sections
/// 4.2.6, 4.2.11 and 4.2.14) and queries of port 138. All other numbers have none.
pub fn words_for_numbers()
    ensures operations { (operation_word 0 ≡ Some (codes "query"))
        × (operation_word 5 ≡ Some (codes "registration"))
        × (operation_word 6 ≡ Some (codes "release")) × (operation_word 7 ≡ Some (codes "wack"))
        × (operation_word 8 ≡ Some (codes "refresh"))
        × (operation_word 9 ≡ Some (codes "refresh")) }
    ensures no_operations { (n : ℕ) → 1 ≤ n → n ≤ 4 → operation_word n ≡ None }
    ensures past_operations { (n : ℕ) → 10 ≤ n → operation_word n ≡ None }
    ensures results { (rcode_word 0 ≡ Some (codes "ok")) × (rcode_word 1 ≡ Some (codes "FMT_ERR"))
        × (rcode_word 2 ≡ Some (codes "SRV_ERR")) × (rcode_word 3 ≡ Some (codes "NAM_ERR"))
        × (rcode_word 4 ≡ Some (codes "IMP_ERR")) × (rcode_word 5 ≡ Some (codes "RFS_ERR"))
        × (rcode_word 6 ≡ Some (codes "ACT_ERR")) × (rcode_word 7 ≡ Some (codes "CFT_ERR")) }
    ensures past_results { (n : ℕ) → 8 ≤ n → rcode_word n ≡ None }
    ensures queries { (query_word Request ≡ codes "find") × (query_word Positive ≡ codes "found")
        × (query_word Negative ≡ codes "missing") }
{}

/// The words for flags stand for the bits of the flags of nb_service that have these names, whose
/// numbers are laws there, in the order in which they are shown, and no others are shown; the
/// numbers beside them are parts of the same words (RFC 1002 sections 4.2.1.1, 4.2.13 and 4.2.18).
pub fn words_for_flags()
    ensures packets { packet_flags ≡ flag (codes "AA") (nm_bits AA) ∷ flag (codes "TC") (nm_bits TC)
        ∷ flag (codes "RD") (nm_bits RD) ∷ flag (codes "RA") (nm_bits RA)
        ∷ flag (codes "B") (nm_bits B) ∷ [] }
    ensures names { name_flags ≡ flag (codes "G") (node_bits G) ∷ flag (codes "DRG") (node_bits DRG)
        ∷ flag (codes "CNF") (node_bits CNF) ∷ flag (codes "ACT") (node_bits ACT)
        ∷ flag (codes "PRM") (node_bits PRM) ∷ [] }
    ensures fields { (word : ℕ) → (opcode_of word ≡ word / 2048 % 16) × (rcode_of word ≡ word % 16)
        × (ont_of word ≡ word / 8192 % 4) }
{}

/// What the front of a payload says is one list of fields for a port.
pub fn one_front()
    ensures { (payload : List ℕ) (port : ℕ) (fields others : List Field) →
        TellsFront payload port fields → TellsFront payload port others → fields ≡ others }
{
    datagrams::one_front();
}

/// Of a payload that begins with a packet the front says what the packet's fields say.
pub fn fronts_of_packets()
    ensures names { (payload : List ℕ) (packet : ServicePacket) (used : ℕ) →
        IsServicePacket payload packet used →
        TellsFront payload 137 (service_fields packet used) }
    ensures datagrams { (payload : List ℕ) (packet : DatagramPacket) (used : ℕ) →
        IsDatagramPacket payload packet used →
        TellsFront payload 138 (datagram_fields packet used) }
    ensures sessions { (payload : List ℕ) (port : ℕ) (packet : SessionPacket) (used : ℕ) →
        port ≢ 137 → port ≢ 138 → Parses payload (Whole packet used) →
        TellsFront payload port (session_fields (Whole packet used)) }
{}

/// The fields of what the front of a payload says are members of an object: lists in them stand in
/// parts of lists at most.
pub fn fronts_are_members()
    ensures { (payload : List ℕ) (port : ℕ) (fields : List Field) →
        TellsFront payload port fields → AreMembers 2 fields }
{}
