//! Laws of the definitions that the contracts cite. Each is proved; a call does nothing.
ghost use Rattle.std.specs.Prelude.{◌≡◌, ◌↔◌, ◌<◌, ◌≤◌, ◌+◌, ◌++◌, IsTrue, length, [], ◌∷◌, ℕ, List, All, Contains, Result, Err, None, Some};
ghost use Rattle.nb_calls.specs.Common.{w16, to_be_bytes, join_with_byte, NameFault, TextFault, NetbiosName, query_packet, status_packet, registration_packet, refresh_packet, release_packet, Answer, Authority, Additional, Key, Unique, Direct, Error, Query, ErrorPacket, FragmentFront, Front, FragmentParts, DatagramParts, HasFront, QueryPacket, IsPacket, name_bytes, IsKey, piece, Tick, BLANK, PACKET, TICK, Refusal, Memory, Fault, FaultAt, Asked, KEPT, SPOILT, DELIVERED, UNHEARD, OTHER, REFUSED, TAKE_ROOM, DONE, NO_ROOM, NO_MEMORY, NO_ROLE, SOURCE_TEXT, DESTINATION_TEXT, SOURCE, DESTINATION, SECOND, BAD_TEXT, LONG_TEXT, NAME_TRUNCATED, NAME_RESERVED_LABEL, NAME_POINTER, NAME_LONG, NAME_NOT_NETBIOS, NAME_TRAILING_BYTES, NAME_BAD_POINTER, TRUNCATED, UNKNOWN_TYPE, MORE, RESERVED_FLAGS, BAD_LENGTH, TRAILING_BYTES, NAME_RDATA, NO_ITEM, OTHER_RDATA, NO_PART, UNKNOWN_REQUEST, ZERO_PIECE, LONG_DATA, TABLE_BAD_MAGIC, TABLE_TRUNCATED, TABLE_NOT_CANONICAL, TABLE_LONG, TABLE_FULL_SOURCE, TABLE_FULL, MISPLACED_FIRST, LONG, FULL_SOURCE, FULL, NAME_PRESENT, TOO_MANY_NAMES, NO_STATION, OTHER_TYPE, BAD_LINE, UNKNOWN_STATUS};
ghost use Rattle.nb_names.specs.declared.fault.NameFault.TheVariants as names;
ghost use Rattle.nb_names.specs.declared.fault.TextFault.TheVariants as texts;
ghost use Rattle.nb_streams.specs.Places.{StandsAt};
ghost use Rattle.nb_service.specs.declared.fault.ServiceFault.TheVariants as services;
ghost use Rattle.nb_session.specs.declared.fault.SessionFault.TheVariants as sessions;
ghost use Rattle.nb_datagram.specs.declared.fault.DatagramFault.TheVariants as datagrams;
ghost use Rattle.nb_datagram.specs.declared.fault.DatagramFault.TheVariants.{SourceName, DestinationName};
ghost use Rattle.nb_capture.specs.declared.fault.LineFault.TheVariants as lines;
ghost use Rattle.nb_capture.specs.declared.line.Line.TheVariants.{Packet};
ghost use Rattle.nb_calls.specs.Absorbing.{heard_bytes};
ghost use Rattle.nb_calls.specs.Captures.{line_parts};
ghost use Rattle.nb_calls.specs.Cutting.{are_long, packet_of};
ghost use Rattle.nb_calls.specs.Datagrams.{fragment_places, error_places, query_places, front_places};
ghost use Rattle.nb_calls.specs.Responses.{named_answer, request_answer, requested};
ghost use Rattle.nb_calls.specs.Services.{section_number};
ghost use Rattle.nb_calls.specs.Stations.{AreNames, table_refusal, texts_in};
ghost use Rattle.nb_calls.specs.Statuses.{text_refusal, name_refusal, load_refusal, datagram_refusal, service_refusal, session_refusal, line_refusal};
ghost use Rattle.nb_table.specs.declared.fault.TableFault.TheVariants as joins;
ghost use Rattle.nb_entries.specs.declared.saved.LoadFault.TheVariants as loads;

pub mod answers;

use nb_names::laws::{one_name, one_text_fault};

/// The number of each status, of what became of a payload, of what a line of a capture is, of the
/// room for a payload, and of each section of an item.
pub fn numbers()
    ensures outcomes { (DONE ≡ 0) × (NO_ROOM ≡ 1) × (NO_MEMORY ≡ 2) }
    ensures roles { (NO_ROLE ≡ 0) × (SOURCE_TEXT ≡ 2) × (DESTINATION_TEXT ≡ 4) × (SOURCE ≡ 10)
        × (DESTINATION ≡ 20) × (SECOND ≡ 10) }
    ensures texts { (BAD_TEXT ≡ 10) × (LONG_TEXT ≡ 11) }
    ensures names { (NAME_TRUNCATED ≡ 20) × (NAME_RESERVED_LABEL ≡ 21) × (NAME_POINTER ≡ 22)
        × (NAME_LONG ≡ 23) × (NAME_NOT_NETBIOS ≡ 24) × (NAME_TRAILING_BYTES ≡ 25)
        × (NAME_BAD_POINTER ≡ 26) }
    ensures packets { (TRUNCATED ≡ 50) × (UNKNOWN_TYPE ≡ 51) × (MORE ≡ 52)
        × (RESERVED_FLAGS ≡ 53) × (BAD_LENGTH ≡ 54) × (TRAILING_BYTES ≡ 55)
        × (NAME_RDATA ≡ 56) × (NO_ITEM ≡ 57) × (OTHER_RDATA ≡ 58) × (NO_PART ≡ 59) }
    ensures requests { (UNKNOWN_REQUEST ≡ 60) × (ZERO_PIECE ≡ 61) × (LONG_DATA ≡ 62) }
    ensures tables { (TABLE_BAD_MAGIC ≡ 70) × (TABLE_TRUNCATED ≡ 71)
        × (TABLE_NOT_CANONICAL ≡ 72) × (TABLE_LONG ≡ 73)
        × (TABLE_FULL_SOURCE ≡ 74) × (TABLE_FULL ≡ 75) }
    ensures joins { (MISPLACED_FIRST ≡ 90) × (LONG ≡ 91) × (FULL_SOURCE ≡ 92) × (FULL ≡ 93) }
    ensures stations { (NAME_PRESENT ≡ 100) × (TOO_MANY_NAMES ≡ 101) × (NO_STATION ≡ 102) }
    ensures parts { (OTHER_TYPE ≡ 110) }
    ensures lines { (BAD_LINE ≡ 120) }
    ensures unknown { (UNKNOWN_STATUS ≡ 255) }
    ensures payloads { (KEPT ≡ 0) × (SPOILT ≡ 1) × (DELIVERED ≡ 2) × (UNHEARD ≡ 3)
        × (OTHER ≡ 4) × (REFUSED ≡ 5) }
    ensures kinds { (BLANK ≡ 0) × (PACKET ≡ 1) × (TICK ≡ 2) }
    ensures room { TAKE_ROOM ≡ 66045 }
    ensures sections { (section_number None ≡ 0) × (section_number (Some Answer) ≡ 1)
        × (section_number (Some Authority) ≡ 2) × (section_number (Some Additional) ≡ 3) }
{}

/// What is written of a datagram that is handed over, in this order: the address, the port and the
/// identifier of its key, MSG_TYPE, the spellings of its source and of its destination, how many
/// bytes its data has, and these.
pub fn a_datagram_in_bytes()
    ensures { (a b c d port id : ℕ) (source destination : NetbiosName) (bytes : List ℕ) →
        heard_bytes (record {
          key = record { ip = a ∷ b ∷ c ∷ d ∷ []; port = port; id = id };
          kind = Unique;
          source = source;
          destination = destination;
          bytes = bytes;
        })
        ≡ a ∷ b ∷ c ∷ d ∷ (to_be_bytes w16 port ++ (to_be_bytes w16 id ++ (16
        ∷ (name_bytes source ++ (name_bytes destination
        ++ (to_be_bytes w16 (length bytes) ++ bytes)))))) }
{}

/// What a line of a capture says, as numbers and bytes: 0 and zeros of one that says nothing;
/// 1, the port, the moment and the payload of a packet; 2 and what the clock shows of a tick.
pub fn a_line_in_numbers()
    ensures nothing { line_parts None
        ≡ record { numbers = record { kind = 0; port = 0; moment = 0 }; bytes = [] } }
    ensures packet { (port moment : ℕ) (payload : List ℕ) →
        line_parts (Some (Packet port moment payload)) ≡ record {
          numbers = record { kind = 1; port = port; moment = moment };
          bytes = payload;
        } }
    ensures tick { (now : ℕ) → line_parts (Some (Tick now))
        ≡ record { numbers = record { kind = 2; port = 0; moment = now }; bytes = [] } }
{}

/// Each fault has a status of its own, and its place if it has one. Some share theirs: the unknown
/// types of ports 138 and 139, and payloads of ports 137 and 138 that end too early. In a role
/// another number is added: in a datagram 10 for a source's name and 20 for a destination's.
pub fn each_fault_has_its_status()
    ensures texts { (role place : ℕ) →
        (text_refusal role (texts.BadText place) ≡ FaultAt (role + 10) place)
        × (text_refusal role texts.TooLong ≡ Fault (role + 11)) }
    ensures names { (role place : ℕ) →
        (name_refusal role (names.Truncated place) ≡ FaultAt (role + 20) place)
        × (name_refusal role (names.ReservedLabel place) ≡ FaultAt (role + 21) place)
        × (name_refusal role (names.PointerNotAllowed place) ≡ FaultAt (role + 22) place)
        × (name_refusal role (names.TooLong place) ≡ FaultAt (role + 23) place)
        × (name_refusal role (names.NotNetbios place) ≡ FaultAt (role + 24) place)
        × (name_refusal role (names.BadPointer place) ≡ FaultAt (role + 26) place) }
    ensures sources { (fault : NameFault) →
        datagram_refusal (SourceName fault) ≡ name_refusal 10 fault }
    ensures destinations { (fault : NameFault) →
        datagram_refusal (DestinationName fault) ≡ name_refusal 20 fault }
    ensures datagrams { (place : ℕ) →
        (datagram_refusal (datagrams.Truncated place) ≡ FaultAt 50 place)
        × (datagram_refusal datagrams.UnknownType ≡ Fault 51) }
    ensures sessions { (place : ℕ) → (session_refusal sessions.UnknownType ≡ Fault 51)
        × (session_refusal sessions.ReservedFlags ≡ Fault 53)
        × (session_refusal sessions.BadLength ≡ Fault 54)
        × (session_refusal (sessions.TrailingBytes place) ≡ FaultAt 55 place) }
    ensures called { (fault : NameFault) →
        session_refusal (sessions.Name fault) ≡ name_refusal 0 fault }
    ensures services { (place : ℕ) → (service_refusal (services.Truncated place) ≡ FaultAt 50 place)
        × (service_refusal (services.NameRdata place) ≡ FaultAt 56 place)
        × (service_refusal services.NoMemory ≡ Memory) }
    ensures about { (fault : NameFault) →
        service_refusal (services.Name fault) ≡ name_refusal 0 fault }
    ensures tables { (role place : ℕ) → (load_refusal role loads.BadMagic ≡ Fault (role + 70))
        × (load_refusal role loads.Truncated ≡ Fault (role + 71))
        × (load_refusal role (loads.NotCanonical place) ≡ FaultAt (role + 72) place)
        × (load_refusal role loads.TooLong ≡ Fault (role + 73))
        × (load_refusal role loads.FullSource ≡ Fault (role + 74))
        × (load_refusal role loads.Full ≡ Fault (role + 75))
        × (load_refusal role loads.NoMemory ≡ Memory) }
    ensures joins { (key : Key) → (table_refusal joins.MisplacedFirst ≡ Fault 90)
        × (table_refusal joins.TooLong ≡ Fault 91)
        × (table_refusal (joins.FullSource key) ≡ Fault 92)
        × (table_refusal (joins.Full key) ≡ Fault 93) × (table_refusal joins.NoMemory ≡ Memory) }
    ensures lines { (line_refusal lines.BadLine ≡ Fault 120)
        × (line_refusal lines.NoMemory ≡ Memory) }
{}

/// The numbers 0 to 4 are requests, and no other is.
pub fn five_numbers_are_requests()
    ensures query { (asked : Asked) (name : NetbiosName) (entry : List ℕ) → asked.request ≡ 0 →
        requested asked name entry ≡ query_packet asked.identifier name asked.broadcast }
    ensures node_status { (asked : Asked) (name : NetbiosName) (entry : List ℕ) →
        asked.request ≡ 1 →
        requested asked name entry ≡ status_packet asked.identifier name asked.broadcast }
    ensures registration { (asked : Asked) (name : NetbiosName) (entry : List ℕ) →
        asked.request ≡ 2 → requested asked name entry
        ≡ registration_packet asked.identifier name asked.broadcast asked.time_to_live entry }
    ensures refresh { (asked : Asked) (name : NetbiosName) (entry : List ℕ) → asked.request ≡ 3 →
        requested asked name entry
        ≡ refresh_packet asked.identifier name asked.broadcast asked.time_to_live entry }
    ensures release { (asked : Asked) (name : NetbiosName) (entry : List ℕ) → asked.request ≡ 4 →
        requested asked name entry
        ≡ release_packet asked.identifier name asked.broadcast entry }
    ensures known { (asked : Asked) (read : Result NetbiosName TextFault) → asked.request ≤ 4 →
        request_answer asked read ≡ named_answer asked read }
    ensures unknown { (asked : Asked) (read : Result NetbiosName TextFault) → 4 < asked.request →
        request_answer asked read ≡ Err (Fault 60) }
{}

/// The names and the data of a fragment, the code of an error packet and the name of a query stand
/// in the payload where they are said to stand.
pub fn parts_stand_at_their_places()
    ensures fragment { (payload : List ℕ) (f : FragmentParts) (used : ℕ) →
        IsPacket payload (Direct f) used →
        StandsAt payload (fragment_places f used).source (name_bytes f.source)
        × StandsAt payload (fragment_places f used).destination (name_bytes f.destination)
        × StandsAt payload (fragment_places f used).contents f.bytes }
    ensures code { (payload : List ℕ) (e : ErrorPacket) (used : ℕ) →
        IsPacket payload (Error e) used →
        StandsAt payload (error_places e used).contents (e.code ∷ []) }
    ensures query { (payload : List ℕ) (q : QueryPacket) (used : ℕ) →
        IsPacket payload (Query q) used →
        StandsAt payload (query_places q used).destination (name_bytes q.destination) }
{}

/// The names that are there whole at the front of a fragment's packet stand in the payload where
/// they are said to stand.
#[tactic(auto, using(crate::proofs::FrontLemmas::fronts))]
pub fn names_stand_at_the_front()
    ensures source { (payload : List ℕ) (front : Front) (fragment : FragmentFront)
        (name : NetbiosName) → HasFront payload front → front.fragment ≡ Some fragment →
        fragment.source ≡ Some name →
        StandsAt payload (front_places front).source (name_bytes name) }
    ensures destination { (payload : List ℕ) (front : Front) (fragment : FragmentFront)
        (name : NetbiosName) → HasFront payload front → front.fragment ≡ Some fragment →
        fragment.destination ≡ Some name →
        StandsAt payload (front_places front).destination (name_bytes name) }
{}

/// A datagram is too long exactly where the first of its packets, than which none is longer, has
/// more than 65,535 bytes.
#[tactic(auto, using(crate::proofs::LengthLemmas::lengths))]
pub fn the_first_packet_is_the_longest()
    ensures long { (d : DatagramParts) (most : ℕ) → IsKey d.key →
        IsTrue (are_long d.source d.destination (length d.bytes) most)
        ↔ (65535 < length (packet_of (piece d most 0))) }
    ensures longest { (d : DatagramParts) (most j : ℕ) → IsKey d.key →
        length (packet_of (piece d most j)) ≤ length (packet_of (piece d most 0)) }
{}

/// The texts of a station's names are what stands between spaces: joined by one space each they are
/// the bytes, and none has a space in it.
pub fn texts_stand_between_spaces()
    ensures joined { (bytes : List ℕ) → join_with_byte 32 (texts_in bytes) ≡ bytes }
    ensures apart { (bytes : List ℕ) → All (λ text. ¬ Contains text 32) (texts_in bytes) }
    ensures none { texts_in [] ≡ [] }
{}

/// Of the texts of a station's names one thing is answered, the names or the first fault.
pub fn a_station_has_one_list_of_names()
    ensures { (words : List (List ℕ)) (answer other : Result (List NetbiosName) Refusal) →
        AreNames 0 [] words answer → AreNames 0 [] words other → answer ≡ other }
{
    one_name();
    one_text_fault();
}
