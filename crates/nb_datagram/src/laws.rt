//! Laws of the definitions that the contracts cite. Each is proved; a call does nothing.
ghost use Rattle.std.specs.Prelude.{◌≡◌, ◌↔◌, ◌⊎◌, ◌≤◌, ◌<◌, ℕ, false, List, length, IsTrue, Contains};
ghost use Rattle.std.specs.Cmp.{IsTotalOrder};
ghost use Rattle.std.specs.List.{flat_map};
ghost use Rattle.std.specs.declared.cmp.Ordering.TheVariants.{Equal};
ghost use Rattle.nb_streams.specs.Places.{AreBytes};
ghost use Rattle.nb_datagram.specs.declared.error_codes.TheConstants.{DESTINATION_NAME_NOT_PRESENT, INVALID_SOURCE_NAME_FORMAT, INVALID_DESTINATION_NAME_FORMAT};
ghost use Rattle.nb_datagram.specs.declared.fault.DatagramFault.{DatagramFault};
ghost use Rattle.nb_datagram.specs.declared.key.Kind.TheVariants.{Unique, Group, Broadcast};
ghost use Rattle.nb_datagram.specs.declared.front.Front.{Front};
ghost use Rattle.nb_datagram.specs.declared.limits.TheConstants.{MAX_LENGTH, HEADER_LENGTH, ERROR_LENGTH, DIRECT_HEADER_LENGTH, MORE, FIRST};
ghost use Rattle.nb_datagram.specs.declared.packet.QueryKind.TheVariants.{Request, Positive, Negative};
ghost use Rattle.nb_datagram.specs.Header.{error_type, query_type};
ghost use Rattle.nb_datagram.specs.Packet.{type_of, Packet, IsPacket};
ghost use Rattle.nb_datagram.specs.declared.key.Key.{Key};
ghost use Rattle.nb_datagram.specs.DatagramFaults.{PacketFails};
ghost use Rattle.nb_datagram.specs.Fragment.{DatagramParts, FragmentParts, Core, Covers, cores_of};
ghost use Rattle.nb_datagram.specs.Equality.{fragment_eq, datagram_eq};
ghost use Rattle.nb_datagram.specs.Fronts.{HasFront, LacksHeader};
ghost use Rattle.nb_datagram.specs.Key.{key_cmp, same_key};
ghost use Rattle.nb_datagram.specs.Pieces.{IsPart, pieces};

/// The numbers that the definitions cite.
pub fn numbers()
    ensures lengths { (MAX_LENGTH ≡ 65535) × (HEADER_LENGTH ≡ 10) × (ERROR_LENGTH ≡ 11)
        × (DIRECT_HEADER_LENGTH ≡ 14) }
    ensures flags { (MORE ≡ 1) × (FIRST ≡ 2) }
    ensures codes { (DESTINATION_NAME_NOT_PRESENT ≡ 130) × (INVALID_SOURCE_NAME_FORMAT ≡ 131)
        × (INVALID_DESTINATION_NAME_FORMAT ≡ 132) }
    ensures direct_types { (type_of Unique ≡ 16) × (type_of Group ≡ 17)
        × (type_of Broadcast ≡ 18) }
    ensures other_types { (error_type ≡ 19) × (query_type Request ≡ 20)
        × (query_type Positive ≡ 21) × (query_type Negative ≡ 22) }
{}

/// Keys have one order: of two keys one comes first or they tie, and those that tie are one key.
pub fn keys_have_one_order()
    ensures total { IsTotalOrder key_cmp }
    ensures exact { (a b : Key) → key_cmp a b ≡ Equal → a ≡ b }
    ensures same { (a b : Key) → IsTrue (same_key a b) ↔ (a ≡ b) }
{}

/// Fragments and datagrams are equal exactly where they are the same.
pub fn equal_is_same()
    ensures fragments { (a b : FragmentParts) → IsTrue (fragment_eq a b) ↔ (a ≡ b) }
    ensures datagrams { (a b : DatagramParts) → IsTrue (datagram_eq a b) ↔ (a ≡ b) }
{}

/// Bytes begin with one packet at most, which has one length.
pub fn one_packet()
    ensures { (bytes : List ℕ) (packet other : Packet) (used behind : ℕ) →
        IsPacket bytes packet used → IsPacket bytes other behind →
        (packet ≡ other) × (used ≡ behind) }
{}

/// Where bytes have a fault, they begin with no packet, and have no other fault.
pub fn one_datagram_fault()
    ensures alone { (bytes : List ℕ) (fault : DatagramFault) (packet : Packet) (used : ℕ) →
        PacketFails bytes fault → ¬ IsPacket bytes packet used }
    ensures one { (bytes : List ℕ) (fault other : DatagramFault) →
        PacketFails bytes fault → PacketFails bytes other → fault ≡ other }
{}

/// Each row of bytes begins with a packet or has a fault. By [`one_datagram_fault`] it is never
/// both.
pub fn packet_or_fault()
    ensures { (bytes : List ℕ) → AreBytes bytes →
        ((packet : Packet) × (used : ℕ) × IsPacket bytes packet used)
        ⊎ ((fault : DatagramFault) × PacketFails bytes fault) }
{}

/// At the front of bytes stands one thing at most, and nothing where the header isn't whole.
pub fn one_front()
    ensures one { (bytes : List ℕ) (front other : Front) →
        HasFront bytes front → HasFront bytes other → front ≡ other }
    ensures whole { (bytes : List ℕ) (front : Front) →
        LacksHeader bytes → ¬ HasFront bytes front }
{}

/// The pieces of a datagram are parts of it, each of its places is covered by one, and one of them
/// ends.
pub fn pieces_are_parts()
    ensures parts { (d : DatagramParts) (m : ℕ) (f : Core) → 1 ≤ m →
        Contains (cores_of (pieces d m)) f → IsPart f d }
    ensures covered { (d : DatagramParts) (m i : ℕ) → 1 ≤ m → i < length d.bytes →
        (f : Core) × Contains (cores_of (pieces d m)) f × ((x : ℕ) × Covers f i x) }
    ensures ends { (d : DatagramParts) (m : ℕ) → 1 ≤ m →
        (f : Core) × Contains (cores_of (pieces d m)) f × (f.more ≡ false) }
{}

/// The data of a datagram's pieces, in order, is the datagram's.
pub fn pieces_join()
    ensures { (d : DatagramParts) (m : ℕ) → 1 ≤ m →
        flat_map (λ p. p.bytes) (pieces d m) ≡ d.bytes }
{}
