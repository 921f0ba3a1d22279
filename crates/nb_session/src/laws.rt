//! Laws of the definitions that the contracts cite. Each is proved; a call does nothing.
ghost use Rattle.std.specs.Prelude.{◌≡◌, ◌-◌, ◌<◌, ◌≤◌, ℕ, List, ◌++◌, length, take};
ghost use Rattle.nb_streams.specs.Places.{AreBytes};
ghost use Rattle.nb_session.specs.declared.fault.SessionFault.{SessionFault};
ghost use Rattle.nb_session.specs.declared.parsing.Header.{Header};
ghost use Rattle.nb_session.specs.declared.packet.Kind.TheVariants.{Message, Request, Positive, Negative, Retarget, Keepalive};
ghost use Rattle.nb_session.specs.declared.limits.TheConstants.{HEADER_LENGTH, MAX_MESSAGE, MAX_PACKET, MIN_REQUEST, MAX_REQUEST, MAX_INTERRUPTS};
ghost use Rattle.nb_session.specs.declared.parsing.Parsed.TheVariants.{Whole, More, Refused};
ghost use Rattle.nb_session.specs.Cutting.{ArePackets, IsCut, History};
ghost use Rattle.nb_session.specs.Header.{HasHeader, type_of};
ghost use Rattle.nb_session.specs.Packet.{Packet, IsPacket};
ghost use Rattle.nb_session.specs.Parsing.{Parsed, Parses};
ghost use Rattle.nb_session.specs.Stream.{StreamValue};

/// At the front of bytes stands one thing: a packet of one length, the front of one that lacks one
/// number of bytes, or one fault. So bytes are one packet at most.
pub fn one_answer()
    ensures one { (bytes : List ℕ) (parsed other : Parsed) →
        Parses bytes parsed → Parses bytes other → parsed ≡ other }
    ensures packet { (bytes : List ℕ) (packet other : Packet) →
        IsPacket packet bytes → IsPacket other bytes → packet ≡ other }
{}

/// Bytes begin with one header at most, and with one only where there are four of them.
pub fn one_header()
    ensures one { (bytes : List ℕ) (header other : Header) →
        HasHeader bytes header → HasHeader bytes other → header ≡ other }
    ensures whole { (bytes : List ℕ) (header : Header) → HasHeader bytes header →
        4 ≤ length bytes }
{}

/// A packet's bytes, whatever follows, are parsed as the packet, and of each shorter front of them
/// bytes are lacking: those up to the end of the header where it isn't there whole, else those up
/// to the end of the packet. So no packet begins another.
pub fn packet_is_parsed()
    ensures whole { (packet : Packet) (bytes rest : List ℕ) → IsPacket packet bytes →
        Parses (bytes ++ rest) (Whole packet (length bytes)) }
    ensures header { (packet : Packet) (bytes : List ℕ) (count : ℕ) → IsPacket packet bytes →
        count < 4 → Parses (take count bytes) (More (4 - count)) }
    ensures body { (packet : Packet) (bytes : List ℕ) (count : ℕ) → IsPacket packet bytes →
        4 ≤ count → count < length bytes → Parses (take count bytes) (More (length bytes - count)) }
{}

/// At the front of any bytes something stands: a packet, the front of one, or a fault.
pub fn some_answer()
    ensures { (bytes : List ℕ) → AreBytes bytes → (parsed : Parsed) × Parses bytes parsed }
{}

/// Any bytes are in one way only whole packets and a rest that begins with none.
pub fn one_cut()
    ensures some { (bytes : List ℕ) → AreBytes bytes →
        (packets : List Packet) × (rest : List ℕ) × IsCut bytes packets rest }
    ensures one { (bytes : List ℕ) (packets others : List Packet) (rest other : List ℕ) →
        IsCut bytes packets rest → IsCut bytes others other →
        (packets ≡ others) × (rest ≡ other) }
{}

/// The packets that a stream handed out, followed by the bytes that it holds, are all that was fed
/// to it, in whatever pieces; and where it asks for more or fails, it has cut what was fed in that
/// one way.
pub fn stream_keeps_all()
    ensures kept { (fed : List ℕ) (packets : List Packet) (stream : StreamValue) →
        History fed packets stream →
        (front : List ℕ) × ArePackets packets front × (fed ≡ front ++ stream.held) }
    ensures waiting { (fed : List ℕ) (packets : List Packet) (stream : StreamValue) (needed : ℕ) →
        History fed packets stream → Parses stream.held (More needed) →
        IsCut fed packets stream.held }
    ensures failed { (fed : List ℕ) (packets : List Packet) (stream : StreamValue)
        (fault : SessionFault) →
        History fed packets stream → Parses stream.held (Refused fault) →
        IsCut fed packets stream.held }
{}

/// The numbers that the definitions cite.
pub fn numbers()
    ensures types { (type_of Message ≡ 0) × (type_of Request ≡ 129) × (type_of Positive ≡ 130) ×
        (type_of Negative ≡ 131) × (type_of Retarget ≡ 132) × (type_of Keepalive ≡ 133) }
    ensures header { HEADER_LENGTH ≡ 4 }
    ensures request { (MIN_REQUEST ≡ 68) × (MAX_REQUEST ≡ 510) }
    ensures message { (MAX_MESSAGE ≡ 131071) × (MAX_PACKET ≡ 131075) }
    ensures interrupts { MAX_INTERRUPTS ≡ 1024 }
{}
