//! Laws of phrases: what a phrase says stands in the packet's own values.
ghost use Rattle.std.specs.Prelude.{◌≡◌, ◌==◌, ℕ, ◌<◌, Bool, true, false, List, [], ◌∷◌, ◌++◌, length, codes, Some, if◌then◌else◌, ◌-◌};
ghost use Rattle.std.specs.Fmt.{decimal};
ghost use Rattle.nb_streams.specs.Addresses.{address_text};
ghost use Rattle.nb_names.specs.Name.{NetbiosName, IsName, labels_of_name};
ghost use Rattle.nb_names.specs.NameText.{labels_written, written};
ghost use Rattle.nb_names.specs.declared.fault.NameFault.TheVariants.{BadPointer, NotNetbios};
ghost use Rattle.nb_service.specs.declared.record.Question.{Question};
ghost use Rattle.nb_service.specs.Packet.{ServicePacket};
ghost use Rattle.nb_service.specs.Requests.{claim, query_packet, refresh_packet, registration_packet, release_packet, status_packet, packet_of};
ghost use Rattle.nb_service.specs.declared.fault.ServiceFault.TheVariants.{NoMemory, Truncated};
ghost use Rattle.nb_service.specs.Record.{of_bytes, of_domain, record_of};
ghost use Rattle.nb_session.specs.declared.packet.Packet.TheVariants as sessions;
ghost use Rattle.nb_session.specs.declared.fault.SessionFault.TheVariants.{Name, TrailingBytes, UnknownType};
ghost use Rattle.nb_session.specs.Packet.{Packet as SessionPacket};
ghost use Rattle.nb_session.specs.declared.parsing.Parsed.TheVariants.{More, Whole};
ghost use Rattle.nb_datagram.specs.declared.key.Kind.TheVariants.{Broadcast, Group, Unique};
ghost use Rattle.nb_datagram.specs.declared.packet.Packet.TheVariants.{Direct, Error, Query};
ghost use Rattle.nb_datagram.specs.Fragment.{FragmentParts, has_more};
ghost use Rattle.nb_datagram.specs.declared.fault.DatagramFault.TheVariants.{DestinationName, SourceName};
ghost use Rattle.nb_datagram.specs.declared.key.Key.{Key};
ghost use Rattle.nb_datagram.specs.declared.packet.QueryKind.TheVariants as queries;
ghost use Rattle.nb_datagram.specs.Packet.{QueryPacket};
ghost use Rattle.nb_text.specs.Forms.{form_of};
ghost use Rattle.nb_text.specs.Said.{datagram_said, kind_words, phrase, session_said, datagram_refused_said, parsed_said, query_words, session_refused_said};
ghost use Rattle.nb_text.specs.Sentences.{claimed, entry_for, holder, sent, lasting, response};
ghost use Rattle.nb_text.specs.ServiceSaid.{most_listed, service_said, service_refused_said};
ghost use Rattle.nb_text.specs.Words.{is_set};

/// How many of what is listed stand in a phrase.
pub fn numbers()
    ensures { most_listed ≡ 4 }
{}

/// The phrase of a packet of port 137 with a question begins with what its flag word and the first
/// question's type make it, and with that question's name, whatever other questions and records it
/// has.
pub fn names_in_words()
    ensures { (packet : ServicePacket) (question : Question) (questions : List Question) →
        packet.questions ≡ question ∷ questions →
        (behind : List ℕ) × (phrase (service_said packet)
        ≡ (form_of packet.word (Some question.kind)).opening
        ++ (labels_written question.name ++ behind)) }
{}

/// Requests of port 137: a query says the name that it asks for (RFC
/// 1002 sections 4.2.12 and 4.2.17); a registration (4.2.2), one that overwrites (4.2.3), one of a
/// host of several addresses (our choice) and a refresh (4.2.4) the name, the address and the time
/// of the record, and whether G is set in it; a release (4.2.9) the same without a time.
pub fn requests_in_words()
    ensures queries { (id : ℕ) (name : NetbiosName) (broadcast : Bool) → IsName name →
        phrase (service_said (query_packet id name broadcast))
        ≡ codes "asks for " ++ written name }
    ensures statuses { (id : ℕ) (name : NetbiosName) (broadcast : Bool) → IsName name →
        phrase (service_said (status_packet id name broadcast))
        ≡ codes "asks for the node status of " ++ written name }
    ensures registrations { (id ttl flags a b c d : ℕ) (name : NetbiosName)
        (broadcast : Bool) → IsName name → flags < 65536 → phrase (service_said
        (registration_packet id name broadcast ttl (entry_for flags a b c d)))
        ≡ codes "claims " ++ claimed name flags (a ∷ b ∷ c ∷ d ∷ []) ttl }
    ensures overwrites { (id ttl flags a b c d : ℕ) (name : NetbiosName) → IsName name →
        flags < 65536 → phrase (service_said (claim id 10240 name ttl (entry_for flags a b c d)))
        ≡ codes "overwrites " ++ claimed name flags (a ∷ b ∷ c ∷ d ∷ []) ttl }
    ensures several { (id ttl flags a b c d : ℕ) (name : NetbiosName) → IsName name →
        flags < 65536 → phrase (service_said (claim id 30976 name ttl (entry_for flags a b c d)))
        ≡ codes "claims as one of several addresses "
        ++ claimed name flags (a ∷ b ∷ c ∷ d ∷ []) ttl }
    ensures refreshes { (id ttl flags a b c d : ℕ) (name : NetbiosName)
        (broadcast : Bool) → IsName name → flags < 65536 →
        phrase (service_said (refresh_packet id name broadcast ttl (entry_for flags a b c d)))
        ≡ codes "refreshes " ++ claimed name flags (a ∷ b ∷ c ∷ d ∷ []) ttl }
    ensures releases { (id flags a b c d : ℕ) (name : NetbiosName) (broadcast : Bool) →
        IsName name → flags < 65536 →
        phrase (service_said (release_packet id name broadcast (entry_for flags a b c d)))
        ≡ codes "releases " ++ (written name
        ++ (holder flags ++ address_text (a ∷ b ∷ c ∷ d ∷ []))) }
{}

/// Datagrams of port 138 (RFC 1002 sections 4.4.1 and 4.4.2): who sends, to whom, how many bytes,
/// and which where they aren't all.
pub fn datagrams_in_words()
    ensures kinds { (kind_words Unique ≡ codes "datagram from ")
        × (kind_words Group ≡ codes "group datagram from ")
        × (kind_words Broadcast ≡ codes "broadcast datagram from ") }
    ensures whole { (datagram : FragmentParts) → has_more datagram.flags ≡ false →
        datagram.offset ≡ 0 → phrase (datagram_said (Direct datagram)) ≡ sent datagram [] }
    ensures front { (datagram : FragmentParts) → has_more datagram.flags ≡ true →
        phrase (datagram_said (Direct datagram)) ≡ sent datagram (codes " at offset "
        ++ (decimal datagram.offset ++ codes " of one that goes on")) }
    ensures last { (datagram : FragmentParts) → has_more datagram.flags ≡ false →
        0 < datagram.offset → phrase (datagram_said (Direct datagram))
        ≡ sent datagram (codes " at offset " ++ (decimal datagram.offset ++ codes ", the last")) }
{}

/// Packets of port 139 (RFC 1002 section 4.3): a request says who is called, and as whom.
pub fn sessions_in_words()
    ensures requests { (called calling : NetbiosName) →
        phrase (session_said (sessions.Request called calling))
        ≡ codes "calls " ++ (written called ++ (codes " as " ++ written calling)) }
    ensures messages { (bytes : List ℕ) →
        phrase (session_said (sessions.Message bytes))
        ≡ codes "sends " ++ (decimal (length bytes)
        ++ (if length bytes == 1 then codes " byte" else codes " bytes")) }
    ensures positives { phrase (session_said sessions.Positive) ≡ codes "accepts" }
    ensures retargets { (address : List ℕ) (port : ℕ) →
        phrase (session_said (sessions.Retarget address port))
        ≡ codes "sends the caller to " ++ (address_text address
        ++ (codes ", port " ++ decimal port)) }
    ensures keepalives { phrase (session_said sessions.Keepalive)
        ≡ codes "keeps the session alive" }
{}

/// Codes in words: of an error of port 138 (RFC 1002 section 4.4.3), and of a refused session
/// (4.3.4).
pub fn codes_in_words()
    ensures errors { (flags : ℕ) (key : Key) →
        (phrase (datagram_said (Error (record { flags = flags; key = key; code = 130 })))
        ≡ codes "error: no such destination name (82)")
        × (phrase (datagram_said (Error (record { flags = flags; key = key; code = 131 })))
        ≡ codes "error: source name of a wrong form (83)")
        × (phrase (datagram_said (Error (record { flags = flags; key = key; code = 132 })))
        ≡ codes "error: destination name of a wrong form (84)")
        × (phrase (datagram_said (Error (record { flags = flags; key = key; code = 26 })))
        ≡ codes "error: unknown code (1a)") }
    ensures refusals { (phrase (session_said (sessions.Negative 128))
        ≡ codes "refuses: not listening on called name (80)")
        × (phrase (session_said (sessions.Negative 129))
        ≡ codes "refuses: not listening for calling name (81)")
        × (phrase (session_said (sessions.Negative 130))
        ≡ codes "refuses: called name not present (82)")
        × (phrase (session_said (sessions.Negative 131))
        ≡ codes "refuses: called name present, but insufficient resources (83)")
        × (phrase (session_said (sessions.Negative 143))
        ≡ codes "refuses: unspecified error (8f)") }
{}

/// Queries of port 138 (RFC 1002 section 4.4.4).
pub fn relays_in_words()
    ensures said { (query : QueryPacket) → phrase (datagram_said (Query query))
        ≡ query_words query.kind ++ written query.destination }
    ensures words { (query_words queries.Request ≡ codes "asks whether datagrams are relayed to ")
        × (query_words queries.Positive ≡ codes "answers: datagrams are relayed to ")
        × (query_words queries.Negative ≡ codes "answers: no datagrams are relayed to ") }
{}

/// A payload that begins with no packet: which name is wrong, what is wrong, and its place, which
/// counts in the payload, or in the spelling of a name that is no NetBIOS name's (RFC 1002 section
/// 4.1); the front of a packet of port 139; and what stands after such a packet.
pub fn refusals_in_words()
    ensures placed { (at : ℕ) →
        (phrase (service_refused_said (Truncated at)) ≡ codes "refused: truncated, at byte "
        ++ decimal at)
        × (phrase (datagram_refused_said (DestinationName (BadPointer at)))
        ≡ codes "refused: destination name: bad pointer, at byte " ++ decimal at)
        × (phrase (session_refused_said (TrailingBytes at))
        ≡ codes "refused: trailing bytes, at byte " ++ decimal at) }
    ensures in_names { (place : ℕ) →
        (phrase (session_refused_said (Name (NotNetbios place)))
        ≡ codes "refused: name: not netbios, at byte "
        ++ (decimal place ++ codes " of the name"))
        × (phrase (datagram_refused_said (SourceName (NotNetbios place)))
        ≡ codes "refused: source name: not netbios, at byte "
        ++ (decimal place ++ codes " of the name"))
        × (phrase (datagram_refused_said (DestinationName (NotNetbios place)))
        ≡ codes "refused: destination name: not netbios, at byte "
        ++ (decimal place ++ codes " of the name")) }
    ensures unplaced { (phrase (session_refused_said UnknownType)
        ≡ codes "refused: unknown type")
        × (phrase (service_refused_said NoMemory) ≡ codes "refused: memory") }
    ensures fronts { (needed size : ℕ) → phrase (parsed_said (More needed) size)
        ≡ codes "begins a packet that lacks " ++ (decimal needed
        ++ (if needed == 1 then codes " byte" else codes " bytes")) }
    ensures alone { (packet : SessionPacket) (used : ℕ) →
        phrase (parsed_said (Whole packet used) used) ≡ phrase (session_said packet) }
    ensures followed { (packet : SessionPacket) (used size : ℕ) → used < size →
        phrase (parsed_said (Whole packet used) size)
        ≡ phrase (session_said packet) ++ (codes ", " ++ (decimal (size - used)
        ++ (if size - used == 1 then codes " byte follows" else codes " bytes follow"))) }
{}

/// Responses to a query, with one record: a positive one (RFC 1002 section
/// 4.2.13; its flag word is 8580 in hexadecimal) says where the name is, in the order of the
/// addresses, and whether G is set in the first flags; a negative one (4.2.14, 8583) why there is
/// no address.
pub fn answers_in_words()
    ensures found { (id ttl flags others a b c d e f g h : ℕ) (name : NetbiosName) →
        IsName name → flags < 65536 → phrase (service_said
        (response id 34176 name 32 ttl (entry_for flags a b c d ++ entry_for others e f g h)))
        ≡ codes "answers: " ++ (written name
        ++ ((if is_set flags 32768 then codes " is a group at " else codes " is at ")
        ++ (address_text (a ∷ b ∷ c ∷ d ∷ []) ++ (codes ", "
        ++ address_text (e ∷ f ∷ g ∷ h ∷ []))))) }
    ensures absent { (id ttl : ℕ) (name : NetbiosName) → IsName name →
        phrase (service_said (response id 34179 name 10 ttl []))
        ≡ codes "answers: " ++ (written name ++ codes " is not found: no such name (NAM_ERR)") }
{}

/// The response of a name server that another is to be asked (RFC 1002 section 4.2.15; its flag
/// word is 8100 in hexadecimal): the name, and the other server's name and address.
pub fn redirects_in_words()
    ensures { (id ttl other a b c d : ℕ) (name : NetbiosName) (server : List (List ℕ)) →
        IsName name →
        phrase (service_said (packet_of id 33024 []
        [] (record_of (labels_of_name name) 2 1 ttl (of_domain server) ∷ [])
        (record_of server 1 1 other (of_bytes (a ∷ b ∷ c ∷ d ∷ [])) ∷ [])))
        ≡ codes "answers: " ++ (written name ++ (codes " is known to "
        ++ (labels_written server ++ (codes " at " ++ address_text (a ∷ b ∷ c ∷ d ∷ []))))) }
{}

/// Responses to a registration and a release, with one record, told apart
/// by their flag words: a positive one (RFC 1002 section 4.2.5; AD80 in hexadecimal) says what it
/// grants; a negative one (4.2.6, AD86) why it refuses; a challenge (4.2.7, AD00) where the name
/// is; a conflict (4.2.8, AD87) the name; those to a release (4.2.10 and 4.2.11, B400 and B405)
/// that it is granted, or why not; and one to wait (4.2.16, BC00) how long.
pub fn outcomes_in_words()
    ensures granted { (id ttl flags a b c d : ℕ) (name : NetbiosName) → IsName name →
        flags < 65536 →
        phrase (service_said (response id 44416 name 32 ttl (entry_for flags a b c d)))
        ≡ codes "grants " ++ claimed name flags (a ∷ b ∷ c ∷ d ∷ []) ttl }
    ensures refused { (id ttl flags a b c d : ℕ) (name : NetbiosName) → IsName name →
        phrase (service_said (response id 44422 name 32 ttl (entry_for flags a b c d)))
        ≡ codes "refuses " ++ (written name ++ codes ": owned by another node (ACT_ERR)") }
    ensures challenged { (id ttl flags a b c d : ℕ) (name : NetbiosName) → IsName name →
        phrase (service_said (response id 44288 name 32 ttl (entry_for flags a b c d)))
        ≡ codes "asks to challenge " ++ (written name
        ++ (codes " at " ++ address_text (a ∷ b ∷ c ∷ d ∷ []))) }
    ensures conflicts { (id ttl flags a b c d : ℕ) (name : NetbiosName) → IsName name →
        phrase (service_said (response id 44423 name 32 ttl (entry_for flags a b c d)))
        ≡ codes "conflict about " ++ written name }
    ensures released { (id ttl flags a b c d : ℕ) (name : NetbiosName) → IsName name →
        phrase (service_said (response id 46080 name 32 ttl (entry_for flags a b c d)))
        ≡ codes "grants the release of " ++ written name }
    ensures kept { (id ttl flags a b c d : ℕ) (name : NetbiosName) → IsName name →
        phrase (service_said (response id 46085 name 32 ttl (entry_for flags a b c d)))
        ≡ codes "refuses the release of " ++ (written name
        ++ codes ": refused by policy (RFS_ERR)") }
    ensures waits { (id ttl high low : ℕ) (name : NetbiosName) → IsName name →
        phrase (service_said (response id 48128 name 32 ttl (high ∷ low ∷ [])))
        ≡ codes "asks to wait for " ++ (written name ++ lasting ttl) }
{}
