//! Laws of the definitions that the contracts cite. Each is proved; a call does nothing.
ghost use Rattle.std.specs.Prelude.{◌≡◌, ◌≢◌, ◌↔◌, IsTrue, ℕ, ◌+◌, ◌*◌, ◌/◌, ◌%◌, ◌<◌, ◌≤◌, List, [], ◌∷◌, ◌++◌, length};
ghost use Rattle.std.specs.List.{AllByRecursion, flat_map};
ghost use Rattle.nb_names.specs.declared.reading.Pointers.TheVariants.{Followed};
ghost use Rattle.nb_names.specs.Labels.{NameAt};
ghost use Rattle.nb_service.specs.declared.views.AddressEntry.{AddressEntry};
ghost use Rattle.nb_service.specs.declared.views.TheConstants.{ENTRY_LENGTH, NODE_NAME_LENGTH, UNIT_ID_LENGTH};
ghost use Rattle.nb_service.specs.declared.classes.TheConstants.{IN};
ghost use Rattle.nb_service.specs.declared.kinds.TheConstants.{A, NS, NULL, NB, NBSTAT};
ghost use Rattle.nb_service.specs.declared.limits.TheConstants.{HEADER_LENGTH, MAX_ENTRIES, MAX_RDATA};
ghost use Rattle.nb_service.specs.declared.record.Extent.{Extent};
ghost use Rattle.nb_service.specs.declared.fault.ServiceFault.{ServiceFault};
ghost use Rattle.nb_service.specs.declared.flags.TheConstants.NmFlags.{AA, TC, RD, RA, B};
ghost use Rattle.nb_service.specs.declared.flags.TheConstants.NodeFlags.{G, DRG, CNF, ACT, PRM};
ghost use Rattle.nb_service.specs.declared.views.NodeName.{NodeName};
ghost use Rattle.nb_service.specs.Encoding.{packet_bytes, IsWritable};
ghost use Rattle.nb_service.specs.declared.record.Question.{Question};
ghost use Rattle.nb_service.specs.Equality.{question_eq, record_eq, packet_eq};
ghost use Rattle.nb_service.specs.Header.{nm_bits, node_bits, opcode_of, rcode_of, PacketHeader, HasHeader};
ghost use Rattle.nb_service.specs.Items.{PacketItem, IsExtent, ItemAt, ItemFails, ItemsAt, HasItems, items_of};
ghost use Rattle.nb_service.specs.Packet.{QuestionAt, RecordAt, ServicePacket, header_of, IsPacket, HasSections};
ghost use Rattle.nb_service.specs.Record.{ResourceRecord, of_bytes, of_domain};
ghost use Rattle.nb_service.specs.ServiceFaults.{item_count, QuestionFails, RecordFails, PacketFails};
ghost use Rattle.nb_service.specs.Views.{StatusParts, entries_in, entry_bytes, node_name_bytes, status_in};

/// The numbers that the definitions cite, those of flags by their bits in a packet's flag word (RFC
/// 1002 section 4.2.1.1) and in the word of one of a node's names (section 4.2.18).
pub fn numbers()
    ensures kinds { (A ≡ 1) × (NS ≡ 2) × (NULL ≡ 10) × (NB ≡ 32) × (NBSTAT ≡ 33) }
    ensures class { IN ≡ 1 }
    ensures header { HEADER_LENGTH ≡ 12 }
    ensures entries { MAX_ENTRIES ≡ 65535 }
    ensures rdata { MAX_RDATA ≡ 65535 }
    ensures packet_flags { (nm_bits AA ≡ 1024) × (nm_bits TC ≡ 512) × (nm_bits RD ≡ 256)
        × (nm_bits RA ≡ 128) × (nm_bits B ≡ 16) }
    ensures name_flags { (node_bits G ≡ 32768) × (node_bits DRG ≡ 4096) × (node_bits CNF ≡ 2048)
        × (node_bits ACT ≡ 1024) × (node_bits PRM ≡ 512) }
    ensures views { (ENTRY_LENGTH ≡ 6) × (NODE_NAME_LENGTH ≡ 18) × (UNIT_ID_LENGTH ≡ 6) }
{}

/// A flag word is the sum of its fields: R, OPCODE, the seven bits of NM_FLAGS, and RCODE.
/// NM_FLAGS are AA, TC, RD, RA, two bits that are reserved, and B.
pub fn word_is_its_fields()
    ensures sum { (word : ℕ) → word ≡ word / 32768 * 32768
        + (opcode_of word * 2048 + (word / 16 % 128 * 16 + rcode_of word)) }
    ensures opcode { (word : ℕ) → opcode_of word < 16 }
    ensures rcode { (word : ℕ) → rcode_of word < 16 }
{}

/// Questions, records and packets are equal exactly where they are the same.
#[tactic(auto, using(crate::specs::EqualityFacts::decides))]
pub fn equal_is_same()
    ensures questions { (a b : Question) → IsTrue (question_eq a b) ↔ (a ≡ b) }
    ensures records { (a b : ResourceRecord) → IsTrue (record_eq a b) ↔ (a ≡ b) }
    ensures packets { (a b : ServicePacket) → IsTrue (packet_eq a b) ↔ (a ≡ b) }
{}

/// The address entries of a record of type 32: RDATA that is entries alone, each of two bytes of
/// flags, the high one first, and four of an address. Other records have none.
///
/// RFC 1002 section 4.2.13.
#[tactic(auto, using(crate::specs::Views::entries_read))]
pub fn entries_of_a_record()
    ensures bytes { (entry : AddressEntry) → entry.flags < 65536 →
        entry_bytes entry ≡ entry.flags / 256 ∷ entry.flags % 256 ∷ entry.address }
    ensures entries { (entry : ResourceRecord) (entries : List AddressEntry) →
        AllByRecursion (λ e. (e.flags < 65536) × (length e.address ≡ 4)) entries →
        entry.kind ≡ 32 → entry.rdata
        ≡ of_bytes (flat_map (λ e. e.flags / 256 ∷ e.flags % 256 ∷ e.address) entries) →
        entries_in entry ≡ entries }
    ensures broken { (entry : ResourceRecord) (bytes : List ℕ) → entry.rdata ≡ of_bytes bytes →
        length bytes % 6 ≢ 0 → entries_in entry ≡ [] }
    ensures domains { (entry : ResourceRecord) (labels : List (List ℕ)) →
        entry.rdata ≡ of_domain labels → entries_in entry ≡ [] }
    ensures other_kinds { (entry : ResourceRecord) → entry.kind ≢ 32 → entries_in entry ≡ [] }
{}

/// The status of a node is that of a record of type 33: RDATA of NUM_NAMES, so many names, each of
/// sixteen bytes and two of flags, the high one first, and what follows them. Other records have
/// none, nor has RDATA with less than so many names.
///
/// RFC 1002 section 4.2.18.
#[tactic(auto, using(crate::specs::Views::status_read))]
pub fn status_of_a_record()
    ensures bytes { (name : NodeName) → name.flags < 65536 →
        node_name_bytes name ≡ name.bytes ++ name.flags / 256 ∷ name.flags % 256 ∷ [] }
    ensures status { (entry : ResourceRecord) (status : StatusParts) →
        AllByRecursion (λ n. (length n.bytes ≡ 16) × (n.flags < 65536)) status.names →
        entry.kind ≡ 33 → entry.rdata ≡ of_bytes (length status.names
        ∷ (flat_map (λ n. n.bytes ++ n.flags / 256 ∷ n.flags % 256 ∷ []) status.names
        ++ status.statistics)) →
        status_in entry ≡ status }
    ensures short { (entry : ResourceRecord) (count : ℕ) (rest : List ℕ) →
        entry.rdata ≡ of_bytes (count ∷ rest) → length rest < 18 * count →
        status_in entry ≡ record { names = []; statistics = [] } }
    ensures empty { (entry : ResourceRecord) → entry.rdata ≡ of_bytes [] →
        status_in entry ≡ record { names = []; statistics = [] } }
    ensures domains { (entry : ResourceRecord) (labels : List (List ℕ)) →
        entry.rdata ≡ of_domain labels → status_in entry ≡ record { names = []; statistics = [] } }
    ensures other_kinds { (entry : ResourceRecord) → entry.kind ≢ 33 →
        status_in entry ≡ record { names = []; statistics = [] } }
{}

/// Where a record's RDATA is a domain name, its type is 2, and that name is read ten bytes after
/// the record's own, its pointers followed, up to where the record ends.
#[tactic(auto, using(crate::proofs::SectionLemmas::named_rdata))]
pub fn name_in_rdata()
    ensures { (bytes : List ℕ) (at next : ℕ) (entry : ResourceRecord) (labels : List (List ℕ)) →
        RecordAt bytes at entry next → entry.rdata ≡ of_domain labels →
        (entry.kind ≡ 2) × ((after : ℕ) × NameAt bytes Followed at entry.name after
        × NameAt bytes Followed (after + 10) labels next) }
{}

/// The answers of a packet, its authorities and its additional records stand one after the other
/// from where its questions end.
///
/// RFC 1002 section 4.2.1.
#[tactic(auto, using(crate::proofs::SectionLemmas::sections))]
pub fn sections_in_order()
    ensures { (bytes : List ℕ) (packet : ServicePacket) (used : ℕ) →
        IsPacket bytes packet used → HasSections bytes packet used }
{}

/// Bytes begin with one packet at most, which has one length.
pub fn one_packet()
    ensures { (bytes : List ℕ) (packet other : ServicePacket) (used after : ℕ) →
        IsPacket bytes packet used → IsPacket bytes other after →
        (packet ≡ other) × (used ≡ after) }
{}

/// Where bytes have a fault, they begin with no packet, and have no other fault.
#[tactic(auto, using(crate::proofs::PacketLemmas::one_packet_fault))]
pub fn one_service_fault()
    ensures alone { (bytes : List ℕ) (fault : ServiceFault) (packet : ServicePacket) (used : ℕ) →
        PacketFails bytes fault → ¬ IsPacket bytes packet used }
    ensures one { (bytes : List ℕ) (fault other : ServiceFault) →
        PacketFails bytes fault → PacketFails bytes other → fault ≡ other }
{}

/// At an offset stands one question at most; where one stands, it has no fault.
pub fn one_question()
    ensures one { (bytes : List ℕ) (at : ℕ) (question other : Question) (next after : ℕ) →
        QuestionAt bytes at question next → QuestionAt bytes at other after →
        (question ≡ other) × (next ≡ after) }
    ensures alone { (bytes : List ℕ) (at : ℕ) (fault : ServiceFault) (question : Question)
        (next : ℕ) → QuestionFails bytes at fault → ¬ QuestionAt bytes at question next }
{}

/// At an offset stands one record at most; where one stands, it has no fault.
pub fn one_record()
    ensures one { (bytes : List ℕ) (at : ℕ) (entry other : ResourceRecord) (next after : ℕ) →
        RecordAt bytes at entry next → RecordAt bytes at other after →
        (entry ≡ other) × (next ≡ after) }
    ensures alone { (bytes : List ℕ) (at : ℕ) (fault : ServiceFault) (entry : ResourceRecord)
        (next : ℕ) → RecordFails bytes at fault → ¬ RecordAt bytes at entry next }
{}

/// Bytes begin with one header at most, and with one only where there are twelve of them.
#[tactic(auto, using(crate::proofs::PacketLemmas::header_laws))]
pub fn one_header()
    ensures one { (bytes : List ℕ) (header other : PacketHeader) →
        HasHeader bytes header → HasHeader bytes other → header ≡ other }
    ensures whole { (bytes : List ℕ) (header : PacketHeader) →
        HasHeader bytes header → 12 ≤ length bytes }
{}

/// At an offset stands one item of a number at most, which reaches so far in one way. Where one
/// stands, it has no fault, and the header counts it; where none does for a fault, that is the only
/// one.
#[tactic(auto, using(crate::proofs::NumberedLemmas::item_laws))]
pub fn one_item()
    ensures one { (bytes : List ℕ) (header : PacketHeader) (number at : ℕ)
        (item other : PacketItem) (next after : ℕ) → ItemAt bytes header number at item next →
        ItemAt bytes header number at other after → (item ≡ other) × (next ≡ after) }
    ensures alone { (bytes : List ℕ) (header : PacketHeader) (number at : ℕ)
        (fault : ServiceFault) (item : PacketItem) (next : ℕ) →
        ItemFails bytes header number at fault → ¬ ItemAt bytes header number at item next }
    ensures one_fault { (bytes : List ℕ) (header : PacketHeader) (number at : ℕ)
        (fault other : ServiceFault) → ItemFails bytes header number at fault →
        ItemFails bytes header number at other → fault ≡ other }
    ensures counted { (bytes : List ℕ) (header : PacketHeader) (number at : ℕ)
        (item : PacketItem) (next : ℕ) → ItemAt bytes header number at item next →
        number < item_count header }
    ensures extent { (bytes : List ℕ) (at : ℕ) (item : PacketItem) (extent other : Extent) →
        IsExtent bytes at item extent → IsExtent bytes at item other →
        extent.next ≡ other.next → extent ≡ other }
{}

/// Bytes have one list of items at most, which is as long as it can be.
#[tactic(auto, using(crate::proofs::NumberedLemmas::one_items))]
pub fn one_list_of_items()
    ensures { (bytes : List ℕ) (header other : PacketHeader) (items others : List PacketItem)
        (next after : ℕ) → HasItems bytes header items next → HasItems bytes other others after →
        (header ≡ other) × (items ≡ others) × (next ≡ after) }
{}

/// The items of bytes that begin with a packet are its questions and its records, all of them.
pub fn items_of_a_packet()
    ensures { (bytes : List ℕ) (packet : ServicePacket) (used : ℕ) → IsPacket bytes packet used →
        HasItems bytes (header_of packet) (items_of packet) used }
{}

/// Bytes that begin with a header and with no packet have items, up to the one in which the fault
/// stands. The fault of the item that comes after some is that of the bytes.
#[tactic(auto, using(crate::proofs::NumberedLemmas::fault_items))]
pub fn items_before_a_fault()
    ensures items { (bytes : List ℕ) (header : PacketHeader) (fault : ServiceFault) →
        HasHeader bytes header → PacketFails bytes fault →
        (items : List PacketItem) × (next : ℕ) × HasItems bytes header items next
        × ItemFails bytes header (length items) next fault }
    ensures fault { (bytes : List ℕ) (header : PacketHeader) (items : List PacketItem) (next : ℕ)
        (fault : ServiceFault) → HasHeader bytes header → ItemsAt bytes header 0 12 items next →
        ItemFails bytes header (length items) next fault → PacketFails bytes fault }
{}

/// The bytes of a packet, whatever follows them, begin with that packet, which takes up all of
/// them.
pub fn encoding_is_read()
    ensures { (packet : ServicePacket) (rest : List ℕ) → IsWritable packet →
        IsPacket (packet_bytes packet ++ rest) packet (length (packet_bytes packet)) }
{}
