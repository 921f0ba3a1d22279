//! Laws of the definitions that the contracts cite. Each is proved; a call does nothing.
ghost use Rattle.std.specs.Prelude.{◌≡◌, ℕ, List, length, true};
ghost use Rattle.std.specs.Int.{w16, w32};
ghost use Rattle.nb_streams.specs.Places.{NumberAt, StandsAt};
ghost use Rattle.nb_frames.specs.Contents.{HasContents};
ghost use Rattle.nb_frames.specs.Fields.{word_at, long_at, bytes_at};
ghost use Rattle.nb_frames.specs.Layout.{TaggedDatagram, IsLaidOut, frame_bytes, contents_written};
ghost use Rattle.nb_frames.specs.Link.{link_of};
ghost use Rattle.nb_frames.specs.Tags.{is_tag, is_ip};
ghost use Rattle.nb_frames.specs.declared.contents.Contents.{Contents};
ghost use Rattle.nb_frames.specs.declared.limits.TheConstants.{MAX_TAGS};
ghost use Rattle.nb_frames.specs.declared.link.Link.TheVariants.{Ethernet, Cooked, CookedV2, Raw, Loopback, Unknown};
ghost use Rattle.nb_frames.specs.declared.tcp_flags.TheConstants.TcpFlags.{CWR, ECE, URG, ACK, PSH, RST, SYN, FIN};

/// Whatever its link type and its bytes, a frame has one thing, and no other.
pub fn one_answer()
    ensures some { (link_type : ℕ) (frame : List ℕ) →
        (contents : Contents) × HasContents link_type frame contents }
    ensures one { (link_type : ℕ) (frame : List ℕ) (contents other : Contents) →
        HasContents link_type frame contents → HasContents link_type frame other →
        contents ≡ other }
{}

/// What is written part after part is what is read by places: of a frame of Ethernet with one tag,
/// a packet of IPv4 with any options, a datagram and any padding the payload is the datagram's.
pub fn layout_is_read()
    ensures { (frame : TaggedDatagram) → IsLaidOut frame →
        HasContents 1 (frame_bytes frame) (contents_written frame) }
{}

/// A field is what stands at its place.
pub fn fields_stand()
    ensures word { (bytes : List ℕ) (at number : ℕ) → NumberAt bytes at w16 number →
        word_at bytes at ≡ number }
    ensures long { (bytes : List ℕ) (at number : ℕ) → NumberAt bytes at w32 number →
        long_at bytes at ≡ number }
    ensures part { (bytes part : List ℕ) (at : ℕ) → StandsAt bytes at part →
        bytes_at (length part) bytes at ≡ part }
{}

/// The numbers that the definitions cite: link types of tcpdump.org, types of Ethernet, and control
/// bits of TCP by their places in their byte.
pub fn numbers()
    ensures links { (link_of 1 ≡ Ethernet) × (link_of 113 ≡ Cooked) × (link_of 276 ≡ CookedV2) }
    ensures raw { (link_of 12 ≡ Raw) × (link_of 14 ≡ Raw) × (link_of 101 ≡ Raw) ×
        (link_of 228 ≡ Raw) × (link_of 229 ≡ Raw) }
    ensures loopback { (link_of 0 ≡ Loopback) × (link_of 108 ≡ Loopback) }
    ensures unknown { (link_of 2 ≡ Unknown) × (link_of 105 ≡ Unknown) }
    ensures tags { (MAX_TAGS ≡ 4) × (is_tag 33024 ≡ true) × (is_tag 34984 ≡ true) ×
        (is_tag 37120 ≡ true) }
    ensures ip { (is_ip 2048 ≡ true) × (is_ip 34525 ≡ true) }
    ensures flags { (CWR.0 ≡ 128) × (ECE.0 ≡ 64) × (URG.0 ≡ 32) × (ACK.0 ≡ 16) ×
        (PSH.0 ≡ 8) × (RST.0 ≡ 4) × (SYN.0 ≡ 2) × (FIN.0 ≡ 1) }
{}
