//! Laws of the definitions that the contracts cite. Each is proved; a call does nothing.
ghost use Rattle.std.specs.Prelude.{◌≡◌, ◌+◌, ◌++◌, ◌∷◌, [], ℕ, List, length, Option, Some, None, Ok, Err};
ghost use Rattle.nb_streams.specs.Counted.{Counts};
ghost use Rattle.nb_pcap.specs.declared.context.Context.{Context};
ghost use Rattle.nb_pcap.specs.declared.context.Context.TheVariants.{Beginning};
ghost use Rattle.nb_pcap.specs.declared.fault.FileFault.{FileFault};
ghost use Rattle.nb_pcap.specs.declared.form.Unit.TheVariants.{Micro, Nano};
ghost use Rattle.nb_pcap.specs.declared.limits.TheConstants.{MAGIC_LENGTH, HEADER_LENGTH, RECORD_LENGTH, BLOCK_LENGTH, SECTION_LENGTH, INTERFACE_LENGTH, PACKET_LENGTH, SIMPLE_LENGTH, OPTION_LENGTH, MAX_CAPTURED, MAX_ITEM, MAX_INTERFACES, MAX_NAME};
ghost use Rattle.nb_pcap.specs.declared.numbers.Order.TheVariants.{Little, Big};
ghost use Rattle.nb_pcap.specs.Classic.{marks_in, record_time};
ghost use Rattle.nb_pcap.specs.Clock.{ticks_a_second, time_of};
ghost use Rattle.nb_pcap.specs.File.{Spells, IsBad, IsStuck, IsUnfinished};
ghost use Rattle.nb_pcap.specs.Frame.{FrameValue};
ghost use Rattle.nb_pcap.specs.Reading.{FileValue, Numbered, ReadsFrame, nothing_read};
ghost use Rattle.nb_pcap.specs.Taking.{HasGiven, HasEnded, HasStopped};

/// Bytes are parts, one after another, in one way: a whole file has one list of frames, and other
/// bytes have one, and one rest, of which no part is read.
pub fn one_file()
    ensures whole { (bytes : List ℕ) (frames others : List FrameValue) (last other : Context)
        → Spells Beginning bytes frames last [] → Spells Beginning bytes others other []
        → frames ≡ others }
    ensures front { (bytes rest left : List ℕ) (frames others : List FrameValue)
        (last other : Context) → Spells Beginning bytes frames last rest → IsStuck last rest
        → Spells Beginning bytes others other left → IsStuck other left
        → (frames ≡ others) × (rest ≡ left) × (last ≡ other) }
{}

/// The frames that calls of `next_frame` give, one after another, are those that the bytes of the
/// file spell, in order and numbered from 1, however the reads cut it; then the file ends, or a
/// fault is answered with its byte and the number of frames before it.
pub fn frames_in_order()
    ensures none { (known : Option (List ℕ)) (counts : Counts) →
        HasGiven known known counts counts [] nothing_read }
    ensures next { (before now left : Option (List ℕ)) (counts midway later : Counts)
        (frames : List FrameValue) (file new : FileValue) (found : Numbered)
        → HasGiven before now counts midway frames file
        → ReadsFrame file now left midway later (Ok (Some found)) new
        → HasGiven before left counts later (frames ++ found.frame ∷ []) new
        × (found.number ≡ length frames + 1) }
    ensures end { (before now left : Option (List ℕ)) (counts midway later : Counts)
        (frames : List FrameValue) (file new : FileValue)
        → HasGiven before now counts midway frames file
        → ReadsFrame file now left midway later (Ok None) new → HasEnded before left frames }
    ensures fault { (before now left : Option (List ℕ)) (counts midway later : Counts)
        (frames : List FrameValue) (file new : FileValue) (why : FileFault)
        → HasGiven before now counts midway frames file
        → ReadsFrame file now left midway later (Err why) new
        → HasStopped before left counts later frames why new.place
        × (new.frames ≡ length frames) }
{}

/// No part stands where one is unfinished, or where none can be read: so it is one list of frames
/// that a fault comes after.
pub fn no_part_at_a_fault()
    ensures cut { (context : Context) (bytes : List ℕ) → IsUnfinished context bytes
        → IsStuck context bytes }
    ensures bad { (context : Context) (bytes : List ℕ) (why : FileFault) → IsBad context bytes why
        → IsStuck context bytes }
{}

/// Magic numbers of classic files, in either order of bytes; lengths and limits.
pub fn numbers()
    ensures micro { (marks_in (0xa1 ∷ 0xb2 ∷ 0xc3 ∷ 0xd4 ∷ []) ≡ Some (Big, Micro))
        × (marks_in (0xd4 ∷ 0xc3 ∷ 0xb2 ∷ 0xa1 ∷ []) ≡ Some (Little, Micro)) }
    ensures nano { (marks_in (0xa1 ∷ 0xb2 ∷ 0x3c ∷ 0x4d ∷ []) ≡ Some (Big, Nano))
        × (marks_in (0x4d ∷ 0x3c ∷ 0xb2 ∷ 0xa1 ∷ []) ≡ Some (Little, Nano)) }
    ensures limits { (MAGIC_LENGTH ≡ 4) × (HEADER_LENGTH ≡ 24) × (RECORD_LENGTH ≡ 16)
        × (BLOCK_LENGTH ≡ 12) × (SECTION_LENGTH ≡ 28) × (INTERFACE_LENGTH ≡ 20)
        × (PACKET_LENGTH ≡ 32) × (SIMPLE_LENGTH ≡ 16) × (OPTION_LENGTH ≡ 4)
        × (MAX_CAPTURED ≡ 262144) × (MAX_ITEM ≡ 393216) × (MAX_INTERFACES ≡ 65536)
        × (MAX_NAME ≡ 255) }
{}

/// Times by example: a microsecond of a classic file; a clock of a thousandth, 7 s before 1970, at
/// 9,001 units; one of a 1,024th; and one that begins too late for 64 bits.
pub fn times()
    ensures micro { record_time Micro 5 7 ≡ 5000007000 }
    ensures nano { record_time Nano 5 7 ≡ 5000000007 }
    ensures thousandth { ticks_a_second 3 ≡ Some 1000 }
    ensures power_of_two { ticks_a_second 138 ≡ Some 1024 }
    ensures too_fine { ticks_a_second 39 ≡ None }
    ensures before { time_of (record { ticks = Some 1000; offset = 18446744073709551609 }) 9001
        ≡ Some 2001000000 }
    ensures too_early { time_of (record { ticks = Some 1000; offset = 18446744073709551609 }) 6999
        ≡ None }
    ensures too_late { time_of (record { ticks = Some 1000; offset = 18446744074 }) 0 ≡ None }
{}
