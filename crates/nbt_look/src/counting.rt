//! How many frames there are, and what they have.
ghost use Rattle.std.specs.Prelude.{◌≡◌, ◌<◌};
ghost use Rattle.nbt_look.specs.Counting.{count_of, counted, counted_frame, finished, lack_count, lack_place, no_counts, place_of, unread, why_fragment, why_lost, with_reason};
ghost use Rattle.nbt_look.specs.Totals.{member_of, noun_of, rest_of, words_of};

use nb_connections::Reason as Lost;
use nb_frames::Reason;
use nb_traffic::{FragmentFault, Unfinished};

/// Why something of a frame is left out.
#[derive(Clone, Copy)]
pub enum LeftOut {
    /// The snap length cut its packet.
    Cut,
    /// The packet has less than its length says.
    BadLength,
    /// Bytes of TCP come after others that are missing.
    AfterGap,
    /// Bytes of TCP come after a header that no session packet has.
    AfterBadHeader,
    /// Bytes of TCP are of a direction whose start is missing.
    NoStart,
    /// Bytes of TCP come with RST.
    Reset,
    /// There are too many directions of TCP.
    Directions,
    /// Bytes of TCP came before with other values.
    Differs,
    /// Fragments of IP contradict one another.
    Disagree,
    /// The snap length cut a fragment of IP.
    CutFragment,
    /// A fragment of IP reaches further than a packet.
    TooLong,
    /// There are too many fragments of IP.
    TooMany,
    /// A session packet has no end in the capture.
    NoRest,
    /// Of a packet of IP the capture has some fragments.
    NoOthers,
    /// It ends inside a header.
    CutHeader,
    /// A header says what can't be.
    BadHeader,
    /// It has PPP over Ethernet.
    Ppp,
    /// It has labels of MPLS.
    Mpls,
    /// It has LLC.
    Llc,
    /// It has more than four tags of VLANs.
    Tags,
    /// Its link type is none that is read.
    Link,
}

/// All of these, in the order in which they are said.
pub const ALL: [LeftOut; 21] = [
    LeftOut::Cut,
    LeftOut::BadLength,
    LeftOut::AfterGap,
    LeftOut::AfterBadHeader,
    LeftOut::NoStart,
    LeftOut::Reset,
    LeftOut::Directions,
    LeftOut::Differs,
    LeftOut::Disagree,
    LeftOut::CutFragment,
    LeftOut::TooLong,
    LeftOut::TooMany,
    LeftOut::NoRest,
    LeftOut::NoOthers,
    LeftOut::CutHeader,
    LeftOut::BadHeader,
    LeftOut::Ppp,
    LeftOut::Mpls,
    LeftOut::Llc,
    LeftOut::Tags,
    LeftOut::Link,
];

impl LeftOut {
    /// Its place among all reasons.
    fn place(self) -> usize
        ensures is { result ≡ place_of self }
        ensures within { result < 21 }
    {
        self as usize
    }

    /// The reason in words that go with any number.
    pub fn words(self) -> &'static str
        ensures { result.now ≡ words_of self }
    {
        match self {
            LeftOut::Cut => "cut by the snap length",
            LeftOut::BadLength => "a length that the packet lacks",
            LeftOut::AfterGap => "after a gap in TCP",
            LeftOut::AfterBadHeader => "after a bad header",
            LeftOut::NoStart => "of a TCP stream whose start is missing",
            LeftOut::Reset => "with RST",
            LeftOut::Directions => "TCP: too many directions",
            LeftOut::Differs => "sent again with other bytes",
            LeftOut::Disagree => "fragments of IP that disagree",
            LeftOut::CutFragment => "fragments of IP that are cut themselves",
            LeftOut::TooLong => "fragments of IP too long",
            LeftOut::TooMany => "fragments of IP: too many",
            LeftOut::NoRest => "a session packet whose rest is missing",
            LeftOut::NoOthers => "fragments of IP whose others are missing",
            LeftOut::CutHeader => "with a header that is cut",
            LeftOut::BadHeader => "with a bad header",
            LeftOut::Ppp => "in PPP over Ethernet",
            LeftOut::Mpls => "in MPLS",
            LeftOut::Llc => "in LLC",
            LeftOut::Tags => "with more than four VLAN tags",
            LeftOut::Link => "of an unknown link type",
        }
    }
}

/// Why bytes of a stream of TCP are left out.
pub fn why_lost(reason: Lost) -> LeftOut
    ensures { result ≡ why_lost reason }
{
    match reason {
        Lost::Gap => LeftOut::AfterGap,
        Lost::BadHeader => LeftOut::AfterBadHeader,
        Lost::NoStart => LeftOut::NoStart,
        Lost::Reset => LeftOut::Reset,
        Lost::TooMany => LeftOut::Directions,
    }
}

/// Why a fragment of IP is.
pub fn why_fragment(fault: FragmentFault) -> LeftOut
    ensures { result ≡ why_fragment fault }
{
    match fault {
        FragmentFault::Disagrees => LeftOut::Disagree,
        FragmentFault::Cut => LeftOut::CutFragment,
        FragmentFault::TooLong => LeftOut::TooLong,
        FragmentFault::TooMany => LeftOut::TooMany,
    }
}

/// What a frame has that has neither a packet nor something that is left out.
#[derive(Clone, Copy)]
pub enum Lack {
    /// A fragment of IP.
    Fragment,
    /// A segment of TCP without data.
    Empty,
    /// A segment of TCP whose data is of a packet that another frame completes.
    Part,
    /// Another port or protocol.
    Other,
}

/// All of these, in the order in which they are said.
pub const LACKS: [Lack; 4] = [Lack::Fragment, Lack::Empty, Lack::Part, Lack::Other];

impl Lack {
    /// Its place among all of these.
    fn place(self) -> usize
        ensures is { result ≡ lack_place self }
        ensures within { result < 4 }
    {
        self as usize
    }

    /// What it is, as words whose plural has an s.
    pub fn noun(self) -> &'static str
        ensures { result.now ≡ noun_of self }
    {
        match self {
            Lack::Fragment => "fragment",
            Lack::Empty | Lack::Part => "TCP segment",
            Lack::Other => "frame",
        }
    }

    /// What follows these words.
    pub fn rest(self) -> &'static str
        ensures { result.now ≡ rest_of self }
    {
        match self {
            Lack::Fragment => " of IP",
            Lack::Empty => " without data",
            Lack::Part => " of a packet that another frame completes",
            Lack::Other => " of other ports and protocols",
        }
    }

    /// The name of the member that has the count.
    pub fn member(self) -> &'static str
        ensures { result.now ≡ member_of self }
    {
        match self {
            Lack::Fragment => "fragments",
            Lack::Empty => "empty_segments",
            Lack::Part => "partial_segments",
            Lack::Other => "others",
        }
    }
}

/// How a line counts, or a frame without one.
#[derive(Clone, Copy)]
pub enum Outcome {
    /// A packet of port 137, 138 or 139.
    Packet,
    /// A packet that is refused.
    Malformed,
    /// Something that is left out.
    LeftOut(LeftOut),
    /// Neither.
    Without(Lack),
}

/// How a frame counts of which nothing is read, for this reason.
pub fn unread(reason: Reason) -> Outcome
    ensures { result ≡ unread reason }
{
    match reason {
        Reason::UnknownLink => Outcome::LeftOut(LeftOut::Link),
        Reason::NoIp => Outcome::Without(Lack::Other),
        Reason::PppOverEthernet => Outcome::LeftOut(LeftOut::Ppp),
        Reason::Mpls => Outcome::LeftOut(LeftOut::Mpls),
        Reason::Llc => Outcome::LeftOut(LeftOut::Llc),
        Reason::TooManyTags => Outcome::LeftOut(LeftOut::Tags),
        Reason::Protocol(_) => Outcome::Without(Lack::Other),
        Reason::Cut => Outcome::LeftOut(LeftOut::CutHeader),
        Reason::Bad => Outcome::LeftOut(LeftOut::BadHeader),
    }
}

/// How many frames and lines there are of each sort. A count stays at the greatest number.
#[derive(Drop)]
pub struct Counts {
    /// All frames.
    pub frames: u64,
    /// Those of UDP of port 137 or 138, and of TCP of port 139.
    pub of_ports: u64,
    /// Packets of these ports.
    pub packets: u64,
    /// Those that are refused.
    pub malformed: u64,
    /// What is left out.
    pub left_out: u64,
    /// The same by reason, in the order of [`ALL`].
    pub by_reason: [u64; 21],
    /// Frames that have neither.
    pub without: u64,
    /// The same by what they have, in the order of [`LACKS`].
    pub by_lack: [u64; 4],
}

impl Counts {
    /// No frame.
    pub fn new() -> Counts
        ensures { result ≡ no_counts }
    {
        Counts {
            frames: 0,
            of_ports: 0,
            packets: 0,
            malformed: 0,
            left_out: 0,
            by_reason: [0; 21],
            without: 0,
            by_lack: [0; 4],
        }
    }

    /// How often something is left out for this reason.
    pub fn of(&self, reason: LeftOut) -> u64
        ensures { result ≡ count_of reason self.now }
    {
        self.by_reason[reason.place()]
    }

    /// How many frames without a packet have this.
    pub fn lacking(&self, lack: Lack) -> u64
        ensures { result ≡ lack_count lack self.now }
    {
        self.by_lack[lack.place()]
    }

    /// Counts a frame, which is of the ports or not, and counts so where it has no line.
    pub fn count_frame(&mut self, is_of_ports: bool, outcome: Option<Outcome>)
        ensures { self.new ≡ counted_frame is_of_ports outcome self.old }
    {
        self.frames = self.frames.saturating_add(1);
        if is_of_ports {
            self.of_ports = self.of_ports.saturating_add(1);
        }
        if let Some(outcome) = outcome {
            self.count(outcome);
        }
    }

    /// Counts a line, or a frame without one.
    pub fn count(&mut self, outcome: Outcome)
        ensures { self.new ≡ counted outcome self.old }
    {
        match outcome {
            Outcome::Packet => self.packets = self.packets.saturating_add(1),
            Outcome::Malformed => {
                self.packets = self.packets.saturating_add(1);
                self.malformed = self.malformed.saturating_add(1);
            }
            Outcome::LeftOut(reason) => self.leave_out(reason, 1),
            Outcome::Without(lack) => {
                self.without = self.without.saturating_add(1);
                self.by_lack[lack.place()] = self.lacking(lack).saturating_add(1);
            }
        }
    }

    /// Counts what is unfinished at the end of the capture.
    pub fn finish(&mut self, unfinished: Unfinished)
        ensures { self.new ≡ finished unfinished self.old }
    {
        self.leave_out(LeftOut::NoRest, unfinished.sessions);
        self.leave_out(LeftOut::NoOthers, unfinished.fragments);
    }

    /// Counts so much that is left out for this reason.
    fn leave_out(&mut self, reason: LeftOut, count: u64)
        ensures { self.new ≡ with_reason reason count self.old }
    {
        self.left_out = self.left_out.saturating_add(count);
        self.by_reason[reason.place()] = self.of(reason).saturating_add(count);
    }
}
