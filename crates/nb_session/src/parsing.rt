//! Packets and their headers, parsed from the front of bytes.
ghost use Rattle.std.specs.Prelude.{◌≡◌, ◌+◌, ◌≤◌, length, IfOk, IfErr, ◌<◌, IsSomeAnd, MatchOption};
ghost use Rattle.nb_names.specs.Name.{NetbiosName};
ghost use Rattle.nb_session.specs.declared.packet.Kind.TheVariants.{Request};
ghost use Rattle.nb_session.specs.declared.limits.TheConstants.{HEADER_LENGTH};
ghost use Rattle.nb_session.specs.Header.{HasHeader, IsGood, packet_length, body_length};
ghost use Rattle.nb_session.specs.Packet.{IsPacket};
ghost use Rattle.nb_session.specs.PacketReading.{IsEarliest};
ghost use Rattle.nb_session.specs.Parsing.{RequestFails, Parses, HeaderFails};
ghost use Rattle.nb_session.specs.declared.parsing.Header.{Header as HeaderValue};

use crate::fault::SessionFault;
use crate::laws::{one_answer, one_header};
use crate::limits::HEADER_LENGTH;
use crate::packet::{Kind, LentPacket, MessageData, Packet};
use nb_names::{LentName, Name, NameForm, read_lent_name};
use nb_streams::numbers::number_16;

/// What stands at the front of bytes. The names of a packet stand in the form `N`.
#[derive(Debug, Drop, PartialEq, Eq)]
pub enum Parsed<'a, N: NameForm = Name> {
    /// A packet, and how many of the bytes it takes up.
    Whole(Packet<'a, N>, usize),
    /// The front of a packet: this many bytes more, one at least, are needed to judge the header,
    /// or to have the whole packet where its header is there.
    More(usize),
    /// Neither, for the first fault.
    Refused(SessionFault),
}

/// What stands at the front of bytes, the names of a packet being lent too.
pub type LentParsed<'a> = Parsed<'a, LentName<'a>>;

impl<'a> LentParsed<'a> {
    /// The same, with the names of a packet in place. No memory is taken.
    pub fn to_parsed(&self) -> Parsed<'a>
        ensures { result ≡ self.now }
    {
        match self {
            Parsed::Whole(packet, used) => Parsed::Whole(packet.to_packet(), *used),
            Parsed::More(needed) => Parsed::More(*needed),
            Parsed::Refused(fault) => Parsed::Refused(*fault),
        }
    }
}

/// What stands at the front of bytes: a packet, the front of one, or neither.
///
/// A fault of the header is answered as soon as its four bytes are there, one of the body once it
/// is there whole. Names are read from the packet alone, with pointers refused. Bytes after a
/// whole packet are left unread. No memory is taken: a message is lent from the bytes.
///
/// RFC 1002 section 4.3.
pub fn parse<'a>(bytes: &'a [u8]) -> Parsed<'a>
    // It stands there, and nothing else does.
    ensures stands { Parses bytes.now result }
    ensures only { (parsed : Parsed NetbiosName) → Parses bytes.now parsed → result ≡ parsed }
{
    parse_lent(bytes).to_parsed()
}

/// What stands at the front of bytes, as [`parse`] answers it. The names of a request are lent from
/// the bytes, too. No memory is taken.
///
/// RFC 1002 section 4.3.
pub fn parse_lent<'a>(bytes: &'a [u8]) -> LentParsed<'a>
    // It stands there, and nothing else does.
    ensures stands { Parses bytes.now result }
    ensures only { (parsed : Parsed NetbiosName) → Parses bytes.now parsed → result ≡ parsed }
{
    // The law on which the clause `only` stands; the call does nothing.
    one_answer();
    parse_front(bytes)
}

/// The request that a packet of that kind is.
fn read_request<'a>(header: Header, packet: &'a [u8]) -> Result<LentPacket<'a>, SessionFault>
    requires header { HasHeader packet.now header }
    requires good { IsGood header Request }
    requires whole { length packet.now ≡ packet_length header }
    ensures found { IfOk result (λ read. IsPacket read packet.now) }
    ensures fault { IfErr result (RequestFails packet.now) }
{
    let (called, behind) = read_lent_name(packet, HEADER_LENGTH)?;
    let (calling, end) = read_lent_name(packet, behind)?;
    if end < packet.len() {
        return Err(SessionFault::TrailingBytes(end));
    }
    Ok(Packet::Request { called, calling })
}

/// The packet that these bytes are, its header being of this kind.
pub(crate) fn read_packet_of<'a>(
    kind: Kind,
    header: Header,
    packet: &'a [u8],
) -> Result<LentPacket<'a>, SessionFault>
    requires header { HasHeader packet.now header }
    requires good { IsGood header kind }
    requires whole { length packet.now ≡ packet_length header }
    ensures found { IfOk result (λ read. IsPacket read packet.now) }
    ensures fault { IfErr result (λ fault. (kind ≡ Request) × RequestFails packet.now fault) }
    ensures earliest { IfErr result (λ fault.
        Parses packet.now (Parsed.Refused fault) × IsEarliest packet.now) }
{
    match kind {
        Kind::Message => Ok(Packet::Message(MessageData::of(&packet[HEADER_LENGTH..]))),
        Kind::Request => read_request(header, packet),
        Kind::Positive => Ok(Packet::Positive),
        Kind::Negative => Ok(Packet::Negative(packet[HEADER_LENGTH])),
        Kind::Retarget => Ok(Packet::Retarget {
            address: [packet[4], packet[5], packet[6], packet[7]],
            port: number_16(packet, 8),
        }),
        Kind::Keepalive => Ok(Packet::Keepalive),
    }
}

/// What stands at the front of bytes.
fn parse_front<'a>(bytes: &'a [u8]) -> LentParsed<'a>
    ensures { Parses bytes.now result }
{
    let Some(header) = front_header(bytes) else {
        return Parsed::More(HEADER_LENGTH - bytes.len());
    };
    let kind = match header.judge() {
        Ok(kind) => kind,
        Err(fault) => return Parsed::Refused(fault),
    };
    let used = header.packet_length();
    if bytes.len() < used {
        return Parsed::More(used - bytes.len());
    }
    match read_packet_of(kind, header, &bytes[..used]) {
        Ok(packet) => Parsed::Whole(packet, used),
        Err(fault) => Parsed::Refused(fault),
    }
}

/// The bit of FLAGS that LENGTH lacks: it adds 65,536 to the length of the body.
const EXTENSION: u8 = 0x01;

/// The four bytes before a body (RFC 1002 section 4.3.1).
#[derive(Clone, Copy, Debug, PartialEq, Eq)]
pub struct Header {
    /// TYPE.
    pub packet_type: u8,
    /// FLAGS, all eight bits.
    pub flags: u8,
    /// LENGTH, without the bit in FLAGS.
    pub length: u16,
}

/// The header at the front of bytes, which are four at least.
pub(crate) fn read_header(bytes: &[u8]) -> Header
    requires { HEADER_LENGTH ≤ length bytes.now }
    ensures { HasHeader bytes.now result }
{
    Header {
        packet_type: bytes[0],
        flags: bytes[1],
        length: number_16(bytes, 2),
    }
}

/// The header at the front of bytes, where its four bytes are there. It isn't judged, and what
/// follows isn't looked at. No memory is taken.
///
/// RFC 1002 section 4.3.1.
pub fn front_header(bytes: &[u8]) -> Option<Header>
    // What is answered stands there, and what stands there is answered.
    ensures found { MatchOption result (length bytes.now < HEADER_LENGTH) (HasHeader bytes.now) }
    ensures only { (header : HeaderValue) → HasHeader bytes.now header →
        IsSomeAnd result (λ read. read ≡ header) }
{
    // The law on which the clause `only` stands; the call does nothing.
    one_header();
    if bytes.len() < HEADER_LENGTH {
        return None;
    }
    Some(read_header(bytes))
}

impl Header {
    /// How many bytes the body has: LENGTH, and 65,536 where the lowest bit of FLAGS is set.
    pub fn body_length(&self) -> usize
        ensures value { result ≡ body_length self.now }
    {
        let low = self.length as usize;
        if self.flags & EXTENSION == 0 {
            low
        } else {
            65_536 + low
        }
    }

    /// How many bytes the packet has, its header included.
    pub(crate) fn packet_length(&self) -> usize
        ensures { result ≡ packet_length self.now }
    {
        HEADER_LENGTH + self.body_length()
    }

    /// The kind of the packet, where there are packets with such a header.
    pub(crate) fn judge(&self) -> Result<Kind, SessionFault>
        ensures good { IfOk result (IsGood self.now) }
        ensures fault { IfErr result (HeaderFails self.now) }
    {
        let Some(kind) = Kind::of_type(self.packet_type) else {
            return Err(SessionFault::UnknownType);
        };
        if self.flags > EXTENSION {
            return Err(SessionFault::ReservedFlags);
        }
        if !kind.may_have(self.body_length()) {
            return Err(SessionFault::BadLength);
        }
        Ok(kind)
    }
}
