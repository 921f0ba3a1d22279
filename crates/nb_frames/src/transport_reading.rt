//! Datagrams of UDP, and segments of TCP.
ghost use Rattle.std.specs.Prelude.{◌≡◌, ◌≤◌, length};
ghost use Rattle.nb_frames.specs.Transport.{ports_in, tcp_in, udp_in};

use crate::carried::{Carried, Hosts, Ports, TcpSegment, UdpDatagram};
use crate::fields::{long, word};
use crate::payload::Payload;
use crate::reason::Reason;
use crate::tcp_flags::TcpFlags;

/// What a packet between these hosts carries whose protocol is UDP (RFC 768).
pub(crate) fn read_udp<'a>(hosts: Hosts, body: &Payload<'a>) -> Carried<'a>
    ensures { result ≡ udp_in hosts body.now }
{
    let bytes = body.bytes();
    if body.wire_len() < 8 {
        return Carried::Other(Reason::Bad);
    }
    if bytes.len() < 8 {
        return Carried::Other(Reason::Cut);
    }
    let length = word(bytes, 4) as usize;
    if length < 8 {
        return Carried::Other(Reason::Bad);
    }
    Carried::Udp(UdpDatagram {
        hosts,
        ports: ports_in(bytes),
        payload: Payload::after(bytes, length, 8),
    })
}

/// What a packet between these hosts carries whose protocol is TCP (RFC 9293 section 3.1).
pub(crate) fn read_tcp<'a>(hosts: Hosts, body: &Payload<'a>) -> Carried<'a>
    ensures { result ≡ tcp_in hosts body.now }
{
    let bytes = body.bytes();
    let wire = body.wire_len();
    if wire < 20 {
        return Carried::Other(Reason::Bad);
    }
    if bytes.len() < 16 {
        return Carried::Other(Reason::Cut);
    }
    let header = (bytes[12] / 16) as usize * 4;
    if header < 20 || wire < header {
        return Carried::Other(Reason::Bad);
    }
    Carried::Tcp(TcpSegment {
        hosts,
        ports: ports_in(bytes),
        sequence: long(bytes, 4),
        acknowledgment: long(bytes, 8),
        flags: TcpFlags(bytes[13]),
        payload: Payload::after(bytes, wire, header),
    })
}

/// The ports with which a header begins.
fn ports_in(bytes: &[u8]) -> Ports
    requires { 4 ≤ length bytes.now }
    ensures { result ≡ ports_in bytes.now }
{
    Ports {
        source: word(bytes, 0),
        destination: word(bytes, 2),
    }
}
