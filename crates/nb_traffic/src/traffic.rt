//! The frames of a capture, one after another.
ghost use Rattle.std.specs.Prelude.{◌≡◌, [], IfOk};
ghost use Rattle.nb_pcap.specs.Frame.{value_of};
ghost use Rattle.nb_traffic.specs.Brings.{Brings, BringsCarried, BringsPacket, fault_of, unfinished_of};
ghost use Rattle.nb_frames.specs.declared.carried.Carried.TheVariants.{Fragment};
ghost use Rattle.nb_traffic.specs.Follows.{Follows};
ghost use Rattle.nb_traffic.specs.Brought.{brought_value};

use crate::brought::{Brought, FragmentFault, Packet, Segment, Unfinished};
use nb_connections::Connections;
use nb_fragments::{Fragments, Refusal, Taken};
use nb_frames::{Carried, IpFragment, Payload, Reason, carried_by_joined, contents_of};
use nb_pcap::Frame;
use nb_streams::{Bytes, NoMemory};
use std::alloc::Global;

/// What is kept of the frames that came: fragments of IP, and directions of TCP.
#[derive(Drop)]
pub struct Traffic {
    fragments: Fragments,
    connections: Connections,
}

/// Room for what a frame brings, of one frame after the other.
#[derive(Drop)]
pub struct Room {
    joined: Bytes,
    packets: Vec<u8>,
}

impl Room {
    /// No room yet. No memory is taken.
    pub fn new(alloc: Global) -> Room {
        Room {
            joined: Bytes::from_vec(Vec::new(alloc)),
            packets: Vec::new(alloc),
        }
    }
}

impl Traffic {
    /// None yet. No memory is taken.
    pub fn new(alloc: Global) -> Traffic
        ensures { Follows result [] }
    {
        Traffic {
            fragments: Fragments::new(alloc),
            connections: Connections::new(alloc),
        }
    }

    /// Takes the next frame of the capture, and answers what it brings.
    ///
    /// # Errors
    ///
    /// [`NoMemory`] where memory ran out.
    pub fn take<'a>(
        &mut self,
        frame: &Frame<'a>,
        room: &'a mut Room,
    ) -> Result<Brought<'a>, NoMemory>
        ensures { IfOk result (λ brought.
            Brings self.old (value_of frame.now) (brought_value brought) self.new) }
    {
        match contents_of(frame.link, frame.bytes).carried {
            Carried::Fragment(fragment) => self.join(&fragment, frame.time, room),
            carried => bring(&mut self.connections, carried, &mut room.packets),
        }
    }

    /// Takes a fragment of a frame of this time, and answers what it brings.
    fn join<'a>(
        &mut self,
        fragment: &IpFragment<'_>,
        time: Option<u64>,
        room: &'a mut Room,
    ) -> Result<Brought<'a>, NoMemory>
        ensures { IfOk result (λ brought.
            BringsCarried (Fragment fragment.now) time self.old (brought_value brought) self.new) }
    {
        let hosts = fragment.hosts;
        match self.fragments.take(fragment, time)? {
            Taken::Whole(bytes) => {
                room.joined = bytes;
                let body = Payload::whole(room.joined.as_slice());
                let carried = carried_by_joined(hosts, fragment.protocol, body);
                bring(&mut self.connections, carried, &mut room.packets)
            }
            Taken::Kept => Ok(Brought::Fragment),
            Taken::Again => Ok(Brought::Fragment),
            Taken::Disagrees => Ok(Brought::NoFragment(hosts, FragmentFault::Disagrees)),
            Taken::LeftOut(why) => Ok(Brought::NoFragment(hosts, fault_of(why))),
        }
    }

    /// What is missing at the end of the capture.
    pub fn unfinished(&self) -> Unfinished
        ensures { result ≡ unfinished_of self.now }
    {
        Unfinished {
            sessions: self.connections.unfinished(),
            fragments: self.fragments.unfinished(),
        }
    }
}

/// What a packet of IP brings that carries this.
fn bring<'a>(
    connections: &mut Connections,
    carried: Carried<'a>,
    packets: &'a mut Vec<u8>,
) -> Result<Brought<'a>, NoMemory>
    ensures { IfOk result (λ brought.
        BringsPacket carried.entry connections.old (brought_value brought) connections.new) }
{
    let service = carried.service_port();
    match carried {
        Carried::Udp(datagram) => match service {
            Some(service) => Ok(Brought::Datagram(Packet {
                hosts: datagram.hosts,
                ports: datagram.ports,
                service,
                bytes: datagram.payload.bytes(),
                wire_length: datagram.payload.wire_len(),
            })),
            None => Ok(Brought::OtherPorts),
        },
        Carried::Tcp(segment) => match service {
            Some(_) => {
                let taken = connections.take(&segment, packets)?;
                Ok(Brought::Segment(Segment {
                    hosts: segment.hosts,
                    ports: segment.ports,
                    wire_length: segment.payload.wire_len(),
                    packets: packets.as_slice(),
                    left_out: taken.left_out,
                    differs: taken.differs,
                }))
            }
            None => Ok(Brought::OtherPorts),
        },
        Carried::Fragment(_) => Ok(Brought::Unread(Reason::Bad)),
        Carried::Other(reason) => Ok(Brought::Unread(reason)),
    }
}

/// Why nothing is made of a fragment that isn't kept.
fn fault_of(why: Refusal) -> FragmentFault
    ensures { result ≡ fault_of why }
{
    match why {
        Refusal::Cut => FragmentFault::Cut,
        Refusal::TooLong => FragmentFault::TooLong,
        Refusal::TooMany => FragmentFault::TooMany,
    }
}
