//! Which packets of the list are wanted.
ghost use Rattle.std.specs.Prelude.{◌≡◌};
ghost use Rattle.nb_traffic.specs.Brought.{packet_value};
ghost use Rattle.nbt_look.specs.Wanted.{begins_as, front_bits, is_at, is_between, is_enough, is_of, looks_inside, wants, wants_all};

use crate::kinds::Kind;
use nb_frames::{Hosts, Ports};
use nb_streams::{Bytes, Items};
use nb_traffic::Packet;
use std::net::IpAddr;

/// Addresses that begin with the same bits.
#[derive(Clone, Copy)]
pub struct Prefix {
    /// One of them.
    pub start: IpAddr,
    /// How many bits at their front are its bits: at most 32, or 128 of IPv6.
    pub bits: u8,
}

/// Which packets are wanted: of several values of a kind one has to fit, and each kind.
#[derive(Drop)]
pub struct Filter {
    /// Packets with one of these names; with any, where there is none.
    pub names: Items<Bytes>,
    /// Packets from or to these hosts; of any, where there is none.
    pub hosts: Items<Prefix>,
    /// Packets from or to these ports, or of their services; of any, where there is none.
    pub ports: Items<u16>,
    /// Packets of these kinds; of any, where there is none.
    pub kinds: Items<Kind>,
    /// How many of them at most.
    pub most: Option<u64>,
}

impl Filter {
    /// Whether a packet is of the hosts and ports that are wanted.
    pub fn wants(&self, packet: &Packet<'_>) -> bool
        ensures { result ≡ wants self.now (packet_value packet.now) }
    {
        is_between(self.hosts.as_slice(), packet.hosts)
            && is_at(self.ports.as_slice(), packet.ports, packet.service)
    }

    /// Whether every packet is wanted.
    pub fn wants_all(&self) -> bool
        ensures { result ≡ wants_all self.now }
    {
        self.names.as_slice().is_empty()
            && self.hosts.as_slice().is_empty()
            && self.ports.as_slice().is_empty()
            && self.kinds.as_slice().is_empty()
    }

    /// Whether it depends on what a payload has that a packet is wanted.
    pub fn looks_inside(&self) -> bool
        ensures { result ≡ looks_inside self.now }
    {
        !self.names.as_slice().is_empty() || !self.kinds.as_slice().is_empty()
    }

    /// Whether so many lines are as many as are wanted.
    pub fn is_enough(&self, shown: u64) -> bool
        ensures { result ≡ is_enough self.now shown }
    {
        match self.most {
            Some(most) => most <= shown,
            None => false,
        }
    }
}

/// Whether an address begins with the first so many bits of another one of its version.
fn begins_as(start: IpAddr, bits: u8, address: IpAddr) -> bool
    ensures { result ≡ begins_as start bits address }
{
    match (start, address) {
        (IpAddr::V4(start), IpAddr::V4(address)) => {
            front_bits_4(address.to_bits(), bits) == front_bits_4(start.to_bits(), bits)
        }
        (IpAddr::V6(start), IpAddr::V6(address)) => {
            front_bits_6(address.to_bits(), bits) == front_bits_6(start.to_bits(), bits)
        }
        _ => false,
    }
}

/// The first so many bits of an address of IPv4, as a number; all of them, where that is more.
fn front_bits_4(address: u32, bits: u8) -> u64
    ensures { result ≡ front_bits 32 bits address }
{
    u64::from(address) >> 32u8.saturating_sub(bits)
}

/// The first so many bits of an address of IPv6, as a number; all of them, where that is more.
fn front_bits_6(address: u128, bits: u8) -> u128
    ensures { result ≡ front_bits 128 bits address }
{
    if bits == 0 {
        return 0;
    }
    address >> 128u8.saturating_sub(bits)
}

/// Whether an address is one of these.
fn is_of(prefixes: &[Prefix], address: IpAddr) -> bool
    ensures { result ≡ is_of prefixes.now address }
{
    prefixes
        .iter()
        .any(|prefix| begins_as(prefix.start, prefix.bits, address))
}

/// Whether a packet comes from or goes to one of these hosts; any does where there is none.
fn is_between(prefixes: &[Prefix], hosts: Hosts) -> bool
    ensures { result ≡ is_between prefixes.now hosts }
{
    prefixes.is_empty() || is_of(prefixes, hosts.source) || is_of(prefixes, hosts.destination)
}

/// Whether one of these ports is the sender's, the receiver's or that of the service; any does
/// where there is none.
fn is_at(ports: &[u16], ends: Ports, service: u16) -> bool
    ensures { result ≡ is_at ports.now ends service }
{
    ports.is_empty()
        || ports.contains(&ends.source)
        || ports.contains(&ends.destination)
        || ports.contains(&service)
}
