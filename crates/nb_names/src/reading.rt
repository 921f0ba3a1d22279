//! Names, read where they stand in a packet.
ghost use Rattle.std.specs.Prelude.{◌≡◌, ◌≤◌, ℕ, List, length, IfOk, IfErr, IsOkAnd, ◌≢◌, ◌-◌, MatchOption};
ghost use Rattle.nb_names.specs.Labels.{NameAt};
ghost use Rattle.nb_names.specs.Name.{NetbiosName, IsName, IsByteName, labels_of_name};
ghost use Rattle.nb_names.specs.NameFaults.{FaultAt, NetbiosFaultAt};
ghost use Rattle.nb_names.specs.Skipped.{IsSkipped};
ghost use Rattle.nb_names.specs.Code.Kept.{AreEnds};

use crate::domain_name::{DomainName, LentDomain};
use crate::fault::NameFault;
use crate::length_byte::find_ends;
use crate::name::Name;
use crate::walking::{Passed, walk};
use std::marker::Model;

/// Reads the domain name at an offset of a packet, and answers it with the offset that follows it.
///
/// Hand over all of the packet: pointers in it count from its start. Offsets are in bytes, and `at`
/// may be past the end. What follows a name is what comes after its zero byte or after its first
/// pointer, in the place of the name itself. The call takes no memory.
///
/// # Errors
///
/// The first fault on the way, as [`NameFault`] orders them; never `NotNetbios`.
///
/// RFC 1002 section 4.1. Which pointers are good is our choice: those that go back before the
/// stretch that holds them.
pub fn read_domain(
    packet: &[u8],
    at: usize,
    pointers: Pointers,
) -> Result<(DomainName, usize), NameFault>
    // What is answered stands there, and what stands there is answered.
    ensures found { IfOk result (λ read. NameAt packet.now pointers at read.0 read.1) }
    ensures only { (labels : List (List ℕ)) (next : ℕ) → NameAt packet.now pointers at labels next →
        IsOkAnd result (λ read. (read.0 ≡ labels) × (read.1 ≡ next)) }
    ensures within { IfOk result (λ read. read.1 ≤ length packet.now) }

    // Which fault it is, and where.
    ensures fault { IfErr result (FaultAt packet.now pointers at) }
{
    NameReader::of(packet, &mut []).read_domain(at, pointers)
}

/// Reads the NetBIOS name at an offset of a packet, and answers it with the offset that follows it.
///
/// It is read as by [`read_domain`], to the same offset. No memory is taken.
///
/// # Errors
///
/// Those of [`read_domain`], then `NotNetbios`, whose place is in the spelling of the labels read.
///
/// RFC 1001 section 14.1, RFC 1002 section 4.1.
pub fn read_name(packet: &[u8], at: usize, pointers: Pointers) -> Result<(Name, usize), NameFault>
    // The labels of the name answered stand there, and a name whose labels stand there is answered.
    ensures found { IfOk result (λ read.
        NameAt packet.now pointers at (labels_of_name read.0) read.1) }
    ensures name { IfOk result (λ read. IsByteName read.0) }
    ensures only { (name : NetbiosName) (next : ℕ) → IsName name →
        NameAt packet.now pointers at (labels_of_name name) next →
        IsOkAnd result (λ read. (read.0 ≡ name) × (read.1 ≡ next)) }
    ensures within { IfOk result (λ read. read.1 ≤ length packet.now) }

    // Which fault it is, and where.
    ensures fault { IfErr result (NetbiosFaultAt packet.now pointers at) }
{
    let (domain, next) = read_domain(packet, at, pointers)?;
    match Name::from_domain(&domain) {
        Ok(name) => Ok((name, next)),
        Err(fault) => Err(NameFault::NotNetbios(fault.place)),
    }
}

/// A packet of which many names are read, with the ends of its chains of pointers.
///
/// A name that ends in a pointer to a pointer, and so on, is read without a walk along them.
#[derive(Drop)]
pub struct NameReader<'a, 'r> {
    packet: &'a [u8],
    /// For each offset that has a place, where the chain of pointers from there ends.
    ends: &'r [u16],
}

impl<'a, 'r> Model for NameReader<'a, 'r> {
    ghost Value = { List ℕ };

    ghost view = { λ reader. reader.packet.now };

    ghost invariant = { λ reader. AreEnds reader.packet.now reader.ends.now };
}

impl<'a, 'r> NameReader<'a, 'r> {
    /// A reader of a packet's names. No memory is taken.
    ///
    /// The room keeps the ends, an offset a place, and what it held doesn't matter. With
    /// [`POINTED_OFFSETS`](crate::limits::POINTED_OFFSETS) places it has one for each offset to
    /// which a pointer can lead; pointers at offsets without a place are followed one by one. No
    /// answer depends on it.
    pub fn of(packet: &'a [u8], room: &'r mut [u16]) -> Self
        ensures { result ≡ packet.now }
    {
        let count = find_ends(packet, room);
        NameReader {
            packet,
            ends: &room[..count],
        }
    }

    /// The packet's bytes.
    pub fn packet(&self) -> &'a [u8]
        ensures { result.now ≡ self.now }
    {
        self.packet
    }

    /// Reads the domain name at an offset of the packet, as [`read_domain`](crate::read_domain)
    /// does.
    ///
    /// # Errors
    ///
    /// Those of [`read_domain`](crate::read_domain).
    ///
    /// RFC 1002 section 4.1.
    #[inline]
    pub fn read_domain(
        &self,
        at: usize,
        pointers: Pointers,
    ) -> Result<(DomainName, usize), NameFault>
        // What is answered stands there, and what stands there is answered.
        ensures found { IfOk result (λ read. NameAt self.now pointers at read.0 read.1) }
        ensures only { (labels : List (List ℕ)) (next : ℕ) →
            NameAt self.now pointers at labels next →
            IsOkAnd result (λ read. (read.0 ≡ labels) × (read.1 ≡ next)) }
        ensures within { IfOk result (λ read. read.1 ≤ length self.now) }

        // Which fault it is, and where.
        ensures fault { IfErr result (FaultAt self.now pointers at) }
    {
        let mut name = DomainName::root();
        let seen = walk(self.packet, self.ends, at, pointers, &mut name)?;
        Ok((name, seen.next))
    }

    /// Where the domain name stands that is at an offset of the packet, and how long its spelling
    /// is. The name is judged as by [`NameReader::read_domain`], and not made.
    ///
    /// Where its last stretch is as long as its spelling, all of its labels stand there
    /// ([`spelled_in_one_stretch`](crate::laws::spelled_in_one_stretch)): so it is where no label
    /// comes before a pointer.
    ///
    /// # Errors
    ///
    /// Those of [`read_domain`](crate::read_domain).
    ///
    /// RFC 1002 section 4.1.
    #[inline(always)]
    pub fn skip_domain(&self, at: usize, pointers: Pointers) -> Result<Skipped, NameFault>
        ensures found { IfOk result (λ seen.
            (labels : List (List ℕ)) × IsSkipped self.now pointers at labels seen) }
        ensures only { (labels : List (List ℕ)) (next : ℕ) →
            NameAt self.now pointers at labels next →
            IsOkAnd result (λ seen. IsSkipped self.now pointers at labels seen
            × (seen.next ≡ next)) }
        ensures within { IfOk result (λ seen. seen.next ≤ length self.now) }
        ensures fault { IfErr result (FaultAt self.now pointers at) }
    {
        walk(self.packet, self.ends, at, pointers, &mut Passed)
    }

    /// The name at an offset that was judged so, lent from the packet; none where its last stretch
    /// is shorter than its spelling: it then stands in several. No memory is taken.
    #[inline]
    pub fn lent_at(&self, at: usize, pointers: Pointers, seen: &Skipped) -> Option<LentDomain<'a>>
        requires { (labels : List (List ℕ)) × IsSkipped self.now pointers at labels seen.now }
        ensures { MatchOption result
            (seen.now.stretch_end - seen.now.stretch ≢ seen.now.spelled_len)
            (λ name. (labels : List (List ℕ)) →
            IsSkipped self.now pointers at labels seen.now → name ≡ labels) }
    {
        let packet = self.packet();
        if seen.stretch_end - seen.stretch != seen.spelled_len {
            return None;
        }
        Some(LentDomain::of_spelling(&packet[seen.stretch..seen.stretch_end]))
    }

    /// The name at an offset that was judged so: a copy of the one lent, or else its labels, read
    /// once more. No memory is taken.
    #[inline]
    pub fn domain_at(&self, at: usize, pointers: Pointers, seen: &Skipped) -> DomainName
        requires { (labels : List (List ℕ)) × IsSkipped self.now pointers at labels seen.now }
        ensures { (labels : List (List ℕ)) → IsSkipped self.now pointers at labels seen.now →
            result ≡ labels }
    {
        if let Some(name) = self.lent_at(at, pointers, seen) {
            return name.to_domain();
        }
        let (name, _) = self.read_domain(at, pointers).unwrap();
        name
    }
}

/// Whether label pointers are followed where a name is read.
///
/// Name service packets have pointers, session and datagram packets none (RFC 1002 section 4.1).
#[derive(Clone, Copy, Debug, PartialEq, Eq)]
pub enum Pointers {
    /// A pointer is followed.
    Followed,
    /// A pointer is a fault.
    Refused,
}

/// Where a name stands that was judged and not made. Offsets count from the packet's first byte.
///
/// A name is read in stretches of labels: a pointer ends each of them but the last, which ends in a
/// zero byte.
///
/// RFC 1002 section 4.1.
#[derive(Clone, Copy, Debug, PartialEq, Eq)]
pub struct Skipped {
    /// The offset that follows the name.
    pub next: usize,
    /// How many bytes the spelling of its labels has, its zero byte included.
    pub spelled_len: usize,
    /// Where the last stretch begins: at the name itself, where no pointer is in it.
    pub stretch: usize,
    /// The offset after the zero byte of the last stretch.
    pub stretch_end: usize,
}
