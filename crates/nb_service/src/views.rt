//! The views of RDATA: the address entries of type NB, and the node status of type NBSTAT.
ghost use Rattle.std.specs.Prelude.{◌≡◌, ◌*◌, ℕ, List, [], length, IfSome, MatchOption, ◌<◌, ◌%◌, slice_get, take, drop};
ghost use Rattle.std.specs.List.{flat_map};
ghost use Rattle.nb_service.specs.Record.{of_bytes};
ghost use Rattle.nb_service.specs.Views.{AreEntries, HasEntries, entry_bytes, entries_in, entries_of_data, HasStatus, IsStatus, after_count, node_name_bytes, no_status, status_in, status_of_data, entry_of, entry_some, entry_given_back, node_name_of, node_name_some, node_name_given_back, StatusParts};
ghost use Rattle.nb_service.specs.Header.{node_bits, node_bits_of};
ghost use Rattle.nb_service.specs.declared.views.TheConstants.{ENTRY_LENGTH, NODE_NAME_LENGTH};

use crate::flags::NodeFlags;
use crate::kinds::{NB, NBSTAT};
use crate::parts::{Part, Parts};
use crate::record::{Rdata, Record};
use bitflags::Flags;
use nb_names::limits::NAME_LENGTH;
use std::marker::Model;

/// An entry of NB_FLAGS and an address, in bytes (RFC 1002 section 4.2.13).
pub const ENTRY_LENGTH: usize = 6;

/// An address of a NetBIOS name, and the flags that go with it (RFC 1002 section 4.2.13).
#[derive(Clone, Copy, Debug, PartialEq, Eq)]
pub struct AddressEntry {
    /// NB_FLAGS: G 8000, ONT 6000, and reserved bits.
    pub flags: u16,
    /// NB_ADDRESS, an IPv4 address.
    pub address: [u8; 4],
}

impl AddressEntry {
    /// The six bytes of the entry: the flags, then the address.
    pub fn to_bytes(&self) -> [u8; ENTRY_LENGTH]
        ensures { result ≡ entry_bytes self.now }
    {
        let [high, low] = self.flags.to_be_bytes();
        let [a, b, c, d] = self.address;
        [high, low, a, b, c, d]
    }
}

impl Part for AddressEntry {
    ghost LENGTH = { ENTRY_LENGTH };

    const LENGTH: usize = ENTRY_LENGTH;

    ghost read = { entry_of };

    ghost written = { entry_bytes };

    fn of_bytes(bytes: &[u8]) -> AddressEntry {
        let mut entry = [0; ENTRY_LENGTH];
        entry.copy_from_slice(bytes);
        let [high, low, a, b, c, d] = entry;
        AddressEntry {
            flags: u16::from_be_bytes([high, low]),
            address: [a, b, c, d],
        }
    }

    ghost some = { entry_some };

    ghost given_back = { entry_given_back };
}

/// The addresses of a NetBIOS name, which are read from RDATA where it stands.
pub type AddressEntries<'a> = Parts<'a, AddressEntry>;

impl<'a> AddressEntries<'a> {
    /// The entries of RDATA of a type, as these bytes.
    ///
    /// None where the type isn't NB, and where the bytes aren't entries of six bytes alone.
    /// RFC 1002 section 4.2.13.
    pub fn of_rdata(kind: u16, bytes: &'a [u8]) -> Option<AddressEntries<'a>>
        ensures found { MatchOption result (¬ AreEntries kind bytes.now)
            (λ entries. AreEntries kind bytes.entry.now
            × (flat_map entry_bytes entries ≡ bytes.entry.now)
            × (ENTRY_LENGTH * length entries ≡ length bytes.entry.now)) }
        ensures value { IfSome result
            (λ entries. entries ≡ entries_of_data (of_bytes bytes.entry.now)) }
    {
        if kind != NB {
            return None;
        }
        if bytes.len() % ENTRY_LENGTH != 0 {
            return None;
        }
        Some(Parts::of(bytes))
    }
}

impl<'a> Record<'a> {
    /// The addresses of a NetBIOS name.
    ///
    /// None where the type isn't NB, and where the RDATA isn't entries of six bytes alone.
    /// RFC 1002 section 4.2.13.
    pub fn address_entries(&self) -> Option<AddressEntries<'a>>
        ensures found { MatchOption result ((bytes : List ℕ) → ¬ HasEntries self.now bytes)
            (λ entries. HasEntries self.now (flat_map entry_bytes entries)
            × (ENTRY_LENGTH * length entries ≡ length (flat_map entry_bytes entries))) }
        ensures value { MatchOption result (entries_in self.now ≡ [])
            (λ entries. entries ≡ entries_in self.now) }
    {
        match self.rdata() {
            Rdata::Bytes(bytes) => AddressEntries::of_rdata(self.kind(), bytes),
            Rdata::Domain(_) => None,
        }
    }
}

/// One of a node's names with its flags, in bytes (RFC 1002 section 4.2.18).
pub const NODE_NAME_LENGTH: usize = 18;

/// UNIT_ID, in bytes (RFC 1002 section 4.2.18).
pub const UNIT_ID_LENGTH: usize = 6;

/// One of a node's names, and the flags that go with it (RFC 1002 section 4.2.18).
#[derive(Clone, Copy, Debug, PartialEq, Eq)]
pub struct NodeName {
    /// The sixteen bytes.
    pub bytes: [u8; NAME_LENGTH],
    /// NAME_FLAGS: the bits of [`crate::NodeFlags`], ONT 6000, and reserved bits.
    pub flags: u16,
}

impl NodeName {
    /// The flags that have names, ONT and reserved bits left out.
    pub fn node_flags(&self) -> NodeFlags
        ensures { node_bits result ≡ node_bits_of self.now.flags }
    {
        NodeFlags::from_bits_truncate(self.flags)
    }
}

impl Part for NodeName {
    ghost LENGTH = { NODE_NAME_LENGTH };

    const LENGTH: usize = NODE_NAME_LENGTH;

    ghost read = { node_name_of };

    ghost written = { node_name_bytes };

    fn of_bytes(bytes: &[u8]) -> NodeName {
        let mut name = [0; NAME_LENGTH];
        name.copy_from_slice(&bytes[..NAME_LENGTH]);
        NodeName {
            bytes: name,
            flags: u16::from_be_bytes([bytes[16], bytes[17]]),
        }
    }

    ghost some = { node_name_some };

    ghost given_back = { node_name_given_back };
}

/// The names of a node and its statistics, which are read from RDATA where it stands.
#[derive(Debug, Drop)]
pub struct NodeStatus<'a> {
    names: Parts<'a, NodeName>,
    statistics: &'a [u8],
}

impl<'a> Model for NodeStatus<'a> {
    ghost Value = { StatusParts };

    ghost view = { λ status. record {
      names = status.names;
      statistics = status.statistics.now;
    } };
}

impl<'a> NodeStatus<'a> {
    /// The status of RDATA of a type, as these bytes.
    ///
    /// None where the type isn't NBSTAT, and where there is less than NUM_NAMES promises.
    /// RFC 1002 section 4.2.18.
    pub fn of_rdata(kind: u16, bytes: &'a [u8]) -> Option<NodeStatus<'a>>
        ensures found { MatchOption result
            ((count : ℕ) (rest : List ℕ) → ¬ IsStatus kind bytes.now count rest)
            (λ status. IsStatus kind bytes.entry.now (length status.names) (after_count status)
            × (status.statistics
            ≡ drop (NODE_NAME_LENGTH * length status.names) (after_count status))) }
        ensures value { IfSome result
            (λ status. status ≡ status_of_data (of_bytes bytes.entry.now)) }
    {
        if kind != NBSTAT {
            return None;
        }
        let Some((count, rest)) = bytes.split_first() else {
            return None;
        };
        let size = NODE_NAME_LENGTH * *count as usize;
        if rest.len() < size {
            return None;
        }
        Some(NodeStatus {
            names: Parts::of(&rest[..size]),
            statistics: &rest[size..],
        })
    }

    /// How many names there are.
    pub fn len(&self) -> usize
        ensures { result ≡ length self.now.names }
    {
        self.names.len()
    }

    /// The name at a place, counted from 0.
    pub fn get(&self, place: usize) -> Option<NodeName>
        ensures { result ≡ slice_get self.now.names place }
    {
        self.names.get(place)
    }

    /// The statistics, of any length (our choice).
    pub fn statistics(&self) -> &'a [u8]
        ensures { result.now ≡ self.now.statistics }
    {
        self.statistics
    }

    /// UNIT_ID, the first six bytes of the statistics, where there are as many.
    pub fn unit_id(&self) -> Option<[u8; UNIT_ID_LENGTH]>
        ensures { MatchOption result (length self.now.statistics < UNIT_ID_LENGTH)
            (λ unit. unit ≡ take UNIT_ID_LENGTH self.now.statistics) }
    {
        if self.statistics.len() < UNIT_ID_LENGTH {
            return None;
        }
        let mut unit = [0; UNIT_ID_LENGTH];
        unit.copy_from_slice(&self.statistics[..UNIT_ID_LENGTH]);
        Some(unit)
    }
}

impl<'a> Record<'a> {
    /// The names of a node, and its statistics.
    ///
    /// None where the type isn't NBSTAT, and where the RDATA has less than NUM_NAMES promises.
    /// RFC 1002 section 4.2.18.
    pub fn node_status(&self) -> Option<NodeStatus<'a>>
        ensures found { MatchOption result
            ((count : ℕ) (rest : List ℕ) → ¬ HasStatus self.now count rest)
            (λ status. HasStatus self.now (length status.names) (after_count status)
            × (status.statistics
            ≡ drop (NODE_NAME_LENGTH * length status.names) (after_count status))) }
        ensures value { MatchOption result (status_in self.now ≡ no_status)
            (λ status. status ≡ status_in self.now) }
    {
        match self.rdata() {
            Rdata::Bytes(bytes) => NodeStatus::of_rdata(self.kind(), bytes),
            Rdata::Domain(_) => None,
        }
    }
}
