//! What a frame has.

use crate::carried::Carried;
use crate::limits::MAX_TAGS;
use arrayvec::ArrayVec;

/// A hardware address of six bytes.
#[derive(Clone, Copy, Debug, PartialEq, Eq)]
pub struct Mac {
    /// Its bytes.
    pub octets: [u8; 6],
}

/// What a frame has, lent from its bytes.
#[derive(Drop)]
pub struct Contents<'a> {
    /// Who sent it: of Ethernet, and of Linux cooked captures where they have it.
    pub sender: Option<Mac>,
    /// To whom it is sent: of Ethernet alone.
    pub receiver: Option<Mac>,
    /// The identifiers of the VLANs that it is tagged with, the outermost first.
    pub vlans: ArrayVec<u16, MAX_TAGS>,
    /// What it carries.
    pub carried: Carried<'a>,
}
