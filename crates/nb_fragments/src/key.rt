//! Which packet a fragment is of.
ghost use Rattle.std.specs.Prelude.{◌≡◌};
ghost use Rattle.nb_fragments.specs.Keys.{key_of};

use nb_frames::{Hosts, IpFragment};

/// Which packet a fragment is of (RFC 791 section 3.2, RFC 8200 section 4.5). The version is that
/// of the hosts; that the protocol counts in IPv6 too is our choice.
#[derive(Clone, Copy, Debug, PartialEq, Eq, PartialOrd, Ord)]
pub struct Key {
    /// The number that its fragments share.
    pub identification: u32,
    /// Its protocol.
    pub protocol: u8,
    /// From where to where it goes.
    pub hosts: Hosts,
}

impl Key {
    /// The key of a fragment.
    pub fn of(fragment: &IpFragment<'_>) -> Key
        ensures { result ≡ key_of fragment.now }
    {
        Key {
            identification: fragment.place.identification,
            protocol: fragment.protocol,
            hosts: fragment.hosts,
        }
    }
}
