//! The order of hosts.
ghost use Rattle.std.specs.Prelude.{◌≡◌};
ghost use Rattle.std.proofs.Common.{rules};
ghost use Rattle.std.specs.Cmp.{eq_by_cmp_equiv, partial_equiv_from_equiv, partial_order_from_total};
ghost use Rattle.std.specs.Cmp.Rules.{comparing};
ghost use Rattle.std.specs.Ordering.{as_partial_cmp};
ghost use Rattle.nb_frames.specs.Hosts.{address_cmp, hosts_cmp, hosts_cmp_total, same_hosts};

use crate::carried::Hosts;
use std::cmp::Ordering;
use std::net::IpAddr;

/// The order of addresses.
fn address_order(one: IpAddr, other: IpAddr) -> Ordering
    ensures { result ≡ address_cmp one other }
{
    match (one, other) {
        (IpAddr::V4(one), IpAddr::V4(other)) => one.octets().cmp(&other.octets()),
        (IpAddr::V4(_), IpAddr::V6(_)) => Ordering::Less,
        (IpAddr::V6(_), IpAddr::V4(_)) => Ordering::Greater,
        (IpAddr::V6(one), IpAddr::V6(other)) => one.segments().cmp(&other.segments()),
    }
}

impl PartialEq for Hosts {
    ghost eq = { same_hosts };

    ghost laws = { partial_equiv_from_equiv (eq_by_cmp_equiv hosts_cmp_total) };

    fn eq(&self, other: &Self) -> bool {
        self.cmp(other) == Ordering::Equal
    }
}

impl Eq for Hosts {
    ghost laws = { eq_by_cmp_equiv hosts_cmp_total };
}

impl Ord for Hosts {
    ghost cmp = { hosts_cmp };

    ghost total = { hosts_cmp_total };

    ghost matches_partial_cmp = { Prim.search (comparing, rules) };

    ghost matches_eq = { Prim.search (comparing, rules) };

    fn cmp(&self, other: &Self) -> Ordering {
        address_order(self.source, other.source).then_with(|| address_order(
            self.destination,
            other.destination,
        ))
    }
}

impl PartialOrd for Hosts {
    ghost partial_cmp = { as_partial_cmp hosts_cmp };

    ghost laws = { partial_order_from_total hosts_cmp_total };

    fn partial_cmp(&self, other: &Self) -> Option<Ordering> {
        Some(self.cmp(other))
    }
}
