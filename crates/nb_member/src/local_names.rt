//! The names of a member.
ghost use Rattle.std.specs.Prelude.{◌≡◌, [], ◌≤◌, length, Contains, IsTrue, ◌↔◌, Some};
ghost use Rattle.nb_member.specs.declared.limits.TheConstants.{MAX_NAMES};
ghost use Rattle.nb_member.specs.Hearing.{Adds, holds, holds_scope, hears, hears_as, HoldsScope, Hears};
ghost use Rattle.nb_member.specs.FaultTexts.{add_fault_text};

use crate::limits::MAX_NAMES;
use nb_datagram::{Datagram, Kind};
use nb_names::{LentName, Name, Scope};
use std::alloc::Global;
use std::error::Error;
use std::fmt;
use std::marker::Model;

/// Why a name isn't added to those that are held. Where several apply, the first is answered.
#[derive(Clone, Copy, Debug, PartialEq, Eq)]
pub enum AddFault {
    /// The name is held already.
    Present,
    /// As many names are held as may be.
    TooMany,
    /// Memory ran out.
    NoMemory,
}

impl fmt::Display for AddFault {
    ghost output = { λ fault. Some (add_fault_text fault) };

    fn fmt<W: fmt::Write>(&self, f: &mut fmt::Formatter<W>) -> fmt::Result {
        match self {
            AddFault::Present => f.write_str("present"),
            AddFault::TooMany => f.write_str("too many names"),
            AddFault::NoMemory => f.write_str("memory"),
        }
    }
}

impl Error for AddFault {}

/// The names that a member holds: at most [`MAX_NAMES`], a limit of our choice.
#[derive(Debug, Drop)]
pub struct LocalNames {
    names: Vec<Name>,
}

impl Model for LocalNames {
    ghost use Rattle.std.specs.Prelude.{List, length, ◌≤◌};
    ghost use Rattle.std.specs.Coded.{coded_list};
    ghost use Rattle.nb_names.specs.Name.{NetbiosName, name_code};
    ghost use Rattle.nb_member.specs.declared.limits.TheConstants.{MAX_NAMES};

    ghost Value = { List NetbiosName };

    ghost coded = { coded_list name_code };

    ghost view = { λ held. held.names.items };

    ghost invariant = { λ held. length held.names.items ≤ MAX_NAMES };
}

impl LocalNames {
    /// No names. No memory is taken.
    pub fn new(alloc: Global) -> LocalNames
        ensures { result ≡ [] }
    {
        LocalNames {
            names: Vec::new(alloc),
        }
    }

    /// Holds one more name.
    ///
    /// # Errors
    ///
    /// The first that applies, in [`AddFault`]'s order. The names are then as they were.
    pub fn add(&mut self, name: Name) -> Result<(), AddFault>
        ensures { Adds self.old name self.new result }
    {
        if self.holds(&name) {
            return Err(AddFault::Present);
        }
        if MAX_NAMES <= self.names.len() {
            return Err(AddFault::TooMany);
        }
        self.names.push(name).map_err(|_| AddFault::NoMemory)
    }

    /// Whether this name is held. No memory is taken.
    pub fn holds(&self, name: &Name) -> bool
        ensures value { result ≡ holds self.now name.now }
        ensures held { IsTrue result ↔ Contains self.now name.now }

        // What holds of each member's names.
        ensures within { length self.now ≤ MAX_NAMES }
    {
        is_among(&self.names, &name.lent())
    }

    /// Whether a name of this scope is held. No memory is taken.
    pub fn holds_scope(&self, scope: &Scope) -> bool
        ensures value { result ≡ holds_scope self.now scope.now }
        ensures held { IsTrue result ↔ HoldsScope self.now scope.now }
    {
        is_scope_among(&self.names, scope)
    }

    /// Whether a member with these names hears the datagram. No memory is taken.
    ///
    /// A unique or group datagram is heard where one of the names is its destination, a broadcast
    /// where one has its destination's scope. A member asks this of each datagram that becomes
    /// whole; a station's program asks it where it has a datagram without a member. RFC 1002
    /// section 5.3; that the two types of direct datagrams are heard alike is our choice.
    pub fn hears(&self, datagram: &Datagram) -> bool
        ensures value { result ≡ hears self.now datagram.now }
        ensures heard { IsTrue result ↔ Hears self.now datagram.now }
    {
        self.hears_as(datagram.kind(), &datagram.destination().lent())
    }

    /// Whether a member with these names hears what is sent so.
    pub(crate) fn hears_as(&self, kind: Kind, destination: &LentName<'_>) -> bool
        ensures { result ≡ hears_as self.now kind destination.now }
    {
        match kind {
            Kind::Unique | Kind::Group => is_among(&self.names, destination),
            Kind::Broadcast => self.holds_scope(destination.to_name().scope()),
        }
    }
}

/// Whether the name is among these.
fn is_among(names: &[Name], name: &LentName<'_>) -> bool
    ensures { result ≡ holds names.now name.now }
{
    names.iter().any(|held| held.lent().is(name))
}

/// Whether one of these names has the scope.
fn is_scope_among(names: &[Name], scope: &Scope) -> bool
    ensures { result ≡ holds_scope names.now scope.now }
{
    names.iter().any(|held| held.scope() == scope)
}
