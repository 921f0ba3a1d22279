//! NetBIOS names and their scopes.
ghost use Rattle.std.specs.Prelude.{◌≡◌, ◌↔◌, IfOk, IfErr, IsOkAnd, IsTrue, [], length, refl, ◌≤◌, ℕ, List};
ghost use Rattle.std.proofs.Common.{rules};
ghost use Rattle.std.specs.Cmp.{partial_order_from_own_ties};
ghost use Rattle.std.specs.Cmp.Rules.{comparing};
ghost use Rattle.std.specs.Ordering.{as_partial_cmp};
ghost use Rattle.nb_names.specs.Name.{NetbiosName, IsName, IsByteName, IsNoName, labels_of_name, name_eq, name_cmp, IsScope, name_code};
ghost use Rattle.nb_names.specs.DomainName.{AreByteLabels, Pushes, domain_eq, domain_cmp, spelling};
ghost use Rattle.nb_names.specs.declared.limits.TheConstants.{MAX_SCOPE};

use crate::domain_name::DomainName;
use crate::fault::LabelFault;
use crate::lent_name::NameForm;
use crate::limits::{LETTERS, MAX_SCOPE, NAME_LENGTH};
use crate::spellings::{bytes_of, each_is_a_byte, letters_of};
use std::cmp::Ordering;
use std::marker::Model;

/// A NetBIOS name: sixteen bytes, of which the last is the suffix, and a scope.
///
/// Names are equal, and ordered, byte for byte: by the sixteen bytes, then by the scope. That is
/// our choice, and for a scope a departure: [`DomainName`] says from what.
///
/// RFC 1001 section 14.1.
#[derive(Clone, Debug, Drop, Eq)]
pub struct Name {
    bytes: [u8; NAME_LENGTH],
    scope: Scope,
}

impl Model for Name {
    ghost Value = { NetbiosName };

    ghost coded = { name_code };

    ghost view = { λ name. record { bytes = name.bytes; scope = name.scope } };

    ghost invariant = { λ name. IsByteName (record { bytes = name.bytes; scope = name.scope }) };

    ghost inverse = { λ name. record { bytes = name.bytes; scope = name.scope } };

    ghost inverse_ok = { λ name formed. refl };
}

/// Labels that are no NetBIOS name's.
///
/// `place` is an offset in the labels' spelling: its start, where there is no first label of 32
/// bytes, else that of the label's first byte which is none of `A` to `P`.
#[derive(Clone, Copy, Debug, PartialEq, Eq)]
pub struct NotNetbios {
    /// The offset, in bytes.
    pub place: usize,
}

impl Name {
    /// The name of these bytes and this scope.
    pub fn new(bytes: [u8; NAME_LENGTH], scope: Scope) -> Self
        ensures value { result ≡ record { bytes = bytes; scope = scope } }
        ensures name { IsByteName result }
    {
        each_is_a_byte(&bytes);
        let _ = scope.as_domain();
        Name { bytes, scope }
    }

    /// The sixteen bytes.
    pub fn bytes(&self) -> &[u8; NAME_LENGTH]
        ensures value { result.now ≡ self.now.bytes }
        ensures name { IsByteName self.now }
    {
        &self.bytes
    }

    /// The scope.
    pub fn scope(&self) -> &Scope
        ensures value { result.now ≡ self.now.scope }
        ensures name { IsByteName self.now }
    {
        &self.scope
    }

    /// The same name. No memory is taken.
    pub fn copied(&self) -> Name
        ensures value { result ≡ self.now }
        ensures name { IsByteName result }
    {
        Name::new(self.bytes, self.scope.copied())
    }

    /// The name's labels: the 32 letters of its bytes, then those of its scope.
    ///
    /// RFC 1001 sections 14.1 and 14.2.
    pub fn to_domain(&self) -> DomainName
        ensures { result ≡ labels_of_name self.now }
    {
        DomainName::with_first(&letters_of(&self.bytes), self.scope.as_domain())
    }

    /// The name that has these labels.
    ///
    /// # Errors
    ///
    /// [`NotNetbios`] where no name has them. A letter in lower case is none (our choice).
    ///
    /// RFC 1001 section 14.1.
    #[inline(always)]
    pub fn from_domain(domain: &DomainName) -> Result<Name, NotNetbios>
        ensures found { IfOk result (λ name. labels_of_name name ≡ domain.now) }
        ensures name { IfOk result IsByteName }
        ensures only { (name : NetbiosName) → IsName name → labels_of_name name ≡ domain.now →
            IsOkAnd result (λ read. read ≡ name) }
        ensures fault { IfErr result (λ fault. IsNoName domain.now fault.place) }
    {
        let Some((first, rest)) = domain.split_first() else {
            return Err(NotNetbios { place: 0 });
        };
        if first.len() != LETTERS {
            return Err(NotNetbios { place: 0 });
        }
        match bytes_of(first) {
            Ok(bytes) => {
                let scope = Scope::of_domain(DomainName::of_spelling(rest));
                Ok(Name::new(bytes, scope))
            }
            Err(place) => Err(NotNetbios { place: 1 + place }),
        }
    }
}

impl NameForm for Name {
    ghost name = { λ n. n };

    fn bytes(&self) -> &[u8; NAME_LENGTH] {
        &self.bytes
    }

    fn scope_spelling(&self) -> &[u8] {
        self.scope.as_domain().spelling()
    }
}

impl PartialEq for Name {
    ghost eq = { name_eq };

    ghost laws = { Prim.search (comparing, rules) };

    fn eq(&self, other: &Self) -> bool
        ensures value { result ≡ name_eq self.now other.now }
        ensures same { IsTrue result ↔ (self.now ≡ other.now) }
    {
        self.bytes == other.bytes && self.scope == other.scope
    }
}

impl Ord for Name {
    ghost cmp = { name_cmp };

    ghost total = { Prim.search (comparing, rules) };

    ghost matches_partial_cmp = { Prim.search (comparing, rules) };

    ghost matches_eq = { Prim.search (comparing, rules) };

    fn cmp(&self, other: &Self) -> Ordering {
        self.bytes
            .cmp(&other.bytes)
            .then_with(|| self.scope.cmp(&other.scope))
    }
}

impl PartialOrd for Name {
    ghost partial_cmp = { as_partial_cmp name_cmp };

    ghost laws = { partial_order_from_own_ties (Prim.search (comparing, rules))
        (Prim.search (comparing, rules)) };

    fn partial_cmp(&self, other: &Self) -> Option<Ordering> {
        Some(self.cmp(other))
    }
}

/// The scope of a NetBIOS name: a domain name whose spelling has at most 222 bytes, so that it has
/// room after a name's first label of 32 letters.
///
/// Scopes are equal, and ordered, as the domain names that they are.
#[derive(Clone, Debug, Drop, Eq)]
pub struct Scope {
    domain: DomainName,
}

impl Model for Scope {
    ghost Value = { List (List ℕ) };

    ghost view = { λ scope. scope.domain };

    ghost invariant = { λ scope. IsScope scope.domain };

    ghost inverse = { λ labels. record { domain = labels } };

    ghost inverse_ok = { λ scope formed. refl };
}

impl Scope {
    /// The scope without labels.
    pub fn empty() -> Self
        ensures { result ≡ [] }
    {
        Scope {
            domain: DomainName::root(),
        }
    }

    /// The scope that has a domain name's labels.
    pub(crate) fn of_domain(domain: DomainName) -> Self
        requires { IsScope domain }
        ensures { result ≡ domain }
    {
        Scope { domain }
    }

    /// The labels of the scope, as a domain name.
    pub fn as_domain(&self) -> &DomainName
        ensures value { result.now ≡ self.now }
        ensures scope { IsScope self.now }
        ensures labels { AreByteLabels self.now }
    {
        let _ = self.domain.spelling();
        &self.domain
    }

    /// The same scope. No memory is taken.
    pub fn copied(&self) -> Scope
        ensures { result ≡ self.now }
    {
        Scope {
            domain: self.domain.copied(),
        }
    }

    /// Adds a label after the others.
    ///
    /// # Errors
    ///
    /// The first fault that applies, in [`LabelFault`]'s order, of a spelling of at most 222 bytes.
    /// The scope is then as it was.
    pub fn push(&mut self, label: &[u8]) -> Result<(), LabelFault>
        ensures { Pushes MAX_SCOPE self.old self.new label.now result }
    {
        self.domain.push_within(label, MAX_SCOPE)
    }
}

impl PartialEq for Scope {
    ghost eq = { domain_eq };

    ghost laws = { Prim.search (comparing, rules) };

    fn eq(&self, other: &Self) -> bool
        ensures value { result ≡ domain_eq self.now other.now }
        ensures same { IsTrue result ↔ (self.now ≡ other.now) }
    {
        self.domain == other.domain
    }
}

impl Ord for Scope {
    ghost cmp = { domain_cmp };

    ghost total = { Prim.search (comparing, rules) };

    ghost matches_partial_cmp = { Prim.search (comparing, rules) };

    ghost matches_eq = { Prim.search (comparing, rules) };

    fn cmp(&self, other: &Self) -> Ordering {
        self.domain.cmp(&other.domain)
    }
}

impl PartialOrd for Scope {
    ghost partial_cmp = { as_partial_cmp domain_cmp };

    ghost laws = { partial_order_from_own_ties (Prim.search (comparing, rules))
        (Prim.search (comparing, rules)) };

    fn partial_cmp(&self, other: &Self) -> Option<Ordering> {
        Some(self.cmp(other))
    }
}
