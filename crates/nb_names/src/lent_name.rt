//! NetBIOS names whose scopes are lent, and what the forms of a name have in common.
#![tactic(auto, using(nb_streams::specs::Growth::front_stays))]

ghost use Rattle.std.specs.Prelude.{◌≡◌, ◌↔◌, ◌≤◌, ◌++◌, ℕ, length, string_bytes, IfOk, IfErr, IsOkAnd, IsTrue, OnOk};
ghost use Rattle.std.proofs.Common.{rules};
ghost use Rattle.std.specs.Cmp.Rules.{comparing};
ghost use Rattle.nb_streams.specs.Growth.{OnlyAdds};
ghost use Rattle.nb_names.specs.Code.Kept.{labels_of, IsSpelled};
ghost use Rattle.nb_names.specs.DomainName.{spelling};
ghost use Rattle.nb_names.specs.Labels.{NameAt};
ghost use Rattle.nb_names.specs.Name.{NetbiosName, IsName, IsByteName, IsNoName, IsScope, labels_of_name, name_eq, name_code};
ghost use Rattle.nb_names.specs.NameFaults.{NetbiosFaultAt};
ghost use Rattle.nb_names.specs.NameText.{written};
ghost use Rattle.nb_names.specs.declared.reading.Pointers.TheVariants.{Refused};

use crate::domain_name::DomainName;
use crate::fault::NameFault;
use crate::limits::{LETTERS, NAME_LENGTH};
use crate::name::{Name, NotNetbios, Scope};
use crate::reading::Pointers;
use crate::spellings::{bytes_of, each_is_a_byte, split_label};
use crate::text_writing::push_parts;
use crate::walking::{Passed, walk};
use nb_streams::NoMemory;
use std::marker::Model;

/// A NetBIOS name whose scope is lent, as its spelling. It takes a few words, where a [`Name`] has
/// room for any scope in place. Names are equal as those of [`Name`] are.
///
/// RFC 1001 section 14.1.
#[derive(Debug, Drop)]
pub struct LentName<'a> {
    bytes: [u8; NAME_LENGTH],
    /// The spelling of the scope, its zero byte included.
    scope: &'a [u8],
}

impl<'a> Model for LentName<'a> {
    ghost Value = { NetbiosName };

    ghost coded = { name_code };

    ghost view = { λ name. record { bytes = name.bytes; scope = labels_of name.scope.now } };

    ghost invariant = { λ name. IsSpelled name.scope.now
        × IsByteName (record { bytes = name.bytes; scope = labels_of name.scope.now }) };
}

impl<'a> LentName<'a> {
    /// The name of these bytes, and the scope that is spelled so.
    pub(crate) fn new(bytes: [u8; NAME_LENGTH], scope: &'a [u8]) -> LentName<'a>
        requires spelled { IsSpelled scope.now }
        requires scope { IsScope (labels_of scope.now) }
        ensures value { result ≡ record { bytes = bytes; scope = labels_of scope.entry.now } }
        ensures name { IsByteName result }
    {
        each_is_a_byte(&bytes);
        each_is_a_byte(scope);
        LentName { bytes, scope }
    }

    /// The sixteen bytes.
    pub fn bytes(&self) -> &[u8; NAME_LENGTH]
        ensures value { result.now ≡ self.now.bytes }
        ensures name { IsByteName self.now }
    {
        &self.bytes
    }

    /// The spelling of the scope, its zero byte included. RFC 1001 section 14.2.
    pub fn scope_spelling(&self) -> &'a [u8]
        ensures value { result.now ≡ spelling self.now.scope }
        ensures name { IsByteName self.now }
    {
        self.scope
    }

    /// Whether it is the same name as the other, byte for byte, as `==` of [`Name`] has it.
    pub fn is(&self, other: &LentName<'_>) -> bool
        ensures { result ≡ name_eq self.now other.now }
    {
        self.is_same(other)
    }

    /// The name, with its scope in place. No memory is taken.
    pub fn to_name(&self) -> Name
        ensures value { result ≡ self.now }
        ensures name { IsByteName result }
    {
        let scope = Scope::of_domain(DomainName::of_spelling(self.scope));
        Name::new(self.bytes, scope)
    }

    /// The name's labels, as [`Name::to_domain`] has them.
    ///
    /// RFC 1001 sections 14.1 and 14.2.
    pub fn to_domain(&self) -> DomainName
        ensures { result ≡ labels_of_name self.now }
    {
        self.to_name().to_domain()
    }

    /// How many bytes the spelling of its labels has, its zero byte included.
    pub fn spelled_len(&self) -> usize
        ensures value { result ≡ length (spelling (labels_of_name self.now)) }
        ensures short { result ≤ 255 }
    {
        NameForm::spelled_len(self)
    }

    /// The name whose labels are spelled so.
    fn of_spelling(spelled: &'a [u8]) -> Result<LentName<'a>, NotNetbios>
        requires { IsSpelled spelled.now }
        ensures found { IfOk result (λ name.
            labels_of_name name ≡ labels_of spelled.entry.now) }
        ensures name { IfOk result IsByteName }
        ensures fault { IfErr result (λ fault.
            IsNoName (labels_of spelled.entry.now) fault.place) }
    {
        let Some((first, rest)) = split_label(spelled) else {
            return Err(NotNetbios { place: 0 });
        };
        if first.len() != LETTERS {
            return Err(NotNetbios { place: 0 });
        }
        match bytes_of(first) {
            Ok(bytes) => Ok(LentName::new(bytes, rest)),
            Err(place) => Err(NotNetbios { place: 1 + place }),
        }
    }
}

impl<'a> NameForm for LentName<'a> {
    ghost name = { λ n. n };

    fn bytes(&self) -> &[u8; NAME_LENGTH] {
        &self.bytes
    }

    fn scope_spelling(&self) -> &[u8] {
        self.scope
    }
}

impl PartialEq for LentName<'_> {
    ghost eq = { name_eq };

    ghost laws = { Prim.search (comparing, rules) };

    fn eq(&self, other: &Self) -> bool
        ensures value { result ≡ name_eq self.now other.now }
        ensures same { IsTrue result ↔ (self.now ≡ other.now) }
    {
        self.is_same(other)
    }
}

impl Eq for LentName<'_> {
    ghost laws = { Prim.search (comparing, rules) };
}

impl Name {
    /// The same name, with its scope lent. No memory is taken.
    pub fn lent(&self) -> LentName<'_>
        ensures { result ≡ self.now }
    {
        NameForm::lent(self)
    }
}

/// Reads the NetBIOS name at an offset of a packet, in which no pointer is allowed, and answers it,
/// with its scope lent from the packet, and the offset that follows it.
///
/// It is read as by [`read_name`](crate::read_name) with pointers refused. No memory is taken.
///
/// # Errors
///
/// Those of [`read_name`](crate::read_name).
///
/// RFC 1001 section 14.1, RFC 1002 section 4.1.
#[inline]
pub fn read_lent_name<'a>(packet: &'a [u8], at: usize) -> Result<(LentName<'a>, usize), NameFault>
    // The labels of the name answered stand there, and a name whose labels stand there is answered.
    ensures found { IfOk result (λ read.
        NameAt packet.entry.now Refused at (labels_of_name read.0) read.1) }
    ensures name { IfOk result (λ read. IsByteName read.0) }
    ensures only { (name : NetbiosName) (next : ℕ) → IsName name →
        NameAt packet.entry.now Refused at (labels_of_name name) next →
        IsOkAnd result (λ read. (read.0 ≡ name) × (read.1 ≡ next)) }
    ensures within { IfOk result (λ read. read.1 ≤ length packet.entry.now) }

    // Which fault it is, and where.
    ensures fault { IfErr result (NetbiosFaultAt packet.entry.now Refused at) }
{
    let seen = walk(packet, &[], at, Pointers::Refused, &mut Passed)?;
    match LentName::of_spelling(&packet[at..seen.next]) {
        Ok(name) => Ok((name, seen.next)),
        Err(fault) => Err(NameFault::NotNetbios(fault.place)),
    }
}

/// Adds the text of a name, as [`name_text`](crate::name_text) has it.
///
/// # Errors
///
/// [`NoMemory`] where memory ran out; some of the text may then be added.
///
/// The form is our choice.
pub fn push_lent_name(text: &mut String, name: &LentName<'_>) -> Result<(), NoMemory>
    ensures added { OnOk result
        (string_bytes text.new ≡ string_bytes text.old ++ written name.now) }
    ensures front { OnlyAdds (string_bytes text.old) (string_bytes text.new) }
{
    push_parts(text, name.bytes(), name.scope_spelling())
}

/// A form of a name: in place as [`Name`](crate::Name), lent as [`LentName`], or kept as
/// [`KeptName`](crate::KeptName). What holds names is generic over it.
///
/// RFC 1001 section 14.1.
pub trait NameForm: Drop {
    /// The name, whatever its form.
    ghost name: { Self → NetbiosName };

    /// The sixteen bytes.
    fn bytes(&self) -> &[u8; NAME_LENGTH]
        ensures value { result.now ≡ (name self.now).bytes }
        ensures formed { IsByteName (name self.now) };

    /// The spelling of the scope, its zero byte included. RFC 1001 section 14.2.
    fn scope_spelling(&self) -> &[u8]
        ensures value { result.now ≡ spelling (name self.now).scope }
        ensures formed { IsByteName (name self.now) };

    /// The same name, with its scope lent. No memory is taken.
    final fn lent(&self) -> LentName<'_>
        ensures value { result ≡ name self.now }
        ensures formed { IsByteName result }
    {
        LentName::new(*self.bytes(), self.scope_spelling())
    }

    /// How many bytes the spelling of its labels has, its zero byte included.
    final fn spelled_len(&self) -> usize
        ensures value { result ≡ length (spelling (labels_of_name (name self.now))) }
        ensures short { result ≤ 255 }
    {
        1 + LETTERS + self.scope_spelling().len()
    }

    /// Whether it is the same name as the other, byte for byte, whatever the form of that.
    final fn is_same<N: NameForm>(&self, other: &N) -> bool
        ensures { result ≡ name_eq (name self.now) (N.name other.now) }
    {
        self.bytes() == other.bytes() && self.scope_spelling() == other.scope_spelling()
    }
}
