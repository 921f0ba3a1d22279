//! Questions and resource records.
ghost use Rattle.std.specs.Prelude.{◌≡◌, ◌≢◌, ◌<◌, ◌↔◌, length, IfOk, IsErrOf};
ghost use Rattle.nb_service.specs.Record.{of_bytes, of_domain, record_of, rdata_of, IsRdataOf, ResourceRecord};
ghost use Rattle.nb_service.specs.Equality.{rdata_eq, question_eq, record_eq};
ghost use Rattle.std.specs.Cmp.{decided, partial_equiv_from_equiv};
ghost use Rattle.nb_service.specs.EqualityFacts.{question_eq_decides, record_eq_decides};

use crate::fault::RecordFault;
use crate::kinds::NS;
use crate::limits::MAX_RDATA;
use nb_names::DomainName;
use std::marker::Model;

/// A question (RFC 1002 section 4.2.1.2).
#[derive(Debug, Drop)]
pub struct Question {
    /// The name asked for.
    pub name: DomainName,
    /// The type of record asked for (QUESTION_TYPE); [`crate::kinds`] names some.
    pub kind: u16,
    /// The class; [`crate::classes`] names one.
    pub class: u16,
}

impl PartialEq for Question {
    ghost eq = { question_eq };

    ghost laws = { partial_equiv_from_equiv (decided question_eq question_eq_decides) };

    fn eq(&self, other: &Self) -> bool
        ensures { result ≡ question_eq self.now other.now }
    {
        self.name == other.name && self.kind == other.kind && self.class == other.class
    }
}

impl Eq for Question {
    ghost laws = { decided question_eq question_eq_decides };
}

/// A resource record (RFC 1002 section 4.2.1.3). RDATA of bytes is borrowed.
///
/// NS records, and no others, have a domain name as RDATA (our choice).
#[derive(Debug, Drop)]
pub struct Record<'a> {
    name: DomainName,
    kind: u16,
    class: u16,
    ttl: u32,
    rdata: Rdata<'a>,
}

impl<'a> Model for Record<'a> {
    ghost Value = { ResourceRecord };

    ghost view = { λ r. record_of r.name r.kind r.class r.ttl (rdata_of r.rdata) };

    ghost invariant = { λ r. IsRdataOf r.kind (rdata_of r.rdata) };
}

impl<'a> Record<'a> {
    /// A record of these parts.
    pub(crate) fn new(
        name: DomainName,
        kind: u16,
        class: u16,
        ttl: u32,
        rdata: Rdata<'a>,
    ) -> Record<'a>
        requires { IsRdataOf kind (rdata_of rdata) }
        ensures { result ≡ record_of name kind class ttl (rdata_of rdata.entry) }
    {
        Record {
            name,
            kind,
            class,
            ttl,
            rdata,
        }
    }

    /// A record of any type but NS. No memory is taken.
    ///
    /// # Errors
    ///
    /// The first fault that applies, in [`RecordFault`]'s order.
    pub fn bytes(
        name: DomainName,
        kind: u16,
        class: u16,
        ttl: u32,
        rdata: &'a [u8],
    ) -> Result<Record<'a>, RecordFault>
        ensures value { IfOk result (λ made.
            made ≡ record_of name kind class ttl (of_bytes rdata.entry.now)) }
        ensures kind_is_ns { IsErrOf result RecordFault.KindIsNs ↔ (kind ≡ NS) }
        ensures too_long { IsErrOf result RecordFault.TooLong ↔
            ((kind ≢ NS) × (MAX_RDATA < length rdata.entry.now)) }
    {
        if kind == NS {
            return Err(RecordFault::KindIsNs);
        }
        if rdata.len() > MAX_RDATA {
            return Err(RecordFault::TooLong);
        }
        Ok(Record::new(name, kind, class, ttl, Rdata::Bytes(rdata)))
    }

    /// A record of type NS, with the domain name of a name server. No memory is taken.
    pub fn ns(name: DomainName, class: u16, ttl: u32, domain: DomainName) -> Record<'a>
        ensures { result ≡ record_of name NS class ttl (of_domain domain) }
    {
        Record::new(name, NS, class, ttl, Rdata::Domain(domain))
    }

    /// The name that the record is about.
    pub fn name(&self) -> &DomainName
        ensures { result.now ≡ self.now.name }
    {
        &self.name
    }

    /// The type (RR_TYPE); [`crate::kinds`] names some.
    pub fn kind(&self) -> u16
        ensures { result ≡ self.now.kind }
    {
        self.kind
    }

    /// The class; [`crate::classes`] names one.
    pub fn class(&self) -> u16
        ensures { result ≡ self.now.class }
    {
        self.class
    }

    /// The time to live, in seconds.
    pub fn ttl(&self) -> u32
        ensures { result ≡ self.now.ttl }
    {
        self.ttl
    }

    /// The RDATA, a domain name exactly where the type is NS.
    pub fn rdata(&self) -> &Rdata<'a>
        ensures value { rdata_of result.now ≡ self.now.rdata }
        ensures kept { IsRdataOf self.now.kind self.now.rdata }
    {
        &self.rdata
    }
}

impl<'a> PartialEq for Record<'a> {
    ghost eq = { record_eq };

    ghost laws = { partial_equiv_from_equiv (decided record_eq record_eq_decides) };

    fn eq(&self, other: &Self) -> bool
        ensures { result ≡ record_eq self.now other.now }
    {
        self.name == other.name
            && self.kind == other.kind
            && self.class == other.class
            && self.ttl == other.ttl
            && self.rdata.is_same(&other.rdata)
    }
}

impl<'a> Eq for Record<'a> {
    ghost laws = { decided record_eq record_eq_decides };
}

/// The RDATA of a record (RFC 1002 section 4.2.1.3).
#[derive(Debug, Drop)]
pub enum Rdata<'a> {
    /// Bytes, of any type of record but NS.
    Bytes(&'a [u8]),
    /// A domain name, of a record of type NS.
    Domain(DomainName),
}

impl<'a> Rdata<'a> {
    /// Whether the bytes are equal, or the names.
    pub(crate) fn is_same(&self, other: &Rdata<'_>) -> bool
        ensures { result ≡ rdata_eq (rdata_of self.now) (rdata_of other.now) }
    {
        match (self, other) {
            (Rdata::Bytes(bytes), Rdata::Bytes(others)) => *bytes == *others,
            (Rdata::Domain(name), Rdata::Domain(other)) => name == other,
            _ => false,
        }
    }
}

/// How far an item reaches in the bytes of its packet. Offsets count from the packet's first byte.
#[derive(Clone, Copy, Debug, PartialEq, Eq)]
pub struct Extent {
    /// Where its RDATA begins; of a question, which has none, where it ends.
    pub rdata: usize,
    /// Where it ends, and its RDATA with it: the offset of the next item.
    pub next: usize,
}

/// What stands in an item beside its names and its RDATA, and how far it reaches (RFC 1002 sections
/// 4.2.1.2 and 4.2.1.3).
#[derive(Clone, Copy, Debug, PartialEq, Eq)]
pub struct Fields {
    /// The type of record, or of what is asked for; [`crate::kinds`] names some.
    pub kind: u16,
    /// The class; [`crate::classes`] names one.
    pub class: u16,
    /// The time to live, in seconds; 0 of a question.
    pub ttl: u32,
    /// How far the item reaches.
    pub extent: Extent,
}
