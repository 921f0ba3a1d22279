//! Questions and records that were judged where they stand in a packet.
ghost use Rattle.std.specs.Prelude.{◌≡◌, ◌≤◌, length, IfSome};
ghost use Rattle.nb_service.specs.declared.record.Question.{Question as QuestionValue};
ghost use Rattle.nb_service.specs.Items.{SeesQuestion, SeesRecord};
ghost use Rattle.nb_service.specs.Record.{ResourceRecord, rdata_of};
ghost use Rattle.nb_service.specs.declared.limits.TheConstants.{HEADER_LENGTH};

use crate::kinds::NS;
use crate::limits::HEADER_LENGTH;
use crate::record::{Extent, Fields, Question, Rdata, Record};
use crate::seeing::QUESTION_FIELDS;
use nb_names::limits::LETTERS;
use nb_names::{NameReader, Pointers, Skipped};
use nb_streams::numbers::number_16;

/// What was seen of a question or a record that stands in a packet. It was judged whole, its names
/// with it, and not made.
#[derive(Clone, Copy, Debug, PartialEq, Eq)]
pub struct Seen {
    /// Where it stands, as an offset from the packet's first byte.
    pub at: usize,
    /// Where its name stands.
    pub name: Skipped,
    /// What stands in it beside its names and its RDATA, and how far it reaches.
    pub fields: Fields,
}

impl Seen {
    /// The question. No memory is taken.
    #[inline]
    pub fn question(&self, names: &NameReader<'_, '_>) -> Question
        requires { (question : QuestionValue) × SeesQuestion names.now question self.now }
        ensures { (question : QuestionValue) → SeesQuestion names.now question self.now →
            result ≡ question }
    {
        Question {
            name: names.domain_at(self.at, Pointers::Followed, &self.name),
            kind: self.fields.kind,
            class: self.fields.class,
        }
    }

    /// The record. No memory is taken.
    #[inline]
    pub fn record<'a>(&self, names: &NameReader<'a, '_>) -> Record<'a>
        requires { (entry : ResourceRecord) × SeesRecord names.now entry self.now }
        ensures { (entry : ResourceRecord) → SeesRecord names.now entry self.now →
            result ≡ entry }
    {
        let name = names.domain_at(self.at, Pointers::Followed, &self.name);
        let rdata = self.rdata(names);
        let fields = &self.fields;
        Record::new(name, fields.kind, fields.class, fields.ttl, rdata)
    }

    /// The RDATA of the record. No memory is taken.
    #[inline]
    pub fn rdata<'a>(&self, names: &NameReader<'a, '_>) -> Rdata<'a>
        requires { (entry : ResourceRecord) × SeesRecord names.now entry self.now }
        ensures { (entry : ResourceRecord) → SeesRecord names.now entry self.now →
            rdata_of result ≡ entry.rdata }
    {
        let packet = names.packet();
        let extent = self.fields.extent;
        if self.fields.kind != NS {
            return Rdata::Bytes(&packet[extent.rdata..extent.next]);
        }
        let (domain, _) = names.read_domain(extent.rdata, Pointers::Followed).unwrap();
        Rdata::Domain(domain)
    }
}

/// Where the fields begin of a packet's first question, if its name is one label, as long as the
/// letters of a NetBIOS name, and the root.
const FIRST_FIELDS: usize = HEADER_LENGTH + 1 + LETTERS + 1;

/// Where such a question ends.
const FIRST_END: usize = FIRST_FIELDS + QUESTION_FIELDS;

/// What is seen of the first question of a packet, where its name is so: nearly all are, and are
/// seen without a walk along labels; none of others.
#[inline(always)]
pub(crate) fn see_plain_question(packet: &[u8]) -> Option<Seen>
    ensures found { IfSome result (λ seen. (seen.at ≡ HEADER_LENGTH)
        × ((question : QuestionValue) × SeesQuestion packet.now question seen)) }
    ensures within { IfSome result (λ seen. seen.fields.extent.next ≤ length packet.now) }
{
    if packet.len() < FIRST_END
        || packet[HEADER_LENGTH] as usize != LETTERS
        || packet[FIRST_FIELDS - 1] != 0
    {
        return None;
    }
    let name = Skipped {
        next: FIRST_FIELDS,
        spelled_len: FIRST_FIELDS - HEADER_LENGTH,
        stretch: HEADER_LENGTH,
        stretch_end: FIRST_FIELDS,
    };
    let fields = Fields {
        kind: number_16(packet, FIRST_FIELDS),
        class: number_16(packet, FIRST_FIELDS + 2),
        ttl: 0,
        extent: Extent {
            rdata: FIRST_END,
            next: FIRST_END,
        },
    };
    Some(Seen {
        at: HEADER_LENGTH,
        name,
        fields,
    })
}
