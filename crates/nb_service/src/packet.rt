//! Name service packets, and their lists of questions and of records.
ghost use Rattle.std.specs.Prelude.{◌≡◌, ◌↔◌, OnOk, OnErr, IsErrOf, ◌<◌, [], ◌∷◌, ◌++◌, length, IfOk};
ghost use Rattle.nb_service.specs.Requests.{empty_packet, IsCounted, with_question, with_record, section_of, IsFull, packet_of};
ghost use Rattle.nb_service.specs.Header.{opcode_of, rcode_of, nm_bits, nm_bits_of};
ghost use Rattle.nb_service.specs.Packet.{ServicePacket};
ghost use Rattle.std.specs.Cmp.{decided, partial_equiv_from_equiv};
ghost use Rattle.nb_service.specs.Equality.{packet_eq};
ghost use Rattle.nb_service.specs.EqualityFacts.{packet_eq_decides};

use crate::fault::PushFault;
use crate::flags::{NmFlags, opcode, rcode};
use crate::limits::MAX_ENTRIES;
use crate::record::{Question, Record};
use bitflags::Flags;
use nb_streams::{Items, NoMemory};
use std::alloc::Global;
use std::marker::Model;

/// A name service packet (RFC 1002 section 4.2.1).
///
/// Each of its four lists has at most 65,535 items. The RDATA of its records is borrowed.
#[derive(Debug, Drop)]
pub struct Packet<'a> {
    pub(crate) id: u16,
    pub(crate) word: u16,
    pub(crate) questions: Questions,
    pub(crate) answers: Records<'a>,
    pub(crate) authorities: Records<'a>,
    pub(crate) additional: Records<'a>,
}

impl<'a> Model for Packet<'a> {
    ghost Value = { ServicePacket };

    ghost view = { λ p. packet_of p.id p.word p.questions p.answers p.authorities p.additional };

    ghost invariant = { λ p.
        IsCounted (packet_of p.id p.word p.questions p.answers p.authorities p.additional) };
}

impl<'a> Packet<'a> {
    /// A packet without questions and records. No memory is taken.
    pub fn new(alloc: Global, id: u16, word: u16) -> Packet<'a>
        ensures { result ≡ empty_packet id word }
    {
        Packet {
            id,
            word,
            questions: Items::from_vec(Vec::new(alloc)),
            answers: Items::from_vec(Vec::new(alloc)),
            authorities: Items::from_vec(Vec::new(alloc)),
            additional: Items::from_vec(Vec::new(alloc)),
        }
    }

    /// The identifier, NAME_TRN_ID.
    pub fn id(&self) -> u16
        ensures { result ≡ self.now.id }
    {
        self.id
    }

    /// The flag word: R, OPCODE, NM_FLAGS and RCODE, with reserved bits as they came.
    pub fn word(&self) -> u16
        ensures { result ≡ self.now.word }
    {
        self.word
    }

    /// The operation, OPCODE; any number from 0 to 15.
    ///
    /// RFC 1002 section 4.2.1.1.
    pub fn opcode(&self) -> u8
        ensures { result ≡ opcode_of self.now.word }
    {
        opcode(self.word)
    }

    /// The result of a request, RCODE; any number from 0 to 15.
    ///
    /// RFC 1002 section 4.2.1.1.
    pub fn rcode(&self) -> u8
        ensures { result ≡ rcode_of self.now.word }
    {
        rcode(self.word)
    }

    /// The flags AA, TC, RD, RA and B of NM_FLAGS, without its reserved bits.
    ///
    /// RFC 1002 section 4.2.1.1.
    pub fn nm_flags(&self) -> NmFlags
        ensures { nm_bits result ≡ nm_bits_of self.now.word }
    {
        NmFlags::from_bits_truncate(self.word)
    }

    /// The questions.
    pub fn questions(&self) -> &Questions
        ensures value { result.now ≡ self.now.questions }
        ensures counted { IsCounted self.now }
    {
        &self.questions
    }

    /// The records that answer the questions.
    pub fn answers(&self) -> &Records<'a>
        ensures value { result.now ≡ self.now.answers }
        ensures counted { IsCounted self.now }
    {
        &self.answers
    }

    /// The records about name servers.
    pub fn authorities(&self) -> &Records<'a>
        ensures value { result.now ≡ self.now.authorities }
        ensures counted { IsCounted self.now }
    {
        &self.authorities
    }

    /// The records that are given besides.
    pub fn additional(&self) -> &Records<'a>
        ensures value { result.now ≡ self.now.additional }
        ensures counted { IsCounted self.now }
    {
        &self.additional
    }

    /// Adds a question after the others.
    ///
    /// # Errors
    ///
    /// The first fault that applies, in [`PushFault`]'s order. The packet is then as it was,
    /// and the question is dropped.
    pub fn push_question(&mut self, question: Question) -> Result<(), PushFault>
        ensures pushed { OnOk result (self.new ≡ with_question self.old question) }
        ensures too_many { IsErrOf result PushFault.TooMany ↔ IsFull self.old.questions }
        ensures err { OnErr result (self.new ≡ self.old) }
    {
        add(&mut self.questions, question)
    }

    /// Adds a record to a section, after the others there.
    ///
    /// # Errors
    ///
    /// The first fault that applies, in [`PushFault`]'s order. The packet is then as it was,
    /// and the record is dropped.
    pub fn push(&mut self, section: Section, entry: Record<'a>) -> Result<(), PushFault>
        ensures pushed { OnOk result (self.new ≡ with_record self.old section entry.entry) }
        ensures too_many { IsErrOf result PushFault.TooMany ↔ IsFull (section_of self.old section) }
        ensures err { OnErr result (self.new ≡ self.old) }
    {
        match section {
            Section::Answer => add(&mut self.answers, entry),
            Section::Authority => add(&mut self.authorities, entry),
            Section::Additional => add(&mut self.additional, entry),
        }
    }
}

impl<'a> PartialEq for Packet<'a> {
    ghost eq = { packet_eq };

    ghost laws = { partial_equiv_from_equiv (decided packet_eq packet_eq_decides) };

    fn eq(&self, other: &Self) -> bool
        ensures { result ≡ packet_eq self.now other.now }
    {
        self.id == other.id
            && self.word == other.word
            && self.questions == other.questions
            && self.answers == other.answers
            && self.authorities == other.authorities
            && self.additional == other.additional
    }
}

impl<'a> Eq for Packet<'a> {
    ghost laws = { decided packet_eq packet_eq_decides };
}

/// A list of questions.
pub type Questions = Items<Question>;

/// A list of records, whose RDATA is lent.
pub type Records<'a> = Items<Record<'a>>;

/// A list of one item.
#[inline]
pub(crate) fn one_item<T: Drop>(alloc: Global, item: T) -> Result<Items<T>, NoMemory>
    ensures { IfOk result (λ list. list ≡ item ∷ []) }
{
    let mut items = Vec::new(alloc);
    items.push(item)?;
    Ok(Items::from_vec(items))
}

/// Adds an item after the others of a packet's list.
pub(crate) fn add<T: Drop>(list: &mut Items<T>, item: T) -> Result<(), PushFault>
    ensures pushed { OnOk result (list.new ≡ list.old ++ item ∷ []) }
    ensures room { OnOk result (length list.old < MAX_ENTRIES) }
    ensures too_many { IsErrOf result PushFault.TooMany ↔ IsFull list.old }
    ensures err { OnErr result (list.new ≡ list.old) }
{
    if list.as_slice().len() >= MAX_ENTRIES {
        return Err(PushFault::TooMany);
    }
    list.push(item)?;
    Ok(())
}

/// A section of a packet that has records (RFC 1002 section 4.2.1.1).
#[derive(Clone, Copy, Debug, PartialEq, Eq)]
pub enum Section {
    /// The records that answer the questions.
    Answer,
    /// The records about name servers.
    Authority,
    /// The records that are given besides.
    Additional,
}
