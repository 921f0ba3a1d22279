//! What the records of a packet of port 137 tell, as far as a phrase says it, and what it lists of
//! them: addresses, or the names of a node.

ghost use Rattle.std.specs.Prelude.{◌≡◌, ◌++◌, ◌∷◌, [], List, ℕ};
ghost use Rattle.nb_service.specs.Code.Steps.{HasRow, RowOf};
ghost use Rattle.nb_service.specs.Items.{SeesRecord};
ghost use Rattle.nb_service.specs.Packet.{RecordAt};
ghost use Rattle.nb_service.specs.Record.{ResourceRecord};
ghost use Rattle.nb_text.specs.ServiceSaid.{few, gist_of};
ghost use Rattle.nb_text.specs.declared.brief.gist.Listed.{Listed};

use crate::views::{first_flags, first_unit, list_view};
use arrayvec::ArrayVec;
use nb_names::limits::NAME_LENGTH;
use nb_names::{DomainName, Name, NameReader, Scope, push_name};
use nb_service::limits::UNIT_ID_LENGTH;
use nb_service::{Rdata, Seen, see_record};
use nb_streams::{NoMemory, push_address};
use nb_telling::Shows;

/// What the records of a packet tell.
#[derive(Drop)]
pub struct Gist {
    /// How long the first record holds, in seconds.
    pub ttl: Option<u32>,
    /// The first flags of an address, or of a node's name.
    pub flags: Option<u16>,
    /// The addresses, or where a node's status is asked for its names.
    pub listed: Few,
    /// The first unit of a node.
    pub unit: Option<[u8; UNIT_ID_LENGTH]>,
    /// The first name server.
    pub server: Option<DomainName>,
}

impl Gist {
    /// What so many records tell that stand one after the other from an offset on, of a packet that
    /// asks for a node's status or doesn't.
    pub fn of(names: &NameReader<'_, '_>, at: usize, count: usize, status: bool) -> Gist
        requires { (next : ℕ) × HasRow (RecordAt names.now) at count next }
        ensures { (records : List ResourceRecord) (next : ℕ) →
            RowOf (RecordAt names.now) at count records next → result ≡ gist_of status records }
    {
        let mut told = Gist {
            ttl: None,
            flags: None,
            listed: Few::new(),
            unit: None,
            server: None,
        };
        let mut next = at;
        for _ in 0..count {
            let seen = see_record(names, next).unwrap();
            told.hear(status, names, &seen);
            next = seen.fields.extent.next;
        }
        told
    }

    /// Takes in what one record more tells.
    fn hear(&mut self, status: bool, names: &NameReader<'_, '_>, seen: &Seen)
        requires { (entry : ResourceRecord) × SeesRecord names.now entry seen.now }
        ensures { (entry : ResourceRecord) (before : List ResourceRecord) →
            SeesRecord names.now entry seen.now → self.old ≡ gist_of status before →
            self.new ≡ gist_of status (before ++ entry ∷ []) }
    {
        let kind = seen.fields.kind;
        self.ttl = self.ttl.or(Some(seen.fields.ttl));
        match seen.rdata(names) {
            Rdata::Bytes(bytes) => {
                self.flags = self.flags.or(first_flags(kind, bytes));
                self.unit = self.unit.or(first_unit(kind, bytes));
                list_view(status, kind, bytes, &mut self.listed);
            }
            Rdata::Domain(server) => {
                if self.server.is_none() {
                    self.server = Some(server);
                }
            }
        }
    }
}

/// How many of what is listed stand in a phrase.
pub const MOST_LISTED: usize = 4;

/// One of what is listed.
#[derive(Clone, Copy)]
pub enum Listed {
    /// An address.
    Address([u8; 4]),
    /// One of a node's names, which has no scope.
    NodeName([u8; NAME_LENGTH]),
}

/// What fills the places that aren't used.
impl Default for Listed {
    fn default() -> Listed {
        Listed::Address([0; 4])
    }
}

impl Shows for Listed {
    ghost use Rattle.nb_text.specs.ServiceSaid.{listed_text};

    ghost shown = { listed_text };

    fn push_to(&self, text: &mut String) -> Result<(), NoMemory> {
        match self {
            Listed::Address(address) => push_address(*address, text),
            Listed::NodeName(bytes) => push_name(text, &Name::new(*bytes, Scope::empty())),
        }
    }
}

/// The first of what is listed, and how many there are, up to the largest number.
#[derive(Drop)]
pub struct Few {
    /// The first ones.
    pub first: ArrayVec<Listed, MOST_LISTED>,
    /// How many there are.
    pub count: u64,
}

impl Few {
    /// Nothing is listed.
    pub fn new() -> Few
        ensures { result ≡ few [] }
    {
        Few {
            first: ArrayVec::new(),
            count: 0,
        }
    }

    /// Lists one more.
    pub fn list(&mut self, item: Listed)
        ensures { (items : List Listed) → self.old ≡ few items →
            self.new ≡ few (items ++ item ∷ []) }
    {
        if !self.first.is_full() {
            self.first.push(item);
        }
        self.count = self.count.saturating_add(1);
    }
}
