//! The views of RDATA: what the RDATA of records of one type says, to a sink and in a phrase. Each
//! has its parts here: the address entries of type NB, and the node status of type NBSTAT.
ghost use Rattle.std.specs.Prelude.{◌≡◌, ◌++◌, List, OnOk, fold, length, map, slice_get};
ghost use Rattle.std.specs.List.{flat_map};
ghost use Rattle.nb_service.specs.Record.{of_bytes};
ghost use Rattle.nb_telling.specs.Telling.{Field, Grows};
ghost use Rattle.nb_telling.specs.Texts.{names_of};
ghost use Rattle.nb_text.specs.declared.brief.gist.Listed.{Listed};
ghost use Rattle.nb_text.specs.Fields.{list_fields};
ghost use Rattle.nb_text.specs.ServiceSaid.{few, first};
ghost use Rattle.nb_text.specs.Views.{fields_by, flags_by, listed_by, parts_in, units_by, name_flags, status_view};
ghost use Rattle.nb_text.specs.Words.{is_set, names_set};

use crate::brief::gist::{Few, Listed};
use crate::fields::{end_part, tell_owner};
use crate::tags::field_tag;
use bitflags::{Flag as Named, Flags};
use nb_names::{Name, Scope};
use nb_service::kinds::{A, NB, NBSTAT};
use nb_service::limits::UNIT_ID_LENGTH;
use nb_service::{AddressEntries, AddressEntry, NodeFlags, NodeName, NodeStatus};
use nb_streams::NoMemory;
use nb_telling::{Flag, Sink};

/// Tells what RDATA of this type and these bytes says.
pub fn tell_view<S: Sink>(kind: u16, bytes: &[u8], sink: &mut S) -> Result<(), NoMemory>
    ensures told { OnOk result (S.seen sink.new
        ≡ fold S.after (S.seen sink.old) (fields_by kind (of_bytes bytes.now))) }
    ensures front { Grows S.is_front (S.seen sink.old) (S.seen sink.new) }
{
    match kind {
        NB => tell_list("entries", &AddressEntries::of_rdata(NB, bytes), sink),
        NBSTAT => tell_status(bytes, sink),
        _ => Ok(()),
    }
}

/// The first flags in RDATA of this type and these bytes.
pub fn first_flags(kind: u16, bytes: &[u8]) -> Option<u16>
    ensures { result ≡ first (flags_by kind (of_bytes bytes.now)) }
{
    match kind {
        NB => Some(AddressEntries::of_rdata(NB, bytes)?.get(0)?.flags),
        NBSTAT => Some(NodeStatus::of_rdata(NBSTAT, bytes)?.get(0)?.flags),
        _ => None,
    }
}

/// The unit in RDATA of this type and these bytes.
pub fn first_unit(kind: u16, bytes: &[u8]) -> Option<[u8; UNIT_ID_LENGTH]>
    ensures { result ≡ first (units_by kind (of_bytes bytes.now)) }
{
    NodeStatus::of_rdata(kind, bytes)?.unit_id()
}

/// Lists what RDATA of this type and these bytes has: names of a node, where its status is asked
/// for, else addresses.
pub fn list_view(status: bool, kind: u16, bytes: &[u8], listed: &mut Few)
    ensures { (items : List Listed) → listed.old ≡ few items →
        listed.new ≡ few (items ++ listed_by status kind (of_bytes bytes.now)) }
{
    match kind {
        NB if !status => list_each(&AddressEntries::of_rdata(NB, bytes), listed),
        NBSTAT if status => list_each(&NodeStatus::of_rdata(NBSTAT, bytes), listed),
        A if !status => {
            if let [a, b, c, d] = bytes {
                listed.list(Listed::Address([*a, *b, *c, *d]));
            }
        }
        _ => {}
    }
}

/// One of the parts of which a view has many, one after another.
pub trait ViewPart: Copy {
    /// Its fields.
    ghost fields: { Self → List Field };

    /// It, as what is listed.
    ghost listed: { Self → Listed };

    /// Tells it.
    fn tell<S: Sink>(self, sink: &mut S) -> Result<(), NoMemory>
        ensures told { OnOk result
            (S.seen sink.new ≡ fold S.after (S.seen sink.old) (fields self)) }
        ensures front { Grows S.is_front (S.seen sink.old) (S.seen sink.new) };

    /// It, as what is listed.
    fn item(self) -> Listed
        ensures { result ≡ listed self };
}

/// All of them.
pub trait ViewParts {
    /// Each of them.
    type Part: ViewPart;

    /// The parts.
    ghost parts: { Self → List Self.Part };

    /// How many there are.
    fn count(&self) -> usize
        ensures { result ≡ length (parts self.now) };

    /// The one at a place, counted from 0.
    fn part_at(&self, place: usize) -> Option<Self::Part>
        ensures { result ≡ slice_get (parts self.now) place };
}

/// Tells a list of this name, which is empty where there are no parts.
pub fn tell_list<P: ViewParts, S: Sink>(
    name: &str,
    parts: &Option<P>,
    sink: &mut S,
) -> Result<(), NoMemory>
    ensures told { OnOk result (S.seen sink.new ≡ fold S.after (S.seen sink.old)
        (list_fields name.now (flat_map P.Part.fields (parts_in P.parts parts.now)))) }
    ensures front { Grows S.is_front (S.seen sink.old) (S.seen sink.new) }
{
    sink.begins(name)?;
    if let Some(parts) = parts {
        tell_each(parts, sink)?;
    }
    sink.ends()
}

/// Tells each of the parts.
fn tell_each<P: ViewParts, S: Sink>(parts: &P, sink: &mut S) -> Result<(), NoMemory>
    ensures told { OnOk result (S.seen sink.new
        ≡ fold S.after (S.seen sink.old) (flat_map P.Part.fields (P.parts parts.now))) }
    ensures front { Grows S.is_front (S.seen sink.old) (S.seen sink.new) }
{
    for place in 0..parts.count() {
        let part = parts.part_at(place).unwrap();
        part.tell(sink)?;
    }
    Ok(())
}

/// Lists each of the parts, where there are some.
fn list_each<P: ViewParts>(parts: &Option<P>, listed: &mut Few)
    ensures { (items : List Listed) → listed.old ≡ few items →
        listed.new ≡ few (items ++ map P.Part.listed (parts_in P.parts parts.now)) }
{
    if let Some(parts) = parts {
        for place in 0..parts.count() {
            listed.list(parts.part_at(place).unwrap().item());
        }
    }
}

impl<'a> ViewParts for AddressEntries<'a> {
    type Part = AddressEntry;

    ghost parts = { λ entries. entries };

    fn count(&self) -> usize {
        self.len()
    }

    fn part_at(&self, place: usize) -> Option<AddressEntry> {
        self.get(place)
    }
}

impl ViewPart for AddressEntry {
    ghost use Rattle.nb_text.specs.Views.{address_listed, entry_fields};

    ghost fields = { entry_fields };

    ghost listed = { address_listed };

    fn tell<S: Sink>(self, sink: &mut S) -> Result<(), NoMemory> {
        sink.part("    entry")?;
        tell_owner(self.flags, sink)?;
        sink.shown(field_tag!("address"), &self.address)?;
        end_part(sink)
    }

    fn item(self) -> Listed {
        Listed::Address(self.address)
    }
}

/// Tells the node status that RDATA of type NBSTAT is: a list of its names, which is empty where
/// the RDATA hasn't the form, and the unit where there is one.
pub fn tell_status<S: Sink>(bytes: &[u8], sink: &mut S) -> Result<(), NoMemory>
    ensures told { OnOk result (S.seen sink.new
        ≡ fold S.after (S.seen sink.old) (status_view.fields (of_bytes bytes.now))) }
    ensures front { Grows S.is_front (S.seen sink.old) (S.seen sink.new) }
{
    tell_list("names", &NodeStatus::of_rdata(NBSTAT, bytes), sink)?;
    match first_unit(NBSTAT, bytes) {
        Some(unit) => {
            sink.digits(field_tag!("unit", "    unit="), &unit)?;
            sink.line_ends()
        }
        None => Ok(()),
    }
}

impl<'a> ViewParts for NodeStatus<'a> {
    type Part = NodeName;

    ghost parts = { λ status. status.names };

    fn count(&self) -> usize {
        self.len()
    }

    fn part_at(&self, place: usize) -> Option<NodeName> {
        self.get(place)
    }
}

impl ViewPart for NodeName {
    ghost use Rattle.nb_text.specs.Views.{name_listed, node_name_fields};

    ghost fields = { node_name_fields };

    ghost listed = { name_listed };

    fn tell<S: Sink>(self, sink: &mut S) -> Result<(), NoMemory> {
        sink.part("    name")?;
        sink.shown(
            field_tag!("name", " "),
            &Name::new(self.bytes, Scope::empty()),
        )?;
        tell_owner(self.flags, sink)?;
        sink.set(field_tag!("set"), &name_flags_of(self.flags))?;
        end_part(sink)
    }

    fn item(self) -> Listed {
        Listed::NodeName(self.bytes)
    }
}

/// The flags of a node's name, and which of them are set in its word.
fn name_flags_of(word: u16) -> [Flag; 5]
    ensures { names_of result ≡ names_set name_flags word }
{
    [
        name_flag(&NodeFlags::FLAGS[0], word),
        name_flag(&NodeFlags::FLAGS[1], word),
        name_flag(&NodeFlags::FLAGS[2], word),
        name_flag(&NodeFlags::FLAGS[3], word),
        name_flag(&NodeFlags::FLAGS[4], word),
    ]
}

/// A flag of nodes' names, and whether it is set in a word.
#[inline(always)]
fn name_flag(flag: &Named<NodeFlags>, word: u16) -> Flag
    ensures named { result.name.now ≡ flag.now.name.now }
    ensures set { result.is_set ≡ is_set word flag.now.value.0 }
{
    Flag {
        name: flag.name(),
        is_set: word & flag.value().bits() != 0,
    }
}
