//! Packets of port 137, read item by item.
ghost use Rattle.std.specs.Prelude.{◌≡◌};
ghost use Rattle.nb_service.specs.Items.{PacketItem, Sees, section_of};

use nb_examples_words::line::Line;
use nb_examples_words::{called, given};
use nb_names::NameReader;
use nb_service::limits::{HEADER_LENGTH, MAX_ENTRIES};
use nb_service::{Header, Section, Seen, read_header, see_item};

/// `items BYTES`: the identifier and the flag word of the header that the bytes begin with, then
/// each item that stands whole, one after another, with its section, where its RDATA begins and
/// where it ends; then the fault of the next one, or that there is no further one.
pub fn items(line: &mut Line<'_>) {
    let bytes = line.bytes();
    let header = given!(line, read_header(bytes.as_slice()));
    line.says(&(header.id, header.word));
    let names = NameReader::of(bytes.as_slice(), &mut []);
    let mut at = HEADER_LENGTH;
    for number in 0..=4 * MAX_ENTRIES {
        match next_item(line, &names, &header, number, at) {
            Some(next) => at = next,
            None => return,
        }
    }
}

/// Says the item of a number; the offset after it, where one stands.
fn next_item(
    line: &mut Line<'_>,
    names: &NameReader<'_, '_>,
    header: &Header,
    number: usize,
    at: usize,
) -> Option<usize> {
    let answer = called!(line, see_item(names, header, number, at));
    match answer {
        Ok(Some((section, seen))) => return Some(say_item(line, names, section, &seen)),
        Ok(None) => line.then("no further one"),
        Err(fault) => line.refuses(&fault),
    }
    None
}

/// Says an item, and how far it reaches; the offset after it.
fn say_item(
    line: &mut Line<'_>,
    names: &NameReader<'_, '_>,
    section: Option<Section>,
    seen: &Seen,
) -> usize
    requires { (item : PacketItem) × Sees names.now item seen.now × (section ≡ section_of item) }
{
    match section {
        None => line.says(&seen.question(names)),
        Some(section) => line.says(&(section, seen.record(names))),
    }
    line.says(&seen.fields.extent);
    seen.fields.extent.next
}
