//! What phrases are made of: pieces, added one after another.

ghost use Rattle.std.specs.Prelude.{◌≡◌, ◌∷◌, [], codes};
ghost use Rattle.std.specs.Fmt.{decimal};
ghost use Rattle.std.specs.List.{flat_map};
ghost use Rattle.nb_text.specs.Said.{Adds, bytes_said, coded_said, commas, counts_in, follow_said, refused_said};

use nb_names::NameFault;
use nb_streams::{NoMemory, push_decimal, push_digits};
use nb_telling::Shows;

/// Adds a piece.
#[tactic(auto, using(nb_streams::specs::Growth::front_stays))]
pub fn push_text(piece: &str, text: &mut String) -> Result<(), NoMemory>
    ensures { Adds result text.old text.new (piece.now ∷ []) }
{
    text.push_str(piece)?;
    Ok(())
}

/// Adds a number between two pieces.
pub fn push_count(first: &str, count: u64, last: &str, text: &mut String) -> Result<(), NoMemory>
    ensures { Adds result text.old text.new (first.now ∷ decimal count ∷ last.now ∷ []) }
{
    push_text(first, text)?;
    push_decimal(count, text)?;
    push_text(last, text)
}

/// Adds how many bytes there are, after a piece.
pub fn push_bytes(lead: &str, count: u64, text: &mut String) -> Result<(), NoMemory>
    ensures { Adds result text.old text.new (lead.now ∷ bytes_said count) }
{
    let word = if count == 1 { " byte" } else { " bytes" };
    push_count(lead, count, word, text)
}

/// Adds words, and the code that they are for.
pub fn push_coded(lead: &str, words: &str, code: u8, text: &mut String) -> Result<(), NoMemory>
    ensures { Adds result text.old text.new (coded_said lead.now words.now code) }
{
    push_text(lead, text)?;
    push_text(words, text)?;
    push_text(" (", text)?;
    push_digits(&[code], text)?;
    push_text(")", text)
}

/// Adds the texts of items, with commas between them.
pub fn push_each<T: Shows>(items: &[T], text: &mut String) -> Result<(), NoMemory>
    ensures { Adds result text.old text.new (commas T.shown items.now) }
{
    let Some((first, rest)) = items.split_first() else {
        return Ok(());
    };
    first.push_to(text)?;
    push_others(rest, text)
}

/// Adds the texts of items, each after a comma.
fn push_others<T: Shows>(items: &[T], text: &mut String) -> Result<(), NoMemory>
    ensures { Adds result text.old text.new
        (flat_map (λ next. codes ", " ∷ T.shown next ∷ []) items.now) }
{
    for place in 0..items.len() {
        push_text(", ", text)?;
        items[place].push_to(text)?;
    }
    Ok(())
}

/// Adds why there is no packet: which name is wrong, where one is, what is wrong, and the place,
/// which is a byte of what is said behind it.
pub fn push_refused(
    subject: &str,
    words: &str,
    place: Option<usize>,
    counted: &str,
    text: &mut String,
) -> Result<(), NoMemory>
    ensures { Adds result text.old text.new (refused_said subject.now words.now place counted.now) }
{
    push_text("refused: ", text)?;
    push_text(subject, text)?;
    push_text(words, text)?;
    match place {
        Some(place) => push_count(", at byte ", place as u64, counted, text),
        None => Ok(()),
    }
}

/// Of what the place of a name's fault is a byte, where it is none of the payload: of the name's
/// spelling (RFC 1002 section 4.1).
pub fn counts_in(fault: NameFault) -> &'static str
    ensures { result.now ≡ counts_in fault }
{
    match fault {
        NameFault::NotNetbios(_) => " of the name",
        _ => "",
    }
}

/// Adds how many bytes of a payload of this size follow the packet that takes up so many, if some
/// do.
pub fn push_follow(used: usize, size: usize, text: &mut String) -> Result<(), NoMemory>
    ensures { Adds result text.old text.new (follow_said used size) }
{
    if used < size {
        let count = (size - used) as u64;
        let word = if count == 1 {
            " byte follows"
        } else {
            " bytes follow"
        };
        return push_count(", ", count, word, text);
    }
    Ok(())
}
