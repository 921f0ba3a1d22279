//! Which of the words of a packet is wrong, and what was wanted.

use nb_building::{BuildFault, Field, PACKETS, WordKind, fields_of};
use nb_streams::NoMemory;
use std::alloc::Global;

/// The most bytes of a word that is repeated.
const SHORT: usize = 40;

/// What is wrong with WHAT and these words, which are refused so, as a line; nothing where that
/// isn't one of them, or how many there are.
///
/// # Errors
///
/// `NoMemory` where memory ran out.
pub fn mistake_line(
    alloc: Global,
    fault: BuildFault,
    what: &str,
    words: &[&str],
) -> Result<String, NoMemory> {
    let mut line = String::new(alloc);
    let fields = fields_of(what).unwrap_or(&[]);
    match fault {
        BuildFault::What => push_packets(alloc, what, &mut line)?,
        BuildFault::Count => push_count(what, fields, words.len(), &mut line)?,
        BuildFault::Word(place) => push_wrong(what, fields, words, place, &mut line)?,
        _ => {}
    }
    Ok(line)
}

/// Says that there is no such packet, and which there are.
fn push_packets(alloc: Global, what: &str, line: &mut String) -> Result<(), NoMemory> {
    let packets = PACKETS[..].join(alloc, ", ")?;
    write!(line, "arguments: WHAT is one of {packets}")?;
    push_given(what, line)
}

/// Says how many words a packet takes, and how many are given.
fn push_count(
    what: &str,
    fields: &[Field],
    given: usize,
    line: &mut String,
) -> Result<(), NoMemory> {
    let wanted = fields.len();
    write!(line, "arguments: words after {what}: {wanted} wanted")?;
    for Field(name, _, _) in fields {
        write!(line, " {name}")?;
    }
    writeln!(line, ", and not {given}")?;
    Ok(())
}

/// Says which word of a packet is wrong, and what it has to be.
fn push_wrong(
    what: &str,
    fields: &[Field],
    words: &[&str],
    place: usize,
    line: &mut String,
) -> Result<(), NoMemory> {
    if let (Some(Field(name, kind, example)), Some(word)) = (fields.get(place), words.get(place)) {
        let (number, wanted) = (place + 1, wanted(*kind));
        write!(
            line,
            "arguments: word {number} after {what} is {name}, {wanted}, such as {example}"
        )?;
        push_given(word, line)?;
    }
    Ok(())
}

/// What a word has to be.
fn wanted(kind: WordKind) -> &'static str {
    match kind {
        WordKind::Digits => "four hexadecimal digits",
        WordKind::Code => "two hexadecimal digits",
        WordKind::Name => "the text of a name",
        WordKind::ShortNumber => "a decimal number to 65535 without leading zeros",
        WordKind::LongNumber => "a decimal number to 4294967295 without leading zeros",
        WordKind::Address => "four decimal numbers to 255 with dots between them",
        WordKind::Key => "ADDRESS:PORT/ID",
        WordKind::Data => "two hexadecimal digits a byte, or `empty`",
        WordKind::Rdata => "two hexadecimal digits a byte, for TYPE 0002 those of a name",
    }
}

/// Adds a word that was given, unless it is long or a terminal doesn't show it, and ends the line.
fn push_given(word: &str, line: &mut String) -> Result<(), NoMemory> {
    if word.len() <= SHORT && word.bytes().all(|byte| byte.is_ascii_graphic()) {
        write!(line, ", and not {word}")?;
    }
    line.push_str("\n")?;
    Ok(())
}
