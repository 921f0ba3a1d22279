//! Values of nb_names: bytes, lists, copies and spellings; and texts to which something is added.

use crate::labels::domain_of;
use nb_examples_words::line::Line;
use nb_examples_words::{called, given, said};
use nb_names::{Name, push_domain, push_lent_name, push_name, read_lent_name, write_domain};
use nb_streams::lines::split_line;
use nb_streams::{
    Bytes, Items, NoMemory, push_address, push_data, push_decimal, push_digits, push_word_digits,
};

/// `copy_bytes BYTES`: a copy of the bytes.
pub fn copied_bytes(line: &mut Line<'_>) {
    let bytes = line.bytes();
    said!(line, gives, Bytes::copy(line.alloc(), bytes.as_slice()));
}

/// `spelling NAME`: the bytes in which a name is written.
pub fn spelled(line: &mut Line<'_>) {
    let domain = line.name().to_domain();
    said!(line, gives, write_domain(line.alloc(), &domain));
}

/// `bytes BYTES BYTES`: whether both are equal, the first, and the second as they are given back.
pub fn bytes(line: &mut Line<'_>) {
    let first = Bytes::from_vec(line.bytes());
    let second = Bytes::from_vec(line.bytes());
    let is_equal = called!(line, first == second);
    let given_back = called!(line, second.into_vec());
    line.says(&(is_equal, first, given_back));
}

/// `items WORD ..`: how many items a list of the words has, and what it gives back.
pub fn items(line: &mut Line<'_>) {
    let mut words = Vec::new(line.alloc());
    for word in line.rest().split_whitespace() {
        line.push(&mut words, word);
    }
    let given_back = relisted(line, words);
    line.says(&given_back);
}

/// Says how many items a list of these has; the items that it gives back.
pub fn relisted<T: Drop>(line: &mut Line<'_>, items: Vec<T>) -> Vec<T> {
    line.begin();
    let list = Items::from_vec(items);
    let count = list.as_slice().len();
    let given_back = list.into_vec();
    line.end();
    line.says(&count);
    given_back
}

/// `copy NAME`: a copy of the name that is made of copies of its parts, and whether it is the name.
pub fn copied_name(line: &mut Line<'_>) {
    let name = line.name();
    line.begin();
    let copy = Name::new(*name.bytes(), name.scope().copied()).copied();
    let is_same = copy == name && copy.to_domain().copied() == name.to_domain();
    line.end();
    line.says(&(copy, is_same));
}

/// `split_line BYTES`: the first line of a text, and what follows its line feed.
pub fn split(line: &mut Line<'_>) {
    let bytes = line.bytes();
    said!(line, says, split_line(bytes.as_slice()));
}

/// `lent AT BYTES`: the name at an offset, lent from the bytes, and the offset after it; the
/// spelling of its scope, whether it is the name that is made of it, and its text.
pub fn lent(line: &mut Line<'_>) {
    let (at, bytes) = (line.number(), line.bytes());
    let (name, after) = given!(line, read_lent_name(bytes.as_slice(), at));
    line.says(&(&name, after));
    let made = name.to_name();
    line.says(&(name.scope_spelling(), name.is(&made.lent())));
    let mut text = String::new(line.alloc());
    if push_lent_name(&mut text, &name).is_err() {
        line.no_memory();
    }
    line.then(text.as_str());
}

/// `added WHAT TEXT WORD`: a text after what a word stands for was added to it: the text of a
/// `name`, or of the `domain` of labels, an `address`, the digits of bytes (`digits`) or of data
/// (`data`), a number (`number`) or the digits of one of 16 bits (`word`).
pub fn added(line: &mut Line<'_>) {
    let (what, front) = (line.word(), line.word());
    let mut text = String::new(line.alloc());
    if text.push_str(front).is_err() {
        line.no_memory();
    }
    match add(line, what, &mut text) {
        Ok(()) => line.say(text.as_str()),
        Err(NoMemory) if text.starts_with(front) => line.lacks(),
        Err(NoMemory) => line.bad_words(),
    }
}

/// Adds to a text what the next word stands for.
fn add(line: &mut Line<'_>, what: &str, text: &mut String) -> Result<(), NoMemory> {
    match what {
        "name" => called!(line, push_name(text, &line.name())),
        "domain" => {
            let domain = domain_of(line);
            called!(line, push_domain(text, &domain.lent()))
        }
        "address" => called!(line, push_address(line.address(), text)),
        _ => add_number(line, what, text),
    }
}

/// Adds to a text the number or the bytes for which the next word stands.
fn add_number(line: &mut Line<'_>, what: &str, text: &mut String) -> Result<(), NoMemory> {
    match what {
        "number" => called!(line, push_decimal(line.number(), text)),
        "word" => called!(line, push_word_digits(line.hex_16(), text)),
        _ => add_bytes(line, what == "digits", text),
    }
}

/// Adds the digits of bytes, or of data.
fn add_bytes(line: &mut Line<'_>, is_digits: bool, text: &mut String) -> Result<(), NoMemory> {
    let bytes = line.bytes();
    match is_digits {
        true => called!(line, push_digits(bytes.as_slice(), text)),
        false => called!(line, push_data(bytes.as_slice(), text)),
    }
}
