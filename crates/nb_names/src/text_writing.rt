//! Writing names as text.
#![tactic(auto, using(nb_streams::specs::Growth::front_stays))]

ghost use Rattle.std.specs.Prelude.{◌≡◌, ◌++◌, ◌∷◌, [], ℕ, List, IfOk, OnOk, IsTrue, length, string_bytes};
ghost use Rattle.std.specs.List.{AllByRecursion, list_all};
ghost use Rattle.std.specs.Str.{IsAscii};
ghost use Rattle.nb_names.specs.declared.limits.TheConstants.{NAME_LENGTH};
ghost use Rattle.nb_streams.specs.Growth.{OnlyAdds};
ghost use Rattle.nb_streams.specs.Ascii.{dot, less_than, greater_than};
ghost use Rattle.nb_streams.specs.Places.{AreBytes};
ghost use Rattle.nb_names.specs.DomainName.{IsLabel, spelling};
ghost use Rattle.nb_names.specs.NameText.{IsText, written, bytes_written, domain_written, trimmed, item_of, items_of, scope_text_of, labels_written, is_plain as is_plain_byte};
ghost use Rattle.nb_streams.specs.Hexadecimal.{digits_of};

use crate::domain_name::{DomainName, LentDomain};
use crate::limits::{FRONT_LENGTH, LETTERS, MAX_SPELLING, NAME_LENGTH};
use crate::name::Name;
use crate::spellings::{bytes_of, split_label};
use crate::text_steps::is_plain;
use arrayvec::ArrayVec;
use nb_streams::{NoMemory, pair_of, push_ascii};
use std::alloc::Global;

/// The text of a name, as it is written: the spaces at the end of its first fifteen bytes are left
/// out, a plain byte stands for itself, and any other is `\` and two digits in lower case.
///
/// # Errors
///
/// [`NoMemory`] where memory ran out.
///
/// The form is our choice.
pub fn name_text(alloc: Global, name: &Name) -> Result<String, NoMemory>
    ensures written { IfOk result (λ text. string_bytes text ≡ written name.now) }
    ensures read { IfOk result (λ text. IsText name.now (string_bytes text)) }
{
    let mut text = String::new(alloc);
    push_name(&mut text, name)?;
    // for the clause: a name has sixteen bytes
    let _ = name.bytes();
    Ok(text)
}

/// Adds the text of a name, as [`name_text`] has it.
///
/// # Errors
///
/// [`NoMemory`] where memory ran out; some of the text may then be added.
///
/// The form is our choice.
pub fn push_name(text: &mut String, name: &Name) -> Result<(), NoMemory>
    ensures added { OnOk result
        (string_bytes text.new ≡ string_bytes text.old ++ written name.now) }
    ensures front { OnlyAdds (string_bytes text.old) (string_bytes text.new) }
{
    push_parts(text, name.bytes(), name.scope().as_domain().spelling())
}

/// Adds the text of a domain name that stands in a packet: that of a NetBIOS name, as [`name_text`]
/// has it, where it is one's, else as [`domain_text`] has it.
///
/// # Errors
///
/// [`NoMemory`] where memory ran out; some of the text may then be added.
///
/// The form is our choice.
pub fn push_domain(text: &mut String, domain: &LentDomain<'_>) -> Result<(), NoMemory>
    ensures added { OnOk result
        (string_bytes text.new ≡ string_bytes text.old ++ labels_written domain.now) }
    ensures front { OnlyAdds (string_bytes text.old) (string_bytes text.new) }
{
    let Some((first, scope)) = domain.split_first() else {
        return push_plain(text, domain);
    };
    if first.len() != LETTERS {
        return push_plain(text, domain);
    }
    match bytes_of(first) {
        Ok(bytes) => push_parts(text, &bytes, scope),
        Err(_) => push_plain(text, domain),
    }
}

/// The text of a domain name: the items of its labels with `.` between them; the root is `.`.
///
/// # Errors
///
/// [`NoMemory`] where memory ran out.
///
/// The form is our choice.
pub fn domain_text(alloc: Global, domain: &DomainName) -> Result<String, NoMemory>
    ensures { IfOk result (λ text. string_bytes text ≡ domain_written domain.now) }
{
    let mut text = String::new(alloc);
    push_plain(&mut text, &domain.lent())?;
    Ok(text)
}

/// Adds the text of a domain name, as [`domain_text`] has it.
fn push_plain(text: &mut String, domain: &LentDomain<'_>) -> Result<(), NoMemory>
    ensures added { OnOk result
        (string_bytes text.new ≡ string_bytes text.old ++ domain_written domain.now) }
    ensures front { OnlyAdds (string_bytes text.old) (string_bytes text.new) }
{
    match domain.split_first() {
        Some((label, rest)) => {
            push_items(text, label)?;
            push_spelled(text, rest)
        }
        None => push_ascii(b".", text),
    }
}

/// Adds the text of a name of these bytes and a scope that is spelled so.
#[inline]
pub(crate) fn push_parts(
    text: &mut String,
    bytes: &[u8; NAME_LENGTH],
    scope: &[u8],
) -> Result<(), NoMemory>
    ensures added { (labels : List (List ℕ)) → AllByRecursion IsLabel labels →
        scope.now ≡ spelling labels → OnOk result (string_bytes text.new
        ≡ string_bytes text.old ++ (bytes_written bytes.now ++ scope_text_of labels)) }
    ensures front { OnlyAdds (string_bytes text.old) (string_bytes text.new) }
    ensures sixteen { length bytes.now ≡ NAME_LENGTH }
    ensures bytes { AreBytes bytes.now }
{
    push_bytes(text, bytes)?;
    push_spelled(text, scope)
}

/// Adds a name's bytes: the items of the first fifteen, and the digits of the last.
#[inline]
fn push_bytes(text: &mut String, bytes: &[u8; NAME_LENGTH]) -> Result<(), NoMemory>
    ensures written { OnOk result
        (string_bytes text.new ≡ string_bytes text.old ++ bytes_written bytes.now) }
    ensures front { OnlyAdds (string_bytes text.old) (string_bytes text.new) }
    ensures sixteen { length bytes.now ≡ NAME_LENGTH }
    ensures bytes { AreBytes bytes.now }
{
    push_items(text, without_last_spaces(&bytes[..FRONT_LENGTH]))?;
    push_last(text, bytes[FRONT_LENGTH])
}

/// Adds the digits of a name's last byte, between `<` and `>`.
#[inline]
fn push_last(text: &mut String, byte: u8) -> Result<(), NoMemory>
    ensures written { OnOk result (string_bytes text.new
        ≡ string_bytes text.old ++ less_than ∷ digits_of byte ++ greater_than ∷ []) }
    ensures front { OnlyAdds (string_bytes text.old) (string_bytes text.new) }
{
    let [high, low] = pair_of(byte);
    push_ascii(&[b'<', high, low, b'>'], text)
}

/// The bytes without the spaces at their end.
fn without_last_spaces(bytes: &[u8]) -> &[u8]
    ensures { result.now ≡ trimmed bytes.now }
{
    let mut kept = bytes;
    while let Some((last, front)) = kept.split_last() {
        if *last != b' ' {
            return kept;
        }
        kept = front;
    }
    kept
}

/// Adds `.` and the items of each label that is spelled.
fn push_spelled(text: &mut String, spelled: &[u8]) -> Result<(), NoMemory>
    ensures added { (labels : List (List ℕ)) → AllByRecursion IsLabel labels →
        spelled.now ≡ spelling labels →
        OnOk result (string_bytes text.new ≡ string_bytes text.old ++ scope_text_of labels) }
    ensures front { OnlyAdds (string_bytes text.old) (string_bytes text.new) }
{
    if split_label(spelled).is_none() {
        return Ok(());
    }
    push_scope(text, spelled)
}

/// Adds `.` and the items of each label that is spelled: all at once, where each byte is plain.
///
/// It is no part of its callers, which then make no room for a row where there is no label.
#[inline(never)]
fn push_scope(text: &mut String, spelled: &[u8]) -> Result<(), NoMemory>
    ensures added { (labels : List (List ℕ)) → AllByRecursion IsLabel labels →
        spelled.now ≡ spelling labels →
        OnOk result (string_bytes text.new ≡ string_bytes text.old ++ scope_text_of labels) }
    ensures front { OnlyAdds (string_bytes text.old) (string_bytes text.new) }
{
    let mut row = ArrayVec::new();
    if dot_labels(spelled, &mut row) {
        push_ascii(row.as_slice(), text)
    } else {
        push_each_label(text, spelled)
    }
}

/// Adds `.` and each label that is spelled to a row, and says whether all of them are plain and
/// found room.
fn dot_labels(spelled: &[u8], row: &mut ArrayVec<u8, MAX_SPELLING>) -> bool
    ensures dotted { (labels : List (List ℕ)) → AllByRecursion IsLabel labels →
        spelled.now ≡ spelling labels → IsTrue result →
        row.new.items ≡ row.old.items ++ scope_text_of labels }
    ensures ascii { IsTrue result → IsAscii row.old.items → IsAscii row.new.items }
{
    let mut rest = spelled;
    'labels: while let Some((label, behind)) = split_label(rest) {
        if !dot_label(label, row) {
            return false;
        }
        rest = behind;
    }
    true
}

/// Adds `.` and a label to a row, if it is plain and finds room.
fn dot_label(label: &[u8], row: &mut ArrayVec<u8, MAX_SPELLING>) -> bool
    ensures dotted { IsTrue result → row.new.items ≡ row.old.items ++ dot ∷ items_of label.now }
    ensures ascii { IsTrue result → IsAscii row.old.items → IsAscii row.new.items }
{
    if row.is_full() {
        return false;
    }
    row.push(b'.');
    for byte in label {
        if !add_plain(*byte, row) {
            return false;
        }
    }
    true
}

/// Adds a byte to a row, if it is plain and finds room. For a label of few bytes it costs less than
/// a look at all of them and a copy.
fn add_plain(byte: u8, row: &mut ArrayVec<u8, MAX_SPELLING>) -> bool
    ensures added { IsTrue result → row.new.items ≡ row.old.items ++ item_of byte }
    ensures ascii { IsTrue result → IsAscii row.old.items → IsAscii row.new.items }
{
    if !is_plain(byte) || row.is_full() {
        return false;
    }
    row.push(byte);
    true
}

/// Adds `.` and the items of each label that is spelled, one by one.
fn push_each_label(text: &mut String, spelled: &[u8]) -> Result<(), NoMemory>
    ensures added { (labels : List (List ℕ)) → AllByRecursion IsLabel labels →
        spelled.now ≡ spelling labels →
        OnOk result (string_bytes text.new ≡ string_bytes text.old ++ scope_text_of labels) }
    ensures front { OnlyAdds (string_bytes text.old) (string_bytes text.new) }
{
    let mut rest = spelled;
    'labels: while let Some((label, behind)) = split_label(rest) {
        push_label(text, label)?;
        rest = behind;
    }
    Ok(())
}

/// Adds `.` and the items of a label.
#[inline]
fn push_label(text: &mut String, label: &[u8]) -> Result<(), NoMemory>
    ensures added { OnOk result
        (string_bytes text.new ≡ string_bytes text.old ++ dot ∷ items_of label.now) }
    ensures front { OnlyAdds (string_bytes text.old) (string_bytes text.new) }
{
    text.push('.')?;
    push_items(text, label)
}

/// Adds the items of the bytes, in order.
fn push_items(text: &mut String, bytes: &[u8]) -> Result<(), NoMemory>
    ensures added { OnOk result
        (string_bytes text.new ≡ string_bytes text.old ++ items_of bytes.now) }
    ensures front { OnlyAdds (string_bytes text.old) (string_bytes text.new) }
{
    if are_plain(bytes) {
        push_ascii(bytes, text)
    } else {
        push_each(text, bytes)
    }
}

/// Adds the items of the bytes, one by one.
#[inline(never)]
fn push_each(text: &mut String, bytes: &[u8]) -> Result<(), NoMemory>
    ensures added { OnOk result
        (string_bytes text.new ≡ string_bytes text.old ++ items_of bytes.now) }
    ensures front { OnlyAdds (string_bytes text.old) (string_bytes text.new) }
{
    for byte in bytes {
        push_item(text, *byte)?;
    }
    Ok(())
}

/// Whether each byte is plain.
fn are_plain(bytes: &[u8]) -> bool
    ensures { result ≡ list_all is_plain_byte bytes.now }
{
    bytes.iter().all(|byte| is_plain(*byte))
}

/// Adds the item of a byte.
fn push_item(text: &mut String, byte: u8) -> Result<(), NoMemory>
    ensures added { OnOk result (string_bytes text.new ≡ string_bytes text.old ++ item_of byte) }
    ensures front { OnlyAdds (string_bytes text.old) (string_bytes text.new) }
{
    if is_plain(byte) {
        return push_ascii(&[byte], text);
    }
    let [high, low] = pair_of(byte);
    push_ascii(&[b'\\', high, low], text)
}
