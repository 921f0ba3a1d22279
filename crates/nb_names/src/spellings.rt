//! Spellings: labels, found in the bytes that spell them, and the letters that spell a NetBIOS
//! name.
ghost use Rattle.std.specs.Prelude.{◌≡◌, ◌<◌, IfSome, ℕ, List, [], length, option_map, slice_get, MatchOption, slice_index, IfOk, IfErr, IsTrue};
ghost use Rattle.std.specs.List.{AllByRecursion};
ghost use Rattle.nb_names.specs.DomainName.{spelling, IsLabel};
ghost use Rattle.nb_streams.specs.Places.{AreBytes};
ghost use Rattle.nb_names.specs.Code.Kept.{BeginsWith};
ghost use Rattle.nb_names.specs.FirstLevel.{letter, letters as letters_of_bytes, IsLetter, IsFirstNonLetter};
ghost use Rattle.nb_names.specs.declared.limits.TheConstants.{LETTERS, NAME_LENGTH};

use crate::limits::{LETTERS, NAME_LENGTH};

/// The first label of a spelling, and the spelling of the labels after it.
pub(crate) fn split_label(spelled: &[u8]) -> Option<(&[u8], &[u8])>
    ensures split { (labels : List (List ℕ)) → AllByRecursion IsLabel labels →
        spelled.now ≡ spelling labels →
        MatchOption result (labels ≡ []) (λ split. BeginsWith labels split.0.now split.1.now) }
    ensures shorter { IfSome result (λ split. length split.1.now < length spelled.now) }
{
    let Some((size, rest)) = spelled.split_first() else {
        return None;
    };
    if *size == 0 || rest.len() < *size as usize {
        return None;
    }
    Some(rest.split_at(*size as usize))
}

/// The label at a place, counted from 0, in a spelling.
pub(crate) fn label_at(spelled: &[u8], place: usize) -> Option<&[u8]>
    ensures { (labels : List (List ℕ)) → AllByRecursion IsLabel labels →
        spelled.now ≡ spelling labels →
        option_map (λ label. label.now) result ≡ slice_get labels place }
{
    let mut rest = spelled;
    for _ in 0..place {
        rest = split_label(rest)?.1;
    }
    let (label, _) = split_label(rest)?;
    Some(label)
}

/// How many labels a spelling has.
pub(crate) fn count_labels(spelled: &[u8]) -> usize
    ensures { (labels : List (List ℕ)) → AllByRecursion IsLabel labels →
        spelled.now ≡ spelling labels →
        result ≡ length labels }
{
    let mut rest = spelled;
    let mut count = 0;
    while let Some((_, behind)) = split_label(rest) {
        rest = behind;
        count += 1;
    }
    count
}

/// What the type of bytes says of each. It is proved; a call does nothing.
pub(crate) fn each_is_a_byte(bytes: &[u8])
    ensures { AreBytes bytes.now }
{}

/// The letters of sixteen bytes: two a byte, the high half first.
pub(crate) fn letters_of(bytes: &[u8; NAME_LENGTH]) -> [u8; LETTERS]
    ensures { result ≡ letters_of_bytes bytes.now }
{
    let mut letters = [b'A'; LETTERS];
    for (place, byte) in bytes.iter().enumerate() {
        letters[2 * place] = b'A' + byte / 16;
        letters[2 * place + 1] = b'A' + byte % 16;
    }
    letters
}

/// The half byte that the letter at a place stands for, or the place where it is no letter.
fn half_at(letters: &[u8], place: usize) -> Result<u8, usize>
    requires { place < length letters.now }
    ensures found { IfOk result (λ half.
        (half < 16) × (slice_index letters.now place ≡ letter half)) }
    ensures non_letter { IfErr result (λ at.
        (at ≡ place) × ¬ IsLetter (slice_index letters.now place)) }
{
    match letters[place] {
        letter @ b'A'..=b'P' => Ok(letter - b'A'),
        _ => Err(place),
    }
}

/// The sixteen bytes of 32 letters, or the place of the first byte that is no letter.
pub(crate) fn bytes_of(letters: &[u8]) -> Result<[u8; NAME_LENGTH], usize>
    requires { length letters.now ≡ LETTERS }
    ensures found { IfOk result (λ bytes. letters.now ≡ letters_of_bytes bytes) }
    ensures non_letter { IfErr result (IsFirstNonLetter letters.now) }
{
    let mut bytes = [0; NAME_LENGTH];
    if fill_from_letters(&mut bytes, letters) {
        Ok(bytes)
    } else {
        bytes_in_turn(letters)
    }
}

/// Fills the bytes with those that 32 letters stand for, and says whether all are letters.
fn fill_from_letters(bytes: &mut [u8], letters: &[u8]) -> bool
    requires bytes { length bytes.old ≡ NAME_LENGTH }
    requires letters { length letters.now ≡ LETTERS }
    ensures { IsTrue result → letters.now ≡ letters_of_bytes bytes.new }
{
    let mut rest = letters;
    let mut good = true;
    'pairs: for place in 0..bytes.len() {
        let (pair, behind) = rest.split_at(2);
        let high = pair[0].wrapping_sub(b'A');
        let low = pair[1].wrapping_sub(b'A');
        good = good & (high < 16) & (low < 16);
        bytes[place] = high.wrapping_mul(16).wrapping_add(low);
        rest = behind;
    }
    good
}

/// The same, one letter after another.
fn bytes_in_turn(letters: &[u8]) -> Result<[u8; NAME_LENGTH], usize>
    requires { length letters.now ≡ LETTERS }
    ensures found { IfOk result (λ bytes. letters.now ≡ letters_of_bytes bytes) }
    ensures non_letter { IfErr result (IsFirstNonLetter letters.now) }
{
    let mut bytes = [0; NAME_LENGTH];
    for place in 0..NAME_LENGTH {
        let high = half_at(letters, 2 * place)?;
        let low = half_at(letters, 2 * place + 1)?;
        bytes[place] = high * 16 + low;
    }
    Ok(bytes)
}
