//! `nbt help REFUSAL`, and what the help of a command says of its refusals.
ghost use Rattle.std.specs.Prelude.{◌≡◌, ◌<◌, ◌⊎◌, ◌++◌, ◌∷◌, [], Contains, IfErr, IfNone, IfOk, IfSome, IsOkAnd, IsSomeAnd, List, OnErr, OnOk, OnSome, codes, length, map, string_bytes, ℕ};
ghost use Rattle.std.specs.Io.KnownBytes.{Appends};
ghost use Rattle.nb_streams.specs.Devices.{AppendsFront};
ghost use Rattle.nbt_usage.specs.Code.HelpWords.{AreBehindHelp};
ghost use Rattle.nbt_usage.specs.Refusals.{AsksRefusal, HasNone, IsFirstWith, IsPrintFault, advice_line, lines_by, lines_of_all, spaced};

use crate::refusals::Refusal;
use nb_streams::{Counted, NoMemory};
use nbt_command::{Fault, print};
use std::alloc::Global;
use std::io::Write;

/// The refusal of which help is asked for, where the words are the program's name, `help` and, as
/// one word or several, what a program says of one of these refusals.
///
/// # Errors
///
/// `NoMemory` where memory ran out.
pub fn asked<'a>(
    alloc: Global,
    refusals: &'a [Refusal],
    words: &[String],
) -> Result<Option<&'a Refusal>, NoMemory>
    ensures asks { IfOk result (λ found. OnSome found (AsksRefusal (map string_bytes words.now))) }
    ensures known { IfOk result
        (λ found. IfSome found (λ refusal. Contains refusals.now refusal.now)) }
    ensures unknown { (program text : List ℕ) (rest : List (List ℕ))
        → map string_bytes words.now ≡ program ∷ codes "help" ∷ text ∷ rest
        → IfOk result (λ found. IfNone found (HasNone (spaced (text ∷ rest)) refusals.now)) }
    ensures same { (program text : List ℕ) (rest : List (List ℕ))
        → map string_bytes words.now ≡ program ∷ codes "help" ∷ text ∷ rest
        → HasNone (spaced (text ∷ rest)) refusals.now
        ⊎ IfOk result (λ found. IfSome found
        (λ refusal. refusal.now.words.now ≡ spaced (text ∷ rest))) }
    // The words of a refusal, as one word, are answered whatever memory there is.
    ensures one { (program text : List ℕ)
        → map string_bytes words.now ≡ program ∷ codes "help" ∷ text ∷ []
        → HasNone text refusals.now ⊎ IsOkAnd result
        (λ found. IsSomeAnd found (λ refusal. refusal.now.words.now ≡ text)) }
    ensures err { OnErr result (AsksRefusal (map string_bytes words.now)) }
{
    match words_behind_help(words) {
        None => Ok(None),
        Some([text]) => refusal_in_any_case(alloc, refusals, text.as_str()),
        Some(texts) => {
            let text = texts.join(alloc, " ")?;
            refusal_in_any_case(alloc, refusals, text.as_str())
        }
    }
}

/// The words behind `help`, where the words are the program's name, `help` and at least one more.
fn words_behind_help(words: &[String]) -> Option<&[String]>
    ensures found { IfSome result (λ texts.
        AreBehindHelp (map string_bytes words.now) (map string_bytes texts.now)) }
    ensures none { IfNone result (¬ AsksRefusal (map string_bytes words.now)) }
{
    match words {
        [_, help, _, ..] if help.as_str() == "help" => Some(&words[2..]),
        _ => None,
    }
}

/// The refusal with this text, whatever the case of its letters.
fn refusal_in_any_case<'a>(
    alloc: Global,
    refusals: &'a [Refusal],
    text: &str,
) -> Result<Option<&'a Refusal>, NoMemory>
    ensures known { IfOk result
        (λ found. IfSome found (λ refusal. Contains refusals.now refusal.now)) }
    ensures unknown { IfOk result (λ found. IfNone found (HasNone text.now refusals.now)) }
    ensures same { HasNone text.now refusals.now ⊎ IsOkAnd result
        (λ found. IsSomeAnd found (λ refusal. refusal.now.words.now ≡ text.now)) }
{
    match refusal_said(refusals, text) {
        Some(refusal) => Ok(Some(refusal)),
        None => {
            let lowered = text.to_ascii_lowercase(alloc)?;
            Ok(refusal_said(refusals, lowered.as_str()))
        }
    }
}

/// The refusal with this text: its words, alone or in a line of a program or of a report.
fn refusal_said<'a>(refusals: &'a [Refusal], text: &str) -> Option<&'a Refusal>
    ensures known { IfSome result (λ refusal. Contains refusals.now refusal.now) }
    ensures unknown { IfNone result (HasNone text.now refusals.now) }
    ensures same { HasNone text.now refusals.now
        ⊎ IsSomeAnd result (λ refusal. refusal.now.words.now ≡ text.now) }
{
    match with_words(refusals, text) {
        Some(refusal) => Some(refusal),
        None => {
            let reason = reason_of(text);
            refusals.iter().find(|refusal| is_said(refusal, reason))
        }
    }
}

/// What a line says of its refusal, as in `nbt: full`, `4 unheard 10.0.0.5:138/0001`,
/// `2 refused source name: not netbios 3 error 1302` and `refused: truncated, at byte 2`.
fn reason_of(line: &str) -> &str {
    let front = line.rsplit_once(" error ").map_or(line, |(front, _)| front);
    if is_unheard(front) {
        return "unheard";
    }
    let refused = match front.rsplit_once(" refused ") {
        Some((_, reason)) => reason,
        None => front.strip_prefix("refused ").unwrap_or(front),
    };
    in_own_words(
        refused
            .rsplit_once(": ")
            .map_or(refused, |(_, reason)| reason),
    )
}

/// The program's words where the library has others for the same (`WORDS` of nb_calls).
fn in_own_words(reason: &str) -> &str {
    match reason {
        "text too long" | "data too long" => "too long",
        "bad line" => "line",
        _ => reason,
    }
}

/// Whether this is what a report says, or its end, of a key whose datagram isn't heard.
fn is_unheard(line: &str) -> bool {
    match line.split_once("unheard ") {
        Some((number, key)) => is_number(number.trim_end_matches(' ')) && !key.contains(' '),
        None => false,
    }
}

/// Whether a text is digits alone.
fn is_number(text: &str) -> bool {
    text.bytes().all(|byte| byte.is_ascii_digit())
}

/// Whether this is what is said of the refusal: its words, and its number where it has one.
fn is_said(refusal: &Refusal, reason: &str) -> bool {
    match reason.strip_prefix(refusal.words) {
        Some("") => true,
        Some(rest) => !refusal.number.is_empty() && is_place(rest),
        None => false,
    }
}

/// Whether this is a refusal's number: ` 4`, `, at byte 4` or `, at byte 4 of the name`.
fn is_place(text: &str) -> bool {
    let place = text.strip_prefix(", at byte").unwrap_or(text);
    match place.strip_prefix(' ') {
        Some(rest) => {
            let number = rest.strip_suffix(" of the name").unwrap_or(rest);
            !number.is_empty() && is_number(number)
        }
        None => false,
    }
}

/// The first of these refusals that has these words.
pub(crate) fn with_words<'a>(refusals: &'a [Refusal], words: &str) -> Option<&'a Refusal>
    ensures { IsFirstWith words.now refusals.now result }
{
    refusals.iter().find(|refusal| refusal.words == words)
}

/// Prints what is said of a refusal, as a line.
///
/// # Errors
///
/// [`Fault::Memory`] where memory ran out; nothing is printed then. [`Fault::Write`] where the
/// output failed.
pub fn print_advice<W: Write>(
    alloc: Global,
    refusal: &Refusal,
    output: &mut Counted<W>,
) -> Result<(), Fault>
    ensures printed { OnOk result (Appends
        (W.contents output.old.inner) (W.contents output.new.inner) (advice_line refusal.now)) }
    ensures err { OnErr result (AppendsFront
        (W.contents output.old.inner) (W.contents output.new.inner) (advice_line refusal.now)) }
    ensures fault { IfErr result IsPrintFault }
{
    let mut line = String::new(alloc);
    push_advice(refusal, &mut line)?;
    print(output, line.as_bytes())
}

/// A line, after two spaces, for each of these refusals that the command may have.
///
/// # Errors
///
/// `NoMemory` where memory ran out.
pub fn refusal_lines(alloc: Global, refusals: &[Refusal], command: &str) -> Result<String, NoMemory>
    ensures { IfOk result (λ lines. string_bytes lines ≡ lines_of_all command.now refusals.now) }
{
    let mut lines = String::new(alloc);
    for refusal in refusals {
        push_by(command, refusal, &mut lines)?;
    }
    Ok(lines)
}

/// Adds the line of a refusal after two spaces, if the command may have it.
fn push_by(command: &str, refusal: &Refusal, lines: &mut String) -> Result<(), NoMemory>
    ensures { OnOk result (string_bytes lines.new
        ≡ string_bytes lines.old ++ lines_by command.now refusal.now) }
{
    if refusal.by.contains(&command) {
        lines.push_str("  ")?;
        push_advice(refusal, lines)?;
    }
    Ok(())
}

/// Adds what is said of a refusal, as a line.
fn push_advice(refusal: &Refusal, text: &mut String) -> Result<(), NoMemory>
    ensures { OnOk result
        (string_bytes text.new ≡ string_bytes text.old ++ advice_line refusal.now) }
{
    let Refusal {
        words,
        number,
        by: _,
        advice,
    } = refusal;
    writeln!(text, "{words}{number}: {advice}")?;
    Ok(())
}
