//! Reading the text of a NetBIOS name, which stands for one or has a fault.
ghost use Rattle.std.specs.Prelude.{◌≡◌, IfOk, IfErr, IfSome, IfNone, IsOkAnd, MatchOption, OnSome};
ghost use Rattle.nb_names.specs.Name.{NetbiosName, IsByteName};
ghost use Rattle.nb_names.specs.NameText.{IsText, IsFormed, IsBad, IsFaultOf, name_of, FitsLimits};
ghost use Rattle.nb_names.specs.Code.TextSteps.{nothing_taken, takes, parts_of};
ghost use Rattle.nb_names.specs.Code.Kept.{taken_of, FitsSoFar};

use crate::fault::TextFault;
use crate::limits::{FRONT_LENGTH, MAX_LABEL, NAME_LENGTH};
use crate::name::{Name, Scope};
use crate::text_steps::{Added, Stage, step_of};
use arrayvec::ArrayVec;

/// The name that a text stands for, such as `FRED<20>.NETBIOS.COM`.
///
/// The text is any number of items, `<`, two hexadecimal digits, `>`, and for each label of the
/// scope `.` and one or more items. An item is one of the bytes 21 to 7e but `.`, `<`, `>` and `\`,
/// which stands for itself, or `\` and two hexadecimal digits. What stands before `<` gives the
/// name's front, and spaces fill it up to fifteen bytes; the digits give the sixteenth. No memory
/// is taken.
///
/// # Errors
///
/// The first that applies, in [`TextFault`]'s order: the form is judged over the whole text, and
/// then the limits.
///
/// The form is our choice.
pub fn name_from_text(text: &str) -> Result<Name, TextFault>
    ensures found { IfOk result (λ name. IsText name text.now) }
    ensures name { IfOk result IsByteName }
    ensures only { (name : NetbiosName) → IsText name text.now →
        IsOkAnd result (λ read. read ≡ name) }
    ensures fault { IfErr result (IsFaultOf text.now) }
{
    name_from_bytes(text.as_bytes())
}

/// The name that the bytes of a text stand for.
///
/// # Errors
///
/// The first that applies, in [`TextFault`]'s order.
pub(crate) fn name_from_bytes(text: &[u8]) -> Result<Name, TextFault>
    ensures found { IfOk result (λ name. IsText name text.now) }
    ensures name { IfOk result IsByteName }
    ensures only { (name : NetbiosName) → IsText name text.now →
        IsOkAnd result (λ read. read ≡ name) }
    ensures fault { IfErr result (IsFaultOf text.now) }
{
    if let Some(place) = bad_place(text) {
        return Err(TextFault::BadText(place));
    }
    name_within_limits(text).ok_or(TextFault::TooLong)
}

/// Where a text leaves the form, or nothing where it has the form.
fn bad_place(text: &[u8]) -> Option<usize>
    ensures { MatchOption result (IsFormed text.now)
        (λ place. (¬ IsFormed text.now) × IsBad text.now place) }
{
    let mut stage = Stage::Front;
    for (place, byte) in text.iter().enumerate() {
        match step_of(stage, *byte) {
            Some((next, _)) => stage = next,
            None => return Some(place),
        }
    }
    match stage {
        Stage::Closed | Stage::Label => None,
        _ => Some(text.len()),
    }
}

/// The name of a text that has the form, or nothing where it passes a limit.
fn name_within_limits(text: &[u8]) -> Option<Name>
    ensures found { IfSome result (λ name. IsText name text.now) }
    ensures name { IfSome result IsByteName }
    ensures none { IfNone result ((name : NetbiosName) → ¬ IsText name text.now) }
{
    let mut stage = Stage::Front;
    let mut taken = Collected::new();
    for byte in text {
        let (next, added) = step_of(stage, *byte)?;
        taken.take(added)?;
        stage = next;
    }
    match stage {
        Stage::Closed => Some(taken.into_name()),
        Stage::Label => {
            taken.take(Added::LabelEnd)?;
            Some(taken.into_name())
        }
        _ => None,
    }
}

/// What a reading of a name's text has taken so far, within the limits.
#[derive(Drop)]
pub(crate) struct Collected {
    /// The bytes before `<`.
    front: ArrayVec<u8, FRONT_LENGTH>,
    /// The byte after it.
    last: u8,
    /// The labels that have ended.
    scope: Scope,
    /// The bytes of the one that hasn't.
    label: ArrayVec<u8, MAX_LABEL>,
}

impl Collected {
    /// Nothing so far.
    pub(crate) fn new() -> Self
        ensures { taken_of result ≡ nothing_taken }
    {
        Collected {
            front: ArrayVec::new(),
            last: 0,
            scope: Scope::empty(),
            label: ArrayVec::new(),
        }
    }

    /// Takes what a byte adds, unless that passes a limit.
    pub(crate) fn take(&mut self, added: Added) -> Option<()>
        ensures taken { OnSome result (taken_of self.new ≡ takes (taken_of self.old) added) }
        ensures none { IfNone result (¬ FitsSoFar (takes (taken_of self.old) added)) }
    {
        match added {
            Added::Nothing => Some(()),
            Added::FrontByte(byte) => self.front.try_push(byte).ok(),
            Added::Last(byte) => {
                self.last = byte;
                Some(())
            }
            Added::LabelByte(byte) => self.label.try_push(byte).ok(),
            Added::LabelEnd => self.end_label(),
        }
    }

    /// Ends the label, unless the scope has no room for it.
    fn end_label(&mut self) -> Option<()>
        ensures taken { OnSome result
            (taken_of self.new ≡ takes (taken_of self.old) Added.LabelEnd) }
        ensures none { IfNone result (¬ FitsSoFar (takes (taken_of self.old) Added.LabelEnd)) }
    {
        match self.scope.push(self.label.as_slice()) {
            Ok(()) => {
                self.label.clear();
                Some(())
            }
            Err(_) => None,
        }
    }

    /// The name that was taken.
    pub(crate) fn into_name(self) -> Name
        ensures name { result ≡ name_of (parts_of (taken_of self)) }
        ensures limits { FitsLimits (parts_of (taken_of self)) }
        ensures bytes { IsByteName result }
    {
        let mut bytes = [b' '; NAME_LENGTH];
        bytes[..self.front.len()].copy_from_slice(self.front.as_slice());
        bytes[FRONT_LENGTH] = self.last;
        Name::new(bytes, self.scope)
    }
}
