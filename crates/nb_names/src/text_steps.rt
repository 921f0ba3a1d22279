//! The steps in which the text of a name is read, a byte at a time.
ghost use Rattle.std.specs.Prelude.{◌≡◌};
ghost use Rattle.nb_names.specs.NameText.{is_plain as is_plain_byte};
ghost use Rattle.nb_names.specs.Code.TextSteps.{step, step_in_front, step_in_label, first_digit};

use nb_streams::byte_of_pair;

/// Where a reading stands: what the bytes read so far end in.
#[derive(Clone, Copy)]
pub(crate) enum Stage {
    /// Any number of items.
    Front,
    /// The `\` of an escape before `<`.
    FrontEscape,
    /// That escape's first digit.
    FrontDigit(u8),
    /// `<`.
    Suffix,
    /// The first digit after `<`.
    SuffixDigit(u8),
    /// The second digit after `<`.
    SuffixEnd,
    /// `>`.
    Closed,
    /// The `.` before a label.
    LabelStart,
    /// One or more items of a label.
    Label,
    /// The `\` of an escape in a label.
    LabelEscape,
    /// That escape's first digit.
    LabelDigit(u8),
}

/// What a byte of a text adds to the name.
#[derive(Clone, Copy)]
pub(crate) enum Added {
    /// Nothing so far.
    Nothing,
    /// A byte before `<`.
    FrontByte(u8),
    /// The byte after `<`.
    Last(u8),
    /// A byte of the label.
    LabelByte(u8),
    /// The label's end.
    LabelEnd,
}

/// Each plain byte stands at its own place, and `.` at every other.
static PLAIN: [u8; 256] = *b"\
    ................................\
    .!\"#$%&'()*+,-./0123456789:;.=.?\
    @ABCDEFGHIJKLMNOPQRSTUVWXYZ[.]^_\
    `abcdefghijklmnopqrstuvwxyz{|}~.\
    ................................\
    ................................\
    ................................\
    ................................";

/// Whether a byte is plain: it can stand for itself.
#[inline]
pub(crate) fn is_plain(byte: u8) -> bool
    ensures { result ≡ is_plain_byte byte }
{
    PLAIN[byte as usize] != b'.'
}

/// A step to what remembers a hexadecimal digit.
fn digit_step(byte: u8, next: Stage) -> Option<(Stage, Added)>
    ensures value { result ≡ first_digit byte next }
{
    if byte.is_ascii_hexdigit() {
        Some((next, Added::Nothing))
    } else {
        None
    }
}

/// A step before `<`: an item goes on with the byte, or `<` ends them.
fn front_step(byte: u8) -> Option<(Stage, Added)>
    ensures { result ≡ step_in_front byte }
{
    if is_plain(byte) {
        return Some((Stage::Front, Added::FrontByte(byte)));
    }
    match byte {
        b'\\' => Some((Stage::FrontEscape, Added::Nothing)),
        b'<' => Some((Stage::Suffix, Added::Nothing)),
        _ => None,
    }
}

/// A step in a label: an item goes on with the byte.
fn label_step(byte: u8) -> Option<(Stage, Added)>
    ensures { result ≡ step_in_label byte }
{
    if is_plain(byte) {
        return Some((Stage::Label, Added::LabelByte(byte)));
    }
    match byte {
        b'\\' => Some((Stage::LabelEscape, Added::Nothing)),
        _ => None,
    }
}

/// Where a reading stands after a byte, and what the byte adds, or nothing where no text of the
/// form goes on with it.
pub(crate) fn step_of(stage: Stage, byte: u8) -> Option<(Stage, Added)>
    ensures { result ≡ step stage byte }
{
    match stage {
        Stage::Front => front_step(byte),
        Stage::FrontEscape => digit_step(byte, Stage::FrontDigit(byte)),
        Stage::FrontDigit(high) => {
            Some((Stage::Front, Added::FrontByte(byte_of_pair(high, byte)?)))
        }
        Stage::Suffix => digit_step(byte, Stage::SuffixDigit(byte)),
        Stage::SuffixDigit(high) => {
            Some((Stage::SuffixEnd, Added::Last(byte_of_pair(high, byte)?)))
        }
        Stage::SuffixEnd if byte == b'>' => Some((Stage::Closed, Added::Nothing)),
        Stage::Closed if byte == b'.' => Some((Stage::LabelStart, Added::Nothing)),
        Stage::Label if byte == b'.' => Some((Stage::LabelStart, Added::LabelEnd)),
        Stage::LabelStart | Stage::Label => label_step(byte),
        Stage::LabelEscape => digit_step(byte, Stage::LabelDigit(byte)),
        Stage::LabelDigit(high) => {
            Some((Stage::Label, Added::LabelByte(byte_of_pair(high, byte)?)))
        }
        Stage::SuffixEnd | Stage::Closed => None,
    }
}
