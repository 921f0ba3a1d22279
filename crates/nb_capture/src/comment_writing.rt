//! Writing the comments of captures.
#![tactic(auto, using(nb_streams::specs::Growth::front_stays))]

ghost use Rattle.std.specs.Prelude.{◌≡◌, ◌++◌, [], IsOk, OnOk, string_bytes};
ghost use Rattle.std.specs.List.{flat_map};
ghost use Rattle.nb_streams.specs.Growth.{OnlyAdds};
ghost use Rattle.nb_capture.specs.Capture.{blank_text, byte_text, comment_text, is_printable as is_printable_byte};

use nb_streams::{NoMemory, push_digits};

/// Adds what is printed of a line that is a comment or empty. Where comments are left out, and of
/// an empty line, that is nothing; no memory is wanted then. Else it is the comment as it stands,
/// and a line feed. Each byte below 20 or above 7e, in hexadecimal, is `\` and two digits in lower
/// case; a `\` of the comment stays one.
///
/// # Errors
///
/// [`NoMemory`] where memory ran out. What stood in the text is still its front; some of the
/// comment may stand after it.
///
/// The form is our choice.
pub fn push_comment(comments: Comments, line: &[u8], text: &mut String) -> Result<(), NoMemory>
    ensures added { OnOk result
        (string_bytes text.new ≡ string_bytes text.old ++ blank_text comments line.now) }
    ensures front { OnlyAdds (string_bytes text.old) (string_bytes text.new) }
    ensures left_out { comments ≡ Comments.LeftOut → IsOk result }
    ensures empty { line.now ≡ [] → IsOk result }
{
    match comments {
        Comments::LeftOut => Ok(()),
        Comments::Printed => push_line(line, text),
    }
}

/// Adds a comment and a line feed, or nothing of an empty line.
fn push_line(line: &[u8], text: &mut String) -> Result<(), NoMemory>
    ensures added { OnOk result
        (string_bytes text.new ≡ string_bytes text.old ++ comment_text line.now) }
    ensures front { OnlyAdds (string_bytes text.old) (string_bytes text.new) }
    ensures empty { line.now ≡ [] → IsOk result }
{
    if line.is_empty() {
        return Ok(());
    }
    push_comment_bytes(line, text)?;
    text.push_str("\n")?;
    Ok(())
}

/// Adds the bytes of a comment, as [`push_comment`] has them, without a line feed.
///
/// # Errors
///
/// [`NoMemory`] where memory ran out. What stood in the text is still its front; some of the bytes
/// may stand after it.
pub fn push_comment_bytes(bytes: &[u8], text: &mut String) -> Result<(), NoMemory>
    ensures added { OnOk result
        (string_bytes text.new ≡ string_bytes text.old ++ flat_map byte_text bytes.now) }
    ensures front { OnlyAdds (string_bytes text.old) (string_bytes text.new) }
{
    for byte in bytes {
        push_byte(*byte, text)?;
    }
    Ok(())
}

/// Adds a byte of a comment.
fn push_byte(byte: u8, text: &mut String) -> Result<(), NoMemory>
    ensures added { OnOk result (string_bytes text.new ≡ string_bytes text.old ++ byte_text byte) }
    ensures front { OnlyAdds (string_bytes text.old) (string_bytes text.new) }
{
    if is_printable(byte) {
        text.push(char::from(byte))?;
        return Ok(());
    }
    text.push_str("\\")?;
    push_digits(&[byte], text)
}

/// Whether a byte of a comment is printed as it stands.
fn is_printable(byte: u8) -> bool
    ensures { result ≡ is_printable_byte byte }
{
    b' ' <= byte && byte <= b'~'
}

/// Whether the comments of a capture are printed where its packets are shown or replayed (our
/// choice).
#[derive(Clone, Copy, Debug, PartialEq, Eq)]
pub enum Comments {
    /// Nothing is printed of them.
    LeftOut,
    /// Each is printed in its place, as [`push_comment`](crate::push_comment) has it.
    Printed,
}
