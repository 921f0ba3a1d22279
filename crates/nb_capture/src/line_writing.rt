//! Writing the lines of captures.
#![tactic(auto, using(nb_streams::specs::Growth::front_stays))]

ghost use Rattle.std.specs.Prelude.{◌≡◌, ◌++◌, ◌∷◌, [], OnOk, string_bytes};
ghost use Rattle.nb_streams.specs.Growth.{OnlyAdds};
ghost use Rattle.nb_capture.specs.Capture.{line_feed, packet_line, tick_line};

use nb_streams::{NoMemory, push_data, push_decimal};

/// Adds the line of a payload that came to this port at this moment, in milliseconds, and its line
/// feed: `137 2000 0a1b`, or `138 0 empty`.
///
/// # Errors
///
/// [`NoMemory`] where memory ran out. What stood in the text is still its front; some of the line
/// may stand after it.
///
/// The form is our choice.
pub fn push_packet(
    port: u16,
    moment: u64,
    payload: &[u8],
    text: &mut String,
) -> Result<(), NoMemory>
    ensures added { OnOk result (string_bytes text.new
        ≡ string_bytes text.old ++ (packet_line port moment payload.now ++ line_feed ∷ [])) }
    ensures front { OnlyAdds (string_bytes text.old) (string_bytes text.new) }
{
    push_decimal(u64::from(port), text)?;
    text.push_str(" ")?;
    push_decimal(moment, text)?;
    text.push_str(" ")?;
    push_data(payload, text)?;
    text.push_str("\n")?;
    Ok(())
}

/// Adds the line of what the clock shows, in milliseconds, and its line feed: `tick 3000`.
///
/// # Errors
///
/// [`NoMemory`] where memory ran out. What stood in the text is still its front; some of the line
/// may stand after it.
///
/// The form is our choice.
pub fn push_tick(now: u64, text: &mut String) -> Result<(), NoMemory>
    ensures added { OnOk result (string_bytes text.new
        ≡ string_bytes text.old ++ (tick_line now ++ line_feed ∷ [])) }
    ensures front { OnlyAdds (string_bytes text.old) (string_bytes text.new) }
{
    text.push_str("tick ")?;
    push_decimal(now, text)?;
    text.push_str("\n")?;
    Ok(())
}
