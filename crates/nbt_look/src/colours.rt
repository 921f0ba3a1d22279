//! The colours of lines on a terminal.
ghost use Rattle.std.specs.Prelude.{◌≡◌};
ghost use Rattle.nbt_look.specs.Colours.{IsColourOf, colour_of};

use crate::counting::Outcome;
use crate::heading::{Heading, heading_of};
use nb_service::rcode;

/// What stands before a line of a packet that is refused (SGR, ECMA-48 section 8.3.117).
const RED: &str = "\x1b[31m";

/// The same of one of which something is left out.
const YELLOW: &str = "\x1b[33m";

/// The same of one that says that a name is in conflict.
const MAGENTA: &str = "\x1b[35m";

/// What stands before the line of a packet that counts so, with this payload that came to this
/// port: a colour, or nothing.
pub fn colour_of_packet(outcome: Outcome, port: u16, payload: &[u8]) -> &'static str
    ensures { IsColourOf outcome payload.now port result.now }
{
    colour_of(outcome, heading_of(port, payload))
}

/// What stands before the line of a packet that counts so, and whose header says this. CFT_ERR says
/// that a name is in conflict (RFC 1002 section 4.2.8).
fn colour_of(outcome: Outcome, heading: Heading) -> &'static str
    ensures { result.now ≡ colour_of outcome heading }
{
    match outcome {
        Outcome::Malformed => RED,
        Outcome::LeftOut(_) => YELLOW,
        Outcome::Packet => match heading {
            Heading::Names(word) if rcode(word) == 7 => MAGENTA,
            _ => "",
        },
        Outcome::Without(_) => "",
    }
}
