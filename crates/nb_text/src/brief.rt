//! A payload's phrase.

ghost use Rattle.std.specs.Prelude.{OnOk, string_bytes};
ghost use Rattle.nb_streams.specs.Growth.{OnlyAdds};
ghost use Rattle.nb_text.specs.SaysPacket.{AddsSaid};

mod datagrams;
mod form;
pub mod gist;
mod pieces;
mod services;
mod sessions;

use crate::brief::datagrams::push_datagram;
use crate::brief::services::push_service;
use crate::brief::sessions::push_session;
use nb_streams::NoMemory;

/// Adds the phrase of a payload that came to a port: what the packet is that it begins with, as a
/// person says it, or why it begins with none.
///
/// Port 137 is the name service, 138 the datagram service; a payload of any other port is taken for
/// a session packet, port 139. Where bytes follow the packet, the phrase ends with how many. Memory
/// is taken for the text alone, from where the text has it.
///
/// # Errors
///
/// [`NoMemory`] where memory ran out. What stood in the text is still its front.
///
/// The words are our choice, in those of RFC 1002.
pub fn push_brief(port: u16, payload: &[u8], text: &mut String) -> Result<(), NoMemory>
    ensures said { OnOk result
        (AddsSaid payload.now port (string_bytes text.old) (string_bytes text.new)) }
    ensures front { OnlyAdds (string_bytes text.old) (string_bytes text.new) }
{
    if port == 137 {
        return push_service(payload, text);
    }
    if port == 138 {
        return push_datagram(payload, text);
    }
    push_session(payload, text)
}
