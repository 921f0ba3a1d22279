//! A payload told to a sink, its text, and its JSON object.
#![tactic(auto, using(nb_streams::specs::Growth::front_stays))]

ghost use Rattle.std.specs.Prelude.{OnOk, string_bytes, IfOk};
ghost use Rattle.nb_streams.specs.Growth.{OnlyAdds};
ghost use Rattle.nb_telling.specs.Telling.{Grows};
ghost use Rattle.nb_telling.specs.Members.{IsJson};
ghost use Rattle.nb_text.specs.Shown.{AddsShown};
ghost use Rattle.nb_text.specs.Tells.{IsTold, IsObject};

use crate::datagrams::tell_datagram;
use crate::laws::{fields_are_members, texts_of_fields};
use crate::services::tell_service;
use crate::sessions::tell_session;
use nb_streams::NoMemory;
use nb_telling::{JsonRoom, JsonSink, Sink};

/// Tells a payload that came to a port to a sink, field by field: the packet that it begins with,
/// or why it begins with none.
///
/// Port 137 is the name service, 138 the datagram service; a payload of any other port is taken for
/// a session packet, port 139. Bytes after the packet aren't told. No memory is taken but by the
/// sink.
///
/// # Errors
///
/// [`NoMemory`] where the sink ran out of memory. What it had is still its front; some of the
/// payload's fields may be told after it.
///
/// The fields are our choice.
pub fn tell_packet<S: Sink>(port: u16, payload: &[u8], sink: &mut S) -> Result<(), NoMemory>
    ensures told { OnOk result
        (IsTold S.after payload.now port (S.seen sink.old) (S.seen sink.new)) }
    ensures front { Grows S.is_front (S.seen sink.old) (S.seen sink.new) }
{
    if port == 137 {
        return tell_service(payload, false, sink);
    }
    if port == 138 {
        return tell_datagram(payload, sink);
    }
    tell_session(payload, sink)
}

/// Adds the text of a payload that came to a port: the packet that it begins with, in a line and
/// lines of its parts, or why it begins with none. Each line ends with a line feed.
///
/// Port 137 is the name service, 138 the datagram service; a payload of any other port is taken for
/// a session packet, port 139. Bytes after the packet aren't shown.
///
/// Memory is taken for the text alone, from where the text has it.
///
/// # Errors
///
/// [`NoMemory`] where memory ran out. What stood in the text is still its front; some of the
/// payload's text may stand after it.
///
/// The form is our choice.
pub fn push_packet(port: u16, payload: &[u8], text: &mut String) -> Result<(), NoMemory>
    ensures added { OnOk result
        (AddsShown payload.now port (string_bytes text.old) (string_bytes text.new)) }
    ensures front { OnlyAdds (string_bytes text.old) (string_bytes text.new) }
{
    // The law that the fields' text is the packet's; the call does nothing.
    texts_of_fields();
    tell_packet(port, payload, text)
}

/// The JSON object (RFC 8259) of a payload that came to a port, in the room: its members are the
/// fields that [`tell_packet`] tells.
///
/// # Errors
///
/// [`NoMemory`] where memory ran out.
///
/// The form is our choice.
pub fn packet_object(port: u16, payload: &[u8], room: JsonRoom) -> Result<JsonRoom, NoMemory>
    ensures object { IfOk result (λ made. IsObject payload.now port made) }
    ensures json { IfOk result (λ made. IsJson made) }
{
    // The law that makes the fields members; the call does nothing.
    fields_are_members();
    let mut sink = JsonSink::begin(room)?;
    tell_packet(port, payload, &mut sink)?;
    sink.end()
}
