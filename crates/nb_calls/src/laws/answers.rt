//! Laws on what calls answer: one thing of each input, but for that memory ran out. Each is proved;
//! a call does nothing.
ghost use Rattle.std.specs.Prelude.{ℕ, List};
ghost use Rattle.nb_calls.specs.Common.{Key, Contents, Limits, Sent, Answered, Asked};
ghost use Rattle.nb_calls.specs.Captures.{SaysLine};
ghost use Rattle.nb_calls.specs.Cutting.{Cuts, Queries};
ghost use Rattle.nb_calls.specs.Datagrams.{Reads, ReadsFront};
ghost use Rattle.nb_calls.specs.Names.{Spells, Tells};
ghost use Rattle.nb_calls.specs.Outputs.{HasOne, HasOneElse};
ghost use Rattle.nb_calls.specs.Responses.{Requests, Responds};
ghost use Rattle.nb_calls.specs.ServiceParts.{ReadsAddress, ReadsDomain, ReadsEntries, ReadsNode, ReadsUnit};
ghost use Rattle.nb_calls.specs.Services.{ReadsHeader, ReadsItem, ReadsPacket};
ghost use Rattle.nb_calls.specs.Sessions as sessions;
ghost use Rattle.nb_calls.specs.Showing.{Objects, Phrases, Shows};
ghost use Rattle.nb_calls.specs.Tables.{Compares, Merges, OfOne};

use nb_capture::laws::a_line_has_one_value;
use nb_datagram::laws::{one_datagram_fault, one_front, one_packet};
use nb_names::laws::{
    labels_tell_the_name, one_fault, one_name, one_netbios_fault, one_reading, one_text_fault,
};
use nb_service::laws::{one_header, one_item, one_packet as one_service_packet, one_service_fault};
use nb_session::laws::{one_answer, one_header as one_session_header};
use nb_table::laws::{an_input_is_read_as_one_table, saved_bytes_have_one_reading};
use nb_text::laws::one_telling;

/// A name's text has one spelling or one fault, and a spelling one text or one fault.
pub fn names_have_one_answer()
    ensures spells { (text : List ℕ) → HasOneElse (Spells text) }
    ensures tells { (bytes : List ℕ) → HasOneElse (Tells bytes) }
{
    one_name();
    one_text_fault();
    one_reading();
    one_netbios_fault();
    labels_tell_the_name();
}

/// A payload has one text, one phrase and one object, and a line of a capture says one thing.
pub fn payloads_have_one_text()
    ensures text { (payload : List ℕ) (port : ℕ) → HasOneElse (Shows payload port) }
    ensures phrase { (payload : List ℕ) (port : ℕ) → HasOneElse (Phrases payload port) }
    ensures object { (payload : List ℕ) (port : ℕ) → HasOneElse (Objects payload port) }
    ensures line { (line : List ℕ) → HasOneElse (SaysLine line) }
{
    one_telling();
    a_line_has_one_value();
}

/// A payload of port 138 has one packet or one fault, and one front or none.
pub fn datagrams_have_one_answer()
    ensures packet { (payload : List ℕ) → HasOne (Reads payload) }
    ensures front { (payload : List ℕ) → HasOne (ReadsFront payload) }
{
    one_packet();
    one_datagram_fault();
    one_front();
}

/// What is asked to be written of ports 137 and 138 has one answer.
pub fn written_packets_have_one_answer()
    ensures pieces { (sent : Sent) (source destination contents : List ℕ) →
        HasOneElse (Cuts sent source destination contents) }
    ensures query { (packet_type : ℕ) (key : Key) (text : List ℕ) →
        HasOneElse (Queries packet_type key text) }
    ensures request { (asked : Asked) (text : List ℕ) → HasOneElse (Requests asked text) }
    ensures response { (answered : Answered) (text contents : List ℕ) →
        HasOneElse (Responds answered text contents) }
{
    one_name();
    one_text_fault();
    one_reading();
    one_fault();
}

/// A payload of port 137 has one header and one packet, or one fault, and at each offset one item
/// of a number.
pub fn services_have_one_answer()
    ensures header { (payload : List ℕ) → HasOne (ReadsHeader payload) }
    ensures packet { (payload : List ℕ) → HasOne (ReadsPacket payload) }
    ensures item { (payload : List ℕ) (number at : ℕ) → HasOne (ReadsItem payload number at) }
    ensures items { (payload : List ℕ) (number place room : ℕ) →
        HasOne (ReadsEntries payload number place room) }
{
    one_header();
    one_service_packet();
    one_service_fault();
    one_item();
}

/// Each part of RDATA has one answer.
#[tactic(auto, using(crate::proofs::DomainLemmas::one_domain))]
pub fn rdata_has_one_answer()
    ensures address { (kind : ℕ) (bytes : List ℕ) (number : ℕ) →
        HasOne (ReadsAddress kind bytes number) }
    ensures node { (kind : ℕ) (bytes : List ℕ) (number : ℕ) → HasOne (ReadsNode kind bytes number) }
    ensures unit { (kind : ℕ) (bytes : List ℕ) → HasOne (ReadsUnit kind bytes) }
    ensures domain { (payload : List ℕ) (at size : ℕ) → HasOne (ReadsDomain payload at size) }
{}

/// What came over a connection to port 139 has one answer, and so has what is asked to be written.
pub fn sessions_have_one_answer()
    ensures packet { (bytes : List ℕ) → HasOne (sessions.Reads bytes) }
    ensures front { (bytes : List ℕ) → HasOne (sessions.ReadsFront bytes) }
    ensures names { (bytes : List ℕ) → HasOne (sessions.ReadsNames bytes) }
    ensures retarget { (bytes : List ℕ) → HasOne (sessions.ReadsRetarget bytes) }
    ensures written { (packet_type : ℕ) (body : List ℕ) →
        HasOneElse (sessions.WritesPacket packet_type body) }
{
    one_answer();
    one_session_header();
}

/// Two saved tables have one join or one fault, and one least key at which they differ, none or one
/// fault; a saved table has one list, of lines or of objects, or one fault.
pub fn tables_have_one_answer()
    ensures joined { (first second : List ℕ) (limits : Limits) →
        HasOneElse (Merges first second limits) }
    ensures compared { (first second : List ℕ) → HasOneElse (Compares first second) }
    ensures listed { (table : List ℕ) (told : Contents → List ℕ) → HasOneElse (OfOne table told) }
{
    an_input_is_read_as_one_table();
    saved_bytes_have_one_reading();
}
