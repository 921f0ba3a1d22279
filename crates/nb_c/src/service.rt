//! Requests and responses of the name service, written.
#![tactic(auto, using(nb_calls::proofs::AnswerLemmas::answered))]

ghost use Rattle.nb_calls.specs.Outputs.{Writes, lent};
ghost use Rattle.nb_calls.specs.Responses.{Requests, Responds};

use nb_calls::names::name_of_text;
use nb_calls::output::write_answer;
use nb_calls::service::{Answered, Asked, answer, request_of};
use std::alloc::Global;

/// Writes a request about the name with this text.
///
/// RFC 1002 sections 4.2.2, 4.2.4, 4.2.9, 4.2.12 and 4.2.17.
#[unsafe(no_mangle)]
pub extern "C" fn nbt_service_request(
    alloc: Global,
    request: u32,
    identifier: u16,
    broadcast: bool,
    name: &[u8],
    time_to_live: u32,
    nb_flags: u16,
    address: u32,
    into: &mut [u8],
    used: &mut usize,
    at: &mut usize,
) -> u32
    ensures { Writes (Requests (record {
      request = request;
      identifier = identifier;
      broadcast = broadcast;
      time_to_live = time_to_live;
      nb_flags = nb_flags;
      address = address;
    }) name.now) (lent into.old used.old at.old) (lent into.new used.new at.new) result }
{
    let asked = Asked {
        request,
        identifier,
        broadcast,
        time_to_live,
        nb_flags,
        address,
    };
    write_answer(request_of(alloc, asked, name_of_text(name)), into, used, at)
}

/// Writes a response with one answer about the name with this text.
///
/// RFC 1002 sections 4.2.5 to 4.2.18, all but 4.2.8 and 4.2.15.
#[unsafe(no_mangle)]
pub extern "C" fn nbt_service_response(
    alloc: Global,
    identifier: u16,
    word: u16,
    name: &[u8],
    kind: u16,
    time_to_live: u32,
    contents: &[u8],
    into: &mut [u8],
    used: &mut usize,
    at: &mut usize,
) -> u32
    ensures { Writes (Responds (record {
      identifier = identifier;
      word = word;
      kind = kind;
      time_to_live = time_to_live;
    }) name.now contents.now) (lent into.old used.old at.old)
        (lent into.new used.new at.new) result }
{
    let answered = Answered {
        identifier,
        word,
        kind,
        time_to_live,
    };
    write_answer(answer(alloc, answered, name, contents), into, used, at)
}
