//! The calls of nb_names, nb_service, nb_session, nb_datagram and nb_text, as lines make them.
#![tactic(auto)]

pub mod counting_sink;
mod cutting;
mod data;
pub mod datagrams;
mod devices;
mod faults;
pub mod fragments;
mod labels;
mod names;
mod service;
mod service_items;
mod service_making;
mod service_views;
mod sessions;
mod shown;
mod streams;
mod values;

use nb_examples_words::fault::ExampleFault;
use nb_examples_words::line::Line;

/// Says what a call answers, which is named as its crate without `nb_`, and by its own name.
pub fn answer(line: &mut Line<'_>, of: &str, call: &str) {
    match of {
        "names" => answer_of_names(line, call),
        "service" => answer_of_service(line, call),
        "session" => answer_of_session(line, call),
        "datagram" => answer_of_datagram(line, call),
        "text" => answer_of_text(line, call),
        _ => line.note(ExampleFault::NoSuchCall),
    }
}

/// Says what a call of nb_names answers.
fn answer_of_names(line: &mut Line<'_>, call: &str) {
    match call {
        "read_domain" => names::domain_read(line),
        "read_name" => names::name_read(line),
        "from_text" => names::of_text(line),
        "from_bytes" => names::of_bytes(line),
        "name_text" => names::written(line),
        "order" => names::ordered(line),
        "reader" => names::by_reader(line),
        "labels" => labels::labels(line),
        "push" => labels::pushed(line),
        "push_scope" => labels::pushed_to_scope(line),
        "from_domain" => labels::from_domain(line),
        "fault" => faults::of_name(line),
        "domain_text" => labels::written(line),
        "data_in" => data::read(line),
        "copy" => values::copied_name(line),
        "lent" => values::lent(line),
        "split_line" => values::split(line),
        "copy_bytes" => values::copied_bytes(line),
        "spelling" => values::spelled(line),
        "bytes" => values::bytes(line),
        "items" => values::items(line),
        "read_input" => devices::input(line),
        "read_some" => devices::read(line),
        "write" => devices::written(line),
        "added" => values::added(line),
        "digits" => data::of_digits(line),
        "data" => data::of_text(line),
        _ => line.note(ExampleFault::NoSuchCall),
    }
}

/// Says what a call of nb_service answers.
fn answer_of_service(line: &mut Line<'_>, call: &str) {
    match call {
        "decode" => service::decoded(line),
        "fault" => faults::of_service(line),
        "items" => service_items::items(line),
        "push" => service::pushed(line),
        "word" => service::word(line),
        "view" => service_views::view(line),
        "outline" => service_views::outlined(line),
        "question_at" => service_views::question_at(line),
        "record_at" => service_views::record_at(line),
        "record" => service_making::record(line),
        "ns" => service_making::name_server(line),
        "response" => service_making::responded(line),
        "lists" => service_making::lists(line),
        "query" | "node_status_request" | "registration" | "refresh" | "release" => {
            service_making::requested(line, call)
        }
        _ => line.note(ExampleFault::NoSuchCall),
    }
}

/// Says what a call of nb_session answers.
fn answer_of_session(line: &mut Line<'_>, call: &str) {
    match call {
        "header" => sessions::header(line),
        "parse" => sessions::parsed(line),
        "fault" => faults::of_session(line),
        "same" => sessions::same(line),
        "debug" => sessions::debug(line),
        "read" => sessions::read(line),
        "stream" => streams::streamed(line),
        "kept" => streams::kept(line),
        "pieces" => streams::cut(line),
        "bytewise" => streams::streamed_bytewise(line),
        "again" => sessions::encoded_again(line),
        "fronts" => sessions::fronts(line),
        "kind" => sessions::kind(line),
        "new" => sessions::made_new(line),
        _ => line.note(ExampleFault::NoSuchCall),
    }
}

/// Says what a call of nb_datagram answers.
fn answer_of_datagram(line: &mut Line<'_>, call: &str) {
    match call {
        "decode" => datagrams::decoded(line),
        "decode_lent" => datagrams::decoded_lent(line),
        "front" => datagrams::front(line),
        "fault" => faults::of_datagram(line),
        "parts" => fragments::parts(line),
        "again" => cutting::encoded_again(line),
        "datagram" => cutting::made(line),
        "cut" => cutting::cut_up(line),
        "pieces" => cutting::packets(line),
        "datagrams" => cutting::listed_datagrams(line),
        "errors" => cutting::listed_errors(line),
        "key" => cutting::key_text(line),
        "kind" => cutting::kind_text(line),
        _ => line.note(ExampleFault::NoSuchCall),
    }
}

/// Says what a call of nb_text answers.
fn answer_of_text(line: &mut Line<'_>, call: &str) {
    match call {
        "packet" => shown::text(line),
        "object" => shown::object(line),
        "count" => shown::count(line),
        _ => line.note(ExampleFault::NoSuchCall),
    }
}
