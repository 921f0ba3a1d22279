//! Laws of the definitions that the contracts cite. Each is proved; a call does nothing.
ghost use Rattle.std.specs.Prelude.{◌≡◌, ◌≢◌, ℕ, List, [], filter, Option, Result, Err, ◌++◌, codes};
ghost use Rattle.std.specs.List.{AllByRecursion};
ghost use Rattle.std.specs.Fmt.{decimal};
ghost use Rattle.nb_names.specs.Name.{NetbiosName};
ghost use Rattle.nb_datagram.specs.declared.key.Key.{Key};
ghost use Rattle.nb_datagram.specs.Fragment.{DatagramParts};
ghost use Rattle.nb_table.specs.Contents.{Contents};
ghost use Rattle.nb_table.specs.Join.{join};
ghost use Rattle.nb_telling.specs.Members.{AreMembers};
ghost use Rattle.nb_telling.specs.Texts.{text_of};
ghost use Rattle.nb_capture.specs.declared.comment_writing.Comments.{Comments};
ghost use Rattle.nb_capture.specs.LinePrinting.{Shows, ShowsLines, TellsLine};
ghost use Rattle.nb_capture.specs.declared.fault.PrintFault.{PrintFault};
ghost use Rattle.nb_member.specs.declared.limits.TheConstants.{FRAGMENT_TIMEOUT, MAX_NAMES};
ghost use Rattle.nb_member.specs.declared.settings.Settings.{Settings};
ghost use Rattle.nb_member.specs.declared.outcome.Event.{Event};
ghost use Rattle.nb_member.specs.declared.outcome.Event.TheVariants.{Packet};
ghost use Rattle.nb_member.specs.declared.outcome.MemberFault.{MemberFault};
ghost use Rattle.nb_member.specs.declared.outcome.MemberFault.TheVariants.{Table};
ghost use Rattle.nb_member.specs.declared.outcome.Outcome.{Outcome};
ghost use Rattle.nb_member.specs.Events.{Says, Say, Saying, clock, HasBytes};
ghost use Rattle.nb_member.specs.Live.{Timed, cores, HasRoom, NoneFull, live, live_after, table_from};
ghost use Rattle.nb_member.specs.Hearing.{hears};
ghost use Rattle.nb_member.specs.Deliveries.{made_by, errors_by, delivery_in, error_in};
ghost use Rattle.nb_member.specs.Member.{MemberValue, with_timed, StandsOver, after_clock, contents, new_member, Stands};
ghost use Rattle.nb_member.specs.Taking.{Takes, Answers, Does, Absorbs, Previews};
ghost use Rattle.nb_member.specs.Agreement.{valid, NoneDropped, GiveTheSame};
ghost use Rattle.nb_member.specs.Listing.{key_line};
ghost use Rattle.nb_member.specs.ListingFields.{key_fields};
ghost use Rattle.nb_member.specs.Report.{parts_text, result_text};
ghost use Rattle.nb_member.specs.ReportFields.{MayLeave, ReportSaid, dropped_fields, parts_fields, passed_fields, result_fields};
ghost use Rattle.nb_member.specs.Replaying.{Replayed, Replays};
ghost use Rattle.nb_table.specs.declared.fault.TableFault.TheVariants as table_fault;

mod deliveries;

pub use deliveries::{
    a_senders_datagram_is_handed_over, a_whole_key_is_handed_over_once, both_hand_over_the_same,
    once_is_one_or_none,
};
use nb_datagram::laws::{one_datagram_fault, one_packet, packet_or_fault};
use nb_table::laws::{
    keeping_keys_keeps_their_fragments, lists_swapped_have_the_same_cores,
    same_cores_make_the_same_table, table_has_the_entry_of_its_list,
    table_of_two_lists_is_the_join,
};

/// An event says one thing at most, and so do events in a row.
pub fn an_event_says_one_thing()
    ensures event { (settings : Settings) (event : Event) (s t : Saying) →
        Says settings event s → Says settings event t → s ≡ t }
    ensures events { (settings : Settings) (events : List Event) (S T : List Saying) →
        Say settings events S → Say settings events T → S ≡ T }
{
    one_packet();
    one_datagram_fault();
}

/// A payload that a member takes says something, and the member does what it says: it stands for
/// the fragments that are live then, and answers by what it stood for before. A payload that it
/// refuses changes nothing, and it refuses none for want of memory that meets a limit on keys.
pub fn a_member_does_what_is_said()
    ensures says { (m new : MemberValue) (L : List Timed) (moment : ℕ) (payload : List ℕ)
        (result : Result Outcome MemberFault) → StandsOver m L → Takes m moment payload new result →
        (s : Saying) × Says m.settings (Packet moment payload) s }
    ensures does { (m new : MemberValue) (L : List Timed) (moment : ℕ) (payload : List ℕ)
        (result : Result Outcome MemberFault) (s : Saying) → StandsOver m L →
        Says m.settings (Packet moment payload) s → Takes m moment payload new result →
        result ≢ Err (Table table_fault.NoMemory) → Does m L s new result }
    ensures memory { (m new : MemberValue) (L : List Timed) (moment : ℕ) (payload : List ℕ)
        (s : Saying) → StandsOver m L → Says m.settings (Packet moment payload) s →
        Takes m moment payload new (Err (Table table_fault.NoMemory)) → HasRoom m.settings L s }
    ensures refused { (m new : MemberValue) (moment : ℕ) (payload : List ℕ) (fault : MemberFault) →
        Takes m moment payload new (Err fault) → new ≡ m }
{
    one_packet();
    one_datagram_fault();
    table_of_two_lists_is_the_join();
}

/// A member that looks at the clock stands for the fragments that are live then.
pub fn a_member_drops_what_the_clock_ends()
    ensures { (m : MemberValue) (L : List Timed) (now : ℕ) → StandsOver m L →
        StandsOver (with_timed m (after_clock m.timed now)) (live_after m.settings L (clock now)) }
{
    keeping_keys_keeps_their_fragments();
}

/// What a member answers shows the datagram that it hands over, and the error packet that it gives.
pub fn an_answer_shows_what_is_handed_out()
    ensures delivery { (settings : Settings) (names : List NetbiosName) (L : List Timed)
        (s : Saying) (result : Result Outcome MemberFault) → Answers settings names L s result →
        filter (hears names) (made_by settings L s) ≡ delivery_in result }
    ensures error { (settings : Settings) (names : List NetbiosName) (L : List Timed)
        (s : Saying) (result : Result Outcome MemberFault) → Answers settings names L s result →
        errors_by settings names L s ≡ error_in result }
{}

/// Where no look at the clock drops a key and no fragment meets a limit on keys, the fragments
/// that are live are the valid ones, each with its moment.
pub fn live_fragments_are_the_valid_ones()
    ensures fragments { (settings : Settings) (S : List Saying) →
        NoneDropped settings [] S → NoneFull settings [] S → live settings S ≡ valid S }
    ensures cores { (settings : Settings) (S : List Saying) →
        NoneDropped settings [] S → NoneFull settings [] S →
        cores (live settings S) ≡ cores (valid S) }
{}

/// Where events say the same fragments, whose keys are within the limits, and no look at the clock
/// drops a key, no fragment meets the limit, and the tables of what is live are the same.
pub fn the_same_fragments_make_the_same_table()
    ensures room { (settings : Settings) (S T : List Saying) → GiveTheSame settings S T →
        NoneFull settings [] S × NoneFull settings [] T }
    ensures same { (settings : Settings) (S T : List Saying) → GiveTheSame settings S T →
        table_from (live settings S) ≡ table_from (live settings T) }
{
    table_has_the_entry_of_its_list();
    table_of_two_lists_is_the_join();
    same_cores_make_the_same_table();
}

/// The limits, as numbers.
pub fn limits_are_these_numbers()
    ensures timeout { FRAGMENT_TIMEOUT ≡ 2000 }
    ensures names { MAX_NAMES ≡ 254 }
{}

/// Each event says something, and so do events in a row. By
/// [`an_event_says_one_thing`](crate::laws::an_event_says_one_thing) it is never two things.
pub fn each_event_says_something()
    ensures event { (settings : Settings) (event : Event) → HasBytes event →
        (s : Saying) × Says settings event s }
    ensures events { (settings : Settings) (events : List Event) → AllByRecursion HasBytes events →
        (S : List Saying) × Say settings events S }
{
    packet_or_fault();
}

/// The text of the fields of what became of a line is the report's, after the line's number.
pub fn texts_of_reports()
    ensures results { (taken : Result Outcome MemberFault) →
        text_of (result_fields taken) ≡ result_text taken }
    ensures parts { (datagram : DatagramParts) →
        text_of (parts_fields datagram) ≡ parts_text datagram }
    ensures passed { text_of passed_fields ≡ codes "passed" }
    ensures dropped { (keys : ℕ) →
        text_of (dropped_fields keys) ≡ codes "dropped " ++ decimal keys }
{}

/// What a member makes of lines, one after another, by its fields, is the report of the events that
/// the lines say: whatever events the member stands for, it stands for these after them.
pub fn a_report_is_of_events()
    ensures { (comments : Comments) (m new : MemberValue) (H : List Event) (s : Stands m H)
        (lines : List (List ℕ)) (text : List ℕ) →
        ShowsLines (TellsLine (ReportSaid comments)) 1 lines m new text →
        Replayed comments m H (live m.settings s.sayings) lines new text }
{
    a_member_does_what_is_said();
    a_member_drops_what_the_clock_ends();
}

/// What is printed of the lines of an input, a line by its fields, is what a replay of it answers:
/// the report of the events that the lines say, or a front of that.
pub fn a_printed_report_is_a_replay()
    ensures { (comments : Comments) (most : ℕ) (m new : MemberValue) (H : List Event)
        (s : Stands m H) (bytes : List ℕ) (left before after : Option (List ℕ))
        (answer : Result ℕ PrintFault) →
        Shows (TellsLine (ReportSaid comments)) MayLeave most bytes left m new before after answer →
        Replays comments most m H (live m.settings s.sayings) bytes left new before after answer }
{
    a_report_is_of_events();
}

/// The text of the fields of a key is its line in a listing.
#[tactic(auto, using(crate::proofs::FieldLemmas::key_same))]
pub fn texts_of_listings()
    ensures { (table : Contents) (key : Key) →
        text_of (key_fields table key) ≡ key_line table key }
{}

/// The fields of what became of a line, and of a key, are members of an object: the list of a key's
/// known places ends, and no list stands in it.
pub fn fields_are_members()
    ensures results { (taken : Result Outcome MemberFault) → AreMembers 1 (result_fields taken) }
    ensures passed { AreMembers 1 passed_fields }
    ensures dropped { (keys : ℕ) → AreMembers 1 (dropped_fields keys) }
    ensures keys { (table : Contents) (key : Key) → AreMembers 1 (key_fields table key) }
{}

/// A new member stands for no event.
#[tactic(auto, using(crate::proofs::AgreementLemmas::SameTable::new_stands))]
pub fn a_new_member_stands_for_no_event()
    ensures { (settings : Settings) (names : List NetbiosName) →
        Stands (new_member settings names) [] }
{}

/// The tables of two members join, in either order, to the table of the fragments that are live
/// after the events of the one, followed by those that are live after the events of the other.
pub fn merging_gives_the_table_of_both()
    ensures { (a b : MemberValue) (H G : List Event) (s : Stands a H) (t : Stands b G) →
        let both = table_from (live a.settings s.sayings ++ live b.settings t.sayings) in
        (join (contents a) (contents b) ≡ both) × (join (contents b) (contents a) ≡ both) }
{
    table_of_two_lists_is_the_join();
    lists_swapped_have_the_same_cores();
    same_cores_make_the_same_table();
}

/// What is handed over of a table that is taken in, at any moment, is what was said of it before.
pub fn a_preview_is_what_is_handed_over()
    ensures { (m : MemberValue) (other : Contents) (moment : ℕ) (new : MemberValue)
        (said datagrams : List DatagramParts) → Previews m other said →
        Absorbs m other moment new datagrams → datagrams ≡ said }
{}
