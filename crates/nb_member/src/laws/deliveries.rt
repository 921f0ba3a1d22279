//! What members hand over where no key is dropped: of each key that isn't spoilt its datagram once,
//! and of a sender's pieces the datagram that was cut.
ghost use Rattle.std.specs.Prelude.{◌≡◌, List, [], ◌∷◌, Some};
ghost use Rattle.std.specs.Option.{option_to_list};
ghost use Rattle.std.specs.FinMap as maps;
ghost use Rattle.nb_names.specs.Name.{NetbiosName};
ghost use Rattle.nb_datagram.specs.declared.key.Key.{Key};
ghost use Rattle.nb_datagram.specs.Fragment.{Core, DatagramParts};
ghost use Rattle.nb_entries.specs.declared.slot.Slot.TheVariants.{Spoilt};
ghost use Rattle.nb_table.specs.Conflict.{IsSpoilt};
ghost use Rattle.nb_table.specs.Contents.{table_of, IsWholeAt, datagram_at, newly_whole};
ghost use Rattle.nb_member.specs.declared.settings.Settings.{Settings};
ghost use Rattle.nb_member.specs.Hearing.{Hears};
ghost use Rattle.nb_member.specs.Events.{Saying};
ghost use Rattle.nb_member.specs.Live.{Timed, live, live_from, table_from, cores};
ghost use Rattle.nb_member.specs.Deliveries.{made, deliveries};
ghost use Rattle.nb_member.specs.Agreement.{valid, NoneDropped, GiveTheSame, of_key, heard, HandsOverOnce, HandOverTheSame, HandsOverTheSenders};

use nb_table::laws::{
    all_parts_give_the_datagram, datagram_has_the_bytes_of_its_entry, parts_are_not_spoilt,
    same_cores_make_the_same_table, table_has_the_entry_of_its_list,
    table_is_spoilt_where_fragments_disagree, table_of_two_lists_is_the_join,
    whole_keys_have_a_datagram,
};

/// Where no look at the clock drops a key, events make a key that isn't spoilt after them whole
/// once if it is whole then, and never otherwise. So a member that hears it hands it over once.
pub fn a_whole_key_is_handed_over_once()
    ensures made { (settings : Settings) (S : List Saying) (k : Key) → NoneDropped settings [] S →
        (maps.get (table_from (live settings S)) k ≡ Some Spoilt → ⊥) →
        of_key k (made settings [] S)
        ≡ option_to_list (datagram_at (table_from (live settings S)) k) }
    ensures handed { (settings : Settings) (names : List NetbiosName) (S : List Saying) (k : Key) →
        NoneDropped settings [] S →
        (maps.get (table_from (live settings S)) k ≡ Some Spoilt → ⊥) →
        of_key k (deliveries settings names [] S)
        ≡ heard names (option_to_list (datagram_at (table_from (live settings S)) k)) }
    ensures later { (settings : Settings) (L : List Timed) (S : List Saying) (k : Key) →
        NoneDropped settings L S →
        (maps.get (table_from (live_from settings L S)) k ≡ Some Spoilt → ⊥) →
        of_key k (made settings L S)
        ≡ option_to_list (newly_whole (table_from L) (table_from (live_from settings L S)) k) }
{
    table_of_two_lists_is_the_join();
    datagram_has_the_bytes_of_its_entry();
}

/// Where two members are given the same fragments, each hands over the datagram of a key that isn't
/// spoilt once, if the key is whole and is heard, and what both hear of it is the same.
pub fn both_hand_over_the_same()
    ensures once { (settings : Settings) (S T : List Saying) → GiveTheSame settings S T →
        (names : List NetbiosName) →
        HandsOverOnce names (cores (valid S)) (deliveries settings names [] S) }
    ensures once_there { (settings : Settings) (S T : List Saying) → GiveTheSame settings S T →
        (names : List NetbiosName) →
        HandsOverOnce names (cores (valid S)) (deliveries settings names [] T) }
    ensures same { (settings : Settings) (S T : List Saying) → GiveTheSame settings S T →
        (names others : List NetbiosName) →
        HandOverTheSame names others (cores (valid S)) (deliveries settings names [] S)
        (deliveries settings others [] T) }
{
    table_has_the_entry_of_its_list();
    table_of_two_lists_is_the_join();
    same_cores_make_the_same_table();
    datagram_has_the_bytes_of_its_entry();
    table_is_spoilt_where_fragments_disagree();
}

/// Where two members are given the same fragments, and those with a datagram's key are all parts of
/// it, cover its places, and one says that no more follows, each of the two that hears the datagram
/// hands it over, once, and nothing else of its key.
pub fn a_senders_datagram_is_handed_over()
    ensures here { (settings : Settings) (S T : List Saying) → GiveTheSame settings S T →
        (names : List NetbiosName) →
        HandsOverTheSenders names (cores (valid S)) (deliveries settings names [] S) }
    ensures there { (settings : Settings) (S T : List Saying) → GiveTheSame settings S T →
        (names : List NetbiosName) →
        HandsOverTheSenders names (cores (valid S)) (deliveries settings names [] T) }
{
    both_hand_over_the_same();
    parts_are_not_spoilt();
    all_parts_give_the_datagram();
}

/// What it means that each key is handed over once: of a key that isn't spoilt there is its
/// datagram alone where it is whole and heard, and nothing where it isn't heard or isn't whole.
pub fn once_is_one_or_none()
    ensures where_heard { (names : List NetbiosName) (L : List Core) (ds : List DatagramParts) →
        HandsOverOnce names L ds → (d : DatagramParts) → (IsSpoilt L d.key → ⊥) →
        datagram_at (table_of L) d.key ≡ Some d → Hears names d → of_key d.key ds ≡ d ∷ [] }
    ensures where_unheard { (names : List NetbiosName) (L : List Core) (ds : List DatagramParts) →
        HandsOverOnce names L ds → (d : DatagramParts) → (IsSpoilt L d.key → ⊥) →
        datagram_at (table_of L) d.key ≡ Some d → (Hears names d → ⊥) → of_key d.key ds ≡ [] }
    ensures where_in_part { (names : List NetbiosName) (L : List Core) (ds : List DatagramParts) →
        HandsOverOnce names L ds → (k : Key) → (IsSpoilt L k → ⊥) →
        (IsWholeAt (table_of L) k → ⊥) → of_key k ds ≡ [] }
{
    whole_keys_have_a_datagram();
}
