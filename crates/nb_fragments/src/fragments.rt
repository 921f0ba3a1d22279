//! Fragments, by the packet that they are of.
ghost use Rattle.std.specs.Prelude.{◌≡◌, ◌≤◌, ◌<◌, ◌^◌, ◌+◌, ◌-◌, [], List, length, IfOk, OnOk, OnErr, MatchOption, None, Ok, Some};
ghost use Rattle.std.specs.BTreeMap.{btree_map_len, get, values};
ghost use Rattle.nb_datagram.specs.declared.limits.TheConstants.{MAX_LENGTH};
ghost use Rattle.nb_entries.specs.Piece.{piece_reach};
ghost use Rattle.nb_fragments.specs.declared.key.Key.{Key};
ghost use Rattle.nb_fragments.specs.declared.waiting.Waiting.{Waiting};
ghost use Rattle.nb_fragments.specs.declared.taken.Taken.TheVariants.{LeftOut};
ghost use Rattle.nb_fragments.specs.declared.taken.Refusal.TheVariants.{TooMany};
ghost use Rattle.nb_fragments.specs.declared.limits.TheConstants.{KEYS, ROOM};
ghost use Rattle.nb_fragments.specs.Keys.{key_cmp, key_of};
ghost use Rattle.nb_fragments.specs.Live.{Came, clock_after, live_at};
ghost use Rattle.nb_fragments.specs.Taking.{Answers, IsLong, MakesOf, came_now, live_after, piece_in};
ghost use Rattle.nb_fragments.specs.Code.Kept.{IsFull, Joins, Waits, came_at, charge_of, clock_of, earliest_in, lost_at, lost_in, still_kept, unfinished_of, used_in};

use crate::key::Key;
use crate::limits::{KEYS, ROOM};
use crate::taken::{Refusal, Taken};
use crate::waiting::{Waiting, is_over};
use nb_entries::Piece;
use nb_frames::IpFragment;
use nb_streams::NoMemory;
use std::alloc::Global;
use std::collections::BTreeMap;

/// The fragments of packets that aren't whole, or were it a short while ago.
#[derive(Drop)]
pub struct Fragments {
    alloc: Global,
    waiting: BTreeMap<Key, Waiting>,
    /// What the capture's clock shows.
    clock: u64,
    /// No packet's first fragment came before.
    earliest: u64,
    /// At least how many bytes are kept.
    used: usize,
    /// How many packets were dropped of which some fragments didn't come.
    lost: u64,
}

impl Fragments {
    /// None. No memory is taken.
    pub fn new(alloc: Global) -> Fragments
        ensures live { Waits result [] }
        ensures clock { clock_of result ≡ 0 }
        ensures lost { result.lost ≡ 0 }
    {
        Fragments {
            alloc,
            waiting: BTreeMap::new(alloc),
            clock: 0,
            earliest: u64::MAX,
            used: 0,
            lost: 0,
        }
    }

    /// Takes a fragment of a frame of this time, in nanoseconds, if it has one, and says what it
    /// makes of its packet.
    ///
    /// The clock shows the greatest time so far; a frame without one comes when it shows that.
    /// Fragments of a packet are dropped 60 seconds after its first came.
    ///
    /// # Errors
    ///
    /// `NoMemory` where memory ran out; the fragment isn't kept then.
    pub fn take(&mut self, fragment: &IpFragment<'_>, time: Option<u64>) -> Result<Taken, NoMemory>
        ensures clock { clock_of self.new ≡ clock_after (clock_of self.old) time }
        ensures live { IfOk result (λ taken. (live : List Came) → Waits self.old live →
            Waits self.new (live_after taken (came_now (clock_of self.new) fragment.now)
            (live_at (clock_of self.new) live))) }
        ensures answer { IfOk result (λ taken. (live : List Came) → Waits self.old live →
            Answers fragment.now (came_now (clock_of self.new) fragment.now)
            (live_at (clock_of self.new) live) taken) }
        ensures full { result ≡ Ok (LeftOut TooMany) →
            IsFull self.new (key_of fragment.now) (length fragment.now.payload.bytes) }
        ensures err { OnErr result ((live : List Came) → Waits self.old live →
            Waits self.new (live_at (clock_of self.new) live)) }
        ensures lost { self.new.lost ≡ lost_at self.old (clock_of self.new) }
    {
        self.advance(time);
        if fragment.payload.is_cut() {
            return Ok(Taken::LeftOut(Refusal::Cut));
        }
        match piece_of(fragment) {
            Some(piece) => self.join(Key::of(fragment), &piece),
            None => Ok(Taken::LeftOut(Refusal::TooLong)),
        }
    }

    /// Of how many packets some fragments came and others didn't: those that were dropped so, and
    /// those that are kept.
    pub fn unfinished(&self) -> u64
        ensures { result ≡ unfinished_of self.now }
    {
        lost_of(&self.waiting, None, self.lost)
    }

    /// Joins a piece of a packet that comes now.
    fn join(&mut self, key: Key, piece: &Piece<'_>) -> Result<Taken, NoMemory>
        ensures counts { (clock_of self.new ≡ clock_of self.old) × (self.new.lost ≡ self.old.lost) }
        ensures live { IfOk result (λ taken. (live : List Came) → Waits self.old live →
            Waits self.new (live_after taken (came_at self.old key piece.now) live)) }
        ensures answer { IfOk result (λ taken. (live : List Came) → Waits self.old live →
            MakesOf (came_at self.old key piece.now) live taken) }
        ensures full { result ≡ Ok (LeftOut TooMany) →
            IsFull self.new key (length piece.now.bytes) }
        ensures err { OnErr result ((live : List Came) → Waits self.old live →
            Waits self.new live) }
    {
        if ROOM.saturating_sub(self.used) < piece.bytes().len() {
            return Ok(Taken::LeftOut(Refusal::TooMany));
        }
        let now = self.clock;
        let taken = join_in(
            &mut self.waiting,
            self.alloc,
            now,
            key,
            piece,
            &mut self.used,
        )?;
        self.earliest = self.earliest.min(now);
        Ok(taken)
    }

    /// Sets the clock, and drops what is over by it.
    fn advance(&mut self, time: Option<u64>)
        ensures clock { clock_of self.new ≡ clock_after (clock_of self.old) time }
        ensures lost { self.new.lost ≡ lost_at self.old (clock_of self.new) }
        ensures live { (live : List Came) → Waits self.old live →
            Waits self.new (live_at (clock_of self.new) live) }
    {
        self.clock = shown(self.clock, time);
        if is_over(self.clock, self.earliest) {
            self.drop_over();
        }
    }

    /// Drops what is over.
    fn drop_over(&mut self)
        ensures clock { clock_of self.new ≡ clock_of self.old }
        ensures lost { self.new.lost
            ≡ lost_in (Some (clock_of self.old)) self.old.lost (values self.old.waiting) }
        ensures live { (live : List Came) → Waits self.old live →
            Waits self.new (live_at (clock_of self.old) live) }
    {
        self.lost = lost_of(&self.waiting, Some(self.clock), self.lost);
        retain_live(&mut self.waiting, self.clock);
        self.earliest = earliest_of(&self.waiting);
        self.used = self.used.min(used_of(&self.waiting));
    }
}

/// The piece that a fragment has of its packet, where it reaches no further than a packet may.
fn piece_of<'a>(fragment: &IpFragment<'a>) -> Option<Piece<'a>>
    ensures { MatchOption result (IsLong fragment.now)
        (λ piece. (piece ≡ piece_in fragment.now) × (piece_reach piece ≤ MAX_LENGTH)) }
{
    match u16::try_from(fragment.place.offset) {
        Ok(offset) => Piece::new(offset, fragment.place.more, fragment.payload.bytes()),
        Err(_) => None,
    }
}

/// Joins a piece of a packet that comes now to what is kept.
fn join_in(
    waiting: &mut BTreeMap<Key, Waiting>,
    alloc: Global,
    now: u64,
    key: Key,
    piece: &Piece<'_>,
    used: &mut usize,
) -> Result<Taken, NoMemory>
    ensures ok { IfOk result (Joins waiting.old waiting.new now key piece.now) }
    ensures err { OnErr result ((other : Key) →
        get key_cmp waiting.new other ≡ get key_cmp waiting.old other) }
    ensures few { OnErr result (btree_map_len waiting.new ≡ btree_map_len waiting.old) }
    ensures charge { OnOk result (used.old + length piece.now.bytes < 2 ^ 64 →
        charge_of waiting.new + used.old ≤ charge_of waiting.old + used.new) }
    ensures most { OnOk result (used.new ≤ used.old + length piece.now.bytes) }
    ensures less { OnErr result (charge_of waiting.new ≤ charge_of waiting.old) }
    ensures unused { OnErr result (used.new ≡ used.old) }
    ensures full { result ≡ Ok (LeftOut TooMany) →
        (get key_cmp waiting.new key ≡ None) × (KEYS ≤ btree_map_len waiting.new) }
{
    match waiting.get_mut(&key) {
        Some(kept) => return kept.join(alloc, piece, used),
        None => {}
    }
    if KEYS <= waiting.len() {
        return Ok(Taken::LeftOut(Refusal::TooMany));
    }
    let mut first = Waiting::new(alloc, now);
    let mut charged = *used;
    let taken = first.join(alloc, piece, &mut charged)?;
    waiting.insert(key, first)?;
    *used = charged;
    Ok(taken)
}

/// Drops what is over.
fn retain_live(waiting: &mut BTreeMap<Key, Waiting>, now: u64)
    ensures kept { (key : Key) →
        get key_cmp waiting.new key ≡ still_kept now (get key_cmp waiting.old key) }
    ensures few { btree_map_len waiting.new ≤ btree_map_len waiting.old }
    ensures charge { charge_of waiting.new ≤ charge_of waiting.old }
{
    waiting.retain(|_key, waiting| !is_over(now, waiting.start));
}

/// The earliest start.
fn earliest_of(map: &BTreeMap<Key, Waiting>) -> u64
    ensures { result ≡ earliest_in (2 ^ 64 - 1) (values map.now) }
{
    let mut earliest = u64::MAX;
    for waiting in map.values() {
        earliest = earliest.min(waiting.start);
    }
    earliest
}

/// So many, and the packets that are lost.
fn lost_of(map: &BTreeMap<Key, Waiting>, now: Option<u64>, lost: u64) -> u64
    ensures { result ≡ lost_in now lost (values map.now) }
{
    let mut count = lost;
    for waiting in map.values() {
        count = count.saturating_add(u64::from(waiting.is_lost(now)));
    }
    count
}

/// At least how many bytes are kept.
fn used_of(map: &BTreeMap<Key, Waiting>) -> usize
    ensures { result ≡ used_in 0 (values map.now) }
{
    let mut used = 0_usize;
    for waiting in map.values() {
        used = used.saturating_add(waiting.bytes);
    }
    used
}

/// What the clock shows at a frame of this time, if it has one.
fn shown(clock: u64, time: Option<u64>) -> u64
    ensures { result ≡ clock_after clock time }
{
    match time {
        Some(time) => clock.max(time),
        None => clock,
    }
}
