//! The table of queries that found nothing.
ghost use Rattle.std.specs.Prelude.{◌≡◌, ◌++◌, IfOk, OnOk, take, if◌then◌else◌};
ghost use Rattle.std.specs.List.{list_any};
ghost use Rattle.nb_survey.specs.QueryRows.{frames_of, kept_frames, later_reply, row_frames, row_more, row_of, same_row, unanswered};

use crate::key::same_address;
use crate::limits::MAX_FRAMES;
use crate::query::{Query, Reply};
use nb_streams::NoMemory;
use std::alloc::Global;

/// What came of the queries about a name with one type, from one asker to one station, from the
/// first one on that has no positive response.
#[derive(Clone, Copy, Debug, PartialEq, Eq)]
pub struct QueryRow {
    /// How many packets are those that have none, repeats too.
    pub packets: u64,
    /// When the first one came, in nanoseconds since 1970.
    pub since: Option<u64>,
    /// The latest response that counts; a positive one answers a later query.
    pub reply: Option<Reply>,
}

impl Query {
    /// Whether another query has its type, asker and station.
    pub fn is_of_row(&self, other: &Query) -> bool
        ensures { result ≡ same_row self.now other.now }
    {
        self.kind == other.kind
            && same_address(self.asker, other.asker)
            && same_address(self.station, other.station)
    }

    /// The frames of the first 16 of its packets.
    pub fn kept_frames(&self) -> &[u64]
        ensures { result.now ≡ kept_frames self.now }
    {
        if self.packets < 16 {
            return &self.frames[..self.packets as usize];
        }
        &self.frames
    }

    /// How many packets it is, where it has no positive response.
    fn unanswered(&self) -> u64
        ensures { result ≡ unanswered self.now }
    {
        if self.is_answered {
            return 0;
        }
        self.packets
    }
}

/// The later one of two responses, by their frames.
fn later_reply(one: Option<Reply>, other: Option<Reply>) -> Option<Reply>
    ensures { result ≡ later_reply one other }
{
    match (one, other) {
        (Some(one), Some(other)) if other.frame < one.frame => Some(one),
        (one, None) => one,
        (_, other) => other,
    }
}

/// A row, after one more query of its type, asker and station.
fn row_more(row: Option<QueryRow>, query: &Query) -> Option<QueryRow>
    ensures { result ≡ row_more row query.now }
{
    let before = match row {
        Some(row) => row,
        None if query.is_answered => return None,
        None => QueryRow {
            packets: 0,
            since: query.since,
            reply: None,
        },
    };
    Some(QueryRow {
        packets: before.packets.saturating_add(query.unanswered()),
        since: before.since,
        reply: later_reply(before.reply, query.reply),
    })
}

/// The row of a query, after one more about its name.
fn row_after(query: &Query, row: Option<QueryRow>, other: &Query) -> Option<QueryRow>
    ensures { result ≡ (if same_row query.now other.now then row_more row other.now else row) }
{
    if query.is_of_row(other) {
        return row_more(row, other);
    }
    row
}

/// The row of a query among all queries about its name, in order; none where each of its type,
/// asker and station has a positive response.
pub fn row_of(query: &Query, queries: &[Query]) -> Option<QueryRow>
    ensures { result ≡ row_of query.now queries.now }
{
    let mut row = None;
    'queries: for other in queries {
        row = row_after(query, row, other);
    }
    row
}

/// Whether the row of a query has come before, where these are the queries about its name that did.
pub fn is_known(query: &Query, before: &[Query]) -> bool
    ensures { result ≡ list_any (same_row query.now) before.now }
{
    before.iter().any(|other| query.is_of_row(other))
}

/// Adds the frames of a query to those of a row, up to 16, where it is one of the row that has no
/// positive response.
fn push_frames(frames: &mut Vec<u64>, query: &Query, other: &Query) -> Result<(), NoMemory>
    ensures { OnOk result (frames.new.items
        ≡ take 16 (frames.old.items ++ row_frames query.now other.now)) }
{
    if query.is_of_row(other) && !other.is_answered {
        frames.extend_from_slice(other.kept_frames())?;
    }
    frames.truncate(MAX_FRAMES);
    Ok(())
}

/// The frames of the row of a query among all queries about its name: 16 of the packets that have
/// no positive response, in the order of the queries.
///
/// # Errors
///
/// [`NoMemory`] where memory ran out.
pub fn frames_of(alloc: Global, query: &Query, queries: &[Query]) -> Result<Vec<u64>, NoMemory>
    ensures { IfOk result (λ frames. frames.items ≡ frames_of query.now queries.now) }
{
    let mut frames = Vec::new(alloc);
    'queries: for other in queries {
        push_frames(&mut frames, query, other)?;
    }
    Ok(frames)
}
