//! The requests that responses are about.
ghost use Rattle.std.specs.Prelude.{◌≡◌, ◌≤◌, ◌<◌, ◌+◌, IfOk, filter, length, not, true, if◌then◌else◌};
ghost use Rattle.nb_survey.specs.Requests.{answered, fits, last_fitting, renewed_by, replaces, request_of, same_asking};
ghost use Rattle.nb_survey.specs.declared.limits.TheConstants.{MAX_REQUESTS};

use crate::heard::{Facts, Said};
use crate::key::same_address;
use crate::limits::MAX_REQUESTS;
use crate::word::Asking;
use nb_streams::NoMemory;
use std::alloc::Global;
use std::net::IpAddr;

/// What is remembered of a request.
#[derive(Clone, Copy, Debug, PartialEq, Eq)]
pub struct Request {
    /// What it asks.
    pub asking: Asking,
    /// The address that it is about.
    pub address: IpAddr,
    /// Where it came from.
    pub source: IpAddr,
    /// Its identifier, NAME_TRN_ID.
    pub id: u16,
    /// Its frame.
    pub frame: u64,
}

impl Request {
    /// What is remembered of a word, where it asks for something.
    fn of(said: &Said) -> Option<Request>
        ensures { result ≡ request_of said.now }
    {
        let asking = said.word.asking()?;
        Some(Request {
            asking,
            address: said.place.address,
            source: said.facts.frame.source,
            id: said.facts.id,
            frame: said.facts.frame.number,
        })
    }

    /// Whether it asks the same as another one, of the same address.
    fn replaces(&self, other: &Request) -> bool
        ensures { result ≡ replaces self.now other.now }
    {
        same_asking(self.asking, other.asking) && same_address(self.address, other.address)
    }

    /// Whether a response to what is asked has its identifier, and goes where it came from.
    fn fits(&self, asking: Asking, facts: &Facts) -> bool
        ensures { result ≡ fits asking facts.now self.now }
    {
        same_asking(asking, self.asking)
            && self.id == facts.id
            && same_address(self.source, facts.frame.target)
    }
}

/// Whether two requests ask the same.
pub(crate) fn same_asking(one: Asking, other: Asking) -> bool
    ensures { result ≡ same_asking one other }
{
    matches!(
        (one, other),
        (Asking::Claim, Asking::Claim) | (Asking::Release, Asking::Release)
    )
}

/// Counts one more request, where there is room for it; whether there is.
pub(crate) fn is_counted(count: &mut usize) -> bool
    ensures counted { count.new ≡ count.old + (if result then 1 else 0) }
    ensures within { count.old ≤ MAX_REQUESTS → count.new ≤ MAX_REQUESTS }
    ensures room { count.new < MAX_REQUESTS → result ≡ true }
{
    if *count >= MAX_REQUESTS {
        return false;
    }
    *count += 1;
    true
}

/// Takes a word that is said of a name to its latest requests, where there is room among all
/// requests, of which there are so many; whether there is.
pub(crate) fn renew(
    requests: &mut Vec<Request>,
    said: &Said,
    count: &mut usize,
) -> Result<bool, NoMemory>
    ensures renewed { IfOk result (λ has_room. has_room ≡ true →
        requests.new.items ≡ renewed_by requests.old.items (request_of said.now)) }
    ensures counted { length requests.new.items + count.old
        ≤ length requests.old.items + count.new }
    ensures within { count.old ≤ MAX_REQUESTS → count.new ≤ MAX_REQUESTS }
    ensures grows { count.old ≤ count.new }
    ensures room { IfOk result (λ has_room. count.new < MAX_REQUESTS → has_room ≡ true) }
{
    let Some(request) = Request::of(said) else {
        return Ok(true);
    };
    let before = requests.len();
    leave_out(requests, &request);
    if requests.len() == before && !is_counted(count) {
        return Ok(false);
    }
    requests.push(request)?;
    Ok(true)
}

/// Drops the requests that this one replaces.
fn leave_out(requests: &mut Vec<Request>, request: &Request)
    ensures kept { requests.new.items
        ≡ filter (λ one. not (replaces request.now one)) requests.old.items }
    ensures within { length requests.new.items ≤ length requests.old.items }
{
    requests.retain(|one| !request.replaces(one));
}

/// The last of these requests that fits a response.
fn last_fitting(requests: &[Request], asking: Asking, facts: &Facts) -> Option<Request>
    ensures { result ≡ last_fitting asking facts.now requests.now }
{
    let mut last = None;
    'requests: for request in requests {
        if request.fits(asking, facts) {
            last = Some(*request);
        }
    }
    last
}

/// The requests of these that a response answers.
pub(crate) fn answered(
    alloc: Global,
    requests: &[Request],
    asking: Asking,
    facts: &Facts,
) -> Result<Vec<Request>, NoMemory>
    ensures { IfOk result (λ found. found.items ≡ answered asking facts.now requests.now) }
{
    let mut found = Vec::new(alloc);
    let Some(last) = last_fitting(requests, asking, facts) else {
        return Ok(found);
    };
    'requests: for request in requests {
        if request.fits(asking, facts) && request.frame == last.frame {
            found.push(*request)?;
        }
    }
    Ok(found)
}
