//! The words of packets of port 137.
ghost use Rattle.std.specs.Prelude.{◌≡◌};
ghost use Rattle.nb_survey.specs.Words.{asking_of, claim_response, is_own, is_refusal, is_standing, request_word, response_word, tells_group, word_of};

use nb_service::{opcode, rcode};

/// What a packet of port 137 says of a name at an address; each has its section of RFC 1002.
#[derive(Clone, Copy, Debug, PartialEq, Eq)]
pub enum Word {
    /// Name registration request 4.2.2, and that of operation 15.
    Claims,
    /// Name refresh request 4.2.4.
    Refreshes,
    /// Name overwrite request and demand (4.2.3).
    Takes,
    /// Name release request and demand (4.2.9).
    GivesUp,
    /// Positive name registration response 4.2.5.
    Granted,
    /// End-node challenge name registration response 4.2.7.
    AsksHolder,
    /// Name conflict demand (4.2.8), or a negative response with CFT_ERR, which has the same bytes.
    ToldOfConflict,
    /// Negative name registration response 4.2.6, with its RCODE.
    Refused(u8),
    /// Wait acknowledgement 4.2.16.
    ToWait,
    /// Positive name release response 4.2.10.
    Released,
    /// Negative name release response 4.2.11, with its RCODE.
    NotReleased(u8),
    /// Positive name query response 4.2.13, of its sender's own address.
    Answers,
    /// Positive name query response 4.2.13, of another address.
    SaidToHaveIt,
    /// Node status response 4.2.18.
    Lists,
    /// The same, where the name has CNF.
    ListsInConflict,
    /// The same, where the name hasn't ACT.
    ListsInactive,
}

/// What a request asks that is waited for with a response.
#[derive(Clone, Copy, Debug, PartialEq, Eq)]
pub enum Asking {
    /// A name: a registration, a refresh or an overwrite.
    Claim,
    /// To let a name go.
    Release,
}

impl Word {
    /// What a request with this word asks; nothing of other words.
    pub fn asking(self) -> Option<Asking>
        ensures { result ≡ asking_of self }
    {
        match self {
            Word::Claims | Word::Refreshes | Word::Takes => Some(Asking::Claim),
            Word::GivesUp => Some(Asking::Release),
            _ => None,
        }
    }

    /// Whether an address says it of itself.
    pub fn is_own(self) -> bool
        ensures { result ≡ is_own self }
    {
        matches!(
            self,
            Word::Claims
                | Word::Refreshes
                | Word::Takes
                | Word::GivesUp
                | Word::Answers
                | Word::Lists
                | Word::ListsInConflict
                | Word::ListsInactive
        )
    }

    /// Whether the address has the name by it, or asks for it.
    pub fn is_standing(self) -> bool
        ensures { result ≡ is_standing self }
    {
        matches!(
            self,
            Word::Claims
                | Word::Refreshes
                | Word::Takes
                | Word::Granted
                | Word::Answers
                | Word::Lists
        )
    }

    /// Whether it refuses a name, or says that it is in conflict.
    pub fn is_refusal(self) -> bool
        ensures { result ≡ is_refusal self }
    {
        matches!(
            self,
            Word::ToldOfConflict | Word::Refused(_) | Word::ListsInConflict | Word::NotReleased(_)
        )
    }
}

impl Word {
    /// Whether it tells that a name is a group's, or isn't. The record of a refusal may be the
    /// holder's, and tells nothing.
    pub(crate) fn tells_group(self) -> bool
        ensures { result ≡ tells_group self }
    {
        !matches!(
            self,
            Word::AsksHolder
                | Word::ToldOfConflict
                | Word::Refused(_)
                | Word::ToWait
                | Word::Released
                | Word::NotReleased(_)
        )
    }
}

/// The flag R of a flag word (RFC 1002 section 4.2.1.1): the packet is a response.
const RESPONSE: u16 = 0x8000;

/// The flag RD: a request asks a name server to register.
const DESIRED: u16 = 0x0100;

/// The flag RA: who answers is a name server.
const AVAILABLE: u16 = 0x0080;

/// The word of a packet with this flag word, by R, OPCODE, RD, RA and RCODE; none of queries and
/// their responses, whose words are by what they have.
///
/// RFC 1002 sections 4.2.2 to 4.2.11, and 4.2.16.
pub fn word_of(flags: u16) -> Option<Word>
    ensures { result ≡ word_of flags }
{
    if flags & RESPONSE == 0 {
        return request_word(opcode(flags), flags & DESIRED != 0);
    }
    response_word(opcode(flags), rcode(flags), flags & AVAILABLE != 0)
}

/// The word of a request.
fn request_word(operation: u8, is_desired: bool) -> Option<Word>
    ensures { result ≡ request_word operation is_desired }
{
    match operation {
        5 if is_desired => Some(Word::Claims),
        5 => Some(Word::Takes),
        15 => Some(Word::Claims),
        8 | 9 => Some(Word::Refreshes),
        6 => Some(Word::GivesUp),
        _ => None,
    }
}

/// The word of a response.
fn response_word(operation: u8, code: u8, is_available: bool) -> Option<Word>
    ensures { result ≡ response_word operation code is_available }
{
    match operation {
        5 | 8 | 9 | 15 => Some(claim_response(code, is_available)),
        6 if code == 0 => Some(Word::Released),
        6 => Some(Word::NotReleased(code)),
        7 => Some(Word::ToWait),
        _ => None,
    }
}

/// The word of a response to a claim.
fn claim_response(code: u8, is_available: bool) -> Word
    ensures { result ≡ claim_response code is_available }
{
    match code {
        0 if is_available => Word::Granted,
        0 => Word::AsksHolder,
        7 => Word::ToldOfConflict,
        _ => Word::Refused(code),
    }
}
