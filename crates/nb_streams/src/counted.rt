//! Readers and writers whose calls are counted for contracts.
ghost use Rattle.std.specs.Prelude.{◌≡◌, ◌≢◌, ◌<◌, length, IfOk, IfErr, IsErrOf, ◌+◌};
ghost use Rattle.nb_streams.specs.Counted.{no_calls, with_call, TellsRead, TellsWrite, CountedOf, counted_code};
ghost use Rattle.nb_streams.specs.Tally.{count_of};

use std::io::{ErrorKind, Read, Write};
use std::marker::Model;
use std::snapshot::Snapshot;

/// What one read or one write answered.
#[derive(Clone, Copy, Debug, PartialEq, Eq)]
pub enum Told {
    /// This many bytes were read or written. None means, of a read, that the reader is at its end,
    /// and of a write, that the writer takes nothing more.
    Bytes(usize),
    /// The call was interrupted before a byte was moved, and may be made again.
    Interrupted,
    /// The call failed in any other way.
    Failed,
}

/// A reader or a writer that tells each single answer.
///
/// For contracts alone it keeps how many calls were made, and how many of them moved no byte, were
/// interrupted, or failed: exactly, and without bound. A program pays four bytes for that.
#[derive(Drop)]
pub struct Counted<T> {
    inner: T,
    calls: Tally,
    empty: Tally,
    interrupted: Tally,
    failed: Tally,
}

impl<T> Model for Counted<T> {
    ghost Value = { CountedOf T };

    ghost coded = { counted_code T.code };

    ghost view = { λ c. record {
      inner = c.inner;
      counts = record {
        calls = count_of c.calls;
        empty = count_of c.empty;
        interrupted = count_of c.interrupted;
        failed = count_of c.failed;
      };
    } };
}

impl<T> Counted<T> {
    /// This reader or writer, with no call counted.
    pub fn new(inner: T) -> Self
        ensures inner { result.inner ≡ inner }
        ensures counts { result.counts ≡ no_calls }
    {
        Counted {
            inner,
            calls: Tally::new(),
            empty: Tally::new(),
            interrupted: Tally::new(),
            failed: Tally::new(),
        }
    }

    /// The reader or writer itself, its counts let go.
    pub fn into_inner(self) -> T
        ensures { result ≡ self.inner }
    {
        let Counted {
            inner,
            calls: _,
            empty: _,
            interrupted: _,
            failed: _,
        } = self;
        inner
    }

    /// Reads once, to the front of a buffer that isn't empty.
    pub fn read(&mut self, buf: &mut [u8]) -> Told
    where
        T: Read,
        requires { 0 < length buf.old }
        ensures bytes { TellsRead (T.remaining self.old.inner) (T.remaining self.new.inner)
            result buf.new }
        ensures counts { self.new.counts ≡ with_call self.old.counts result }
    {
        let answer = self.inner.read(buf).map_err(|error| error.kind());
        self.told(answer)
    }

    /// Writes once, from the front of a slice that isn't empty.
    pub fn write(&mut self, bytes: &[u8]) -> Told
    where
        T: Write,
        requires { 0 < length bytes.now }
        ensures bytes { TellsWrite (T.contents self.old.inner) (T.contents self.new.inner)
            result bytes.now }
        ensures counts { self.new.counts ≡ with_call self.old.counts result }
    {
        let answer = self.inner.write(bytes).map_err(|error| error.kind());
        self.told(answer)
    }

    /// Counts a call by its answer.
    fn told(&mut self, answer: Result<usize, ErrorKind>) -> Told
        ensures inner { self.new.inner ≡ self.old.inner }
        ensures bytes { IfOk answer (λ count. result ≡ Told.Bytes count) }
        ensures interrupted { IsErrOf answer ErrorKind.Interrupted → result ≡ Told.Interrupted }
        ensures failed { IfErr answer
            (λ kind. kind ≢ ErrorKind.Interrupted → result ≡ Told.Failed) }
        ensures counts { self.new.counts ≡ with_call self.old.counts result }
    {
        self.calls.tick();
        match answer {
            Ok(0) => {
                self.empty.tick();
                Told::Bytes(0)
            }
            Ok(count) => Told::Bytes(count),
            Err(ErrorKind::Interrupted) => {
                self.interrupted.tick();
                Told::Interrupted
            }
            Err(_) => {
                self.failed.tick();
                Told::Failed
            }
        }
    }
}

/// How often something came, for contracts alone: exact, and without bound.
///
/// It is one byte when the program runs. In the contracts, the count is how
/// many tallies it was made from, one after the other.
#[derive(Drop)]
pub enum Tally {
    /// Not yet.
    Zero,
    /// Once more than before.
    More(Snapshot<Tally>),
}

impl Tally {
    /// Not yet.
    pub fn new() -> Self
        ensures { count_of result ≡ 0 }
    {
        Tally::Zero
    }

    /// Counts once more.
    pub fn tick(&mut self)
        ensures { count_of self.new ≡ count_of self.old + 1 }
    {
        *self = Tally::More(Snapshot::of(self));
    }
}
