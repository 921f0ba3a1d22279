//! Two covers' facts that don't contradict each other, united.
ghost use Rattle.std.specs.Prelude.{◌≡◌, ◌&&◌, IfOk, MatchOption};
ghost use Rattle.std.specs.FinMap as maps;
ghost use Rattle.nb_entries.specs.Cover.{bytes_lie_below, placed, AreCoverFacts, covers_agree, covers_together};
ghost use Rattle.nb_entries.specs.Marks.{marks_up_to};
ghost use Rattle.nb_entries.specs.Shared.CoverLemmas.{covers_unite, formed_agrees};

use super::CoverFacts;
use super::marks::Marks;
use crate::slot::Facts;
use nb_streams::NoMemory;

impl Facts for CoverFacts {
    ghost agrees = { covers_agree };

    ghost union = { covers_together };

    ghost AreFormed = { AreCoverFacts };

    ghost unites = { covers_unite };

    ghost formed_agree = { formed_agrees };

    fn agree(&self, other: &CoverFacts) -> bool {
        self.bytes.agree_all(&other.bytes)
            && self.marks.agree(other.marks)
            && self.is_below(other.marks.end)
            && other.is_below(self.marks.end)
    }

    fn together(&self, other: &CoverFacts) -> Result<CoverFacts, NoMemory> {
        let bytes = self.bytes.together(&other.bytes)?;
        let marks = self.marks.together(other.marks);
        Ok(CoverFacts { bytes, marks })
    }
}

impl CoverFacts {
    /// Whether all places lie below this one, and the marks are at most there.
    pub(crate) fn is_short(&self, longest: u32) -> bool
        ensures { result ≡ (bytes_lie_below longest self.now.bytes
            && marks_up_to longest self.now.marks) }
    {
        self.bytes_are_below(longest) && self.marks.are_up_to(longest)
    }

    /// The place of the first byte, and the bytes, if all are in one run.
    pub(crate) fn only(&self) -> Option<(u32, &[u8])>
        ensures { MatchOption result (Unit {0})
            (λ one. self.now.bytes ≡ maps.from_entries (placed one.0 one.1.now)) }
    {
        self.bytes.only()
    }

    /// The end and the promise.
    pub(crate) fn marks(&self) -> Marks
        ensures { result ≡ self.now.marks }
    {
        self.marks
    }

    /// A copy.
    pub(crate) fn copied(&self) -> Result<CoverFacts, NoMemory>
        ensures { IfOk result (λ cover. cover ≡ self.now) }
    {
        Ok(CoverFacts {
            bytes: self.bytes.copied()?,
            marks: self.marks,
        })
    }
}
