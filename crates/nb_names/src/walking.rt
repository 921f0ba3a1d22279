//! Names, judged where they stand in a packet: the one walk along their labels.
ghost use Rattle.std.specs.Prelude.{◌≡◌, ◌<◌, ◌≤◌, ℕ, List, [], length, IfOk, IfErr, IsOkAnd, ◌∷◌, ◌++◌, ⊤};
ghost use Rattle.nb_names.specs.Code.Kept.{AreEnds};
ghost use Rattle.nb_names.specs.Labels.{NameAt};
ghost use Rattle.nb_names.specs.NameFaults.{FaultAt};
ghost use Rattle.nb_names.specs.Skipped.{IsSkipped};
ghost use Rattle.nb_names.specs.DomainName.{spelling, IsLabel};
ghost use Rattle.nb_names.specs.declared.limits.TheConstants.{MAX_SPELLING};

use crate::domain_name::DomainName;
use crate::fault::NameFault;
use crate::length_byte::{LengthByte, end_from, length_byte_at};
use crate::limits::MAX_SPELLING;
use crate::reading::{Pointers, Skipped};

/// Where the domain name stands that is at an offset of a packet, of whose chains of pointers ends
/// are known. Its labels are taken on the way.
#[inline(always)]
pub(crate) fn walk<T: Takes>(
    packet: &[u8],
    ends: &[u16],
    at: usize,
    pointers: Pointers,
    taken: &mut T,
) -> Result<Skipped, NameFault>
    requires ends { AreEnds packet.now ends.now }
    requires none { T.has taken.old [] }
    ensures found { IfOk result (λ seen. (labels : List (List ℕ))
        × IsSkipped packet.now pointers at labels seen × T.has taken.new labels) }
    ensures only { (labels : List (List ℕ)) (next : ℕ) → NameAt packet.now pointers at labels next →
        IsOkAnd result (λ seen. IsSkipped packet.now pointers at labels seen × (seen.next ≡ next)
        × T.has taken.new labels) }
    ensures within { IfOk result (λ seen.
        (at < seen.next) × (seen.next ≤ length packet.now)) }
    ensures fault { IfErr result (FaultAt packet.now pointers at) }
{
    let mut spelled = 1;
    let mut start = at;
    let mut here = at;
    let mut next = None;
    'way: loop {
        match length_byte_at(packet, here) {
            LengthByte::Cut => return Err(NameFault::Truncated(at.max(packet.len()))),
            LengthByte::Reserved => return Err(NameFault::ReservedLabel(here)),
            LengthByte::End => {
                return Ok(Skipped {
                    next: next.unwrap_or(here + 1),
                    spelled_len: spelled,
                    stretch: start,
                    stretch_end: here + 1,
                });
            }
            LengthByte::Label(size) => {
                spelled += size + 1;
                if spelled > MAX_SPELLING {
                    return Err(NameFault::TooLong(here));
                }
                taken.take(&packet[here + 1..here + 1 + size]);
                here = here + 1 + size;
            }
            LengthByte::Pointer(target) => {
                match pointers {
                    Pointers::Refused => return Err(NameFault::PointerNotAllowed(here)),
                    Pointers::Followed => {}
                }
                if target >= start {
                    return Err(NameFault::BadPointer(here));
                }
                next = Some(next.unwrap_or(here + 2));
                start = end_from(ends, target);
                here = start;
            }
        }
    }
}

/// What takes the labels of a name, one after the other.
pub(crate) trait Takes {
    /// Whether it has taken these labels, since it had none.
    ghost has: { Self → List (List ℕ) → Type 0 };

    /// Takes a label more, after which the labels are still a domain name's.
    fn take(&mut self, label: &[u8])
        requires { (labels : List (List ℕ)) × has self.old labels × IsLabel label.now
            × (length (spelling (labels ++ label.now ∷ [])) ≤ MAX_SPELLING) }
        ensures { (labels : List (List ℕ)) → has self.old labels →
            has self.new (labels ++ label.now ∷ []) };
}

/// Takes nothing: the name is judged, and not made.
#[derive(Drop)]
pub(crate) struct Passed;

impl Takes for Passed {
    ghost has = { λ _ _. ⊤ };

    #[inline(always)]
    fn take(&mut self, _label: &[u8]) {}
}

impl Takes for DomainName {
    ghost has = { λ name labels. name ≡ labels };

    #[inline(always)]
    fn take(&mut self, label: &[u8]) {
        self.push(label).unwrap();
    }
}
