//! Values that join.
ghost use Rattle.std.specs.Prelude.{◌≡◌, map, take, slice_get, Some, OnOk, OnErr, IfErr};
ghost use Rattle.nb_table.specs.Join.{joined_all, AreTaken};
ghost use Rattle.nb_table.specs.declared.fault.TableFault.{TableFault};
ghost use Rattle.nb_entries.specs.declared.slot.Slot.{Slot as SlotOf};
ghost use Rattle.nb_entries.specs.Maps.{OnHeld, join_slot};
ghost use Rattle.nb_entries.specs.Shared.SlotLemmas.{join-comm, join-assoc, idem_formed};
ghost use Rattle.nb_table.specs.declared.fault.TableFault.TheVariants.{NoMemory};

use crate::fault::TableFault;
use nb_entries::{Facts, Slot};

/// Values of which two have a join: what both say together.
///
/// The laws speak of what a value stands for, its content, and of equality alone: no order, no
/// repeat and no grouping of joins makes a difference to the content. What a value keeps beside
/// its content, as a table its limits, stays its own, whatever is joined into it.
pub trait Join {
    // What joins speak of.
    ghost Content: { Type 0 };

    ghost content: { Self → Content };

    // What a value keeps beside its content.
    ghost Beside: { Type 0 };

    ghost beside: { Self → Beside };

    // The content of a join, and what each content is known to be.
    ghost joined: { Content → Content → Content };

    ghost IsFormed: { Content → Type 0 };

    // When a value with this beside its first content takes in the second, and why it doesn't.
    ghost Takes: { Beside → Content → Content → Type 0 };

    ghost Refuses: { Beside → Content → Content → TableFault → Type 0 };

    /// Joins the other into this one.
    ///
    /// # Errors
    ///
    /// Why it can't be; this one is then as it was.
    fn join(&mut self, other: &Self) -> Result<(), TableFault>
        ensures joined { OnOk result
            (content self.new ≡ joined (content self.old) (content other.now)) }
        ensures taken { OnOk result
            (Takes (beside self.old) (content self.old) (content other.now)) }
        ensures formed { IsFormed (content self.new) }
        ensures beside { beside self.new ≡ beside self.old }
        ensures fault { IfErr result
            (Refuses (beside self.old) (content self.old) (content other.now)) }
        ensures err { OnErr result (self.new ≡ self.old) };

    ghost commutative: { (a b : Content) → joined a b ≡ joined b a };

    ghost associative: { (a b c : Content) → joined (joined a b) c ≡ joined a (joined b c) };

    ghost idempotent: { (a : Content) → IsFormed a → joined a a ≡ a };
}

/// Joins the others into the first, one after the other.
///
/// # Errors
///
/// The index of the first one that can't be joined, and why; `first` then holds the join of those
/// before it.
pub fn join_all<J: Join>(first: &mut J, others: &[J]) -> Result<(), (usize, TableFault)>
    ensures joined { OnOk result (J.content first.new
        ≡ joined_all J.joined (J.content first.old) (map J.content others.now)) }
    ensures taken { OnOk result (AreTaken J.joined (J.Takes (J.beside first.old))
        (J.content first.old) (map J.content others.now)) }
    ensures beside { J.beside first.new ≡ J.beside first.old }
    ensures fault { IfErr result (λ fault. (other : J)
        × (slice_get others.now fault.0 ≡ Some other)
        × J.Refuses (J.beside first.old)
        (joined_all J.joined (J.content first.old) (map J.content (take fault.0 others.now)))
        (J.content other) fault.1) }
    ensures before { IfErr result (λ fault. AreTaken J.joined (J.Takes (J.beside first.old))
        (J.content first.old) (map J.content (take fault.0 others.now))) }
    ensures err { IfErr result (λ fault. J.content first.new
        ≡ joined_all J.joined (J.content first.old) (map J.content (take fault.0 others.now))) }
{
    for (index, other) in others.iter().enumerate() {
        if let Err(fault) = first.join(other) {
            return Err((index, fault));
        }
    }
    Ok(())
}

impl<F: Facts> Join for Slot<F> {
    ghost Content = { SlotOf F };

    ghost content = { λ slot. slot };

    ghost Beside = { Unit {0} };

    ghost beside = { λ _. tt };

    ghost joined = { join_slot F.agrees F.union };

    ghost IsFormed = { OnHeld F.AreFormed };

    ghost Takes = { λ _ _ _. Unit {0} };

    ghost Refuses = { λ _ _ _ fault. fault ≡ NoMemory };

    ghost commutative = { join-comm F.unites };

    ghost associative = { join-assoc F.unites };

    ghost idempotent = { idem_formed F.unites F.formed_agree };

    fn join(&mut self, other: &Slot<F>) -> Result<(), TableFault> {
        *self = self.joined(other)?;
        Ok(())
    }
}
