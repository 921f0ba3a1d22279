//! Slots: what facts come to that may contradict each other. Covers and entries are two of them.
ghost use Rattle.std.specs.Prelude.{◌≡◌, Bool, true, IfOk, OnErr};
ghost use Rattle.nb_entries.specs.Shared.SlotLemmas.{Unites};
ghost use Rattle.nb_entries.specs.Maps.{OnHeld, join_slot};
ghost use Rattle.nb_entries.specs.Equal.{same_slot};
ghost use Rattle.nb_entries.specs.Shared.EqualLemmas.{slot_per, slot_equiv};

use nb_streams::NoMemory;

/// Facts that may contradict each other, and are united where they don't: those of a cover, and
/// those of an entry.
pub trait Facts: Drop {
    // Whether two don't contradict each other.
    ghost agrees: { Self → Self → Bool };

    // What two that don't say together.
    ghost union: { Self → Self → Self };

    // What is known of each.
    ghost AreFormed: { Self → Type 0 };

    /// Whether the two don't contradict each other.
    fn agree(&self, other: &Self) -> bool
        ensures value { result ≡ agrees self.now other.now }
        ensures formed { AreFormed self.now };

    /// What two that don't contradict each other say together.
    ///
    /// # Errors
    ///
    /// `NoMemory` where memory ran out.
    fn together(&self, other: &Self) -> Result<Self, NoMemory>
        requires { agrees self.now other.now ≡ true }
        ensures value { IfOk result (λ facts. facts ≡ union self.now other.now) }
        ensures formed { IfOk result AreFormed };

    ghost unites: { Unites agrees union };

    ghost formed_agree: { (a : Self) → AreFormed a → agrees a a ≡ true };
}

/// What facts come to that may contradict each other.
#[derive(Drop)]
pub enum Slot<F> {
    /// Spoilt, by facts that contradict each other.
    Spoilt,
    /// What all of them say together.
    Held(F),
}

impl<F: PartialEq> PartialEq for Slot<F> {
    ghost eq = { same_slot F.eq };

    ghost laws = { slot_per F.laws };

    fn eq(&self, other: &Self) -> bool {
        match (self, other) {
            (Slot::Held(facts), Slot::Held(others)) => facts == others,
            (Slot::Spoilt, Slot::Spoilt) => true,
            _ => false,
        }
    }
}

impl<F: Eq> Eq for Slot<F> {
    ghost laws = { slot_equiv F.Eq.laws };
}

impl<F: Facts> Slot<F> {
    /// What the two come to: spoilt where one is, or their facts contradict each other; else what
    /// the facts of both say.
    ///
    /// # Errors
    ///
    /// `NoMemory` where memory ran out.
    pub fn joined(&self, other: &Slot<F>) -> Result<Slot<F>, NoMemory>
        ensures value { IfOk result (λ slot.
            slot ≡ join_slot F.agrees F.union self.now other.now) }
        ensures formed { IfOk result (OnHeld F.AreFormed) }
        ensures own { OnErr result (OnHeld F.AreFormed self.now) }
    {
        match (self, other) {
            (Slot::Held(facts), Slot::Held(others)) if facts.agree(others) => {
                Ok(Slot::Held(facts.together(others)?))
            }
            _ => Ok(Slot::Spoilt),
        }
    }
}
