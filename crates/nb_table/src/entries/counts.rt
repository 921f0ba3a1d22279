//! How many keys of each address a table holds, kept beside its entries.
ghost use Rattle.std.specs.Prelude.{◌≡◌, ◌<◌, ◌+◌, ◌-◌, ℕ, List, OnOk, OnErr};
ghost use Rattle.std.specs.FinMap as maps;
ghost use Rattle.nb_table.specs.Code.SourceCounts.{count_of, if_same, Counts, HasNoZero, counts_code, ip_cmp};

use nb_streams::NoMemory;
use std::alloc::Global;
use std::collections::BTreeMap;
use std::marker::Model;

/// How many keys of each address a table holds. An address without keys has no count.
#[derive(Drop)]
pub(crate) struct SourceCounts {
    counts: BTreeMap<[u8; 4], u64>,
}

impl Model for SourceCounts {
    ghost Value = { Counts };

    ghost coded = { counts_code };

    ghost view = { λ s. maps.from_entries {R = ip_cmp} s.counts.entries };

    ghost invariant = { λ s. HasNoZero (maps.from_entries {R = ip_cmp} s.counts.entries) };
}

impl SourceCounts {
    /// Of no key. No memory is taken.
    pub(crate) fn new(alloc: Global) -> SourceCounts
        ensures { result ≡ maps.empty }
    {
        SourceCounts {
            counts: BTreeMap::new(alloc),
        }
    }

    /// How many keys have this address.
    pub(crate) fn of(&self, ip: [u8; 4]) -> u64
        ensures { result ≡ count_of self.now ip }
    {
        match self.counts.get(&ip) {
            Some(count) => *count,
            None => 0,
        }
    }

    /// Counts one key more of this address.
    pub(crate) fn add_key(&mut self, ip: [u8; 4]) -> Result<(), NoMemory>
        requires { count_of self.old ip < 9223372036854775808 }
        ensures counted { OnOk result ((q : List ℕ) → count_of self.new q
            ≡ count_of self.old q + if_same ip q) }
        ensures kept { OnErr result (self.new ≡ self.old) }
    {
        match self.counts.get_mut(&ip) {
            Some(count) => {
                *count += 1;
                Ok(())
            }
            None => {
                self.counts.insert(ip, 1)?;
                Ok(())
            }
        }
    }

    /// Counts one key less of this address. No memory is taken.
    pub(crate) fn remove_key(&mut self, ip: [u8; 4])
        ensures { (q : List ℕ) → count_of self.new q ≡ count_of self.old q - if_same ip q }
    {
        let count = self.of(ip);
        if count > 1 {
            if let Some(kept) = self.counts.get_mut(&ip) {
                *kept = count - 1;
            }
        } else {
            self.counts.remove(&ip);
        }
    }
}
