//! NetBIOS names that are kept.
ghost use Rattle.std.specs.Prelude.{◌≡◌, IfOk};
ghost use Rattle.nb_names.specs.Code.Kept.{KeepsScope, labels_of, IsKept};
ghost use Rattle.nb_names.specs.Name.{IsByteName, NetbiosName, name_code};

use crate::lent_name::{LentName, NameForm};
use crate::limits::NAME_LENGTH;
use nb_streams::NoMemory;
use std::alloc::Global;
use std::marker::Model;

/// A NetBIOS name that is kept for long: its scope lies in memory of its own, and takes none where
/// it has no label.
///
/// RFC 1001 section 14.1.
#[derive(Drop)]
pub struct KeptName {
    bytes: [u8; NAME_LENGTH],
    /// The spelling of the scope, or nothing where it has no label.
    scope: Vec<u8>,
}

impl Model for KeptName {
    ghost Value = { NetbiosName };

    ghost coded = { name_code };

    ghost view = { λ name. record { bytes = name.bytes; scope = labels_of name.scope.items } };

    ghost invariant = { λ name. IsKept name.bytes name.scope.items };
}

/// The spelling of the scope without labels.
const NO_LABEL: &[u8] = b"\0";

/// What a scope is kept as that is spelled so.
fn kept_scope(alloc: Global, spelled: &[u8]) -> Result<Vec<u8>, NoMemory>
    ensures { IfOk result (λ scope. KeepsScope spelled.now scope.items) }
{
    if spelled.len() == NO_LABEL.len() {
        return Ok(Vec::new(alloc));
    }
    Ok(Vec::from_slice(alloc, spelled)?)
}

impl KeptName {
    /// A copy of a name. Memory is taken for its scope, if that has a label.
    ///
    /// # Errors
    ///
    /// [`NoMemory`] where memory ran out.
    pub fn copy(alloc: Global, name: &LentName<'_>) -> Result<KeptName, NoMemory>
        ensures { IfOk result (λ kept. kept ≡ name.now) }
    {
        let scope = kept_scope(alloc, name.scope_spelling())?;
        Ok(KeptName {
            bytes: *name.bytes(),
            scope,
        })
    }

    /// The name. No memory is taken.
    pub fn lent(&self) -> LentName<'_>
        ensures value { result ≡ self.now }
        ensures name { IsByteName result }
    {
        NameForm::lent(self)
    }
}

impl NameForm for KeptName {
    ghost name = { λ n. n };

    fn bytes(&self) -> &[u8; NAME_LENGTH] {
        &self.bytes
    }

    fn scope_spelling(&self) -> &[u8] {
        if self.scope.is_empty() {
            return NO_LABEL;
        }
        self.scope.as_slice()
    }
}
