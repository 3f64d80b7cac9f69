//! Names with what they stand for, of which the first declared counts.
ghost use Rattle.std.specs.Prelude.{◌≡◌, List, ℕ, IfOk, option_copied};
ghost use Rattle.mz_scope.specs.NameMaps.{found, Adds, Sets, IsEmptyMap};

use mz_tree::Memory;
use std::alloc::Global;
use std::collections::BTreeMap;

/// What each name stands for.
#[derive(Drop)]
pub(crate) struct NameMap<A: Copy + Drop> {
    first: BTreeMap<Vec<u8>, A>,
}

impl<A: Copy + Drop> NameMap<A> {
    /// No names.
    pub(crate) fn new(alloc: Global) -> NameMap<A>
        ensures { IsEmptyMap result.first }
    {
        NameMap {
            first: BTreeMap::new(alloc),
        }
    }

    /// What a name stands for.
    pub(crate) fn get(&self, name: &[u8]) -> Option<A>
        ensures { result ≡ found self.now.first name.now }
    {
        self.first.get(name).copied()
    }

    /// One more name, which stands for this where it didn't stand for anything before.
    pub(crate) fn add(&mut self, alloc: Global, name: &[u8], value: A) -> Result<(), Memory>
        ensures { IfOk result (λ _. Adds self.old.first name.now value self.new.first) }
    {
        if self.get(name).is_some() {
            return Ok(());
        }
        let key = Vec::from_slice(alloc, name)?;
        let Ok(_) = self.first.insert(key, value) else {
            return Err(Memory);
        };
        Ok(())
    }

    /// A name stands for this from now on.
    pub(crate) fn set(&mut self, alloc: Global, name: &[u8], value: A) -> Result<(), Memory>
        ensures { IfOk result (λ _. Sets self.old.first name.now value self.new.first) }
    {
        let key = Vec::from_slice(alloc, name)?;
        let Ok(_) = self.first.insert(key, value) else {
            return Err(Memory);
        };
        Ok(())
    }
}
