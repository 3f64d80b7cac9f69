//! The names with which a body begins, and what its end owes.
ghost use Rattle.std.specs.Prelude.{◌≡◌, ◌++◌, ◌∷◌, [], IfOk, map};
ghost use Rattle.mz_tree.specs.View.{plain_atoms, plain_sig, plain_need};
ghost use Rattle.mz_decl.specs.Contents.{names_from};
ghost use Rattle.mz_decl.specs.Signatures.{kept, owed};

use mz_modes::at_args;
use mz_tree::{Alike, Atoms, Memory, Names, Need, Sig};
use sqlite_items::Items;
use std::alloc::Global;

/// So many parameters: the names 0, 1 and so on.
pub fn parameters(alloc: Global, count: u32) -> Result<Names, Memory>
    ensures { IfOk result (λ it. it ≡ names_from 0 count) }
{
    let mut names = Items::new(alloc);
    for name in 0..count {
        names.push(name)?;
    }
    Ok(names)
}

/// The permissions that a body of the signature owes at its end, where its value has this name.
pub fn owed(alloc: Global, sig: &Sig, value: u32) -> Result<Atoms, Memory>
    ensures { IfOk result (λ it. plain_atoms it ≡ owed (plain_sig sig.now) value) }
{
    let mut names = parameters(alloc, sig.count)?;
    names.push(value)?;
    let mut atoms = kept(alloc, sig.needs.as_slice())?;
    atoms.append(at_args(alloc, &names, sig.gives.as_slice())?)?;
    Ok(atoms)
}

// the needs that aren't consumed
fn kept(alloc: Global, needs: &[Need]) -> Result<Atoms, Memory>
    ensures { IfOk result (λ it. plain_atoms it ≡ kept (map plain_need needs.now)) }
{
    let mut atoms = Items::new(alloc);
    for i in 0..needs.len() {
        if !needs[i].consumed {
            atoms.push(needs[i].atom.copy(alloc)?)?;
        }
    }
    Ok(atoms)
}
