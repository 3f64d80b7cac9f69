//! What a permission says of a lock.
ghost use Rattle.std.specs.Prelude.{option_map, option_copied};
ghost use Rattle.mz_tree.specs.View.{plain_ty, plain_atom, plain_atoms};
ghost use Rattle.mz_lockrule.specs.Guards.{TypeGuardsOf, GuardsOf};

use mz_tree::{Atom, Atoms, Ty};

/// What the lock guards by this permission; none where the permission says of no such lock. It takes no memory.
pub fn guarded_by(lock: u32, atom: &Atom) -> Option<&Atoms>
    ensures { GuardsOf lock (plain_atom atom.now) (option_map plain_atoms (option_copied result)) }
{
    match atom {
        Atom::Same { .. } => None,
        Atom::Has { name, ty } => {
            if *name == lock {
                return guarded_at(ty);
            }
            None
        }
    }
}

// the same of a type
fn guarded_at(ty: &Ty) -> Option<&Atoms>
    ensures { TypeGuardsOf (plain_ty ty.now) (option_map plain_atoms (option_copied result)) }
{
    match ty {
        Ty::Lock(guarded) => Some(guarded),
        _ => None,
    }
}
