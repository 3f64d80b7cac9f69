//! Where a name occurs.
ghost use Rattle.std.specs.Prelude.{◌≡◌, ◌==◌};
ghost use Rattle.std.specs.List.{list_any};
ghost use Rattle.mz_tree.specs.View.{plain_ty, plain_atom, plain_atoms};
ghost use Rattle.mz_perm.specs.Occurrence.{in_type, in_atom, occurs};

use mz_tree::{Atom, Ty};

// whether the name stands in one of the permissions
#[cycle(occurrence)]
pub(crate) fn in_atoms(atoms: &[Atom], name: u32) -> bool
    ensures { result ≡ occurs name (plain_atoms atoms.now) }
{
    for i in 0..atoms.len() {
        if in_atom(&atoms[i], name) {
            return true;
        }
    }
    false
}

#[cycle(occurrence)]
fn in_atom(atom: &Atom, name: u32) -> bool
    ensures { result ≡ in_atom name (plain_atom atom.now) }
{
    match atom {
        Atom::Has { name: subject, ty } => *subject == name || in_type(ty, name),
        Atom::Same { left, right } => *left == name || *right == name,
    }
}

#[cycle(occurrence)]
fn in_type(ty: &Ty, name: u32) -> bool
    ensures { result ≡ in_type name (plain_ty ty.now) }
{
    match ty {
        Ty::Block { fields, .. } => in_names(fields.as_slice(), name),
        Ty::Lock(atoms) => in_atoms(atoms.as_slice(), name),
        _ => false,
    }
}

fn in_names(names: &[u32], name: u32) -> bool
    ensures { result ≡ list_any (λ n. n == name) names.now }
{
    names.iter().any(|n| *n == name)
}
