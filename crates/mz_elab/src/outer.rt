//! Permissions and types whose names are all known: bound, or made and below the next one.
//!
//! Where the next one is 0 no made name is known, so that the names in the list alone are.
ghost use Rattle.std.specs.Prelude.{◌≡◌, ◌&&◌};
ghost use Rattle.std.specs.List.{list_any, list_all};
ghost use Rattle.mz_tree.specs.View.{plain_ty, plain_atom, plain_atoms};
ghost use Rattle.mz_deriv.specs.Outer.{all_in_type, all_in_atom, all_in};
ghost use Rattle.mz_elab.specs.Sought.{among, known};

use mz_tree::{Atom, Ty};

#[cycle(outer)]
fn all_name(atoms: &[Atom], names: &[u32], next: u32) -> bool
    ensures { result ≡ all_in (known names.now next) (plain_atoms atoms.now) }
{
    for i in 0..atoms.len() {
        if !atom_names(&atoms[i], names, next) {
            return false;
        }
    }
    true
}

// whether all names of the permission are known
#[cycle(outer)]
pub(crate) fn atom_names(atom: &Atom, names: &[u32], next: u32) -> bool
    ensures { result ≡ all_in_atom (known names.now next) (plain_atom atom.now) }
{
    match atom {
        Atom::Has { name, ty } => is_known(names, next, *name) && type_names(ty, names, next),
        Atom::Same { left, right } => is_known(names, next, *left) && is_known(names, next, *right),
    }
}

// whether all names of the type are
#[cycle(outer)]
pub(crate) fn type_names(ty: &Ty, names: &[u32], next: u32) -> bool
    ensures { result ≡ all_in_type (known names.now next) (plain_ty ty.now) }
{
    match ty {
        Ty::Block { fields, .. } => are_known(fields.as_slice(), names, next),
        Ty::Lock(atoms) => all_name(atoms.as_slice(), names, next),
        _ => true,
    }
}

fn are_known(fields: &[u32], names: &[u32], next: u32) -> bool
    ensures { result ≡ list_all (known names.now next) fields.now }
{
    for i in 0..fields.len() {
        let field = &fields[i];
        if !is_known(names, next, *field) {
            return false;
        }
    }
    true
}

// whether the name is known
fn is_known(names: &[u32], next: u32, name: u32) -> bool
    ensures { result ≡ known names.now next name }
{
    if is_among(names, name) {
        return true;
    }
    name >= 256 && name < next
}

fn is_among(names: &[u32], name: u32) -> bool
    ensures { result ≡ among names.now name }
{
    names.iter().any(|m| *m == name)
}
