//! Which names are known outside of the branches of a command.
ghost use Rattle.std.specs.Prelude.{◌≡◌, ◌==◌, ◌||◌, ◌&&◌, nat_le, ℕ, List};
ghost use Rattle.std.specs.List.{list_any, list_all};
ghost use Rattle.mz_tree.specs.View.{plain_ty, plain_atom, plain_atoms};
ghost use Rattle.mz_deriv.specs.Outer.{is_outer, all_in_type, all_in_atom, all_in};

use mz_perm::State;
use mz_tree::{Atom, Names, Ty};

/// Whether each name in the permissions is known outside of the branches: it is `to`, which the command itself binds, it
/// is bound, or it was made by a view step and occurs in the state before the command.
#[cycle(outer)]
pub fn names_outer(atoms: &[Atom], bound: &Names, state: &State, to: u32) -> bool
    ensures { result ≡ all_in (is_outer bound.now state.now to) (plain_atoms atoms.now) }
{
    for i in 0..atoms.len() {
        if !atom_outer(&atoms[i], bound, state, to) {
            return false;
        }
    }
    true
}

#[cycle(outer)]
fn atom_outer(atom: &Atom, bound: &Names, state: &State, to: u32) -> bool
    ensures { result ≡ all_in_atom (is_outer bound.now state.now to) (plain_atom atom.now) }
{
    match atom {
        Atom::Has { name, ty } => {
            is_outer(*name, bound, state, to) && type_outer(ty, bound, state, to)
        }
        Atom::Same { left, right } => {
            is_outer(*left, bound, state, to) && is_outer(*right, bound, state, to)
        }
    }
}

#[cycle(outer)]
fn type_outer(ty: &Ty, bound: &Names, state: &State, to: u32) -> bool
    ensures { result ≡ all_in_type (is_outer bound.now state.now to) (plain_ty ty.now) }
{
    match ty {
        Ty::Block { fields, .. } => are_outer(fields.as_slice(), bound, state, to),
        Ty::Lock(atoms) => names_outer(atoms.as_slice(), bound, state, to),
        _ => true,
    }
}

fn are_outer(names: &[u32], bound: &Names, state: &State, to: u32) -> bool
    ensures { result ≡ list_all (is_outer bound.now state.now to) names.now }
{
    for i in 0..names.len() {
        let name = &names[i];
        if !is_outer(*name, bound, state, to) {
            return false;
        }
    }
    true
}

fn is_outer(name: u32, bound: &Names, state: &State, to: u32) -> bool
    ensures { result ≡ is_outer bound.now state.now to name }
{
    if name == to {
        return true;
    }
    if is_among(bound.as_slice(), name) {
        return true;
    }
    name >= 256 && state.occurs(name)
}

fn is_among(names: &[u32], name: u32) -> bool
    ensures { result ≡ list_any (λ m. m == name) names.now }
{
    names.iter().any(|m| *m == name)
}
