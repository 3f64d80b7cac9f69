//! What a call asks of its callee, and what it needs, gives back and gives.
ghost use Rattle.std.specs.Prelude.{IfOk, ◌≡◌, map, option_copied};
ghost use Rattle.mz_tree.specs.View.{plain_atom, plain_atoms, plain_need};
ghost use Rattle.mz_tree.specs.Saying.{Says};
ghost use Rattle.mz_decl.specs.Declarations.{Decls as PlainDecls};
ghost use Rattle.mz_decl.specs.Signatures.{at_args, needed};
ghost use Rattle.mz_decl.specs.View.{plain_decls};
ghost use Rattle.mz_modes.specs.Modes.{AreModes};
ghost use Rattle.mz_modes.specs.Calling.{GivesBack, Returns};
ghost use Rattle.mz_modes.specs.Answers.{FoundCallee};

use crate::Modes;
use mz_decl::Decls;
use mz_perm::{State, substitute};
use mz_tree::{Alike, Atom, Atoms, Memory, Names, Need, Needs, Sig, Ty};
use sqlite_items::Items;
use std::alloc::Global;

/// The signature of the callee, where the permission that is used is held and says that `name` is a function of a
/// signature with `count` parameters. It takes no memory.
pub fn callee_sig<'a>(
    decls: &'a Decls,
    state: &State,
    name: u32,
    count: usize,
    uses: &Atom,
) -> Option<&'a Sig>
    ensures { FoundCallee (plain_decls decls.now) state.now name count (plain_atom uses.now) (option_copied result) }
{
    match uses {
        Atom::Same { .. } => None,
        Atom::Has { name: subject, ty } => match ty {
            Ty::Function(number) => {
                if *subject != name || !state.has(uses) {
                    return None;
                }
                match decls.sig_at(*number) {
                    None => None,
                    Some(sig) => {
                        if sig.count as usize == count {
                            return Some(sig);
                        }
                        None
                    }
                }
            }
            _ => None,
        },
    }
}

/// The permissions of the needs, in order, or the refusal where memory is wanting.
pub fn needed(alloc: Global, needs: &Needs) -> Result<Atoms, Memory>
    ensures { IfOk result (λ it. plain_atoms it ≡ needed (map plain_need needs.now)) }
{
    let all = needs.as_slice();
    let mut atoms = Items::new(alloc);
    for i in 0..all.len() {
        atoms.push(all[i].atom.copy(alloc)?)?;
    }
    Ok(atoms)
}

/// The permissions of the needs that a call gives back, in order: those that aren't consumed and are affine. It refuses
/// where memory is wanting.
pub fn gives_back(alloc: Global, modes: &Modes, needs: &Needs) -> Result<Atoms, Memory>
    ensures { (D : PlainDecls) → AreModes D modes.now → IfOk result (λ it. GivesBack D (map plain_need needs.now) (plain_atoms it)) }
{
    let all = needs.as_slice();
    let mut back = Items::new(alloc);
    for i in 0..all.len() {
        let need = &all[i];
        if is_given_back(modes, need) {
            back.push(need.atom.copy(alloc)?)?;
        }
    }
    Ok(back)
}

// whether a call gives the need back
fn is_given_back(modes: &Modes, need: &Need) -> bool
    ensures { (D : PlainDecls) → AreModes D modes.now → Says result (Returns D (plain_need need.now)) }
{
    if need.consumed {
        return false;
    }
    if modes.duplicable(&need.atom) {
        return false;
    }
    true
}

/// The permissions of a signature, in order, with these names for its parameters and, where there is one more, for its
/// result. It refuses where memory is wanting.
pub fn at_args(alloc: Global, names: &Names, atoms: &[Atom]) -> Result<Atoms, Memory>
    ensures { IfOk result (λ it. plain_atoms it ≡ at_args names.now (plain_atoms atoms.now)) }
{
    let mut renamed = Items::new(alloc);
    for i in 0..atoms.len() {
        renamed.push(substitute(alloc, &atoms[i], names)?)?;
    }
    Ok(renamed)
}
