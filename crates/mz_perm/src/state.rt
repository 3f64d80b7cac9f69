//! The list of permissions.
ghost use Rattle.std.specs.Prelude.{◌≡◌, ◌↔◌, ◌++◌, ◌∷◌, [], IsTrue, IfOk, OnErr};
ghost use Rattle.mz_tree.specs.View.{plain_atom, plain_atoms};
ghost use Rattle.mz_perm.specs.Lists.{In, Removes, Finds};
ghost use Rattle.mz_perm.specs.Occurrence.{occurs};
ghost use Rattle.mz_perm.specs.Joining.{Joined};

use crate::joining::{label, links_of};
use crate::occurrence::in_atoms;
use mz_tree::{Alike, Atom, Atoms, Memory};
use sqlite_items::Items;
use std::alloc::Global;
use std::marker::Model;

/// The permissions that are held at a place, in order, each as often as it is held.
#[derive(Drop)]
pub struct State {
    atoms: Atoms,
}

impl Model for State {
    ghost use Rattle.std.specs.Prelude.{ℕ, List};
    ghost use Rattle.mz_tree.specs.Plain.{Atom as PlainAtom};
    ghost use Rattle.mz_tree.specs.View.{plain_atoms};
    ghost use Rattle.mz_perm.specs.Coding.{state_code};

    ghost Value = { List (PlainAtom ℕ) };

    ghost coded = { state_code };

    ghost view = { λ s. plain_atoms s.atoms };
}

impl State {
    /// The state that holds nothing.
    pub fn new(alloc: Global) -> State
        ensures { result ≡ [] }
    {
        State {
            atoms: Items::new(alloc),
        }
    }

    /// Adds a permission at the end. Where memory is wanting the state stays as it is.
    pub fn add(&mut self, atom: Atom) -> Result<(), Memory>
        ensures added { IfOk result (λ _. self.new ≡ self.old ++ plain_atom atom ∷ []) }
        ensures kept { OnErr result (self.new ≡ self.old) }
    {
        self.atoms.push(atom)?;
        Ok(())
    }

    /// Takes out the first permission that equals this one, and says whether there was one; where there is none, the
    /// state stays as it is. It takes no memory.
    pub fn remove(&mut self, atom: &Atom) -> bool
        ensures { Removes result (plain_atom atom.now) self.old self.new }
    {
        match find(self.atoms.as_slice(), atom) {
            Some(at) => {
                self.atoms.remove(at);
                true
            }
            None => false,
        }
    }

    /// Whether a permission that equals this one is held. It takes no memory.
    pub fn has(&self, atom: &Atom) -> bool
        ensures { IsTrue result ↔ In (plain_atom atom.now) self.now }
    {
        match find(self.atoms.as_slice(), atom) {
            Some(_) => true,
            None => false,
        }
    }

    /// Whether the name stands anywhere in a permission that is held, inside types too. It takes no memory.
    pub fn occurs(&self, name: u32) -> bool
        ensures { result ≡ occurs name self.now }
    {
        in_atoms(self.atoms.as_slice(), name)
    }

    /// Whether equations that are held join the two names, or the refusal where memory is wanting.
    pub fn same_name(&self, alloc: Global, left: u32, right: u32) -> Result<bool, Memory>
        ensures { IfOk result (λ joined. IsTrue joined ↔ Joined self.now left right) }
    {
        let links = links_of(alloc, self.atoms.as_slice())?;
        Ok(label(links.as_slice(), left) == label(links.as_slice(), right))
    }

    /// A state that equals this one, or the refusal where memory is wanting.
    pub fn copy(&self, alloc: Global) -> Result<State, Memory>
        ensures { IfOk result (λ it. it ≡ self.now) }
    {
        Ok(State {
            atoms: self.atoms.copy(alloc)?,
        })
    }

    /// The permissions that are held, in order.
    pub fn atoms(&self) -> &[Atom]
        ensures { plain_atoms result.now ≡ self.now }
    {
        self.atoms.as_slice()
    }
}

// the first place where an equal permission stands
fn find(atoms: &[Atom], atom: &Atom) -> Option<usize>
    ensures { Finds result atom.now atoms.now }
{
    for i in 0..atoms.len() {
        if atoms[i].same(atom) {
            return Some(i);
        }
    }
    None
}
