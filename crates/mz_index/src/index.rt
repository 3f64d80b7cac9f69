//! The list of permissions, and what is found in it.
ghost use Rattle.std.specs.Prelude.{◌≡◌, ◌<◌, ◌≤◌, ◌↔◌, ◌++◌, ◌∷◌, [], IsTrue, IfOk, OnErr, Some, length, slice_get, take, drop, remove};
ghost use Rattle.mz_tree.specs.View.{plain_atom, plain_atoms};
ghost use Rattle.mz_perm.specs.Lists.{In, Removes, Finds};
ghost use Rattle.mz_perm.specs.Joining.{Joined};
ghost use Rattle.mz_index.specs.Questions.{plain_test, FirstFrom};

use crate::labels::{label, links_of};
use crate::test::{Test, first_from};
use mz_perm::State;
use mz_tree::{Alike, Atom, Memory};
use std::alloc::Global;
use std::marker::Model;

/// The permissions that are held at a place, in order, each as often as it is held.
#[derive(Drop)]
pub struct Indexed {
    atoms: Vec<Atom>,
}

impl Model for Indexed {
    ghost use Rattle.std.specs.Prelude.{ℕ, List};
    ghost use Rattle.mz_tree.specs.Plain.{Atom as PlainAtom};
    ghost use Rattle.mz_tree.specs.View.{plain_atoms};
    ghost use Rattle.mz_perm.specs.Coding.{state_code};

    ghost Value = { List (PlainAtom ℕ) };

    ghost coded = { state_code };

    ghost view = { λ s. plain_atoms s.atoms.items };
}

impl Indexed {
    /// The permissions of the state, in its order, or the refusal where memory is wanting.
    pub fn from_state(alloc: Global, state: State) -> Result<Indexed, Memory>
        ensures { IfOk result (λ it. it ≡ state) }
    {
        Ok(Indexed {
            atoms: copy_atoms(alloc, state.atoms())?,
        })
    }

    /// Adds a permission at the end. Where memory is wanting all stays as it is.
    pub fn add(&mut self, atom: Atom) -> Result<(), Memory>
        ensures added { IfOk result (λ _. self.new ≡ self.old ++ plain_atom atom ∷ []) }
        ensures kept { OnErr result (self.new ≡ self.old) }
    {
        match self.atoms.push(atom) {
            Ok(_) => Ok(()),
            Err(_) => Err(Memory),
        }
    }

    /// Takes out the first permission that equals this one, and says whether there was one; where there is none, all
    /// stays as it is. It takes no memory.
    pub fn remove(&mut self, atom: &Atom) -> bool
        ensures { Removes result (plain_atom atom.now) self.old self.new }
    {
        match find(self.atoms.as_slice(), atom) {
            Some(at) => {
                self.atoms.remove(at);
                true
            }
            None => false,
        }
    }

    /// Whether a permission that equals this one is held. It takes no memory.
    pub fn has(&self, atom: &Atom) -> bool
        ensures { IsTrue result ↔ In (plain_atom atom.now) self.now }
    {
        match find(self.atoms.as_slice(), atom) {
            Some(_) => true,
            None => false,
        }
    }

    /// Whether equations that are held join the two names, or the refusal where memory is wanting.
    pub fn same_name(&self, alloc: Global, left: u32, right: u32) -> Result<bool, Memory>
        ensures { IfOk result (λ joined. IsTrue joined ↔ Joined self.now left right) }
    {
        let links = links_of(alloc, self.atoms.as_slice())?;
        Ok(label(links.as_slice(), left) == label(links.as_slice(), right))
    }

    /// The least place, at or behind `from`, of a permission of a name that is joined to this one, a name being joined
    /// to itself, and at a type that passes the test. None says that there is no such place. The refusal says that
    /// memory is wanting.
    pub fn first(
        &self,
        alloc: Global,
        name: u32,
        from: usize,
        test: &Test,
    ) -> Result<Option<usize>, Memory>
        ensures { IfOk result (λ found. FirstFrom self.now name from (plain_test test.now) found) }
    {
        first_from(alloc, self.atoms.as_slice(), name, from, test)
    }

    /// How many permissions are held. It takes no memory.
    pub fn len(&self) -> usize
        ensures { result ≡ length self.now }
    {
        self.atoms.len()
    }

    /// The permission at this place, counted from 0. It takes no memory.
    pub fn at(&self, place: usize) -> &Atom
        requires { place < length self.now }
        ensures { slice_get self.now place ≡ Some (plain_atom result.now) }
    {
        &self.atoms.as_slice()[place]
    }

    /// Puts a permission at this place, in front of what stands there or at the end. Where memory is wanting all stays
    /// as it is.
    pub fn insert(&mut self, place: usize, atom: Atom) -> Result<(), Memory>
        requires { place ≤ length self.old }
        ensures inserted { IfOk result (λ _. self.new ≡ take place self.old ++ plain_atom atom ∷ drop place self.old) }
        ensures kept { OnErr result (self.new ≡ self.old) }
    {
        match self.atoms.insert(place, atom) {
            Ok(_) => Ok(()),
            Err(_) => Err(Memory),
        }
    }

    /// Takes out the permission at this place; what stands behind it moves up. It takes no memory.
    pub fn take_at(&mut self, place: usize) -> Atom
        requires { place < length self.old }
        ensures taken { slice_get self.old place ≡ Some (plain_atom result) }
        ensures rest { self.new ≡ remove self.old place }
    {
        self.atoms.remove(place)
    }

    /// The same permissions again, or the refusal where memory is wanting.
    pub fn copy(&self, alloc: Global) -> Result<Indexed, Memory>
        ensures { IfOk result (λ it. it ≡ self.now) }
    {
        Ok(Indexed {
            atoms: copy_atoms(alloc, self.atoms.as_slice())?,
        })
    }
}

// the first place where an equal permission stands
fn find(atoms: &[Atom], atom: &Atom) -> Option<usize>
    ensures { Finds result atom.now atoms.now }
{
    for i in 0..atoms.len() {
        if atoms[i].same(atom) {
            return Some(i);
        }
    }
    None
}

// a list of equal permissions
fn copy_atoms(alloc: Global, atoms: &[Atom]) -> Result<Vec<Atom>, Memory>
    ensures { IfOk result (λ it. it.items ≡ atoms.now) }
{
    let mut all = Vec::new(alloc);
    for i in 0..atoms.len() {
        let atom = atoms[i].copy(alloc)?;
        match all.push(atom) {
            Ok(_) => {}
            Err(_) => return Err(Memory),
        }
    }
    Ok(all)
}
