//! The names in scope.
ghost use Rattle.std.specs.Prelude.{◌≡◌, [], ◌∷◌, ◌++◌, IfOk};
ghost use Rattle.mz_names.specs.Names.{find};

use crate::chain::Chain;
use crate::tree::Tree;
use mz_tree::Memory;
use std::alloc::Global;
use std::marker::Model;

/// Names with their numbers, the earliest first. A scope grows at its end.
#[derive(Drop)]
pub struct Scope {
    names: Chain,
    tree: Tree,
}

impl Model for Scope {
    ghost use Rattle.std.specs.Prelude.{◌≡◌, ℕ, List};
    ghost use Rattle.mz_names.specs.Names.{Names, find};
    ghost use Rattle.mz_names.specs.Chains.{names_of};
    ghost use Rattle.mz_names.specs.Trees.{found};

    ghost Value = { Names ℕ };

    ghost view = { λ s. names_of s.names };

    ghost invariant = { λ s. (name : List ℕ) → found s.tree 512 name ≡ find (names_of s.names) name };
}

impl Scope {
    /// No names.
    pub fn new() -> Scope
        ensures { result ≡ [] }
    {
        Scope {
            names: Chain::End,
            tree: Tree::Empty,
        }
    }

    /// What a name stands for. It takes no memory.
    pub fn find(&self, text: &[u8]) -> Option<u32>
        ensures { result ≡ find self.now text.now }
    {
        self.tree.find(text)
    }

    /// Adds a name at the end. Only memory may be wanting.
    pub fn push(&mut self, alloc: Global, text: &[u8], number: u32) -> Result<(), Memory>
        ensures { IfOk result (λ _. self.new ≡ self.old ++ (text.now, number) ∷ []) }
    {
        let names = self.names.with(alloc, text, number)?;
        let tree = self.tree.adding(alloc, text, number)?;
        self.names = names;
        self.tree = tree;
        Ok(())
    }

    /// The same names. Only memory may be wanting.
    pub fn copy(&self) -> Result<Scope, Memory>
        ensures { IfOk result (λ it. it ≡ self.now) }
    {
        Ok(Scope {
            names: self.names.copy()?,
            tree: self.tree.copy()?,
        })
    }
}
