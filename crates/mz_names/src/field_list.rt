//! Fields with their numbers, in order and looked up by name: those of a constructor, and fields as they are written.
ghost use Rattle.std.specs.Prelude.{◌≡◌, ◌++◌, ◌∷◌, ◌<◌, [], length, slice_get, Some, IfOk};
ghost use Rattle.mz_names.specs.Names.{find};
ghost use Rattle.mz_names.specs.Fields.{names_in, numbers_in, is_among, are_apart};

use crate::Scope;
use mz_tree::{Memory, Text};
use sqlite_items::Items;
use std::alloc::Global;
use std::marker::Model;

/// A field's name with its number.
#[derive(Drop)]
struct NumberedField {
    text: Text,
    number: u32,
}

/// Fields with their numbers, the earliest first. A look-up takes the time that a name takes; whether a name stands twice
/// is kept.
#[derive(Drop)]
pub struct FieldList {
    fields: Items<NumberedField>,
    scope: Scope,
    apart: bool,
}

impl Model for FieldList {
    ghost use Rattle.std.specs.Prelude.{◌≡◌, ℕ};
    ghost use Rattle.mz_names.specs.Names.{Names};
    ghost use Rattle.mz_names.specs.Fields.{names_in, are_apart};

    ghost Value = { Names ℕ };

    ghost use Rattle.mz_names.specs.NumberedFields.{fields_in};

    ghost view = { λ f. fields_in f.fields };

    ghost invariant = { λ f. (f.scope ≡ fields_in f.fields) × (f.apart ≡ are_apart (names_in f.scope)) };
}

impl FieldList {
    /// No fields.
    pub fn new(alloc: Global) -> FieldList
        ensures { result ≡ [] }
    {
        FieldList {
            fields: Items::new(alloc),
            scope: Scope::new(),
            apart: true,
        }
    }

    /// The number of a field; the first of two counts. It takes no memory.
    pub fn find(&self, text: &[u8]) -> Option<u32>
        ensures { result ≡ find self.now text.now }
    {
        self.scope.find(text)
    }

    /// Adds a field at the end. Only memory may be wanting.
    #[tactic(auto, using(crate::proofs::FieldLists::apart_more, crate::proofs::FieldLists::one_more))]
    pub fn push(&mut self, alloc: Global, text: &[u8], number: u32) -> Result<(), Memory>
        ensures { IfOk result (λ _. self.new ≡ self.old ++ (text.now, number) ∷ []) }
    {
        let field = NumberedField {
            text: Items::from_slice(alloc, text)?,
            number,
        };
        let apart = self.apart && self.scope.find(text).is_none();
        let mut scope = self.scope.copy()?;
        scope.push(alloc, text, number)?;
        self.fields.push(field)?;
        self.scope = scope;
        self.apart = apart;
        Ok(())
    }

    /// Whether there is a field of this name. It takes no memory.
    #[tactic(auto, using(crate::proofs::FieldLists::is_found))]
    pub fn has(&self, text: &[u8]) -> bool
        ensures { result ≡ is_among (names_in self.now) text.now }
    {
        self.scope.find(text).is_some()
    }

    /// Whether no name stands twice.
    pub fn are_apart(&self) -> bool
        ensures { result ≡ are_apart (names_in self.now) }
    {
        self.apart
    }

    /// How many fields there are.
    pub fn len(&self) -> usize
        ensures { result ≡ length self.now }
    {
        self.fields.len()
    }

    /// The name at a place.
    pub fn text_at(&self, i: usize) -> &[u8]
        requires { i < length self.now }
        ensures { slice_get (names_in self.now) i ≡ Some result.now }
    {
        self.fields.as_slice()[i].text.as_slice()
    }

    /// The number of the field at a place.
    pub fn number_at(&self, i: usize) -> u32
        requires { i < length self.now }
        ensures { slice_get (numbers_in self.now) i ≡ Some result }
    {
        self.fields.as_slice()[i].number
    }
}
