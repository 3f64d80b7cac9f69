//! The look-ups of what is declared at the top level: by name, in the tables, without memory.
ghost use Rattle.std.specs.Prelude.{◌≡◌, ◌==◌, ◌&&◌, not, ℕ, List, Some, option_map, option_and_then, map};
ghost use Rattle.std.specs.Option.{option_copied, unwrap_or};
ghost use Rattle.std.specs.List.{list_any};
ghost use Rattle.mz_tree.specs.View.{plain_ty};
ghost use Rattle.mz_scope.specs.Names.{find, holders, data_of, sig_number, TypeEntry as PlainType, ConEntry as PlainCon, FunEntry as PlainFun};
ghost use Rattle.mz_scope.specs.Types.{type_by_name};
ghost use Rattle.mz_scope.specs.Bodies.{is_number_among, lacks_one};
ghost use Rattle.mz_scope.specs.View.{only, any_held};
ghost use Rattle.mz_scope.specs.Tables.{type_entry_of, fun_entry_of, cons_in};

use crate::con_entry::{ConEntry, NamedCon};
use crate::entries::{FunEntry, TypeEntry, TypeName};
use crate::names::Globals;
use mz_names::FieldList;
use mz_tree::Ty;

// whether a number is one of these
fn is_number_among(numbers: &[u32], number: u32) -> bool
    ensures { result ≡ is_number_among numbers.now number }
{
    for i in 0..numbers.len() {
        if numbers[i] == number {
            return true;
        }
    }
    false
}

// whether some constructor of a data type isn't one of these
fn is_one_lacking(cons: &[NamedCon], variety: u32, named: &[u32]) -> bool
    ensures { result ≡ list_any (λ (c : List ℕ × PlainCon). (c.1.variety == variety) && not (is_number_among named.now c.1.number)) (cons_in cons.now) }
{
    for i in 0..cons.len() {
        let con = &cons[i].con;
        if con.variety() == variety && !is_number_among(named, con.number()) {
            return true;
        }
    }
    false
}

impl ConEntry {
    /// Its number.
    pub(crate) fn number(&self) -> u32
        ensures { result ≡ self.now.number }
    {
        self.number
    }

    /// The number of its data type.
    pub(crate) fn variety(&self) -> u32
        ensures { result ≡ self.now.variety }
    {
        self.variety
    }

    /// Its fields.
    pub(crate) fn fields(&self) -> &FieldList
        ensures { result.now ≡ self.now.fields }
    {
        &self.fields
    }
}

impl Globals {
    // the data type or signature of a name
    fn type_entry(&self, text: &[u8]) -> Option<TypeEntry>
        ensures { option_map type_entry_of result ≡ find self.now.types text.now }
    {
        self.types.first.get(text)
    }

    // the function of a name
    fn fun_entry(&self, text: &[u8]) -> Option<FunEntry>
        ensures { option_map fun_entry_of result ≡ find self.now.funs text.now }
    {
        self.funs.first.get(text)
    }

    /// The constructor of a name.
    pub(crate) fn con_named(&self, text: &[u8]) -> Option<&ConEntry>
        ensures { option_copied result ≡ find self.now.cons text.now }
    {
        match self.cons.first.get(text) {
            None => None,
            Some(place) => match self.cons.list.get(place as usize) {
                None => None,
                Some(named) => Some(&named.con),
            },
        }
    }

    /// How many data types and signatures are declared before the one of a name.
    pub(crate) fn type_position(&self, text: &[u8]) -> Option<u32>
        ensures { result ≡ option_map (λ (t : PlainType). t.position) (find self.now.types text.now) }
    {
        match self.type_entry(text) {
            None => None,
            Some(entry) => Some(entry.position),
        }
    }

    /// The data type or signature of a name, as a type.
    pub(crate) fn type_named(&self, text: &[u8]) -> Option<Ty>
        ensures { option_map plain_ty result ≡ option_map (λ (t : PlainType). type_by_name t.stands_for) (find self.now.types text.now) }
    {
        match self.type_entry(text) {
            None => None,
            Some(entry) => match entry.stands_for {
                TypeName::Data(number) => Some(Ty::Named(number)),
                TypeName::Sig(number) => Some(Ty::Function(number)),
            },
        }
    }

    /// The number of the data type of a name.
    pub(crate) fn data_named(&self, text: &[u8]) -> Option<u32>
        ensures { result ≡ option_and_then (λ (t : PlainType). data_of t.stands_for) (find self.now.types text.now) }
    {
        match self.type_entry(text) {
            None => None,
            Some(entry) => match entry.stands_for {
                TypeName::Data(number) => Some(number),
                TypeName::Sig(_) => None,
            },
        }
    }

    /// The number of the signature of a name.
    pub(crate) fn sig_named(&self, text: &[u8]) -> Option<u32>
        ensures { result ≡ sig_number self.now.types text.now }
    {
        match self.type_entry(text) {
            None => None,
            Some(entry) => match entry.stands_for {
                TypeName::Data(_) => None,
                TypeName::Sig(number) => Some(number),
            },
        }
    }

    /// The number of the function of a name.
    pub(crate) fn fun_named(&self, text: &[u8]) -> Option<u32>
        ensures { result ≡ option_map (λ (f : PlainFun). f.number) (find self.now.funs text.now) }
    {
        match self.fun_entry(text) {
            None => None,
            Some(entry) => Some(entry.number),
        }
    }

    /// How many parameters the function of a name has, where its signature is declared.
    pub(crate) fn params_of(&self, text: &[u8]) -> Option<u32>
        ensures { result ≡ option_and_then (λ (f : PlainFun). f.params) (find self.now.funs text.now) }
    {
        match self.fun_entry(text) {
            None => None,
            Some(entry) => entry.params,
        }
    }

    /// The constructor with a field, where just one has it.
    pub(crate) fn only_holder(&self, field: &[u8]) -> Option<&ConEntry>
        ensures { option_copied result ≡ only (holders self.now field.now) }
    {
        match self.cons.holders.get(field) {
            None => None,
            Some(holder) => {
                if holder.shared {
                    return None;
                }
                match self.cons.list.get(holder.place as usize) {
                    None => None,
                    Some(named) => Some(&named.con),
                }
            }
        }
    }

    /// Whether some constructor has a field.
    pub(crate) fn has_holder(&self, field: &[u8]) -> bool
        ensures { result ≡ any_held (holders self.now field.now) }
    {
        self.cons.holders.get(field).is_some()
    }

    /// Whether some constructor of a data type isn't one of these.
    pub(crate) fn lacks_one(&self, variety: u32, named: &[u32]) -> bool
        ensures { result ≡ lacks_one self.now (Some variety) named.now }
    {
        is_one_lacking(self.cons.list.as_slice(), variety, named)
    }
}
