//! What holds of the grammar, for all tokens.

ghost use Rattle.std.specs.Prelude.{Bool};
ghost use Rattle.mz_types.specs.Fronts.{AfterAtoms, AfterType};
ghost use Rattle.mz_types.specs.Grammar.{IsAtom, IsAtoms, IsType};
ghost use Rattle.mz_types.specs.Laws.{AreRead, AtMostOne, FrontOrFault, HoldsItself, IsReadWhole};
ghost use Rattle.mz_types.specs.Reading.{atom_at, atoms_at, type_at};

/// The readers on lists, by which the contracts of `read_type`, `read_atom` and `read_atoms` say what these answer, read the
/// grammar.
pub fn grammar_is_read()
    ensures types { (result : Bool) → AreRead (type_at result) (IsType result) AfterType }
    ensures atoms { (result : Bool) → AreRead (atom_at result) (IsAtom result) AfterType }
    ensures lists { (result : Bool) → AreRead (atoms_at result) (IsAtoms result) AfterAtoms }
{}

/// The tokens of each tree are read as that tree.
pub fn trees_are_read()
    ensures types { (result : Bool) → IsReadWhole (type_at result) (IsType result) }
    ensures atoms { (result : Bool) → IsReadWhole (atom_at result) (IsAtom result) }
    ensures lists { (result : Bool) → IsReadWhole (atoms_at result) (IsAtoms result) }
{}

/// Tokens spell at most one type, at most one atom and at most one list of atoms.
pub fn at_most_one_tree()
    ensures types { (result : Bool) → AtMostOne (IsType result) }
    ensures atoms { (result : Bool) → AtMostOne (IsAtom result) }
    ensures lists { (result : Bool) → AtMostOne (IsAtoms result) }
{}

/// Tokens begin with a type, or have a fault where one is wanted; likewise for an atom and for atoms.
pub fn front_or_fault()
    ensures types { (result : Bool) → FrontOrFault (IsType result) }
    ensures atoms { (result : Bool) → FrontOrFault (IsAtom result) }
    ensures lists { (result : Bool) → FrontOrFault (IsAtoms result) }
{}

/// The grammar holds itself: in a lock stands what is a type elsewhere.
pub fn grammar_holds_itself()
    ensures { HoldsItself }
{}
