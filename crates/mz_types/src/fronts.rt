//! The readers for callers: a type, an atom and atoms, from the front of tokens.

ghost use Rattle.mz_types.specs.Fronts.{IsRightFront, OnlyFront};
ghost use Rattle.mz_types.specs.Grammar.{IsAtom, IsAtoms, IsType};
ghost use Rattle.mz_types.specs.Reading.{atom_at, atoms_at, type_at};
ghost use Rattle.mz_types.specs.Stops.{Gives};

use crate::read::{any_type, atom, atoms};
use crate::{Stop, SurfaceAtom, SurfaceType};
use mz_token::Token;
use sqlite_items::Items;
use std::alloc::Global;

/// A type from the front of the tokens, and the tokens left. `depth` more brackets may be open at once. Where
/// `result_stands`, the key `result` may stand for a name in the atoms of a lock.
///
/// A refusal tells the first token that can't stand there, or the first bracket that is one too many.
pub fn read_type(
    alloc: Global,
    tokens: &[Token],
    depth: u32,
    result_stands: bool,
) -> Result<(SurfaceType, &[Token]), Stop>
    ensures gives { Gives (λ x. (x.0, x.1.now)) result (type_at result_stands depth tokens.now) }
    ensures right { IsRightFront (IsType result_stands) depth tokens.now (λ x. (x.0, x.1.now)) result }
    ensures only { OnlyFront (IsType result_stands) depth tokens.now (λ x. (x.0, x.1.now)) result }
{
    any_type(alloc, tokens, depth, result_stands)
}

/// An atom from the front of the tokens, and the tokens left. `depth` more brackets may be open at once. Where
/// `result_stands`, the key `result` may stand for a name of the atom.
///
/// A refusal tells the first token that can't stand there, or the first bracket that is one too many.
pub fn read_atom(
    alloc: Global,
    tokens: &[Token],
    depth: u32,
    result_stands: bool,
) -> Result<(SurfaceAtom, &[Token]), Stop>
    ensures gives { Gives (λ x. (x.0, x.1.now)) result (atom_at result_stands depth tokens.now) }
    ensures right { IsRightFront (IsAtom result_stands) depth tokens.now (λ x. (x.0, x.1.now)) result }
    ensures only { OnlyFront (IsAtom result_stands) depth tokens.now (λ x. (x.0, x.1.now)) result }
{
    atom(alloc, tokens, depth, result_stands)
}

/// Atoms with `*` between them from the front of the tokens, and the tokens left. `depth` more brackets may be open at
/// once. Where `result_stands`, the key `result` may stand for a name of an atom.
///
/// A refusal tells the first token that can't stand there, or the first bracket that is one too many.
pub fn read_atoms(
    alloc: Global,
    tokens: &[Token],
    depth: u32,
    result_stands: bool,
) -> Result<(Items<SurfaceAtom>, &[Token]), Stop>
    ensures gives { Gives (λ x. (x.0, x.1.now)) result (atoms_at result_stands depth tokens.now) }
    ensures right { IsRightFront (IsAtoms result_stands) depth tokens.now (λ x. (x.0, x.1.now)) result }
    ensures only { OnlyFront (IsAtoms result_stands) depth tokens.now (λ x. (x.0, x.1.now)) result }
{
    atoms(alloc, tokens, depth, result_stands)
}
