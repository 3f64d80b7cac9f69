//! From a program to its declarations.
ghost use Rattle.std.specs.Prelude.{◌≡◌, map, IfOk};
ghost use Rattle.mz_tree.specs.View.{plain_program};
ghost use Rattle.mz_tree.specs.declared.program.Fun.{Fun as CodeFun};
ghost use Rattle.mz_tree.specs.Scoped.{Scoped};
ghost use Rattle.mz_decl.specs.Declarations.{decls_of, IsNumbered};
ghost use Rattle.mz_decl.specs.View.{plain_decls, Declares, Forms};

use crate::Decls;
use crate::faults::immutable_adopter;
use crate::numbers::is_numbered;
use mz_tree::{Alike, Funs, Memory, Names, Place, Program};
use sqlite_items::Items;
use std::alloc::Global;
use thiserror::Error;

/// Why a program's declarations aren't well formed.
#[derive(Clone, Copy, Debug, PartialEq, Eq, Error)]
pub enum DeclFault {
    /// An `adopts` stands on an immutable data type, or on a structural type of an immutable constructor. Of all such
    /// places this is the first: that of the data type's own name, or that of the name after `adopts`.
    #[error("adopts clause on an immutable type at {0}")]
    ImmutableAdopter(Place),
    /// Memory is wanting.
    #[error("not enough memory to hold the declarations")]
    Memory,
}

impl From<Memory> for DeclFault {
    ghost use Rattle.mz_decl.specs.declared.form.DeclFault.TheVariants.{Memory as MemoryFault};

    ghost from_gives = { λ _ fault. fault ≡ MemoryFault };

    fn from(_: Memory) -> Self {
        DeclFault::Memory
    }
}

/// The declarations of a program, or the first place at which an `adopts` stands on an immutable data type or on a
/// structural type of an immutable constructor. The program is scoped, as what is read is.
pub fn well_formed(alloc: Global, program: &Program) -> Result<Decls, DeclFault>
    requires scoped { Scoped (plain_program program.now) }
    ensures { Forms (plain_program program.now) result }
{
    if let Some(place) = immutable_adopter(program) {
        return Err(DeclFault::ImmutableAdopter(place));
    }
    Ok(copied(alloc, program)?)
}

/// The declarations of any program that has at most 1,000 data types, constructors, signatures and functions each, and
/// each of whose constructors belongs to one of its data types; none of another. It doesn't look at where an `adopts`
/// stands. What is read is to be given to `well_formed`.
pub fn declarations(alloc: Global, program: &Program) -> Result<Option<Decls>, Memory>
    ensures { IfOk result (λ found. Declares (plain_program program.now) found) }
{
    if is_numbered(program) {
        return Ok(Some(copied(alloc, program)?));
    }
    Ok(None)
}

// the declarations of a program whose numbers can be declarations
fn copied(alloc: Global, program: &Program) -> Result<Decls, Memory>
    requires { IsNumbered (plain_program program.now) }
    ensures { IfOk result (λ it. plain_decls it ≡ decls_of (plain_program program.now)) }
{
    let varieties = program.varieties.copy(alloc)?;
    let cons = program.cons.copy(alloc)?;
    let sigs = program.sigs.copy(alloc)?;
    let fun_sigs = sigs_of(alloc, &program.funs)?;
    let written = program.clauses.copy(alloc)?;
    Ok(Decls {
        varieties,
        cons,
        sigs,
        fun_sigs,
        written,
    })
}

// the number of each function's signature
fn sigs_of(alloc: Global, funs: &Funs) -> Result<Names, Memory>
    ensures { IfOk result (λ it. it ≡ map (λ (f : CodeFun). f.sig) funs.now) }
{
    let all = funs.as_slice();
    let mut numbers = Items::new(alloc);
    for i in 0..all.len() {
        numbers.push(all[i].sig)?;
    }
    Ok(numbers)
}
