//! The derivation of a program.
ghost use Rattle.std.specs.Prelude.{◌≡◌, ◌<◌, IfOk, length, None};
ghost use Rattle.mz_tree.specs.View.{plain_program, plain_fun};
ghost use Rattle.mz_tree.specs.Scoped.{Scoped};
ghost use Rattle.mz_decl.specs.Places.{IsFirst};
ghost use Rattle.mz_decl.specs.Declarations.{IsImmutableAdopter, decls_of};
ghost use Rattle.mz_decl.specs.View.{plain_decls};
ghost use Rattle.mz_modes.specs.Adopted.{Declared, IsNotExclusive};
ghost use Rattle.mz_modes.specs.Modes.{AreModes};
ghost use Rattle.mz_deriv.specs.View.{plain_script, plain_derivation};
ghost use Rattle.mz_deriv.specs.Refused.{Checks};
ghost use Rattle.mz_deriv.specs.Parts.{Derives};

use crate::join::state_of;
use crate::numbers::read_items;
use crate::owing::{owed, parameters};
use crate::walk::walk;
use crate::{DerivFault, Derivation, Script};
use mz_decl::{DeclFault, Decls, well_formed};
use mz_flow::end_rule;
use mz_modes::{ModeFault, Modes, RuleFault, modes, needed};
use mz_tree::{Fun, Memory, Program};
use std::alloc::Global;

/// Checks a derivation of the program: Ok just where it is one, and else the first point, in the order of its scripts,
/// that has no instance. The program is scoped, as what is read is, its declarations and modes are lawful, and the
/// derivation has one script for each function.
///
/// Of a command with branches all that is refused at its own place comes first, with the fresh numbers of all its cases
/// and then the names of its join; then come each case's items and its end, one case after the other.
pub fn check_derivation(
    alloc: Global,
    program: &Program,
    derivation: &Derivation,
) -> Result<(), DerivFault>
    requires scoped { Scoped (plain_program program.now) }
    requires declared { Declared (plain_program program.now) }
    requires one_each { length derivation.now.scripts ≡ length program.now.funs }
    ensures { Checks (plain_program program.now) (plain_derivation derivation.now) result }
{
    let decls = lawful_decls(alloc, program)?;
    let modes = lawful_modes(alloc, &decls)?;
    let funs = program.funs.as_slice();
    let scripts = derivation.scripts.as_slice();
    for k in 0..funs.len() {
        let script = &scripts[k];
        check_fun(alloc, &decls, &modes, &funs[k], script)?;
        read_items(script.items.as_slice());
    }
    Ok(())
}

/// The declarations of a program that is declared; the refusal says that memory is wanting.
pub fn lawful_decls(alloc: Global, program: &Program) -> Result<Decls, Memory>
    requires scoped { Scoped (plain_program program.now) }
    requires declared { IsFirst (IsImmutableAdopter (plain_program program.now)) None }
    ensures { IfOk result (λ it. plain_decls it ≡ decls_of (plain_program program.now)) }
{
    match well_formed(alloc, program) {
        Ok(decls) => Ok(decls),
        Err(DeclFault::ImmutableAdopter(_)) => unreachable!(),
        Err(DeclFault::Memory) => Err(Memory),
    }
}

/// Their modes, where each `adopts` names what is mutable; the refusal says that memory is wanting.
pub fn lawful_modes(alloc: Global, decls: &Decls) -> Result<Modes, Memory>
    requires { IsFirst (IsNotExclusive (plain_decls decls.now)) None }
    ensures { IfOk result (λ it. AreModes (plain_decls decls.now) it) }
{
    match modes(alloc, decls) {
        Ok(modes) => Ok(modes),
        Err(ModeFault::NotExclusive(_)) => unreachable!(),
        Err(ModeFault::Memory) => Err(Memory),
    }
}

/// Checks the script of one function, over declarations and their modes: Ok just where it leads through the function's body from
/// what its signature needs to what it owes, and else the first point, in the order of the script, that has no instance. The
/// function's signature is declared. It is for those who have a function and not the whole program.
pub fn check_fun(
    alloc: Global,
    decls: &Decls,
    modes: &Modes,
    fun: &Fun,
    script: &Script,
) -> Result<(), DerivFault>
    requires modes { AreModes (plain_decls decls.now) modes.now }
    requires signed { fun.now.sig < length (plain_decls decls.now).sigs }
    ensures { Derives (plain_decls decls.now) (plain_fun fun.now) (plain_script script.now) result }
{
    let sig = decls.sig(fun.sig);
    let names = parameters(alloc, sig.count)?;
    let needs = needed(alloc, &sig.needs)?;
    let mut state = state_of(alloc, needs.as_slice())?;
    let items = script.items.as_slice();
    walk(alloc, items, decls, modes, &names, &mut state, &fun.body)?;
    let owed = owed(alloc, sig, fun.body.result)?;
    match end_rule(alloc, modes, &mut state, &owed) {
        Ok(()) => Ok(()),
        Err(RuleFault::NoInstance) => Err(DerivFault::BadCommand {
            place: fun.body.place,
        }),
        Err(RuleFault::Memory) => Err(DerivFault::Memory),
    }
}
