//! The proposer of whole functions and programs.
ghost use Rattle.std.specs.Prelude.{◌≡◌, ◌<◌, IfOk, length, reverse};
ghost use Rattle.mz_tree.specs.Scoped.{Scoped};
ghost use Rattle.mz_tree.specs.View.{plain_fun, plain_program};
ghost use Rattle.mz_decl.specs.Contents.{names_from};
ghost use Rattle.mz_decl.specs.View.{plain_decls};
ghost use Rattle.mz_modes.specs.Adopted.{Declared};
ghost use Rattle.mz_modes.specs.Modes.{AreModes};
ghost use Rattle.mz_elab.specs.Elaborating.{BodyScoped, Elaborates, FunOr};

use crate::fault::ElabFault;
use crate::goals::meet_goals;
use crate::walking::walk;
use mz_decl::Decls;
use mz_deriv::{Derivation, Script, Scripts, lawful_decls, lawful_modes, owed, state_of};
use mz_index::Indexed;
use mz_modes::{Modes, needed};
use mz_tree::{Fun, Memory, Names, Program};
use sqlite_items::Items;
use std::alloc::Global;

/// Looks for a derivation of the program by the guided rules. The program is scoped, as what is read is, and its declarations
/// and modes are lawful.
///
/// Ok comes just where the guided rules lead through every function, and `NoPermission` with the first permission that they
/// want, and the place of the command, the branch's closing brace or the function's that needs it. `Memory` says that memory
/// is wanting.
pub fn elaborate(alloc: Global, program: &Program) -> Result<Derivation, ElabFault>
    requires scoped { Scoped (plain_program program.now) }
    requires declared { Declared (plain_program program.now) }
    ensures guided { Elaborates (plain_program program.now) result }
{
    let decls = lawful_decls(alloc, program)?;
    let modes = lawful_modes(alloc, &decls)?;
    let funs = program.funs.as_slice();
    let mut scripts = Items::new(alloc);
    for k in 0..funs.len() {
        let script = elaborate_fun(alloc, &decls, &modes, &funs[k])?;
        add_script(&mut scripts, script)?;
    }
    Ok(Derivation { scripts })
}

// one more script
fn add_script(scripts: &mut Scripts, script: Script) -> Result<(), Memory> {
    scripts.push(script)?;
    Ok(())
}

// the script of one function
fn elaborate_fun(
    alloc: Global,
    decls: &Decls,
    modes: &Modes,
    fun: &Fun,
) -> Result<Script, ElabFault>
    requires modes { AreModes (plain_decls decls.now) modes.now }
    requires signed { fun.now.sig < length (plain_decls decls.now).sigs }
    requires scoped { BodyScoped (plain_decls decls.now) (plain_fun fun.now) }
    ensures { FunOr (plain_decls decls.now) (plain_fun fun.now) result }
{
    let sig = decls.sig(fun.sig);
    let bound = last_first(alloc, sig.count)?;
    let needs = needed(alloc, &sig.needs)?;
    let begun = Indexed::from_state(alloc, state_of(alloc, needs.as_slice())?)?;
    let mut next = 256;
    let mut end = walk(
        alloc,
        &fun.body,
        decls,
        modes,
        bound.as_slice(),
        &mut next,
        begun,
        0,
        Items::new(alloc),
    )?;
    let goals = owed(alloc, sig, fun.body.result)?;
    meet_goals(
        alloc,
        decls,
        modes,
        bound.as_slice(),
        next,
        &mut end.state,
        goals.as_slice(),
        fun.body.place,
        &mut end.items,
    )?;
    Ok(Script { items: end.items })
}

// so many parameters, the last one first
fn last_first(alloc: Global, count: u32) -> Result<Names, Memory>
    ensures { IfOk result (λ it. reverse it ≡ names_from 0 count) }
{
    let mut names = Items::new(alloc);
    for i in 0..count {
        names.push(count - 1 - i)?;
    }
    Ok(names)
}
