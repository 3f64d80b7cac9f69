//! Calls and spawns: the callee's function is found and its needs are met, and then what comes of it is added.
//!
//! The function's permission may stand under any name of the callee's class; in the script it gets the callee's name first.
ghost use Rattle.std.specs.Prelude.{◌≡◌, ◌<◌, ◌++◌, ◌∷◌, [], IfOk, length, map};
ghost use Rattle.mz_tree.specs.Programs.{Sig as PlainSig};
ghost use Rattle.mz_tree.specs.Code.{Call_op, Spawn_op};
ghost use Rattle.mz_tree.specs.View.{plain_atoms, plain_need, plain_sig};
ghost use Rattle.mz_decl.specs.Declarations.{Decls as PlainDecls};
ghost use Rattle.mz_decl.specs.Signatures.{at_args, needed};
ghost use Rattle.mz_decl.specs.View.{plain_decls};
ghost use Rattle.mz_modes.specs.Modes.{AreModes};
ghost use Rattle.mz_elab.specs.Doing.{ActsOr};
ghost use Rattle.mz_elab.specs.Calling.{ComesBack, FindsOr, MeetsOr, SigAt, SomeSigAt, UsesOr};

use crate::doing::write_do;
use crate::fault::ElabFault;
use crate::finding::{Sought, find};
use crate::goals::meet_goals;
use crate::lending::lend;
use crate::valuing::type_at;
use mz_decl::Decls;
use mz_deriv::Item;
use mz_index::Indexed;
use mz_modes::{Modes, at_args, gives_back, needed};
use mz_perm::substitute;
use mz_tree::{Alike, Atom, Atoms, Memory, Names, Place, Sig, Ty};
use sqlite_items::Items;
use std::alloc::Global;

// the function is called with these arguments
pub(crate) fn call(
    alloc: Global,
    decls: &Decls,
    modes: &Modes,
    bound: &[u32],
    next: u32,
    state: &mut Indexed,
    to: u32,
    callee: u32,
    args: &Names,
    place: Place,
    items: &mut Items<Item>,
) -> Result<(), ElabFault>
    requires { AreModes (plain_decls decls.now) modes.now }
    ensures { ActsOr (plain_decls decls.now) state.old next to (Call_op callee args.now) place state.new next result }
{
    let sig = use_function(
        alloc, decls, modes, bound, next, state, callee, args, place, items,
    )?;
    come_back(alloc, modes, state, sig, args, to)?;
    Ok(())
}

// a thread is started that calls the function with this argument
pub(crate) fn spawn(
    alloc: Global,
    decls: &Decls,
    modes: &Modes,
    bound: &[u32],
    next: u32,
    state: &mut Indexed,
    to: u32,
    callee: u32,
    arg: u32,
    place: Place,
    items: &mut Items<Item>,
) -> Result<(), ElabFault>
    requires { AreModes (plain_decls decls.now) modes.now }
    ensures { ActsOr (plain_decls decls.now) state.old next to (Spawn_op callee arg) place state.new next result }
{
    let args = only(alloc, arg)?;
    use_function(
        alloc, decls, modes, bound, next, state, callee, &args, place, items,
    )?;
    state.add(Atom::Has {
        name: to,
        ty: Ty::Unknown,
    })?;
    Ok(())
}

// one name
fn only(alloc: Global, name: u32) -> Result<Names, Memory>
    ensures { IfOk result (λ it. it ≡ name ∷ []) }
{
    let mut names = Items::new(alloc);
    names.push(name)?;
    Ok(names)
}

// the first function of the callee's class with so many parameters is used: its needs are met, and the item is written. Its
// signature.
fn use_function<'a>(
    alloc: Global,
    decls: &'a Decls,
    modes: &Modes,
    bound: &[u32],
    next: u32,
    state: &mut Indexed,
    callee: u32,
    args: &Names,
    place: Place,
    items: &mut Items<Item>,
) -> Result<&'a Sig, ElabFault>
    requires { AreModes (plain_decls decls.now) modes.now }
    ensures { UsesOr (plain_decls decls.now) state.old callee args.now place state.new result }
{
    let at = find_function(alloc, decls, modes, state, callee, args.len(), place)?;
    let sig = sig_in(decls, state, at);
    let wanted = asked(alloc, sig, args)?;
    let goals = wanted.as_slice();
    meet_needs(
        alloc, decls, modes, bound, next, state, at, callee, goals, place, items,
    )?;
    Ok(sig)
}

// the place of the first function of the callee's class with so many parameters
fn find_function(
    alloc: Global,
    decls: &Decls,
    modes: &Modes,
    state: &Indexed,
    callee: u32,
    count: usize,
    place: Place,
) -> Result<usize, ElabFault>
    requires { AreModes (plain_decls decls.now) modes.now }
    ensures { FindsOr (plain_decls decls.now) state.now callee count place result }
{
    let sought = Sought::Signed(count);
    find(alloc, decls, modes, state, callee, &sought, place)
}

// the signature of the function that stands there
fn sig_in<'a>(decls: &'a Decls, state: &Indexed, at: usize) -> &'a Sig
    requires { SomeSigAt (plain_decls decls.now) state.now at }
    ensures { (sig : PlainSig) → SigAt (plain_decls decls.now) state.now at sig → plain_sig result.now ≡ sig }
{
    match state.at(at) {
        Atom::Same { .. } => unreachable!(),
        Atom::Has { name: _, ty } => match ty {
            Ty::Function(number) => decls.sig(*number),
            _ => unreachable!(),
        },
    }
}

// what the signature needs, of these arguments
fn asked(alloc: Global, sig: &Sig, args: &Names) -> Result<Atoms, Memory>
    ensures { IfOk result (λ it. plain_atoms it ≡ at_args args.now (needed (map plain_need sig.now.needs))) }
{
    let all = needed(alloc, &sig.needs)?;
    at_args(alloc, args, all.as_slice())
}

// the needs of the function that stands there are met, and the item is written, which names it as the callee
fn meet_needs(
    alloc: Global,
    decls: &Decls,
    modes: &Modes,
    bound: &[u32],
    next: u32,
    state: &mut Indexed,
    at: usize,
    callee: u32,
    goals: &[Atom],
    place: Place,
    items: &mut Items<Item>,
) -> Result<(), ElabFault>
    requires modes { AreModes (plain_decls decls.now) modes.now }
    requires stands { at < length state.old }
    ensures { MeetsOr (plain_decls decls.now) state.old (plain_atoms goals.now) place state.new result }
{
    let function = Atom::Has {
        name: callee,
        ty: type_at(alloc, state, at)?,
    };
    lend(
        alloc,
        decls,
        modes,
        bound,
        next,
        state,
        state.at(at),
        callee,
        items,
    )?;
    meet_goals(alloc, decls, modes, bound, next, state, goals, place, items)?;
    write_do(alloc, Some(function), items)?;
    Ok(())
}

// what a call gives back and gives is added
fn come_back(
    alloc: Global,
    modes: &Modes,
    state: &mut Indexed,
    sig: &Sig,
    args: &Names,
    to: u32,
) -> Result<(), Memory>
    ensures { (D : PlainDecls) → AreModes D modes.now → IfOk result (λ _. ComesBack D args.now to (plain_sig sig.now) state.old state.new) }
{
    let back = gives_back(alloc, modes, &sig.needs)?;
    add_at(alloc, state, args, back.as_slice())?;
    let names = with_result(alloc, args, to)?;
    add_at(alloc, state, &names, sig.gives.as_slice())
}

// adds permissions of a signature, in order, with these names
fn add_at(alloc: Global, state: &mut Indexed, names: &Names, atoms: &[Atom]) -> Result<(), Memory>
    ensures { IfOk result (λ _. state.new ≡ state.old ++ at_args names.now (plain_atoms atoms.now)) }
{
    for i in 0..atoms.len() {
        state.add(substitute(alloc, &atoms[i], names)?)?;
    }
    Ok(())
}

// the names of the arguments, and then that of the result
fn with_result(alloc: Global, args: &Names, to: u32) -> Result<Names, Memory>
    ensures { IfOk result (λ it. it ≡ args.now ++ to ∷ []) }
{
    let mut names = args.copy(alloc)?;
    names.push(to)?;
    Ok(names)
}
