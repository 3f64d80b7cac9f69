//! The rule of a call.
ghost use Rattle.std.specs.Prelude.{◌≡◌, ◌∷◌, ◌++◌, [], IfOk};
ghost use Rattle.mz_tree.specs.View.{plain_atom, plain_atoms, plain_sig};
ghost use Rattle.mz_decl.specs.Declarations.{Decls as PlainDecls};
ghost use Rattle.mz_decl.specs.Signatures.{at_args};
ghost use Rattle.mz_decl.specs.View.{plain_decls};
ghost use Rattle.mz_modes.specs.Modes.{AreModes};
ghost use Rattle.mz_modes.specs.Answers.{Answers, Gives};
ghost use Rattle.mz_flow.specs.Commands.{Calls};
ghost use Rattle.mz_flow.specs.Spending.{Spends};

use mz_decl::Decls;
use mz_modes::{Modes, RuleFault, at_args, callee_sig, gives_back, needed, use_up_all};
use mz_perm::{State, substitute};
use mz_tree::{Alike, Atom, Memory, Names, Sig};
use std::alloc::Global;

/// Calls the function that this permission is for, with these arguments: uses up its needs, and adds those that are given
/// back and what the call gives, with `to` for the result.
pub fn call(
    alloc: Global,
    decls: &Decls,
    modes: &Modes,
    state: &mut State,
    to: u32,
    callee: u32,
    args: &Names,
    atom: &Atom,
) -> Result<(), RuleFault>
    requires { AreModes (plain_decls decls.now) modes.now }
    ensures { Answers (λ which. Calls which (plain_decls decls.now) state.old to callee args.now (plain_atom atom.now)) state.old state.new result }
{
    match callee_sig(decls, state, callee, args.len(), atom) {
        None => Err(RuleFault::NoInstance),
        Some(sig) => spend(alloc, modes, state, to, sig, args),
    }
}

// calls a function of this signature
fn spend(
    alloc: Global,
    modes: &Modes,
    state: &mut State,
    to: u32,
    sig: &Sig,
    args: &Names,
) -> Result<(), RuleFault>
    ensures { (D : PlainDecls) → AreModes D modes.now → Answers (λ which. Spends which D state.old to (plain_sig sig.now) args.now) state.old state.new result }
{
    *state = spent(alloc, modes, state, to, sig, args)?;
    Ok(())
}

// the state after the call of a function of this signature
fn spent(
    alloc: Global,
    modes: &Modes,
    state: &State,
    to: u32,
    sig: &Sig,
    args: &Names,
) -> Result<State, RuleFault>
    ensures { (D : PlainDecls) → AreModes D modes.now → Gives (λ which. Spends which D state.now to (plain_sig sig.now) args.now) result }
{
    let mut next = state.copy(alloc)?;
    let all = needed(alloc, &sig.needs)?;
    let wanted = at_args(alloc, args, all.as_slice())?;
    use_up_all(alloc, modes, &mut next, &wanted)?;
    let back = gives_back(alloc, modes, &sig.needs)?;
    add_at(alloc, &mut next, args, back.as_slice())?;
    let names = with_result(alloc, args, to)?;
    add_at(alloc, &mut next, &names, sig.gives.as_slice())?;
    Ok(next)
}

// adds the permissions, in order, with these names for the parameters and the result; where memory is wanting some are
// added
fn add_at(alloc: Global, state: &mut State, names: &Names, atoms: &[Atom]) -> Result<(), Memory>
    ensures { IfOk result (λ _. state.new ≡ state.old ++ at_args names.now (plain_atoms atoms.now)) }
{
    for i in 0..atoms.len() {
        state.add(substitute(alloc, &atoms[i], names)?)?;
    }
    Ok(())
}

// the names of the arguments, and then that of the result
fn with_result(alloc: Global, args: &Names, to: u32) -> Result<Names, Memory>
    ensures { IfOk result (λ it. it ≡ args.now ++ to ∷ []) }
{
    let mut names = args.copy(alloc)?;
    names.push(to)?;
    Ok(names)
}
