//! The rule of a take.
ghost use Rattle.std.specs.Prelude.{ℕ, List, option_map, option_copied};
ghost use Rattle.mz_tree.specs.Plain.{Atom as PlainAtom};
ghost use Rattle.mz_tree.specs.View.{plain_atom, plain_command};
ghost use Rattle.mz_decl.specs.View.{plain_decls};
ghost use Rattle.mz_perm.specs.Lists.{Which};
ghost use Rattle.mz_modes.specs.Making.{Makes};
ghost use Rattle.mz_modes.specs.Answers.{Answers};
ghost use Rattle.mz_adopt.specs.Adopting.{Takes, TakeRule};

use crate::adopter::adopted_by;
use mz_decl::Decls;
use mz_modes::{Modes, RuleFault};
use mz_perm::State;
use mz_tree::{Atom, Command, Op, Ty};
use std::alloc::Global;

/// Changes the state by the rule of a take, with the permission of the adopter that the command is said to use. All that
/// is held stays; the block's permission at the data type that is adopted and the unit result come to the end, in this
/// order.
///
/// `NoInstance` comes just where the rule leads from the state to no other: where the command is no take, its name
/// occurs in the state, no permission is named, the named one doesn't say that the adopter adopts a data type or isn't
/// held, or it isn't held that the block may be asked for. After either fault the state is as it was.
pub fn take_rule(
    alloc: Global,
    decls: &Decls,
    _modes: &Modes,
    state: &mut State,
    command: &Command,
    uses: Option<&Atom>,
) -> Result<(), RuleFault>
    ensures { Answers (λ (_which : Which) (S : List (PlainAtom ℕ)). Makes (TakeRule (plain_decls decls.now) state.old) state.old (plain_command command.now) (option_map plain_atom (option_copied uses.entry)) S) state.old state.new result }
{
    if state.occurs(command.to) {
        return Err(RuleFault::NoInstance);
    }
    match (&command.op, uses) {
        (Op::Take { block, adopter }, Some(atom)) => {
            take(alloc, decls, state, command.to, *block, *adopter, atom)
        }
        _ => Err(RuleFault::NoInstance),
    }
}

// takes the block back from the adopter that has this permission
fn take(
    alloc: Global,
    decls: &Decls,
    state: &mut State,
    to: u32,
    block: u32,
    adopter: u32,
    atom: &Atom,
) -> Result<(), RuleFault>
    ensures { Answers (λ (_which : Which) (S : List (PlainAtom ℕ)). Takes (plain_decls decls.now) state.old to block adopter (plain_atom atom.now) S) state.old state.new result }
{
    let adopted = match adopted_by(decls, adopter, atom) {
        Some(adopted) => adopted,
        None => return Err(RuleFault::NoInstance),
    };
    let asked = Atom::Has {
        name: block,
        ty: Ty::Dynamic,
    };
    if !state.has(atom) {
        return Err(RuleFault::NoInstance);
    }
    if !state.has(&asked) {
        return Err(RuleFault::NoInstance);
    }
    let mut next = state.copy(alloc)?;
    next.add(Atom::Has {
        name: block,
        ty: Ty::Named(adopted),
    })?;
    next.add(Atom::Has {
        name: to,
        ty: Ty::Unknown,
    })?;
    *state = next;
    Ok(())
}
