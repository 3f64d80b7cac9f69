//! The rule of a give.
ghost use Rattle.std.specs.Prelude.{ℕ, List, option_map, option_copied};
ghost use Rattle.mz_tree.specs.Plain.{Atom as PlainAtom};
ghost use Rattle.mz_tree.specs.View.{plain_atom, plain_command};
ghost use Rattle.mz_decl.specs.View.{plain_decls};
ghost use Rattle.mz_perm.specs.Lists.{Which};
ghost use Rattle.mz_modes.specs.Making.{Makes};
ghost use Rattle.mz_modes.specs.Answers.{Answers};
ghost use Rattle.mz_adopt.specs.Adopting.{Gives, GiveRule};

use crate::adopter::adopted_by;
use mz_decl::Decls;
use mz_modes::{Modes, RuleFault};
use mz_perm::State;
use mz_tree::{Atom, Command, Op, Ty};
use std::alloc::Global;

/// Changes the state by the rule of a give, with the permission of the adopter that the command is said to use. The
/// permission of the block that is given goes, the first copy of it; that the block may be asked for and the unit result
/// come to the end, in this order.
///
/// `NoInstance` comes just where the rule leads from the state to no other: where the command is no give, its name
/// occurs in the state, no permission is named, the named one doesn't say that the adopter adopts a data type, the block
/// isn't held at that data type, or the named one isn't held beside it. After either fault the state is as it was.
pub fn give_rule(
    alloc: Global,
    decls: &Decls,
    _modes: &Modes,
    state: &mut State,
    command: &Command,
    uses: Option<&Atom>,
) -> Result<(), RuleFault>
    ensures { Answers (λ (which : Which) (S : List (PlainAtom ℕ)). Makes (GiveRule which (plain_decls decls.now) state.old) state.old (plain_command command.now) (option_map plain_atom (option_copied uses.entry)) S) state.old state.new result }
{
    if state.occurs(command.to) {
        return Err(RuleFault::NoInstance);
    }
    match (&command.op, uses) {
        (Op::Give { block, adopter }, Some(atom)) => {
            give(alloc, decls, state, command.to, *block, *adopter, atom)
        }
        _ => Err(RuleFault::NoInstance),
    }
}

// gives the block to the adopter that has this permission
fn give(
    alloc: Global,
    decls: &Decls,
    state: &mut State,
    to: u32,
    block: u32,
    adopter: u32,
    atom: &Atom,
) -> Result<(), RuleFault>
    ensures { Answers (λ (which : Which) (S : List (PlainAtom ℕ)). Gives which (plain_decls decls.now) state.old to block adopter (plain_atom atom.now) S) state.old state.new result }
{
    let adopted = match adopted_by(decls, adopter, atom) {
        Some(adopted) => adopted,
        None => return Err(RuleFault::NoInstance),
    };
    let mut next = state.copy(alloc)?;
    let given = Atom::Has {
        name: block,
        ty: Ty::Named(adopted),
    };
    if !next.remove(&given) {
        return Err(RuleFault::NoInstance);
    }
    if !next.has(atom) {
        return Err(RuleFault::NoInstance);
    }
    next.add(Atom::Has {
        name: block,
        ty: Ty::Dynamic,
    })?;
    next.add(Atom::Has {
        name: to,
        ty: Ty::Unknown,
    })?;
    *state = next;
    Ok(())
}
