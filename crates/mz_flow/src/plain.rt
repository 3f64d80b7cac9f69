//! The rules of the plain commands, which have no bodies of their own, and of calls.
ghost use Rattle.std.specs.Prelude.{Some, None, option_map, option_copied};
ghost use Rattle.mz_tree.specs.View.{plain_atom, plain_command, plain_op};
ghost use Rattle.mz_decl.specs.View.{plain_decls};
ghost use Rattle.mz_modes.specs.Modes.{AreModes};
ghost use Rattle.mz_modes.specs.Making.{Makes};
ghost use Rattle.mz_modes.specs.Answers.{Answers};
ghost use Rattle.mz_flow.specs.Commands.{NamesFunction, PlainRule};

use crate::adding::{add, compute, make, print, read};
use crate::calling::call;
use crate::changing::{retag, write};
use mz_decl::Decls;
use mz_modes::{Modes, RuleFault};
use mz_perm::State;
use mz_tree::{Atom, Command, Op, Ty};
use std::alloc::Global;

/// Changes the state by the rule of a plain command or of a call, with the permission that it is said to use, if it is
/// said to use one. The modes are those of the declarations.
///
/// `NoInstance` comes just where the rule leads from the state to no other: where the command's name occurs in it, a
/// condition of the rule isn't met, a permission is named that the rule doesn't use or none where it uses one, or the
/// command is of a kind that has no rule here. After either fault the state is as it was. A read leaves the permission
/// that it uses; a write and a change of tag take one copy of it out, and add the changed one at the end; a call takes out
/// what it needs in order, and adds what it gives back and gives.
pub fn plain_rule(
    alloc: Global,
    decls: &Decls,
    modes: &Modes,
    state: &mut State,
    command: &Command,
    uses: Option<&Atom>,
) -> Result<(), RuleFault>
    requires { AreModes (plain_decls decls.now) modes.now }
    ensures { Answers (λ which. Makes (PlainRule which (plain_decls decls.now) state.old) state.old (plain_command command.now) (option_map plain_atom (option_copied uses.entry))) state.old state.new result }
{
    if state.occurs(command.to) {
        return Err(RuleFault::NoInstance);
    }
    match uses {
        None => alone(alloc, decls, state, command.to, &command.op),
        Some(atom) => using(alloc, decls, modes, state, command.to, &command.op, atom),
    }
}

// changes the state by the rule of an operation that uses no permission
fn alone(alloc: Global, decls: &Decls, state: &mut State, to: u32, op: &Op) -> Result<(), RuleFault>
    ensures { Answers (λ which. PlainRule which (plain_decls decls.now) state.old to (plain_op op.now) None) state.old state.new result }
{
    match op {
        Op::Int(_) => add(
            state,
            Atom::Has {
                name: to,
                ty: Ty::Int,
            },
        ),
        Op::Unit => add(
            state,
            Atom::Has {
                name: to,
                ty: Ty::Unknown,
            },
        ),
        Op::Fun(fun) => name_function(decls, state, to, *fun),
        Op::Copy(from) => add(
            state,
            Atom::Same {
                left: to,
                right: *from,
            },
        ),
        Op::Arith { op: _, left, right } => compute(state, to, *left, *right),
        Op::New { con, fields } => make(alloc, state, to, *con, fields),
        Op::Print(from) => print(state, to, *from),
        _ => Err(RuleFault::NoInstance),
    }
}

// adds the type of a function's signature
fn name_function(decls: &Decls, state: &mut State, to: u32, fun: u32) -> Result<(), RuleFault>
    ensures { Answers (λ _. NamesFunction (plain_decls decls.now) state.old to fun) state.old state.new result }
{
    if fun >= decls.funs() {
        return Err(RuleFault::NoInstance);
    }
    let sig = decls.sig_of(fun);
    add(
        state,
        Atom::Has {
            name: to,
            ty: Ty::Function(sig),
        },
    )
}

// changes the state by the rule of an operation that uses this permission
fn using(
    alloc: Global,
    decls: &Decls,
    modes: &Modes,
    state: &mut State,
    to: u32,
    op: &Op,
    atom: &Atom,
) -> Result<(), RuleFault>
    requires { AreModes (plain_decls decls.now) modes.now }
    ensures { Answers (λ which. PlainRule which (plain_decls decls.now) state.old to (plain_op op.now) (Some (plain_atom atom.now))) state.old state.new result }
{
    match op {
        Op::Read { block, con, field } => read(state, to, *block, *con, *field, atom),
        Op::Write {
            block,
            con,
            field,
            from,
        } => write(alloc, modes, state, to, *block, *con, *field, *from, atom),
        Op::Retag {
            block,
            from,
            to: new,
        } => retag(alloc, decls, modes, state, to, *block, *from, *new, atom),
        Op::Call { callee, args } => call(alloc, decls, modes, state, to, *callee, args, atom),
        _ => Err(RuleFault::NoInstance),
    }
}
