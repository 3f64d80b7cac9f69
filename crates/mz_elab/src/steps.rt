//! One command without branches.
ghost use Rattle.std.specs.Prelude.{◌≡◌, false, reverse};
ghost use Rattle.mz_tree.specs.Code.{op_branches};
ghost use Rattle.mz_tree.specs.View.{plain_op};
ghost use Rattle.mz_decl.specs.View.{plain_decls};
ghost use Rattle.mz_modes.specs.Modes.{AreModes};
ghost use Rattle.mz_elab.specs.Doing.{ActsOr};
ghost use Rattle.mz_elab.specs.Scoping.{ScopedOp};

use crate::acting::{
    compute, make_block, make_copy, make_function, make_lock, make_number, make_unit, print,
};
use crate::adopting::{give_block, take_block};
use crate::calling::{call, spawn};
use crate::changing::{read, retag, write};
use crate::fault::ElabFault;
use crate::locking::{acquire, release};
use mz_decl::Decls;
use mz_deriv::Item;
use mz_index::Indexed;
use mz_modes::Modes;
use mz_tree::{Op, Place};
use sqlite_items::Items;
use std::alloc::Global;

// does what the command does
pub(crate) fn act(
    alloc: Global,
    decls: &Decls,
    modes: &Modes,
    bound: &[u32],
    next: &mut u32,
    state: &mut Indexed,
    to: u32,
    op: &Op,
    place: Place,
    items: &mut Items<Item>,
) -> Result<(), ElabFault>
    requires modes { AreModes (plain_decls decls.now) modes.now }
    requires scoped { ScopedOp (plain_decls decls.now) (reverse bound.now) to (plain_op op.now) }
    requires straight { op_branches (plain_op op.now) ≡ false }
    ensures { ActsOr (plain_decls decls.now) state.old next.old to (plain_op op.now) place state.new next.new result }
{
    match op {
        Op::Int(value) => {
            make_number(alloc, state, *next, to, *value, items)?;
            Ok(())
        }
        Op::Unit => {
            make_unit(alloc, state, *next, to, items)?;
            Ok(())
        }
        Op::Fun(function) => {
            make_function(alloc, decls, state, *next, to, *function, items)?;
            Ok(())
        }
        Op::Copy(source) => {
            make_copy(alloc, state, *next, to, *source, items)?;
            Ok(())
        }
        Op::Arith { op: _, left, right } => compute(
            alloc, decls, modes, bound, *next, state, to, *left, *right, place, items,
        ),
        Op::New { con, fields } => {
            make_block(alloc, state, *next, to, *con, fields, items)?;
            Ok(())
        }
        Op::Read { block, con, field } => read(
            alloc, decls, modes, bound, next, state, to, *block, *con, *field, place, items,
        ),
        Op::Write {
            block,
            con,
            field,
            from,
        } => write(
            alloc, decls, modes, bound, next, state, to, *block, *con, *field, *from, place, items,
        ),
        Op::Retag {
            block,
            from,
            to: tag,
        } => retag(
            alloc, decls, modes, bound, next, state, to, *block, *from, *tag, place, items,
        ),
        Op::If { .. } => unreachable!(),
        Op::Match { .. } => unreachable!(),
        Op::Call { callee, args } => call(
            alloc, decls, modes, bound, *next, state, to, *callee, args, place, items,
        ),
        Op::Give { block, adopter } => give_block(
            alloc, decls, modes, bound, *next, state, to, *block, *adopter, place, items,
        ),
        Op::Take { block, adopter } => take_block(
            alloc, decls, modes, bound, *next, state, to, *block, *adopter, place, items,
        ),
        Op::NewLock(guarded) => make_lock(
            alloc, decls, modes, bound, *next, state, to, guarded, place, items,
        ),
        Op::Acquire(lock) => acquire(
            alloc, decls, modes, bound, *next, state, to, *lock, place, items,
        ),
        Op::Release(lock) => release(
            alloc, decls, modes, bound, *next, state, to, *lock, place, items,
        ),
        Op::Spawn { callee, arg } => spawn(
            alloc, decls, modes, bound, *next, state, to, *callee, *arg, place, items,
        ),
        Op::Print(source) => print(
            alloc, decls, modes, bound, *next, state, to, *source, place, items,
        ),
    }
}
