//! One command without branches that looks for nothing: what the guided rules do for it.
ghost use Rattle.std.specs.Prelude.{◌≡◌, ◌<◌, ◌∷◌, [], IfOk, length};
ghost use Rattle.mz_tree.specs.Code.{Int_op, Unit_op, Fun_op, Copy_op, Arith_op, New_lock_op, New_op, Print_op};
ghost use Rattle.mz_tree.specs.Plain.{Has_atom, Int_type};
ghost use Rattle.mz_tree.specs.View.{plain_atom, plain_atoms};
ghost use Rattle.mz_tree.specs.declared.code.Arith.{Arith};
ghost use Rattle.mz_decl.specs.Declarations.{Decls as PlainDecls};
ghost use Rattle.mz_decl.specs.View.{plain_decls};
ghost use Rattle.mz_modes.specs.Modes.{AreModes};
ghost use Rattle.mz_elab.specs.Acting.{Acts};
ghost use Rattle.mz_elab.specs.Doing.{ActsOr};

use crate::doing::{add_plain, meet_then_add};
use crate::fault::ElabFault;
use mz_decl::Decls;
use mz_deriv::Item;
use mz_index::Indexed;
use mz_modes::Modes;
use mz_tree::{Alike, Atom, Atoms, Memory, Names, Place, Ty};
use sqlite_items::Items;
use std::alloc::Global;

// a number
pub(crate) fn make_number(
    alloc: Global,
    state: &mut Indexed,
    next: u32,
    to: u32,
    value: u64,
    items: &mut Items<Item>,
) -> Result<(), Memory>
    ensures { (D : PlainDecls) → IfOk result (λ _. Acts D state.old next to (Int_op value) state.new next) }
{
    let atom = Atom::Has {
        name: to,
        ty: Ty::Int,
    };
    add_plain(alloc, state, atom, items)?;
    Ok(())
}

// the value ()
pub(crate) fn make_unit(
    alloc: Global,
    state: &mut Indexed,
    next: u32,
    to: u32,
    items: &mut Items<Item>,
) -> Result<(), Memory>
    ensures { (D : PlainDecls) → IfOk result (λ _. Acts D state.old next to Unit_op state.new next) }
{
    let atom = Atom::Has {
        name: to,
        ty: Ty::Unknown,
    };
    add_plain(alloc, state, atom, items)?;
    Ok(())
}

// what a name holds
pub(crate) fn make_copy(
    alloc: Global,
    state: &mut Indexed,
    next: u32,
    to: u32,
    source: u32,
    items: &mut Items<Item>,
) -> Result<(), Memory>
    ensures { (D : PlainDecls) → IfOk result (λ _. Acts D state.old next to (Copy_op source) state.new next) }
{
    let atom = Atom::Same {
        left: to,
        right: source,
    };
    add_plain(alloc, state, atom, items)?;
    Ok(())
}

// a function
pub(crate) fn make_function(
    alloc: Global,
    decls: &Decls,
    state: &mut Indexed,
    next: u32,
    to: u32,
    function: u32,
    items: &mut Items<Item>,
) -> Result<(), Memory>
    requires { function < length (plain_decls decls.now).fun_sigs }
    ensures { IfOk result (λ _. Acts (plain_decls decls.now) state.old next to (Fun_op function) state.new next) }
{
    let atom = Atom::Has {
        name: to,
        ty: Ty::Function(decls.sig_of(function)),
    };
    add_plain(alloc, state, atom, items)?;
    Ok(())
}

// a new block
pub(crate) fn make_block(
    alloc: Global,
    state: &mut Indexed,
    next: u32,
    to: u32,
    con: u32,
    fields: &Names,
    items: &mut Items<Item>,
) -> Result<(), Memory>
    ensures { (D : PlainDecls) → IfOk result (λ _. Acts D state.old next to (New_op con fields.now) state.new next) }
{
    let atom = Atom::Has {
        name: to,
        ty: Ty::Block {
            con,
            fields: fields.copy(alloc)?,
            adopts: None,
        },
    };
    add_plain(alloc, state, atom, items)?;
    Ok(())
}

// arithmetic: both names are held as integers
pub(crate) fn compute(
    alloc: Global,
    decls: &Decls,
    modes: &Modes,
    bound: &[u32],
    next: u32,
    state: &mut Indexed,
    to: u32,
    left: u32,
    right: u32,
    place: Place,
    items: &mut Items<Item>,
) -> Result<(), ElabFault>
    requires { AreModes (plain_decls decls.now) modes.now }
    ensures { (op : Arith) → ActsOr (plain_decls decls.now) state.old next to (Arith_op op left right) place state.new next result }
{
    let goals = two(alloc, number(left), number(right))?;
    meet_then_add(
        alloc,
        decls,
        modes,
        bound,
        next,
        state,
        goals.as_slice(),
        place,
        number(to),
        items,
    )
}

// a name is held as an integer
pub(crate) fn number(name: u32) -> Atom
    ensures { plain_atom result ≡ Has_atom name Int_type }
{
    Atom::Has { name, ty: Ty::Int }
}

// one permission, two permissions
pub(crate) fn one(alloc: Global, atom: Atom) -> Result<Atoms, Memory>
    ensures { IfOk result (λ it. plain_atoms it ≡ plain_atom atom ∷ []) }
{
    let mut all = Items::new(alloc);
    all.push(atom)?;
    Ok(all)
}

fn two(alloc: Global, first: Atom, second: Atom) -> Result<Atoms, Memory>
    ensures { IfOk result (λ it. plain_atoms it ≡ plain_atom first ∷ plain_atom second ∷ []) }
{
    let mut all = one(alloc, first)?;
    all.push(second)?;
    Ok(all)
}

// a print: what is printed is held as an integer
pub(crate) fn print(
    alloc: Global,
    decls: &Decls,
    modes: &Modes,
    bound: &[u32],
    next: u32,
    state: &mut Indexed,
    to: u32,
    source: u32,
    place: Place,
    items: &mut Items<Item>,
) -> Result<(), ElabFault>
    requires { AreModes (plain_decls decls.now) modes.now }
    ensures { ActsOr (plain_decls decls.now) state.old next to (Print_op source) place state.new next result }
{
    let goals = one(alloc, number(source))?;
    let added = Atom::Has {
        name: to,
        ty: Ty::Unknown,
    };
    meet_then_add(
        alloc,
        decls,
        modes,
        bound,
        next,
        state,
        goals.as_slice(),
        place,
        added,
        items,
    )
}

// a new lock: what it guards is given
pub(crate) fn make_lock(
    alloc: Global,
    decls: &Decls,
    modes: &Modes,
    bound: &[u32],
    next: u32,
    state: &mut Indexed,
    to: u32,
    guarded: &Atoms,
    place: Place,
    items: &mut Items<Item>,
) -> Result<(), ElabFault>
    requires { AreModes (plain_decls decls.now) modes.now }
    ensures { ActsOr (plain_decls decls.now) state.old next to (New_lock_op (plain_atoms guarded.now)) place state.new next result }
{
    let lock = Atom::Has {
        name: to,
        ty: Ty::Lock(guarded.copy(alloc)?),
    };
    let goals = guarded.as_slice();
    meet_then_add(
        alloc, decls, modes, bound, next, state, goals, place, lock, items,
    )
}
