//! Equations of joined names, and the view steps that make them.
//!
//! The search begins at the left name and goes along equations until it comes to the right one. For each name that it
//! reaches an equation with the left name is made and stands in the state that the steps lead to, so that each new one
//! comes of one step further; all but the wanted one are dropped at the end. A name that an equation joins to the left
//! one directly takes one step, and the left name itself takes one.
ghost use Rattle.std.specs.Prelude.{◌≡◌, ◌++◌, ◌∷◌, [], IfOk, map};
ghost use Rattle.mz_tree.specs.Plain.{Has_atom, Same_atom};
ghost use Rattle.mz_tree.specs.View.{plain_atom, plain_ty};
ghost use Rattle.mz_decl.specs.Declarations.{Decls as PlainDecls};
ghost use Rattle.mz_modes.specs.Modes.{AreModes};
ghost use Rattle.mz_perm.specs.Joining.{Joined};
ghost use Rattle.mz_view.specs.Steps.{plain_steps};
ghost use Rattle.mz_goal.specs.Leads.{to_name};
ghost use Rattle.mz_goal.specs.Changing.{DropsKept};
ghost use Rattle.mz_goal.specs.Added.{Added};
ghost use Rattle.mz_goal.specs.Reaching.{Follows, FollowsBack, Reaches, ReachesOne, back_steps, drop_steps, equal_to, has, over_steps};

use mz_index::Indexed;
use mz_modes::Modes;
use mz_tree::{Alike, Atom, Memory, Ty};
use mz_view::{ViewStep, ViewSteps};
use sqlite_items::Items;
use std::alloc::Global;

// adds the steps to the equation of two joined names
pub(crate) fn equate(
    alloc: Global,
    state: &Indexed,
    left: u32,
    right: u32,
    steps: &mut ViewSteps,
) -> Result<(), Memory>
    requires { Joined state.now left right }
    ensures { (D : PlainDecls) → IfOk result (λ _. Added D state.now (plain_steps steps.old) (plain_steps steps.new) (state.now ++ Same_atom left right ∷ [])) }
{
    if left == right {
        steps.push(ViewStep::Equal { left, right })?;
        return Ok(());
    }
    let mut reached = Items::new(alloc);
    while let Some(name) = reach(state, left, reached.as_slice(), steps)? {
        if name == right {
            forget(left, reached.as_slice(), steps)?;
            return Ok(());
        }
        reached.push(name)?;
    }
    // the names are joined, so that the search doesn't end here
    Ok(())
}

// adds the steps by which what stands at the end, a permission of the one name, becomes one of the other
pub(crate) fn rename(
    alloc: Global,
    modes: &Modes,
    state: &Indexed,
    from: u32,
    ty: &Ty,
    to: u32,
    steps: &mut ViewSteps,
) -> Result<(), Memory>
    requires { Joined state.now to from }
    ensures { (D : PlainDecls) → AreModes D modes.now → IfOk result (λ _. Added D (state.now ++ Has_atom from (plain_ty ty.now) ∷ []) (plain_steps steps.old) (plain_steps steps.new) (state.now ++ Has_atom to (plain_ty ty.now) ∷ [])) }
{
    if from == to {
        return Ok(());
    }
    equate(alloc, state, to, from, steps)?;
    give_name(alloc, from, ty, to, steps)?;
    drop_kept(alloc, modes, from, ty, steps)
}

// gives the permission another name, whose equation with its own is used up
fn give_name(
    alloc: Global,
    from: u32,
    ty: &Ty,
    to: u32,
    steps: &mut ViewSteps,
) -> Result<(), Memory>
    ensures { IfOk result (λ _. plain_steps steps.new ≡ plain_steps steps.old ++ to_name (Has_atom from (plain_ty ty.now)) to from) }
{
    steps.push(ViewStep::Equal {
        left: to,
        right: from,
    })?;
    steps.push(ViewStep::Rename {
        atom: has(alloc, from, ty)?,
        to,
    })?;
    steps.push(ViewStep::Drop {
        atom: Atom::Same {
            left: to,
            right: from,
        },
    })?;
    steps.push(ViewStep::Drop {
        atom: Atom::Same {
            left: from,
            right: to,
        },
    })?;
    Ok(())
}

// drops a permission that a step has used and left, as it leaves what is duplicable
pub(crate) fn drop_kept(
    alloc: Global,
    modes: &Modes,
    name: u32,
    ty: &Ty,
    steps: &mut ViewSteps,
) -> Result<(), Memory>
    ensures { (D : PlainDecls) → AreModes D modes.now → IfOk result (λ _. DropsKept D (Has_atom name (plain_ty ty.now)) (plain_steps steps.old) (plain_steps steps.new)) }
{
    let atom = has(alloc, name, ty)?;
    if modes.duplicable(&atom) {
        steps.push(ViewStep::Drop { atom })?;
    }
    Ok(())
}

// a permission
pub(crate) fn has(alloc: Global, name: u32, ty: &Ty) -> Result<Atom, Memory>
    ensures { IfOk result (λ it. plain_atom it ≡ Has_atom name (plain_ty ty.now)) }
{
    Ok(Atom::Has {
        name,
        ty: ty.copy(alloc)?,
    })
}

// goes on to a name that an equation joins to one that was reached
fn reach(
    state: &Indexed,
    from: u32,
    reached: &[u32],
    steps: &mut ViewSteps,
) -> Result<Option<u32>, Memory>
    ensures { IfOk result (λ it. ReachesOne it state.now from reached.now steps.old steps.new) }
{
    for i in 0..state.len() {
        match reach_over(state.at(i), from, reached, steps)? {
            Some(name) => return Ok(Some(name)),
            None => {}
        }
    }
    Ok(None)
}

// the same over one permission, where it is an equation
fn reach_over(
    atom: &Atom,
    from: u32,
    reached: &[u32],
    steps: &mut ViewSteps,
) -> Result<Option<u32>, Memory>
    ensures { IfOk result (λ it. Reaches it (plain_atom atom.now) from reached.now steps.old steps.new) }
{
    match atom {
        Atom::Has { .. } => Ok(None),
        Atom::Same { left, right } => {
            let has_left = is_reached(from, reached, *left);
            let has_right = is_reached(from, reached, *right);
            if has_left == has_right {
                return Ok(None);
            }
            if has_left {
                follow(from, *left, *right, steps)?;
                return Ok(Some(*right));
            }
            follow_back(from, *left, *right, steps)?;
            Ok(Some(*left))
        }
    }
}

// whether the name is the first one or one of these
fn is_reached(from: u32, reached: &[u32], name: u32) -> bool
    ensures { result ≡ has (from ∷ reached.now) name }
{
    if from == name {
        return true;
    }
    is_in(reached, name)
}

fn is_in(names: &[u32], name: u32) -> bool
    ensures { result ≡ has names.now name }
{
    names.iter().any(|n| *n == name)
}

// from `from = left` over `left = right` to `from = right`
fn follow(from: u32, left: u32, right: u32, steps: &mut ViewSteps) -> Result<(), Memory>
    ensures { IfOk result (λ _. Follows from left right (plain_steps steps.old) (plain_steps steps.new)) }
{
    if left == from {
        steps.push(ViewStep::Copy {
            atom: Atom::Same { left, right },
        })?;
        return Ok(());
    }
    pass_over(from, left, right, steps)
}

// from `from = right` over `left = right` to `from = left`
fn follow_back(from: u32, left: u32, right: u32, steps: &mut ViewSteps) -> Result<(), Memory>
    ensures { IfOk result (λ _. FollowsBack from left right (plain_steps steps.old) (plain_steps steps.new)) }
{
    if right == from {
        steps.push(ViewStep::Equal { left, right })?;
        return Ok(());
    }
    steps.push(ViewStep::Equal { left, right })?;
    pass_over(from, right, left, steps)?;
    steps.push(ViewStep::Drop {
        atom: Atom::Same {
            left: right,
            right: left,
        },
    })?;
    Ok(())
}

// the steps over an equation whose left side isn't the first name
fn pass_over(from: u32, left: u32, right: u32, steps: &mut ViewSteps) -> Result<(), Memory>
    ensures { IfOk result (λ _. plain_steps steps.new ≡ plain_steps steps.old ++ over_steps from left right) }
{
    steps.push(ViewStep::Equal {
        left: from,
        right: left,
    })?;
    steps.push(ViewStep::Rename {
        atom: Atom::Same { left, right },
        to: from,
    })?;
    steps.push(ViewStep::Drop {
        atom: Atom::Same { left, right: from },
    })?;
    Ok(())
}

// drops the equations of the first name with these
fn forget(from: u32, reached: &[u32], steps: &mut ViewSteps) -> Result<(), Memory>
    ensures { IfOk result (λ _. plain_steps steps.new ≡ plain_steps steps.old ++ drop_steps (equal_to from reached.now)) }
{
    for i in 0..reached.len() {
        steps.push(ViewStep::Drop {
            atom: Atom::Same {
                left: from,
                right: reached[i],
            },
        })?;
    }
    Ok(())
}
