//! Marks of data types and constructors.
ghost use Rattle.std.specs.Prelude.{◌≡◌, ◌↔◌, IsTrue, IfOk, true, Some, slice_get, map, length, ◌<◌};
ghost use Rattle.mz_tree.specs.View.{plain_atom, plain_field, plain_con};
ghost use Rattle.mz_decl.specs.View.{plain_decls};
ghost use Rattle.mz_modes.specs.Marks.{mark_in, mutable_in, mutable_cons_in, Marked, AnyMarked, AreMutableCons, IsRound, Rounds, Marks};

use mz_decl::Decls;
use mz_tree::{Atom, Con, Field, Memory, Ty};
use sqlite_items::Items;
use std::alloc::Global;

/// Whether there is a mark at this place. It takes no memory.
pub fn is_marked(marks: &[bool], at: u32) -> bool
    ensures mark { result ≡ mark_in (slice_get marks.now at) }
    ensures marked { IsTrue result ↔ (slice_get marks.now at ≡ Some true) }
{
    match marks.get(at as usize) {
        Some(mark) => *mark,
        None => false,
    }
}

/// A mark for each data type: whether it is mutable.
pub fn mutable_varieties(alloc: Global, decls: &Decls) -> Result<Items<bool>, Memory>
    ensures { IfOk result (λ it. it ≡ mutable_in (plain_decls decls.now).varieties) }
{
    let mut marks = Items::new(alloc);
    for d in 0..decls.varieties() {
        marks.push(decls.variety(d).mutable)?;
    }
    Ok(marks)
}

/// A mark for each constructor: whether its data type has one.
pub fn mutable_cons(alloc: Global, decls: &Decls, varieties: &[bool]) -> Result<Items<bool>, Memory>
    ensures { IfOk result (λ it. it ≡ mutable_cons_in varieties.now (plain_decls decls.now).cons) }
{
    let mut marks = Items::new(alloc);
    for k in 0..decls.cons() {
        marks.push(is_marked(varieties, decls.con(k).variety))?;
    }
    Ok(marks)
}

/// Marks the data types whose fields are affine by the marks so far, and says whether there was one to mark.
pub fn round(decls: &Decls, cons: &[bool], marks: &mut Items<bool>) -> bool
    requires mutable { AreMutableCons (plain_decls decls.now) cons.now }
    requires round { IsRound (plain_decls decls.now) marks.old }
    ensures round { IsRound (plain_decls decls.now) marks.new }
    ensures tells { Rounds result (length (plain_decls decls.now).cons) (plain_decls decls.now) cons.now marks.old marks.new }
{
    let mut changed = false;
    for k in 0..decls.cons() {
        if mark(cons, marks, decls.con(k)) {
            changed = true;
        }
    }
    changed
}

// marks the data type of the constructor, if a field of it is affine
fn mark(cons: &[bool], marks: &mut Items<bool>, con: &Con) -> bool
    requires { con.now.variety < length marks.old }
    ensures { Marks result (plain_con con.now) cons.now marks.old marks.new }
{
    if !any_affine(cons, marks.as_slice(), con.fields.as_slice()) {
        return false;
    }
    if is_marked(marks.as_slice(), con.variety) {
        return false;
    }
    marks.set(con.variety as usize, true);
    true
}

// whether the content of one of the fields is affine by these marks
fn any_affine(cons: &[bool], marks: &[bool], fields: &[Field]) -> bool
    ensures { IsTrue result ↔ AnyMarked cons.now marks.now (map plain_field fields.now) }
{
    for i in 0..fields.len() {
        if is_affine(cons, marks, &fields[i].content) {
            return true;
        }
    }
    false
}

// whether the permission is affine by these marks
fn is_affine(cons: &[bool], marks: &[bool], atom: &Atom) -> bool
    ensures { IsTrue result ↔ Marked cons.now marks.now (plain_atom atom.now) }
{
    match atom {
        Atom::Same { .. } => false,
        Atom::Has { name: _, ty } => match ty {
            Ty::Locked => true,
            Ty::Named(data) => is_marked(marks, *data),
            Ty::Block { con, .. } => is_marked(cons, *con),
            Ty::Int => false,
            Ty::Unknown => false,
            Ty::Dynamic => false,
            Ty::Function(_) => false,
            Ty::Lock(_) => false,
        },
    }
}
