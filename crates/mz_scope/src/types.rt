//! Types and permissions as they are written, and what they come to. The three functions of the cycle lead into each
//! other as types and permissions do; how deep they go is bounded by the brackets of the source.
ghost use Rattle.std.specs.Prelude.{◌≡◌, map, option_map};
ghost use Rattle.std.specs.Option.{option_copied};
ghost use Rattle.mz_tree.specs.View.{plain_ty, plain_atom, plain_atoms};
ghost use Rattle.mz_scope.specs.Types.{adopted, flat_field_names, flat_typed, flat_atom, flat_atoms};
ghost use Rattle.mz_scope.specs.Names.{Globals as PlainGlobals, TypeEntry};
ghost use Rattle.mz_scope.specs.Kinds.{named_type, structure_type};
ghost use Rattle.mz_scope.specs.Trees.{word_of, field_name_of, type_tree, atom_tree, atom_trees};
ghost use Rattle.mz_scope.specs.View.{made_of, Comes, as_is};

use crate::fault::Cause;
use crate::fields::{are_fields, in_order, is_field, number_of};
use crate::known::{con_by_name, data_by_name, name_in};
use crate::making::Making;
use crate::names::ConEntry;
use crate::words::Source;
use mz_names::{FieldList, Scope};
use mz_token::Token;
use mz_tree::{Atom, Atoms, Clause, Memory, Ty};
use mz_types::{FieldName, SurfaceAtom, SurfaceType};
use sqlite_items::Items;

// what a structural type adopts, if anything
fn adopted(
    source: &Source<'_>,
    con: u32,
    name: Option<Token>,
    making: &mut Making,
) -> Result<Option<u32>, Memory>
    ensures { Comes as_is (adopted source.now.globals.now con (option_map (word_of source.now.text.now) name)) making.old result making.new }
{
    match name {
        Some(name) => {
            let adopts = data_by_name(source, &name, making)?;
            making.clause(Clause {
                place: name.place,
                con,
                adopts,
            })?;
            Ok(Some(adopts))
        }
        None => Ok(None),
    }
}

// the fields of a structural type with their names' numbers, as they are written
fn field_names(
    source: &Source<'_>,
    scope: &Scope,
    con: Option<&ConEntry>,
    fields: &[FieldName],
    making: &mut Making,
) -> Result<FieldList, Memory>
    ensures { Comes as_is (flat_field_names source.now.globals.now scope.now (option_copied con.entry) (map (field_name_of source.now.text.now) fields.now)) making.old result making.new }
{
    let mut written = FieldList::new(source.alloc);
    for i in 0..fields.len() {
        is_field(source, con, &fields[i].field, making)?;
        let number = name_in(source, scope, &fields[i].name, making)?;
        written.push(source.alloc, source.spelled(&fields[i].field), number)?;
    }
    Ok(written)
}

// the permission of name x at a data type or a signature
fn named(source: &Source<'_>, x: u32, name: &Token, making: &mut Making) -> Result<Atom, Memory>
    ensures { Comes plain_atom (named_type source.now.globals.now x (word_of source.now.text.now name.now)) making.old result making.new }
{
    match source.globals.type_named(source.spelled(name)) {
        Some(ty) => Ok(Atom::Has { name: x, ty }),
        None => {
            making.fault(Cause::Unknown, name.place)?;
            Ok(Atom::Has {
                name: x,
                ty: Ty::Named(0),
            })
        }
    }
}

// the permission of name x at a structural type
fn structure(
    source: &Source<'_>,
    scope: &Scope,
    x: u32,
    con: &Token,
    fields: &[FieldName],
    adopts: Option<Token>,
    making: &mut Making,
) -> Result<Atom, Memory>
    ensures { Comes plain_atom (structure_type source.now.globals.now scope.now x (word_of source.now.text.now con.now) (map (field_name_of source.now.text.now) fields.now) (option_map (word_of source.now.text.now) adopts)) making.old result making.new }
{
    let entry = con_by_name(source, con, making)?;
    let written = field_names(source, scope, entry, fields, making)?;
    are_fields(entry, &written, con.place, making)?;
    let adopts = adopted(source, number_of(entry), adopts, making)?;
    Ok(Atom::Has {
        name: x,
        ty: Ty::Block {
            con: number_of(entry),
            fields: in_order(source.alloc, entry, &written)?,
            adopts,
        },
    })
}

/// The permission of name x at a type.
#[cycle(types)]
#[tactic(auto, unfolding(crate::specs::Types::flat_typed), using(crate::proofs::TypeForms::lock_tree_is))]
pub(crate) fn typed(
    source: &Source<'_>,
    scope: &Scope,
    x: u32,
    ty: &SurfaceType,
    making: &mut Making,
) -> Result<Atom, Memory>
    ensures { Comes plain_atom (flat_typed source.now.globals.now scope.now x (type_tree source.now.text.now ty.now)) making.old result making.new }
{
    match ty {
        SurfaceType::Int(_) => Ok(Atom::Has {
            name: x,
            ty: Ty::Int,
        }),
        SurfaceType::Unknown(_) => Ok(Atom::Has {
            name: x,
            ty: Ty::Unknown,
        }),
        SurfaceType::Dynamic(_) => Ok(Atom::Has {
            name: x,
            ty: Ty::Dynamic,
        }),
        SurfaceType::Locked(_) => Ok(Atom::Has {
            name: x,
            ty: Ty::Locked,
        }),
        SurfaceType::Singleton { name, .. } => Ok(Atom::Same {
            left: x,
            right: name_in(source, scope, name, making)?,
        }),
        SurfaceType::Named(name) => named(source, x, name, making),
        SurfaceType::Lock { guarded, .. } => Ok(Atom::Has {
            name: x,
            ty: Ty::Lock(atoms(source, scope, guarded.as_slice(), making)?),
        }),
        SurfaceType::Structure {
            con,
            fields,
            adopts,
        } => structure(source, scope, x, con, fields.as_slice(), *adopts, making),
    }
}

/// A permission.
#[cycle(types)]
#[tactic(auto, unfolding(crate::specs::Types::flat_atom))]
pub(crate) fn atom(
    source: &Source<'_>,
    scope: &Scope,
    atom: &SurfaceAtom,
    making: &mut Making,
) -> Result<Atom, Memory>
    ensures { Comes plain_atom (flat_atom source.now.globals.now scope.now (atom_tree source.now.text.now atom.now)) making.old result making.new }
{
    match atom {
        SurfaceAtom::Has { name, ty } => {
            let x = name_in(source, scope, name, making)?;
            typed(source, scope, x, ty, making)
        }
        SurfaceAtom::Same { left, right } => {
            let left = name_in(source, scope, left, making)?;
            let right = name_in(source, scope, right, making)?;
            Ok(Atom::Same { left, right })
        }
    }
}

/// Permissions, one after the other.
#[cycle(types)]
pub(crate) fn atoms(
    source: &Source<'_>,
    scope: &Scope,
    all: &[SurfaceAtom],
    making: &mut Making,
) -> Result<Atoms, Memory>
    ensures { Comes plain_atoms (flat_atoms source.now.globals.now scope.now (atom_trees source.now.text.now all.now)) making.old result making.new }
{
    let mut atoms = Items::new(source.alloc);
    for i in 0..all.len() {
        atoms.push(atom(source, scope, &all[i], making)?)?;
    }
    Ok(atoms)
}
