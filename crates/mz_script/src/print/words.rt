//! The parts of a line: names, declarations by their names, types and permissions.
//!
//! Each function writes its part behind a text, and nothing else. It fails only where memory is wanting; what was written
//! then is left there.
ghost use Rattle.std.specs.Prelude.{◌≡◌, ◌++◌, OnOk, codes, decimal, map, slice_get};
ghost use Rattle.mz_tree.specs.Plain.{atoms_of};
ghost use Rattle.mz_tree.specs.View.{plain_atom, plain_atoms, plain_field, plain_program, plain_ty};
ghost use Rattle.mz_script.specs.Words.{adopts_text, atom_text, atoms_text, block_text, con_fields, con_name, data_text, fields_text, name_text, sig_text, type_text};

use itoa::Buffer;
use mz_tree::{Atom, Field, Memory, Names, Program, Ty};

/// These bytes.
pub(crate) fn text(out: &mut Vec<u8>, bytes: &[u8]) -> Result<(), Memory>
    ensures { OnOk result (out.new.items ≡ out.old.items ++ bytes.now) }
{
    out.extend_from_slice(bytes)?;
    Ok(())
}

/// A number in decimal, without leading zero.
pub(crate) fn number(out: &mut Vec<u8>, number: u32) -> Result<(), Memory>
    ensures { OnOk result (out.new.items ≡ out.old.items ++ decimal number) }
{
    let mut buffer = Buffer::new();
    text(out, buffer.format(number).as_bytes())
}

/// A name: % and its number.
pub(crate) fn name(out: &mut Vec<u8>, name: u32) -> Result<(), Memory>
    ensures { OnOk result (out.new.items ≡ out.old.items ++ name_text name) }
{
    text(out, b"%")?;
    number(out, name)
}

/// A data type by its name; nothing where there is none of that number.
pub(crate) fn data(out: &mut Vec<u8>, program: &Program, variety: u32) -> Result<(), Memory>
    ensures { OnOk result (out.new.items ≡ out.old.items ++ data_text (plain_program program.now) variety) }
{
    match program.varieties.get(variety as usize) {
        Some(found) => text(out, found.name.as_slice()),
        None => Ok(()),
    }
}

// A signature by its name.
fn sig(out: &mut Vec<u8>, program: &Program, sig: u32) -> Result<(), Memory>
    ensures { OnOk result (out.new.items ≡ out.old.items ++ sig_text (plain_program program.now) sig) }
{
    match program.sigs.get(sig as usize) {
        Some(found) => text(out, found.name.as_slice()),
        None => Ok(()),
    }
}

// What a structural type adopts.
fn adopted(out: &mut Vec<u8>, program: &Program, adopts: Option<u32>) -> Result<(), Memory>
    ensures { OnOk result (out.new.items ≡ out.old.items ++ adopts_text (plain_program program.now) adopts) }
{
    match adopts {
        None => Ok(()),
        Some(variety) => {
            text(out, b" adopts ")?;
            data(out, program, variety)
        }
    }
}

// A field with the name that it has, behind what stands before it.
fn field(out: &mut Vec<u8>, before: &[u8], field: &Field, holds: u32) -> Result<(), Memory>
    ensures { OnOk result (out.new.items ≡ out.old.items ++ (before.now ++ (field.now.name ++ (codes " = " ++ name_text holds)))) }
{
    text(out, before)?;
    text(out, field.name.as_slice())?;
    text(out, b" = ")?;
    name(out, holds)
}

// Each field with its name, in declared order.
fn fields(out: &mut Vec<u8>, fields: &[Field], names: &[u32]) -> Result<(), Memory>
    ensures { OnOk result (out.new.items ≡ out.old.items ++ fields_text (codes " ") (map plain_field fields.now) names.now) }
{
    let mut before: &[u8] = b" ";
    for i in 0..fields.len().min(names.len()) {
        field(out, before, &fields[i], names[i])?;
        before = b"; ";
    }
    Ok(())
}

// A constructor by its name.
fn con_name(out: &mut Vec<u8>, program: &Program, con: u32) -> Result<(), Memory>
    ensures { OnOk result (out.new.items ≡ out.old.items ++ con_name (slice_get (plain_program program.now).cons con)) }
{
    match program.cons.get(con as usize) {
        Some(found) => text(out, found.name.as_slice()),
        None => Ok(()),
    }
}

// The fields of a constructor, with these names.
fn con_fields(out: &mut Vec<u8>, program: &Program, con: u32, names: &[u32]) -> Result<(), Memory>
    ensures { OnOk result (out.new.items ≡ out.old.items ++ fields_text (codes " ") (con_fields (slice_get (plain_program program.now).cons con)) names.now) }
{
    match program.cons.get(con as usize) {
        Some(found) => fields(out, found.fields.as_slice(), names),
        None => Ok(()),
    }
}

// A structural type.
fn block(
    out: &mut Vec<u8>,
    program: &Program,
    con: u32,
    names: &Names,
    adopts: Option<u32>,
) -> Result<(), Memory>
    ensures { OnOk result (out.new.items ≡ out.old.items ++ block_text (plain_program program.now) con names.now adopts) }
{
    con_name(out, program, con)?;
    text(out, b" {")?;
    con_fields(out, program, con, names.as_slice())?;
    text(out, b" }")?;
    adopted(out, program, adopts)
}

// What a name holds.
#[cycle(types)]
fn ty(out: &mut Vec<u8>, program: &Program, ty: &Ty) -> Result<(), Memory>
    ensures { OnOk result (out.new.items ≡ out.old.items ++ type_text (plain_program program.now) (plain_ty ty.now)) }
{
    match ty {
        Ty::Int => text(out, b"int"),
        Ty::Unknown => text(out, b"unknown"),
        Ty::Dynamic => text(out, b"dynamic"),
        Ty::Locked => text(out, b"locked"),
        Ty::Named(variety) => data(out, program, *variety),
        Ty::Function(number) => sig(out, program, *number),
        Ty::Block {
            con,
            fields,
            adopts,
        } => block(out, program, *con, fields, *adopts),
        Ty::Lock(guarded) => lock(out, program, guarded.as_slice()),
    }
}

// A lock, with what it guards.
#[cycle(types)]
fn lock(out: &mut Vec<u8>, program: &Program, guarded: &[Atom]) -> Result<(), Memory>
    ensures { OnOk result (out.new.items ≡ out.old.items ++ (codes "lock (" ++ (atoms_text (plain_program program.now) (atoms_of (plain_atoms guarded.now)) ++ codes ")"))) }
{
    text(out, b"lock (")?;
    atoms(out, program, guarded)?;
    text(out, b")")
}

/// A permission.
#[cycle(types)]
pub(crate) fn atom(out: &mut Vec<u8>, program: &Program, atom: &Atom) -> Result<(), Memory>
    ensures { OnOk result (out.new.items ≡ out.old.items ++ atom_text (plain_program program.now) (plain_atom atom.now)) }
{
    match atom {
        Atom::Has {
            name: holder,
            ty: held,
        } => {
            name(out, *holder)?;
            text(out, b" @ ")?;
            ty(out, program, held)
        }
        Atom::Same { left, right } => {
            name(out, *left)?;
            text(out, b" = ")?;
            name(out, *right)
        }
    }
}

/// Permissions with a star between each two.
#[cycle(types)]
pub(crate) fn atoms(out: &mut Vec<u8>, program: &Program, atoms: &[Atom]) -> Result<(), Memory>
    ensures { OnOk result (out.new.items ≡ out.old.items ++ atoms_text (plain_program program.now) (atoms_of (plain_atoms atoms.now))) }
{
    let mut before: &[u8] = b"";
    for i in 0..atoms.len() {
        text(out, before)?;
        atom(out, program, &atoms[i])?;
        before = b" * ";
    }
    Ok(())
}
