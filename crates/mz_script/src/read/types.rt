//! Types and permissions, from the front of bytes. `depth` more brackets may be opened outside of one, `inside` more inside;
//! types and permissions call each other, one bracket deeper each time that a lock is entered.
ghost use Rattle.std.specs.Prelude.{◌≡◌, ℕ, List, Some, codes, length, map, slice_get, suc};
ghost use Rattle.mz_grammar.specs.Answers.{begin};
ghost use Rattle.mz_grammar.specs.Reading.{many};
ghost use Rattle.mz_tree.specs.Plain.{Same_atom};
ghost use Rattle.mz_tree.specs.Scoped.{Scoped};
ghost use Rattle.mz_tree.specs.View.{plain_atom, plain_atoms, plain_field, plain_program, plain_ty};
ghost use Rattle.mz_script.specs.Words.{con_fields};
ghost use Rattle.mz_script.specs.Fronts.{behind, image, name_at};
ghost use Rattle.mz_script.specs.ReadWords.{adopts_at, atom_at, atom_by, atoms_at, atoms_by, below, block_at, con_of, data_at, field_by, fields_at, holds_at, is_space, known_or, known_type, lock_by, next_atom_by, type_by};
ghost use Rattle.mz_script.specs.Stops.{Gives};

use crate::read::fronts::{behind, name, opening, text, word};
use crate::read::look_ups::{con_of, data, known_type};
use crate::read::stop::Stop;
use mz_tree::{Atom, Atoms, Field, Names, Program, Ty};
use sqlite_items::Items;
use std::alloc::Global;

// A field and the name that it has, behind what stands before it.
#[tactic(auto, unfolding(crate::specs::ReadWords::field_by))]
fn field<'a>(before: &[u8], field: &[u8], bytes: &'a [u8]) -> Result<(u32, &'a [u8]), Stop>
    ensures { Gives (λ x. (x.0, x.1.now)) result (field_by before.now field.now bytes.now) }
{
    let rest = text(bytes, before)?;
    let rest = text(rest, field)?;
    let rest = text(rest, b" = ")?;
    name(rest)
}

// The names of fields, in declared order.
fn fields<'a>(alloc: Global, fields: &[Field], bytes: &'a [u8]) -> Result<(Names, &'a [u8]), Stop>
    ensures { Gives (λ x. (x.0, x.1.now)) result (fields_at (codes " ") (map plain_field fields.now) bytes.now) }
{
    let mut names = Items::new(alloc);
    let mut before: &[u8] = b" ";
    let mut rest = bytes;
    for i in 0..fields.len() {
        let (name, more) = field(before, fields[i].name.as_slice(), rest)?;
        names.push(name)?;
        before = b"; ";
        rest = more;
    }
    Ok((names, rest))
}

// The names of the fields of a constructor.
#[tactic(auto, unfolding(crate::specs::ReadWords::fields_at))]
fn con_names<'a>(
    alloc: Global,
    program: &Program,
    con: u32,
    bytes: &'a [u8],
) -> Result<(Names, &'a [u8]), Stop>
    ensures { Gives (λ x. (x.0, x.1.now)) result (fields_at (codes " ") (con_fields (slice_get (plain_program program.now).cons con)) bytes.now) }
{
    match program.cons.get(con as usize) {
        Some(con) => fields(alloc, con.fields.as_slice(), bytes),
        None => Ok((Items::new(alloc), bytes)),
    }
}

// What a structural type adopts, behind its word.
fn adopted<'a>(program: &Program, bytes: &'a [u8]) -> Result<(Option<u32>, &'a [u8]), Stop>
    requires scoped { Scoped (plain_program program.now) }
    ensures { Gives (λ x. (x.0, x.1.now)) result (image Some (data_at (plain_program program.now)) bytes.now) }
{
    let (number, rest) = data(program, bytes)?;
    Ok((Some(number), rest))
}

// What a structural type adopts, if anything.
#[tactic(auto, unfolding(crate::specs::ReadWords::adopts_at, crate::specs::Fronts::choose_text))]
fn adopts<'a>(program: &Program, bytes: &'a [u8]) -> Result<(Option<u32>, &'a [u8]), Stop>
    requires scoped { Scoped (plain_program program.now) }
    ensures { Gives (λ x. (x.0, x.1.now)) result (adopts_at (plain_program program.now) bytes.now) }
{
    match behind(bytes, b" adopts ") {
        Some(rest) => adopted(program, rest),
        None => Ok((None, bytes)),
    }
}

// A structural type, behind its constructor.
#[tactic(auto, unfolding(crate::specs::ReadWords::block_at))]
fn block<'a>(
    alloc: Global,
    program: &Program,
    con: u32,
    bytes: &'a [u8],
    depth: u32,
) -> Result<(Ty, &'a [u8]), Stop>
    requires scoped { Scoped (plain_program program.now) }
    ensures { Gives (λ x. (plain_ty x.0, x.1.now)) result (block_at (plain_program program.now) depth con bytes.now) }
{
    let (rest, _) = opening(bytes, b" {", depth)?;
    let (fields, rest) = con_names(alloc, program, con, rest)?;
    let rest = text(rest, b" }")?;
    let (adopts, rest) = adopts(program, rest)?;
    Ok((
        Ty::Block {
            con,
            fields,
            adopts,
        },
        rest,
    ))
}

// A word that is a type, or a structural type; `bytes` are those that begin with the word.
fn plain_type<'a>(
    alloc: Global,
    program: &Program,
    word: &[u8],
    rest: &'a [u8],
    depth: u32,
    left: usize,
) -> Result<(Ty, &'a [u8]), Stop>
    requires scoped { Scoped (plain_program program.now) }
    ensures { (bytes : List ℕ) → left ≡ length bytes → Gives (λ x. (plain_ty x.0, x.1.now)) result (known_or (plain_program program.now) depth bytes rest.now (con_of (plain_program program.now) word.now) (known_type (plain_program program.now) word.now)) }
{
    match known_type(program, word) {
        Some(ty) => Ok((ty, rest)),
        None => match con_of(program, word) {
            Some(con) => block(alloc, program, con, rest, depth),
            None => Err(Stop::Unexpected(left)),
        },
    }
}

// What a name equals, behind the name.
fn equals(left: u32, bytes: &[u8]) -> Result<(Atom, &[u8]), Stop>
    ensures { Gives (λ x. (plain_atom x.0, x.1.now)) result (behind (codes " = ") (image (Same_atom left) name_at) bytes.now) }
{
    let rest = text(bytes, b" = ")?;
    let (right, rest) = name(rest)?;
    Ok((Atom::Same { left, right }, rest))
}

// The type that a name has.
#[cycle(types)]
#[tactic(auto, unfolding(crate::specs::ReadWords::holds_at, crate::specs::ReadWords::below))]
fn holds<'a>(
    alloc: Global,
    program: &Program,
    subject: u32,
    bytes: &'a [u8],
    depth: u32,
) -> Result<(Atom, &'a [u8]), Stop>
    requires scoped { Scoped (plain_program program.now) }
    ensures { Gives (λ x. (plain_atom x.0, x.1.now)) result (holds_at (plain_program program.now) (below (plain_program program.now) (suc depth)) subject bytes.now) }
{
    let (ty, rest) = any_type(alloc, program, bytes, depth)?;
    Ok((Atom::Has { name: subject, ty }, rest))
}

// A permission.
#[cycle(types)]
#[tactic(auto, unfolding(crate::specs::ReadWords::atom_by, crate::specs::ReadWords::equals_at, crate::specs::Fronts::choose_text))]
fn atom<'a>(
    alloc: Global,
    program: &Program,
    bytes: &'a [u8],
    depth: u32,
) -> Result<(Atom, &'a [u8]), Stop>
    requires scoped { Scoped (plain_program program.now) }
    ensures { Gives (λ x. (plain_atom x.0, x.1.now)) result (atom_by (plain_program program.now) (below (plain_program program.now) (suc depth)) bytes.now) }
{
    let (subject, rest) = name(bytes)?;
    match behind(rest, b" @ ") {
        Some(more) => holds(alloc, program, subject, more, depth),
        None => equals(subject, rest),
    }
}

// One more permission.
#[cycle(types)]
#[tactic(auto, unfolding(crate::specs::ReadWords::next_atom_by))]
fn next_atom<'a>(
    alloc: Global,
    program: &Program,
    bytes: &'a [u8],
    depth: u32,
) -> Result<(Atom, &'a [u8]), Stop>
    requires scoped { Scoped (plain_program program.now) }
    ensures { Gives (λ x. (plain_atom x.0, x.1.now)) result (next_atom_by (plain_program program.now) (below (plain_program program.now) (suc depth)) bytes.now) }
{
    let rest = text(bytes, b" * ")?;
    atom(alloc, program, rest, depth)
}

// Whether a space comes next.
fn space_next(bytes: &[u8]) -> bool
    ensures { result ≡ begin is_space bytes.now }
{
    bytes.len() > 0 && bytes[0] == b' '
}

// As many more permissions as begin with a space.
#[cycle(types)]
#[tactic(auto, unfolding(mz_grammar::specs::Reading::many_at))]
fn next_atoms<'a>(
    alloc: Global,
    program: &Program,
    bytes: &'a [u8],
    depth: u32,
) -> Result<(Atoms, &'a [u8]), Stop>
    requires scoped { Scoped (plain_program program.now) }
    ensures { Gives (λ x. (plain_atoms x.0, x.1.now)) result (many is_space (next_atom_by (plain_program program.now) (below (plain_program program.now) (suc depth))) bytes.now) }
{
    let mut items = Items::new(alloc);
    let mut rest = bytes;
    for i in 0..bytes.len() {
        if !space_next(rest) {
            return Ok((items, rest));
        }
        let (item, more) = next_atom(alloc, program, rest, depth)?;
        items.push(item)?;
        rest = more;
    }
    Ok((items, rest))
}

// Permissions, at least one, with a star between each two.
#[cycle(types)]
#[tactic(auto, unfolding(crate::specs::ReadWords::atoms_by))]
fn atoms<'a>(
    alloc: Global,
    program: &Program,
    bytes: &'a [u8],
    depth: u32,
) -> Result<(Atoms, &'a [u8]), Stop>
    requires scoped { Scoped (plain_program program.now) }
    ensures { Gives (λ x. (plain_atoms x.0, x.1.now)) result (atoms_by (plain_program program.now) (below (plain_program program.now) (suc depth)) bytes.now) }
{
    let (one, rest) = atom(alloc, program, bytes, depth)?;
    let (others, rest) = next_atoms(alloc, program, rest, depth)?;
    let mut all = Items::new(alloc);
    all.push(one)?;
    all.append(others)?;
    Ok((all, rest))
}

// A lock type, behind its word.
#[cycle(types)]
#[tactic(auto, unfolding(crate::specs::ReadWords::lock_by))]
fn lock<'a>(
    alloc: Global,
    program: &Program,
    bytes: &'a [u8],
    depth: u32,
) -> Result<(Ty, &'a [u8]), Stop>
    requires scoped { Scoped (plain_program program.now) }
    ensures { Gives (λ x. (plain_ty x.0, x.1.now)) result (lock_by (plain_program program.now) (below (plain_program program.now) depth) depth bytes.now) }
{
    let (rest, inside) = opening(bytes, b" (", depth)?;
    let (guarded, rest) = atoms(alloc, program, rest, inside)?;
    let rest = text(rest, b")")?;
    Ok((Ty::Lock(guarded), rest))
}

// A type of any form, by its first word.
#[cycle(types)]
#[tactic(auto, unfolding(crate::specs::ReadWords::type_by))]
fn any_type<'a>(
    alloc: Global,
    program: &Program,
    bytes: &'a [u8],
    depth: u32,
) -> Result<(Ty, &'a [u8]), Stop>
    requires scoped { Scoped (plain_program program.now) }
    ensures { Gives (λ x. (plain_ty x.0, x.1.now)) result (type_by (plain_program program.now) (below (plain_program program.now) depth) depth bytes.now) }
{
    let (word, rest) = word(bytes);
    if word == b"lock".as_slice() {
        lock(alloc, program, rest, depth)
    } else {
        plain_type(alloc, program, word, rest, depth, bytes.len())
    }
}

/// How many brackets may be open at once in one permission.
const LIMIT: u32 = 200;

/// A permission of a line.
pub(crate) fn one_atom<'a>(
    alloc: Global,
    program: &Program,
    bytes: &'a [u8],
) -> Result<(Atom, &'a [u8]), Stop>
    requires scoped { Scoped (plain_program program.now) }
    ensures { Gives (λ x. (plain_atom x.0, x.1.now)) result (atom_at (plain_program program.now) bytes.now) }
{
    atom(alloc, program, bytes, LIMIT)
}

/// The permissions of a line.
pub(crate) fn some_atoms<'a>(
    alloc: Global,
    program: &Program,
    bytes: &'a [u8],
) -> Result<(Atoms, &'a [u8]), Stop>
    requires scoped { Scoped (plain_program program.now) }
    ensures { Gives (λ x. (plain_atoms x.0, x.1.now)) result (atoms_at (plain_program program.now) bytes.now) }
{
    atoms(alloc, program, bytes, LIMIT)
}
