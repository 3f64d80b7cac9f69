//! Reading types and atoms. Each function reads one part of the grammar from the front of the tokens and gives the tokens
//! left; the tests by which it chooses look at the next token alone. `depth` more brackets may be opened outside of one,
//! `inside` more inside; types and atoms call each other, one bracket deeper each time that a lock is entered.

ghost use Rattle.std.specs.Prelude.{◌≡◌, suc};
ghost use Rattle.mz_grammar.specs.Reading.{maybe_at, many};
ghost use Rattle.mz_types.specs.declared.tree.SurfaceType.{SurfaceType, Int, Unknown, Dynamic, Locked, Named};
ghost use Rattle.mz_types.specs.Reading.{field_at, next_field_at, fields_at, maybe_fields_at, clause_at, singleton_at, word_at, structure_by, has_by, same_at, atom_by, next_atom_by, atoms_by, lock_by, type_by, below};
ghost use Rattle.mz_types.specs.Stops.{Gives};
ghost use Rattle.mz_types.specs.Words.{key, lower, mark};

use crate::words::{key, key_next, low, low_next, mark, mark_next, name, opening, up};
use crate::{FieldName, Stop, SurfaceAtom, SurfaceType};
use mz_token::Token;
use sqlite_items::Items;
use std::alloc::Global;

// low "=" low
#[tactic(auto, unfolding(crate::specs::Reading::field_at))]
fn field(tokens: &[Token]) -> Result<(FieldName, &[Token]), Stop>
    ensures { Gives (λ x. (x.0, x.1.now)) result (field_at tokens.now) }
{
    let (field, rest) = low(tokens)?;
    let (_, rest) = mark(rest, 8)?;
    let (name, rest) = low(rest)?;
    Ok((FieldName { field, name }, rest))
}

// ";" field
#[tactic(auto, unfolding(crate::specs::Reading::next_field_at))]
fn next_field(tokens: &[Token]) -> Result<(FieldName, &[Token]), Stop>
    ensures { Gives (λ x. (x.0, x.1.now)) result (next_field_at tokens.now) }
{
    let (_, rest) = mark(tokens, 4)?;
    field(rest)
}

// { ";" field }, behind the first one.
#[tactic(auto, unfolding(mz_grammar::specs::Reading::many_at))]
fn next_fields(alloc: Global, tokens: &[Token]) -> Result<(Items<FieldName>, &[Token]), Stop>
    ensures { Gives (λ x. (x.0, x.1.now)) result (many (mark 4) next_field_at tokens.now) }
{
    let mut items = Items::new(alloc);
    let mut rest = tokens;
    for i in 0..tokens.len() {
        if !mark_next(rest, 4) {
            return Ok((items, rest));
        }
        let (item, more) = next_field(rest)?;
        items.push(item)?;
        rest = more;
    }
    Ok((items, rest))
}

// field { ";" field }
#[tactic(auto, unfolding(crate::specs::Reading::fields_at))]
fn fields(alloc: Global, tokens: &[Token]) -> Result<(Items<FieldName>, &[Token]), Stop>
    ensures { Gives (λ x. (x.0, x.1.now)) result (fields_at tokens.now) }
{
    let (one, rest) = field(tokens)?;
    let (others, rest) = next_fields(alloc, rest)?;
    let mut all = Items::new(alloc);
    all.push(one)?;
    all.append(others)?;
    Ok((all, rest))
}

// [ field { ";" field } ], before a closing brace.
#[tactic(auto, unfolding(crate::specs::Reading::maybe_fields_at))]
fn maybe_fields(alloc: Global, tokens: &[Token]) -> Result<(Items<FieldName>, &[Token]), Stop>
    ensures { Gives (λ x. (x.0, x.1.now)) result (maybe_fields_at tokens.now) }
{
    if mark_next(tokens, 1) {
        return Ok((Items::new(alloc), tokens));
    }
    fields(alloc, tokens)
}

// "adopts" low
#[tactic(auto, unfolding(crate::specs::Reading::clause_at))]
fn clause(tokens: &[Token]) -> Result<(Token, &[Token]), Stop>
    ensures { Gives (λ x. (x.0, x.1.now)) result (clause_at tokens.now) }
{
    let (_, rest) = key(tokens, 2)?;
    low(rest)
}

// [ "adopts" low ]
fn maybe_clause(tokens: &[Token]) -> Result<(Option<Token>, &[Token]), Stop>
    ensures { Gives (λ x. (x.0, x.1.now)) result (maybe_at (key 2) clause_at tokens.now) }
{
    if key_next(tokens, 2) {
        let (adopted, rest) = clause(tokens)?;
        Ok((Some(adopted), rest))
    } else {
        Ok((None, tokens))
    }
}

// up "{" [ field { ";" field } ] "}" [ "adopts" low ]
#[tactic(auto, unfolding(crate::specs::Reading::structure_by))]
fn structure(alloc: Global, tokens: &[Token], depth: u32) -> Result<(SurfaceType, &[Token]), Stop>
    ensures { Gives (λ x. (x.0, x.1.now)) result (structure_by depth tokens.now) }
{
    let (con, rest) = up(tokens)?;
    let (_, rest, _) = opening(rest, 0, depth)?;
    let (fields, rest) = maybe_fields(alloc, rest)?;
    let (_, rest) = mark(rest, 1)?;
    let (adopts, rest) = maybe_clause(rest)?;
    Ok((
        SurfaceType::Structure {
            con,
            fields,
            adopts,
        },
        rest,
    ))
}

// "=" low
#[tactic(auto, unfolding(crate::specs::Reading::singleton_at))]
fn singleton(tokens: &[Token]) -> Result<(SurfaceType, &[Token]), Stop>
    ensures { Gives (λ x. (x.0, x.1.now)) result (singleton_at tokens.now) }
{
    let (mark, rest) = mark(tokens, 8)?;
    let (name, rest) = low(rest)?;
    Ok((SurfaceType::Singleton { mark, name }, rest))
}

// A name, as a type.
#[tactic(auto, unfolding(crate::specs::Reading::word_at))]
fn named(tokens: &[Token]) -> Result<(SurfaceType, &[Token]), Stop>
    ensures { Gives (λ x. (x.0, x.1.now)) result (word_at lower Named tokens.now) }
{
    let (name, rest) = low(tokens)?;
    Ok((SurfaceType::Named(name), rest))
}

// "int"
#[tactic(auto, unfolding(crate::specs::Reading::word_at))]
fn int(tokens: &[Token]) -> Result<(SurfaceType, &[Token]), Stop>
    ensures { Gives (λ x. (x.0, x.1.now)) result (word_at (key 25) Int tokens.now) }
{
    let (word, rest) = key(tokens, 25)?;
    Ok((SurfaceType::Int(word), rest))
}

// "unknown"
#[tactic(auto, unfolding(crate::specs::Reading::word_at))]
fn unknown(tokens: &[Token]) -> Result<(SurfaceType, &[Token]), Stop>
    ensures { Gives (λ x. (x.0, x.1.now)) result (word_at (key 26) Unknown tokens.now) }
{
    let (word, rest) = key(tokens, 26)?;
    Ok((SurfaceType::Unknown(word), rest))
}

// "dynamic"
#[tactic(auto, unfolding(crate::specs::Reading::word_at))]
fn dynamic(tokens: &[Token]) -> Result<(SurfaceType, &[Token]), Stop>
    ensures { Gives (λ x. (x.0, x.1.now)) result (word_at (key 27) Dynamic tokens.now) }
{
    let (word, rest) = key(tokens, 27)?;
    Ok((SurfaceType::Dynamic(word), rest))
}

// "locked"
#[tactic(auto, unfolding(crate::specs::Reading::word_at))]
fn locked(tokens: &[Token]) -> Result<(SurfaceType, &[Token]), Stop>
    ensures { Gives (λ x. (x.0, x.1.now)) result (word_at (key 20) Locked tokens.now) }
{
    let (word, rest) = key(tokens, 20)?;
    Ok((SurfaceType::Locked(word), rest))
}

// "=" name, behind the left name.
#[tactic(auto, unfolding(crate::specs::Reading::same_at))]
fn same(left: Token, tokens: &[Token], result_stands: bool) -> Result<(SurfaceAtom, &[Token]), Stop>
    ensures { Gives (λ x. (x.0, x.1.now)) result (same_at result_stands left tokens.now) }
{
    let (_, rest) = mark(tokens, 8)?;
    let (right, rest) = name(rest, result_stands)?;
    Ok((SurfaceAtom::Same { left, right }, rest))
}

// "@" type, behind the name.
#[cycle(types)]
#[tactic(auto, unfolding(crate::specs::Reading::has_by, crate::specs::Reading::below))]
fn has(
    alloc: Global,
    subject: Token,
    tokens: &[Token],
    depth: u32,
    result_stands: bool,
) -> Result<(SurfaceAtom, &[Token]), Stop>
    ensures { Gives (λ x. (x.0, x.1.now)) result (has_by (below result_stands (suc depth)) subject tokens.now) }
{
    let (_, rest) = mark(tokens, 22)?;
    let (ty, rest) = any_type(alloc, rest, depth, result_stands)?;
    Ok((SurfaceAtom::Has { name: subject, ty }, rest))
}

// name "@" type | name "=" name
#[cycle(types)]
#[tactic(auto, unfolding(crate::specs::Reading::atom_by))]
pub fn atom(
    alloc: Global,
    tokens: &[Token],
    depth: u32,
    result_stands: bool,
) -> Result<(SurfaceAtom, &[Token]), Stop>
    ensures { Gives (λ x. (x.0, x.1.now)) result (atom_by result_stands (below result_stands (suc depth)) tokens.now) }
{
    let (subject, rest) = name(tokens, result_stands)?;
    if mark_next(rest, 22) {
        has(alloc, subject, rest, depth, result_stands)
    } else {
        same(subject, rest, result_stands)
    }
}

// "*" atom
#[cycle(types)]
#[tactic(auto, unfolding(crate::specs::Reading::next_atom_by))]
fn next_atom(
    alloc: Global,
    tokens: &[Token],
    depth: u32,
    result_stands: bool,
) -> Result<(SurfaceAtom, &[Token]), Stop>
    ensures { Gives (λ x. (x.0, x.1.now)) result (next_atom_by result_stands (below result_stands (suc depth)) tokens.now) }
{
    let (_, rest) = mark(tokens, 9)?;
    atom(alloc, rest, depth, result_stands)
}

// { "*" atom }, behind the first one.
#[cycle(types)]
#[tactic(auto, unfolding(mz_grammar::specs::Reading::many_at))]
fn next_atoms(
    alloc: Global,
    tokens: &[Token],
    depth: u32,
    result_stands: bool,
) -> Result<(Items<SurfaceAtom>, &[Token]), Stop>
    ensures { Gives (λ x. (x.0, x.1.now)) result (many (mark 9) (next_atom_by result_stands (below result_stands (suc depth))) tokens.now) }
{
    let mut items = Items::new(alloc);
    let mut rest = tokens;
    for i in 0..tokens.len() {
        if !mark_next(rest, 9) {
            return Ok((items, rest));
        }
        let (item, more) = next_atom(alloc, rest, depth, result_stands)?;
        items.push(item)?;
        rest = more;
    }
    Ok((items, rest))
}

// atom { "*" atom }
#[cycle(types)]
#[tactic(auto, unfolding(crate::specs::Reading::atoms_by))]
pub fn atoms(
    alloc: Global,
    tokens: &[Token],
    depth: u32,
    result_stands: bool,
) -> Result<(Items<SurfaceAtom>, &[Token]), Stop>
    ensures { Gives (λ x. (x.0, x.1.now)) result (atoms_by result_stands (below result_stands (suc depth)) tokens.now) }
{
    let (one, rest) = atom(alloc, tokens, depth, result_stands)?;
    let (others, rest) = next_atoms(alloc, rest, depth, result_stands)?;
    let mut all = Items::new(alloc);
    all.push(one)?;
    all.append(others)?;
    Ok((all, rest))
}

// "lock" "(" atoms ")"
#[cycle(types)]
#[tactic(auto, unfolding(crate::specs::Reading::lock_by))]
fn lock(
    alloc: Global,
    tokens: &[Token],
    depth: u32,
    result_stands: bool,
) -> Result<(SurfaceType, &[Token]), Stop>
    ensures { Gives (λ x. (x.0, x.1.now)) result (lock_by result_stands depth (below result_stands depth) tokens.now) }
{
    let (key, rest) = key(tokens, 19)?;
    let (_, rest, inside) = opening(rest, 2, depth)?;
    let (guarded, rest) = atoms(alloc, rest, inside, result_stands)?;
    let (_, rest) = mark(rest, 3)?;
    Ok((SurfaceType::Lock { key, guarded }, rest))
}

// A type of any form, by the next token.
#[cycle(types)]
#[tactic(auto, unfolding(crate::specs::Reading::type_by))]
pub fn any_type(
    alloc: Global,
    tokens: &[Token],
    depth: u32,
    result_stands: bool,
) -> Result<(SurfaceType, &[Token]), Stop>
    ensures { Gives (λ x. (x.0, x.1.now)) result (type_by result_stands depth (below result_stands depth) tokens.now) }
{
    if key_next(tokens, 25) {
        int(tokens)
    } else if key_next(tokens, 26) {
        unknown(tokens)
    } else if key_next(tokens, 27) {
        dynamic(tokens)
    } else if key_next(tokens, 20) {
        locked(tokens)
    } else if mark_next(tokens, 8) {
        singleton(tokens)
    } else if low_next(tokens) {
        named(tokens)
    } else if key_next(tokens, 19) {
        lock(alloc, tokens, depth, result_stands)
    } else {
        structure(alloc, tokens, depth)
    }
}
