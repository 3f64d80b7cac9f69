//! Declarations, and the list of them that a source is. Each function reads from the front of the tokens and gives the
//! tokens left. `depth` is how many brackets may be opened, and `inside` how many more may be once the bracket before the
//! tokens is counted.
ghost use Rattle.std.specs.Prelude.{◌≡◌, suc};
ghost use Rattle.mz_grammar.specs.Answers.{begin};
ghost use Rattle.mz_grammar.specs.Reading.{token_at, maybe_at, many};
ghost use Rattle.mz_types.specs.Reading.{clause_at};
ghost use Rattle.mz_types.specs.Stops.{Gives};
ghost use Rattle.mz_types.specs.Words.{key, mark};
ghost use Rattle.mz_parse.specs.BodyReading.{next_at};
ghost use Rattle.mz_parse.specs.DeclarationReading.{field_by, fields_by, param_by, params_by, param_end, need_by, needs_by, gives_by, taken_in, given_in, con_by, cons_by, data_by, taken_by, given_by, sig_by, fun_by, declaration_by, declaring, program_by};

use crate::expressions::block;
use crate::{
    Constructor, DataDeclaration, Declaration, FieldDeclaration, FunctionDeclaration,
    NeedDeclaration, Parameter, SignatureDeclaration,
};
use mz_token::Token;
use mz_types::words::{key, key_next, low, mark, mark_next, opening, up};
use mz_types::{Stop, SurfaceAtom, SurfaceType, read_atom, read_atoms, read_type};
use sqlite_items::Items;
use std::alloc::Global;

// Whether what ends parameters is next: `|` or the closing bracket.
fn param_end_next(tokens: &[Token]) -> bool
    ensures { result ≡ begin param_end tokens.now }
{
    match tokens {
        [token, ..] => token.kind.is_mark(23) || token.kind.is_mark(3),
        [] => false,
    }
}

// Whether what a declaration begins with is next.
fn declaring_next(tokens: &[Token]) -> bool
    ensures { result ≡ begin declaring tokens.now }
{
    match tokens {
        [token, ..] => token.kind.is_key(0) || (token.kind.is_key(3) || token.kind.is_key(4)),
        [] => false,
    }
}

// The key of this number, if it is next.
fn maybe_key(tokens: &[Token], number: u8) -> Result<(Option<Token>, &[Token]), Stop>
    ensures { Gives (λ x. (x.0, x.1.now)) result (maybe_at (key number) (token_at (key number)) tokens.now) }
{
    if key_next(tokens, number) {
        let (word, rest) = key(tokens, number)?;
        Ok((Some(word), rest))
    } else {
        Ok((None, tokens))
    }
}

// "adopts" low
#[tactic(auto, unfolding(mz_types::specs::Reading::clause_at))]
fn clause(tokens: &[Token]) -> Result<(Token, &[Token]), Stop>
    ensures { Gives (λ x. (x.0, x.1.now)) result (clause_at tokens.now) }
{
    let (_, rest) = key(tokens, 2)?;
    low(rest)
}

// [ "adopts" low ]
fn maybe_clause(tokens: &[Token]) -> Result<(Option<Token>, &[Token]), Stop>
    ensures { Gives (λ x. (x.0, x.1.now)) result (maybe_at (key 2) clause_at tokens.now) }
{
    if key_next(tokens, 2) {
        let (name, rest) = clause(tokens)?;
        Ok((Some(name), rest))
    } else {
        Ok((None, tokens))
    }
}

// low ":" type
#[tactic(auto, unfolding(crate::specs::DeclarationReading::field_by))]
fn field(alloc: Global, tokens: &[Token], inside: u32) -> Result<(FieldDeclaration, &[Token]), Stop>
    ensures { Gives (λ x. (x.0, x.1.now)) result (field_by (suc inside) tokens.now) }
{
    let (name, rest) = low(tokens)?;
    let (_, rest) = mark(rest, 5)?;
    let (ty, rest) = read_type(alloc, rest, inside, false)?;
    Ok((FieldDeclaration { name, ty }, rest))
}

// ";" field
#[tactic(auto, unfolding(crate::specs::BodyReading::next_at))]
fn next_field(
    alloc: Global,
    tokens: &[Token],
    inside: u32,
) -> Result<(FieldDeclaration, &[Token]), Stop>
    ensures { Gives (λ x. (x.0, x.1.now)) result (next_at (mark 4) (field_by (suc inside)) tokens.now) }
{
    let (_, rest) = mark(tokens, 4)?;
    field(alloc, rest, inside)
}

// { ";" field }
#[tactic(auto, unfolding(mz_grammar::specs::Reading::many_at))]
fn next_fields(
    alloc: Global,
    tokens: &[Token],
    inside: u32,
) -> Result<(Items<FieldDeclaration>, &[Token]), Stop>
    ensures { Gives (λ x. (x.0, x.1.now)) result (many (mark 4) (next_at (mark 4) (field_by (suc inside))) tokens.now) }
{
    let mut items = Items::new(alloc);
    let mut rest = tokens;
    for i in 0..tokens.len() {
        if !mark_next(rest, 4) {
            return Ok((items, rest));
        }
        let (item, more) = next_field(alloc, rest, inside)?;
        items.push(item)?;
        rest = more;
    }
    Ok((items, rest))
}

// [ field { ";" field } ], before the closing brace
#[tactic(auto, unfolding(crate::specs::DeclarationReading::fields_by, crate::specs::BodyReading::separated_at))]
fn fields(
    alloc: Global,
    tokens: &[Token],
    inside: u32,
) -> Result<(Items<FieldDeclaration>, &[Token]), Stop>
    ensures { Gives (λ x. (x.0, x.1.now)) result (fields_by (suc inside) tokens.now) }
{
    let mut all = Items::new(alloc);
    if mark_next(tokens, 1) {
        return Ok((all, tokens));
    }
    let (one, rest) = field(alloc, tokens, inside)?;
    let (others, rest) = next_fields(alloc, rest, inside)?;
    all.push(one)?;
    all.append(others)?;
    Ok((all, rest))
}

// up "{" [ field { ";" field } ] "}"
#[tactic(auto, unfolding(crate::specs::DeclarationReading::con_by))]
fn constructor(alloc: Global, tokens: &[Token], depth: u32) -> Result<(Constructor, &[Token]), Stop>
    ensures { Gives (λ x. (x.0, x.1.now)) result (con_by depth tokens.now) }
{
    let (name, rest) = up(tokens)?;
    let (_, rest, inside) = opening(rest, 0, depth)?;
    let (fields, rest) = fields(alloc, rest, inside)?;
    let (_, rest) = mark(rest, 1)?;
    Ok((Constructor { name, fields }, rest))
}

// "|" constructor
#[tactic(auto, unfolding(crate::specs::BodyReading::next_at))]
fn next_constructor(
    alloc: Global,
    tokens: &[Token],
    depth: u32,
) -> Result<(Constructor, &[Token]), Stop>
    ensures { Gives (λ x. (x.0, x.1.now)) result (next_at (mark 23) (con_by depth) tokens.now) }
{
    let (_, rest) = mark(tokens, 23)?;
    constructor(alloc, rest, depth)
}

// { "|" constructor }
#[tactic(auto, unfolding(mz_grammar::specs::Reading::many_at))]
fn next_constructors(
    alloc: Global,
    tokens: &[Token],
    depth: u32,
) -> Result<(Items<Constructor>, &[Token]), Stop>
    ensures { Gives (λ x. (x.0, x.1.now)) result (many (mark 23) (next_at (mark 23) (con_by depth)) tokens.now) }
{
    let mut items = Items::new(alloc);
    let mut rest = tokens;
    for i in 0..tokens.len() {
        if !mark_next(rest, 23) {
            return Ok((items, rest));
        }
        let (item, more) = next_constructor(alloc, rest, depth)?;
        items.push(item)?;
        rest = more;
    }
    Ok((items, rest))
}

// constructor { "|" constructor }
#[tactic(auto, unfolding(crate::specs::DeclarationReading::cons_by, crate::specs::BodyReading::separated_at))]
fn constructors(
    alloc: Global,
    tokens: &[Token],
    depth: u32,
) -> Result<(Items<Constructor>, &[Token]), Stop>
    ensures { Gives (λ x. (x.0, x.1.now)) result (cons_by depth tokens.now) }
{
    let mut all = Items::new(alloc);
    let (one, rest) = constructor(alloc, tokens, depth)?;
    let (others, rest) = next_constructors(alloc, rest, depth)?;
    all.push(one)?;
    all.append(others)?;
    Ok((all, rest))
}

// "data" ["mutable"] low ["adopts" low] "=" constructor { "|" constructor }
#[tactic(auto, unfolding(crate::specs::DeclarationReading::data_by))]
fn data(alloc: Global, tokens: &[Token], depth: u32) -> Result<(DataDeclaration, &[Token]), Stop>
    ensures { Gives (λ x. (x.0, x.1.now)) result (data_by depth tokens.now) }
{
    let (word, rest) = key(tokens, 0)?;
    let (mutable, rest) = maybe_key(rest, 1)?;
    let (name, rest) = low(rest)?;
    let (adopts, rest) = maybe_clause(rest)?;
    let (_, rest) = mark(rest, 8)?;
    let (cons, rest) = constructors(alloc, rest, depth)?;
    Ok((
        DataDeclaration {
            key: word,
            mutable,
            name,
            adopts,
            cons,
        },
        rest,
    ))
}

// ["consumes"] low ":" type
#[tactic(auto, unfolding(crate::specs::DeclarationReading::param_by))]
fn parameter(alloc: Global, tokens: &[Token], inside: u32) -> Result<(Parameter, &[Token]), Stop>
    ensures { Gives (λ x. (x.0, x.1.now)) result (param_by (suc inside) tokens.now) }
{
    let (consumes, rest) = maybe_key(tokens, 5)?;
    let (name, rest) = low(rest)?;
    let (_, rest) = mark(rest, 5)?;
    let (ty, rest) = read_type(alloc, rest, inside, false)?;
    Ok((Parameter { consumes, name, ty }, rest))
}

// "," parameter
#[tactic(auto, unfolding(crate::specs::BodyReading::next_at))]
fn next_parameter(
    alloc: Global,
    tokens: &[Token],
    inside: u32,
) -> Result<(Parameter, &[Token]), Stop>
    ensures { Gives (λ x. (x.0, x.1.now)) result (next_at (mark 6) (param_by (suc inside)) tokens.now) }
{
    let (_, rest) = mark(tokens, 6)?;
    parameter(alloc, rest, inside)
}

// { "," parameter }
#[tactic(auto, unfolding(mz_grammar::specs::Reading::many_at))]
fn next_parameters(
    alloc: Global,
    tokens: &[Token],
    inside: u32,
) -> Result<(Items<Parameter>, &[Token]), Stop>
    ensures { Gives (λ x. (x.0, x.1.now)) result (many (mark 6) (next_at (mark 6) (param_by (suc inside))) tokens.now) }
{
    let mut items = Items::new(alloc);
    let mut rest = tokens;
    for i in 0..tokens.len() {
        if !mark_next(rest, 6) {
            return Ok((items, rest));
        }
        let (item, more) = next_parameter(alloc, rest, inside)?;
        items.push(item)?;
        rest = more;
    }
    Ok((items, rest))
}

// [ parameter { "," parameter } ], before `|` or the closing bracket
#[tactic(auto, unfolding(crate::specs::DeclarationReading::params_by, crate::specs::BodyReading::separated_at))]
fn parameters(
    alloc: Global,
    tokens: &[Token],
    inside: u32,
) -> Result<(Items<Parameter>, &[Token]), Stop>
    ensures { Gives (λ x. (x.0, x.1.now)) result (params_by (suc inside) tokens.now) }
{
    let mut all = Items::new(alloc);
    if param_end_next(tokens) {
        return Ok((all, tokens));
    }
    let (one, rest) = parameter(alloc, tokens, inside)?;
    let (others, rest) = next_parameters(alloc, rest, inside)?;
    all.push(one)?;
    all.append(others)?;
    Ok((all, rest))
}

// ["consumes"] atom
#[tactic(auto, unfolding(crate::specs::DeclarationReading::need_by))]
fn need(alloc: Global, tokens: &[Token], inside: u32) -> Result<(NeedDeclaration, &[Token]), Stop>
    ensures { Gives (λ x. (x.0, x.1.now)) result (need_by (suc inside) tokens.now) }
{
    let (consumes, rest) = maybe_key(tokens, 5)?;
    let (atom, rest) = read_atom(alloc, rest, inside, false)?;
    Ok((NeedDeclaration { consumes, atom }, rest))
}

// "*" need
#[tactic(auto, unfolding(crate::specs::BodyReading::next_at))]
fn next_need(
    alloc: Global,
    tokens: &[Token],
    inside: u32,
) -> Result<(NeedDeclaration, &[Token]), Stop>
    ensures { Gives (λ x. (x.0, x.1.now)) result (next_at (mark 9) (need_by (suc inside)) tokens.now) }
{
    let (_, rest) = mark(tokens, 9)?;
    need(alloc, rest, inside)
}

// { "*" need }
#[tactic(auto, unfolding(mz_grammar::specs::Reading::many_at))]
fn next_needs(
    alloc: Global,
    tokens: &[Token],
    inside: u32,
) -> Result<(Items<NeedDeclaration>, &[Token]), Stop>
    ensures { Gives (λ x. (x.0, x.1.now)) result (many (mark 9) (next_at (mark 9) (need_by (suc inside))) tokens.now) }
{
    let mut items = Items::new(alloc);
    let mut rest = tokens;
    for i in 0..tokens.len() {
        if !mark_next(rest, 9) {
            return Ok((items, rest));
        }
        let (item, more) = next_need(alloc, rest, inside)?;
        items.push(item)?;
        rest = more;
    }
    Ok((items, rest))
}

// ["|" need { "*" need }]
#[tactic(auto, unfolding(crate::specs::DeclarationReading::needs_by, crate::specs::BodyReading::separated_at))]
fn needs(
    alloc: Global,
    tokens: &[Token],
    inside: u32,
) -> Result<(Items<NeedDeclaration>, &[Token]), Stop>
    ensures { Gives (λ x. (x.0, x.1.now)) result (needs_by (suc inside) tokens.now) }
{
    let mut all = Items::new(alloc);
    if !mark_next(tokens, 23) {
        return Ok((all, tokens));
    }
    let (_, rest) = mark(tokens, 23)?;
    let (one, rest) = need(alloc, rest, inside)?;
    let (others, rest) = next_needs(alloc, rest, inside)?;
    all.push(one)?;
    all.append(others)?;
    Ok((all, rest))
}

// ["|" atoms]
#[tactic(auto, unfolding(crate::specs::DeclarationReading::gives_by))]
fn gives(
    alloc: Global,
    tokens: &[Token],
    inside: u32,
) -> Result<(Items<SurfaceAtom>, &[Token]), Stop>
    ensures { Gives (λ x. (x.0, x.1.now)) result (gives_by (suc inside) tokens.now) }
{
    if mark_next(tokens, 23) {
        let (_, rest) = mark(tokens, 23)?;
        read_atoms(alloc, rest, inside, false)
    } else {
        Ok((Items::new(alloc), tokens))
    }
}

// What a function takes, behind the opening bracket
#[tactic(auto, unfolding(crate::specs::DeclarationReading::taken_in))]
fn taken_inside(
    alloc: Global,
    tokens: &[Token],
    inside: u32,
) -> Result<(Items<Parameter>, Items<NeedDeclaration>, &[Token]), Stop>
    ensures { Gives (λ x. ((x.0, x.1), x.2.now)) result (taken_in (suc inside) tokens.now) }
{
    let (params, rest) = parameters(alloc, tokens, inside)?;
    let (needs, rest) = needs(alloc, rest, inside)?;
    let (_, rest) = mark(rest, 3)?;
    Ok((params, needs, rest))
}

// What a function gives, behind the opening bracket
#[tactic(auto, unfolding(crate::specs::DeclarationReading::given_in))]
fn given_inside(
    alloc: Global,
    tokens: &[Token],
    inside: u32,
) -> Result<(Token, SurfaceType, Items<SurfaceAtom>, &[Token]), Stop>
    ensures { Gives (λ x. ((x.0, x.1, x.2), x.3.now)) result (given_in (suc inside) tokens.now) }
{
    let (name, rest) = low(tokens)?;
    let (_, rest) = mark(rest, 5)?;
    let (ty, rest) = read_type(alloc, rest, inside, false)?;
    let (gives, rest) = gives(alloc, rest, inside)?;
    let (_, rest) = mark(rest, 3)?;
    Ok((name, ty, gives, rest))
}

// "(" [ parameter { "," parameter } ] ["|" need { "*" need }] ")"
#[tactic(auto, unfolding(crate::specs::DeclarationReading::taken_by))]
fn taken(
    alloc: Global,
    tokens: &[Token],
    depth: u32,
) -> Result<(Items<Parameter>, Items<NeedDeclaration>, &[Token]), Stop>
    ensures { Gives (λ x. ((x.0, x.1), x.2.now)) result (taken_by depth tokens.now) }
{
    let (_, rest, inside) = opening(tokens, 2, depth)?;
    taken_inside(alloc, rest, inside)
}

// "(" low ":" type ["|" atoms] ")"
#[tactic(auto, unfolding(crate::specs::DeclarationReading::given_by))]
fn given(
    alloc: Global,
    tokens: &[Token],
    depth: u32,
) -> Result<(Token, SurfaceType, Items<SurfaceAtom>, &[Token]), Stop>
    ensures { Gives (λ x. ((x.0, x.1, x.2), x.3.now)) result (given_by depth tokens.now) }
{
    let (_, rest, inside) = opening(tokens, 2, depth)?;
    given_inside(alloc, rest, inside)
}

// "sig" low "=" taken "->" given
#[tactic(auto, unfolding(crate::specs::DeclarationReading::sig_by))]
fn signature(
    alloc: Global,
    tokens: &[Token],
    depth: u32,
) -> Result<(SignatureDeclaration, &[Token]), Stop>
    ensures { Gives (λ x. (x.0, x.1.now)) result (sig_by depth tokens.now) }
{
    let (word, rest) = key(tokens, 3)?;
    let (name, rest) = low(rest)?;
    let (_, rest) = mark(rest, 8)?;
    let (params, needs, rest) = taken(alloc, rest, depth)?;
    let (_, rest) = mark(rest, 15)?;
    let (value, ty, gives, rest) = given(alloc, rest, depth)?;
    Ok((
        SignatureDeclaration {
            key: word,
            name,
            params,
            needs,
            result: value,
            ty,
            gives,
        },
        rest,
    ))
}

// "fun" low ":" low "=" block
#[tactic(auto, unfolding(crate::specs::DeclarationReading::fun_by))]
fn function(
    alloc: Global,
    tokens: &[Token],
    depth: u32,
) -> Result<(FunctionDeclaration, &[Token]), Stop>
    ensures { Gives (λ x. (x.0, x.1.now)) result (fun_by depth tokens.now) }
{
    let (word, rest) = key(tokens, 4)?;
    let (name, rest) = low(rest)?;
    let (_, rest) = mark(rest, 5)?;
    let (sig, rest) = low(rest)?;
    let (_, rest) = mark(rest, 8)?;
    let (block, rest) = block(alloc, rest, depth)?;
    Ok((
        FunctionDeclaration {
            key: word,
            name,
            sig,
            block,
        },
        rest,
    ))
}

// A declaration, by the next token
#[tactic(auto, unfolding(crate::specs::DeclarationReading::declaration_by))]
fn declaration(alloc: Global, tokens: &[Token], depth: u32) -> Result<(Declaration, &[Token]), Stop>
    ensures { Gives (λ x. (x.0, x.1.now)) result (declaration_by depth tokens.now) }
{
    if key_next(tokens, 0) {
        let (data, rest) = data(alloc, tokens, depth)?;
        Ok((Declaration::Data(data), rest))
    } else if key_next(tokens, 3) {
        let (signature, rest) = signature(alloc, tokens, depth)?;
        Ok((Declaration::Signature(signature), rest))
    } else {
        let (function, rest) = function(alloc, tokens, depth)?;
        Ok((Declaration::Function(function), rest))
    }
}

/// As many declarations as stand one after another, where `depth` brackets may be opened
#[tactic(auto, unfolding(mz_grammar::specs::Reading::many_at, crate::specs::DeclarationReading::program_by))]
pub fn declarations(
    alloc: Global,
    tokens: &[Token],
    depth: u32,
) -> Result<(Items<Declaration>, &[Token]), Stop>
    ensures { Gives (λ x. (x.0, x.1.now)) result (program_by depth tokens.now) }
{
    let mut items = Items::new(alloc);
    let mut rest = tokens;
    for i in 0..tokens.len() {
        if !declaring_next(rest) {
            return Ok((items, rest));
        }
        let (item, more) = declaration(alloc, rest, depth)?;
        items.push(item)?;
        rest = more;
    }
    Ok((items, rest))
}
