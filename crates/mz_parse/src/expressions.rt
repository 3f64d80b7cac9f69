//! Blocks and expressions, which hold each other. Each function reads from the front of the tokens and gives the tokens left.
//!
//! `depth` is how many brackets may be opened, and `inside` how many more may be once the bracket before the tokens is
//! counted. A bracket costs one, so no function calls itself deeper than the limit of brackets; what needs no bracket, as
//! the items of a block or the terms of a sum, is read by loops. Where a comparison and a write begin alike, the first
//! postfix is read before it is known what it is a part of, and is handed on to what reads the rest.
ghost use Rattle.std.specs.Prelude.{◌≡◌, suc};
ghost use Rattle.mz_grammar.specs.Reading.{maybe_at, many};
ghost use Rattle.mz_types.specs.Stops.{Gives};
ghost use Rattle.mz_types.specs.Words.{upper, mark};
ghost use Rattle.mz_parse.specs.Trees.{selects};
ghost use Rattle.mz_parse.specs.Grammar.{multiplying, adding, comparing};
ghost use Rattle.mz_parse.specs.BodyReading.{next_at, argument_by, arguments_by, grouped_by, value_by, values_by, let_by, item_by, round_by, items_by, case_by, cases_by, call_by, named_by, group_by, construct_by, primary_by, postfix_by, factor_by, product_after, product_by, term_by, sum_after, sum_by, comparing_by, comparison_after, comparison_by, plain_after, write_after, simple_by, print_by, block_by, if_by, match_by, spawn_by, expression_by, within};
ghost use Rattle.mz_parse.specs.Rounds.{round_of};

use crate::phrases::{
    acquire, adding_mark, adding_next, beginning_next, comparing_mark, comparing_next, give,
    giving, multiplying_mark, multiplying_next, new_lock, number, number_next, release, retag,
    selects, take,
};
use crate::{
    Block, BlockItem, Case, Comparing, Comparison, Expression, Factor, FieldValue, Postfix,
    Primary, Product, Sum, Term,
};
use mz_token::Token;
use mz_types::Stop;
use mz_types::words::{key, key_next, low, low_next, mark, mark_next, opening, up, up_next};
use sqlite_items::{Boxed, Items};
use std::alloc::Global;

// One round of the items of a block: one that a `;` ends, or the last, if there is one.
#[derive(Drop)]
enum ItemRound {
    More(BlockItem),
    Last(Option<Boxed<BlockItem>>),
}

// Whether a postfix ends in a select.
fn ends_in_select(postfix: &Postfix) -> bool
    ensures { result ≡ selects postfix.now }
{
    postfix.selects.len() > 0
}

// An expression inside a bracket
#[cycle(expressions)]
#[tactic(auto, unfolding(crate::specs::BodyReading::argument_by, crate::specs::BodyReading::within))]
fn argument(alloc: Global, tokens: &[Token], inside: u32) -> Result<(Expression, &[Token]), Stop>
    ensures { Gives (λ x. (x.0, x.1.now)) result (argument_by (within (suc inside)) tokens.now) }
{
    expression(alloc, tokens, inside)
}

// "," expression
#[cycle(expressions)]
#[tactic(auto, unfolding(crate::specs::BodyReading::next_at))]
fn next_argument(
    alloc: Global,
    tokens: &[Token],
    inside: u32,
) -> Result<(Expression, &[Token]), Stop>
    ensures { Gives (λ x. (x.0, x.1.now)) result (next_at (mark 6) (argument_by (within (suc inside))) tokens.now) }
{
    let (_, rest) = mark(tokens, 6)?;
    argument(alloc, rest, inside)
}

// { "," expression }
#[cycle(expressions)]
#[tactic(auto, unfolding(mz_grammar::specs::Reading::many_at))]
fn next_arguments(
    alloc: Global,
    tokens: &[Token],
    inside: u32,
) -> Result<(Items<Expression>, &[Token]), Stop>
    ensures { Gives (λ x. (x.0, x.1.now)) result (many (mark 6) (next_at (mark 6) (argument_by (within (suc inside)))) tokens.now) }
{
    let mut items = Items::new(alloc);
    let mut rest = tokens;
    for i in 0..tokens.len() {
        if !mark_next(rest, 6) {
            return Ok((items, rest));
        }
        let (item, more) = next_argument(alloc, rest, inside)?;
        items.push(item)?;
        rest = more;
    }
    Ok((items, rest))
}

// [ expression { "," expression } ], before the closing bracket
#[cycle(expressions)]
#[tactic(auto, unfolding(crate::specs::BodyReading::arguments_by, crate::specs::BodyReading::separated_at))]
fn arguments(
    alloc: Global,
    tokens: &[Token],
    inside: u32,
) -> Result<(Items<Expression>, &[Token]), Stop>
    ensures { Gives (λ x. (x.0, x.1.now)) result (arguments_by (within (suc inside)) tokens.now) }
{
    let mut all = Items::new(alloc);
    if mark_next(tokens, 3) {
        return Ok((all, tokens));
    }
    let (one, rest) = argument(alloc, tokens, inside)?;
    let (others, rest) = next_arguments(alloc, rest, inside)?;
    all.push(one)?;
    all.append(others)?;
    Ok((all, rest))
}

// "(" [ expression { "," expression } ] ")", behind the name of what is called
#[cycle(expressions)]
#[tactic(auto, unfolding(crate::specs::BodyReading::call_by))]
fn call(
    alloc: Global,
    callee: Token,
    tokens: &[Token],
    depth: u32,
) -> Result<(Primary, &[Token]), Stop>
    ensures { Gives (λ x. (x.0, x.1.now)) result (call_by depth (within depth) callee tokens.now) }
{
    let (_, rest, inside) = opening(tokens, 2, depth)?;
    let (arguments, rest) = arguments(alloc, rest, inside)?;
    let (_, rest) = mark(rest, 3)?;
    Ok((Primary::Call { callee, arguments }, rest))
}

// A name, or a call
#[cycle(expressions)]
#[tactic(auto, unfolding(crate::specs::BodyReading::named_by))]
fn named(alloc: Global, tokens: &[Token], depth: u32) -> Result<(Primary, &[Token]), Stop>
    ensures { Gives (λ x. (x.0, x.1.now)) result (named_by depth (within depth) tokens.now) }
{
    let (name, rest) = low(tokens)?;
    if mark_next(rest, 2) {
        call(alloc, name, rest, depth)
    } else {
        Ok((Primary::Name(name), rest))
    }
}

// ")" or expression ")", behind the opening bracket
#[cycle(expressions)]
#[tactic(auto, unfolding(crate::specs::BodyReading::grouped_by))]
fn grouped(
    alloc: Global,
    bracket: Token,
    tokens: &[Token],
    inside: u32,
) -> Result<(Primary, &[Token]), Stop>
    ensures { Gives (λ x. (x.0, x.1.now)) result (grouped_by (within (suc inside)) bracket tokens.now) }
{
    if mark_next(tokens, 3) {
        let (_, rest) = mark(tokens, 3)?;
        return Ok((Primary::Unit { open: bracket }, rest));
    }
    let (value, rest) = argument(alloc, tokens, inside)?;
    let (_, rest) = mark(rest, 3)?;
    let inner = Boxed::new(alloc, value)?;
    Ok((
        Primary::Group {
            open: bracket,
            inner,
        },
        rest,
    ))
}

// "(" ")" or "(" expression ")"
#[cycle(expressions)]
#[tactic(auto, unfolding(crate::specs::BodyReading::group_by))]
fn group(alloc: Global, tokens: &[Token], depth: u32) -> Result<(Primary, &[Token]), Stop>
    ensures { Gives (λ x. (x.0, x.1.now)) result (group_by depth (within depth) tokens.now) }
{
    let (open, rest, inside) = opening(tokens, 2, depth)?;
    grouped(alloc, open, rest, inside)
}

// low "=" expression
#[cycle(expressions)]
#[tactic(auto, unfolding(crate::specs::BodyReading::value_by))]
fn value(alloc: Global, tokens: &[Token], inside: u32) -> Result<(FieldValue, &[Token]), Stop>
    ensures { Gives (λ x. (x.0, x.1.now)) result (value_by (within (suc inside)) tokens.now) }
{
    let (field, rest) = low(tokens)?;
    let (_, rest) = mark(rest, 8)?;
    let (value, rest) = argument(alloc, rest, inside)?;
    Ok((FieldValue { field, value }, rest))
}

// ";" value
#[cycle(expressions)]
#[tactic(auto, unfolding(crate::specs::BodyReading::next_at))]
fn next_value(alloc: Global, tokens: &[Token], inside: u32) -> Result<(FieldValue, &[Token]), Stop>
    ensures { Gives (λ x. (x.0, x.1.now)) result (next_at (mark 4) (value_by (within (suc inside))) tokens.now) }
{
    let (_, rest) = mark(tokens, 4)?;
    value(alloc, rest, inside)
}

// { ";" value }
#[cycle(expressions)]
#[tactic(auto, unfolding(mz_grammar::specs::Reading::many_at))]
fn next_values(
    alloc: Global,
    tokens: &[Token],
    inside: u32,
) -> Result<(Items<FieldValue>, &[Token]), Stop>
    ensures { Gives (λ x. (x.0, x.1.now)) result (many (mark 4) (next_at (mark 4) (value_by (within (suc inside)))) tokens.now) }
{
    let mut items = Items::new(alloc);
    let mut rest = tokens;
    for i in 0..tokens.len() {
        if !mark_next(rest, 4) {
            return Ok((items, rest));
        }
        let (item, more) = next_value(alloc, rest, inside)?;
        items.push(item)?;
        rest = more;
    }
    Ok((items, rest))
}

// [ value { ";" value } ], before the closing brace
#[cycle(expressions)]
#[tactic(auto, unfolding(crate::specs::BodyReading::values_by, crate::specs::BodyReading::separated_at))]
fn values(
    alloc: Global,
    tokens: &[Token],
    inside: u32,
) -> Result<(Items<FieldValue>, &[Token]), Stop>
    ensures { Gives (λ x. (x.0, x.1.now)) result (values_by (within (suc inside)) tokens.now) }
{
    let mut all = Items::new(alloc);
    if mark_next(tokens, 1) {
        return Ok((all, tokens));
    }
    let (one, rest) = value(alloc, tokens, inside)?;
    let (others, rest) = next_values(alloc, rest, inside)?;
    all.push(one)?;
    all.append(others)?;
    Ok((all, rest))
}

// up "{" [ value { ";" value } ] "}"
#[cycle(expressions)]
#[tactic(auto, unfolding(crate::specs::BodyReading::construct_by))]
fn construct(alloc: Global, tokens: &[Token], depth: u32) -> Result<(Primary, &[Token]), Stop>
    ensures { Gives (λ x. (x.0, x.1.now)) result (construct_by depth (within depth) tokens.now) }
{
    let (con, rest) = up(tokens)?;
    let (_, rest, inside) = opening(rest, 0, depth)?;
    let (fields, rest) = values(alloc, rest, inside)?;
    let (_, rest) = mark(rest, 1)?;
    Ok((Primary::Construct { con, fields }, rest))
}

// A primary, by the next token
#[cycle(expressions)]
#[tactic(auto, unfolding(crate::specs::BodyReading::primary_by))]
fn primary(alloc: Global, tokens: &[Token], depth: u32) -> Result<(Primary, &[Token]), Stop>
    ensures { Gives (λ x. (x.0, x.1.now)) result (primary_by depth (within depth) tokens.now) }
{
    if number_next(tokens) {
        number(tokens)
    } else if low_next(tokens) {
        named(alloc, tokens, depth)
    } else if mark_next(tokens, 2) {
        group(alloc, tokens, depth)
    } else if up_next(tokens) {
        construct(alloc, tokens, depth)
    } else {
        new_lock(alloc, tokens, depth)
    }
}

// primary { select }
#[cycle(expressions)]
#[tactic(auto, unfolding(crate::specs::BodyReading::postfix_by))]
fn postfix(alloc: Global, tokens: &[Token], depth: u32) -> Result<(Postfix, &[Token]), Stop>
    ensures { Gives (λ x. (x.0, x.1.now)) result (postfix_by depth (within depth) tokens.now) }
{
    let (base, rest) = primary(alloc, tokens, depth)?;
    let (selects, rest) = selects(alloc, rest)?;
    Ok((Postfix { base, selects }, rest))
}

// ("*" | "/" | "%") postfix
#[cycle(expressions)]
#[tactic(auto, unfolding(crate::specs::BodyReading::factor_by))]
fn factor(alloc: Global, tokens: &[Token], depth: u32) -> Result<(Factor, &[Token]), Stop>
    ensures { Gives (λ x. (x.0, x.1.now)) result (factor_by depth (within depth) tokens.now) }
{
    let (mark, rest) = multiplying_mark(tokens)?;
    let (part, rest) = postfix(alloc, rest, depth)?;
    Ok((Factor { mark, part }, rest))
}

// { factor }
#[cycle(expressions)]
#[tactic(auto, unfolding(mz_grammar::specs::Reading::many_at))]
fn factors(alloc: Global, tokens: &[Token], depth: u32) -> Result<(Items<Factor>, &[Token]), Stop>
    ensures { Gives (λ x. (x.0, x.1.now)) result (many multiplying (factor_by depth (within depth)) tokens.now) }
{
    let mut items = Items::new(alloc);
    let mut rest = tokens;
    for i in 0..tokens.len() {
        if !multiplying_next(rest) {
            return Ok((items, rest));
        }
        let (item, more) = factor(alloc, rest, depth)?;
        items.push(item)?;
        rest = more;
    }
    Ok((items, rest))
}

// { factor }, behind the first postfix of a product
#[cycle(expressions)]
#[tactic(auto, unfolding(crate::specs::BodyReading::product_after))]
fn product_rest(
    alloc: Global,
    first: Postfix,
    tokens: &[Token],
    depth: u32,
) -> Result<(Product, &[Token]), Stop>
    ensures { Gives (λ x. (x.0, x.1.now)) result (product_after depth (within depth) first tokens.now) }
{
    let (factors, rest) = factors(alloc, tokens, depth)?;
    Ok((Product { first, factors }, rest))
}

// postfix { factor }
#[cycle(expressions)]
#[tactic(auto, unfolding(crate::specs::BodyReading::product_by))]
fn product(alloc: Global, tokens: &[Token], depth: u32) -> Result<(Product, &[Token]), Stop>
    ensures { Gives (λ x. (x.0, x.1.now)) result (product_by depth (within depth) tokens.now) }
{
    let (first, rest) = postfix(alloc, tokens, depth)?;
    product_rest(alloc, first, rest, depth)
}

// ("+" | "-") product
#[cycle(expressions)]
#[tactic(auto, unfolding(crate::specs::BodyReading::term_by))]
fn term(alloc: Global, tokens: &[Token], depth: u32) -> Result<(Term, &[Token]), Stop>
    ensures { Gives (λ x. (x.0, x.1.now)) result (term_by depth (within depth) tokens.now) }
{
    let (mark, rest) = adding_mark(tokens)?;
    let (product, rest) = product(alloc, rest, depth)?;
    Ok((Term { mark, product }, rest))
}

// { term }
#[cycle(expressions)]
#[tactic(auto, unfolding(mz_grammar::specs::Reading::many_at))]
fn terms(alloc: Global, tokens: &[Token], depth: u32) -> Result<(Items<Term>, &[Token]), Stop>
    ensures { Gives (λ x. (x.0, x.1.now)) result (many adding (term_by depth (within depth)) tokens.now) }
{
    let mut items = Items::new(alloc);
    let mut rest = tokens;
    for i in 0..tokens.len() {
        if !adding_next(rest) {
            return Ok((items, rest));
        }
        let (item, more) = term(alloc, rest, depth)?;
        items.push(item)?;
        rest = more;
    }
    Ok((items, rest))
}

// { factor } { term }, behind the first postfix of a sum
#[cycle(expressions)]
#[tactic(auto, unfolding(crate::specs::BodyReading::sum_after))]
fn sum_rest(
    alloc: Global,
    first: Postfix,
    tokens: &[Token],
    depth: u32,
) -> Result<(Sum, &[Token]), Stop>
    ensures { Gives (λ x. (x.0, x.1.now)) result (sum_after depth (within depth) first tokens.now) }
{
    let (first, rest) = product_rest(alloc, first, tokens, depth)?;
    let (terms, rest) = terms(alloc, rest, depth)?;
    Ok((Sum { first, terms }, rest))
}

// product { term }
#[cycle(expressions)]
#[tactic(auto, unfolding(crate::specs::BodyReading::sum_by))]
fn sum(alloc: Global, tokens: &[Token], depth: u32) -> Result<(Sum, &[Token]), Stop>
    ensures { Gives (λ x. (x.0, x.1.now)) result (sum_by depth (within depth) tokens.now) }
{
    let (first, rest) = postfix(alloc, tokens, depth)?;
    sum_rest(alloc, first, rest, depth)
}

// A mark that compares, and a sum
#[cycle(expressions)]
#[tactic(auto, unfolding(crate::specs::BodyReading::comparing_by))]
fn comparing_sum(alloc: Global, tokens: &[Token], depth: u32) -> Result<(Comparing, &[Token]), Stop>
    ensures { Gives (λ x. (x.0, x.1.now)) result (comparing_by depth (within depth) tokens.now) }
{
    let (mark, rest) = comparing_mark(tokens)?;
    let (right, rest) = sum(alloc, rest, depth)?;
    Ok((Comparing { mark, right }, rest))
}

// .. if one is next
#[cycle(expressions)]
fn maybe_comparing(
    alloc: Global,
    tokens: &[Token],
    depth: u32,
) -> Result<(Option<Boxed<Comparing>>, &[Token]), Stop>
    ensures { Gives (λ x. (x.0, x.1.now)) result (maybe_at comparing (comparing_by depth (within depth)) tokens.now) }
{
    if comparing_next(tokens) {
        let (right, rest) = comparing_sum(alloc, tokens, depth)?;
        Ok((Some(Boxed::new(alloc, right)?), rest))
    } else {
        Ok((None, tokens))
    }
}

// What stands behind the first postfix of a comparison
#[cycle(expressions)]
#[tactic(auto, unfolding(crate::specs::BodyReading::comparison_after))]
fn comparison_rest(
    alloc: Global,
    first: Postfix,
    tokens: &[Token],
    depth: u32,
) -> Result<(Comparison, &[Token]), Stop>
    ensures { Gives (λ x. (x.0, x.1.now)) result (comparison_after depth (within depth) first tokens.now) }
{
    let (left, rest) = sum_rest(alloc, first, tokens, depth)?;
    let (right, rest) = maybe_comparing(alloc, rest, depth)?;
    Ok((Comparison { left, right }, rest))
}

// A sum, or two with a comparison between
#[cycle(expressions)]
#[tactic(auto, unfolding(crate::specs::BodyReading::comparison_by))]
fn comparison(alloc: Global, tokens: &[Token], depth: u32) -> Result<(Comparison, &[Token]), Stop>
    ensures { Gives (λ x. (x.0, x.1.now)) result (comparison_by depth (within depth) tokens.now) }
{
    let (first, rest) = postfix(alloc, tokens, depth)?;
    comparison_rest(alloc, first, rest, depth)
}

// What stands behind the first postfix, where it is no write
#[cycle(expressions)]
#[tactic(auto, unfolding(crate::specs::BodyReading::plain_after))]
fn plain(
    alloc: Global,
    first: Postfix,
    tokens: &[Token],
    depth: u32,
) -> Result<(Expression, &[Token]), Stop>
    ensures { Gives (λ x. (x.0, x.1.now)) result (plain_after depth (within depth) first tokens.now) }
{
    let (value, rest) = comparison_rest(alloc, first, tokens, depth)?;
    Ok((Expression::Plain(value), rest))
}

// "<-" comparison, behind its target
#[cycle(expressions)]
#[tactic(auto, unfolding(crate::specs::BodyReading::write_after))]
fn write(
    alloc: Global,
    target: Postfix,
    tokens: &[Token],
    depth: u32,
) -> Result<(Expression, &[Token]), Stop>
    ensures { Gives (λ x. (x.0, x.1.now)) result (write_after depth (within depth) target tokens.now) }
{
    let (mark, rest) = mark(tokens, 14)?;
    let (value, rest) = comparison(alloc, rest, depth)?;
    Ok((
        Expression::Write {
            target,
            mark,
            value,
        },
        rest,
    ))
}

// A comparison, or a write where the first postfix ends in a select and "<-" is next
#[cycle(expressions)]
#[tactic(auto, unfolding(crate::specs::BodyReading::simple_by))]
fn simple(alloc: Global, tokens: &[Token], depth: u32) -> Result<(Expression, &[Token]), Stop>
    ensures { Gives (λ x. (x.0, x.1.now)) result (simple_by depth (within depth) tokens.now) }
{
    let (first, rest) = postfix(alloc, tokens, depth)?;
    if ends_in_select(&first) {
        if mark_next(rest, 14) {
            write(alloc, first, rest, depth)
        } else {
            plain(alloc, first, rest, depth)
        }
    } else {
        plain(alloc, first, rest, depth)
    }
}

// "print" comparison
#[cycle(expressions)]
#[tactic(auto, unfolding(crate::specs::BodyReading::print_by))]
fn print(alloc: Global, tokens: &[Token], depth: u32) -> Result<(Expression, &[Token]), Stop>
    ensures { Gives (λ x. (x.0, x.1.now)) result (print_by depth (within depth) tokens.now) }
{
    let (word, rest) = key(tokens, 24)?;
    let (value, rest) = comparison(alloc, rest, depth)?;
    Ok((Expression::Print { key: word, value }, rest))
}

// "let" low "=" expression
#[cycle(expressions)]
#[tactic(auto, unfolding(crate::specs::BodyReading::let_by))]
fn let_item(alloc: Global, tokens: &[Token], inside: u32) -> Result<(BlockItem, &[Token]), Stop>
    ensures { Gives (λ x. (x.0, x.1.now)) result (let_by (within (suc inside)) tokens.now) }
{
    let (word, rest) = key(tokens, 6)?;
    let (name, rest) = low(rest)?;
    let (_, rest) = mark(rest, 8)?;
    let (value, rest) = argument(alloc, rest, inside)?;
    Ok((
        BlockItem::Let {
            key: word,
            name,
            value,
        },
        rest,
    ))
}

// A let, or an expression
#[cycle(expressions)]
#[tactic(auto, unfolding(crate::specs::BodyReading::item_by))]
fn item(alloc: Global, tokens: &[Token], inside: u32) -> Result<(BlockItem, &[Token]), Stop>
    ensures { Gives (λ x. (x.0, x.1.now)) result (item_by (within (suc inside)) tokens.now) }
{
    if key_next(tokens, 6) {
        let_item(alloc, tokens, inside)
    } else {
        let (value, rest) = argument(alloc, tokens, inside)?;
        Ok((BlockItem::Plain(value), rest))
    }
}

// Before the closing brace: nothing, or an item and perhaps its ";", after which it goes on
#[cycle(expressions)]
#[tactic(auto, unfolding(crate::specs::BodyReading::round_by))]
fn item_round(alloc: Global, tokens: &[Token], inside: u32) -> Result<(ItemRound, &[Token]), Stop>
    ensures { Gives (λ x. (round_of x.0, x.1.now)) result (round_by (within (suc inside)) tokens.now) }
{
    if mark_next(tokens, 1) {
        return Ok((ItemRound::Last(None), tokens));
    }
    let (item, rest) = item(alloc, tokens, inside)?;
    if mark_next(rest, 4) {
        let (_, rest) = mark(rest, 4)?;
        return Ok((ItemRound::More(item), rest));
    }
    Ok((ItemRound::Last(Some(Boxed::new(alloc, item)?)), rest))
}

// { item ";" } [item], up to the closing brace
#[cycle(expressions)]
#[tactic(auto, unfolding(crate::specs::BodyReading::items_by))]
fn items(
    alloc: Global,
    tokens: &[Token],
    inside: u32,
) -> Result<(Items<BlockItem>, Option<Boxed<BlockItem>>, &[Token]), Stop>
    ensures { Gives (λ x. ((x.0, x.1), x.2.now)) result (items_by (within (suc inside)) tokens.now) }
{
    let mut items = Items::new(alloc);
    let mut rest = tokens;
    for i in 0..tokens.len() {
        match item_round(alloc, rest, inside) {
            Err(stop) => return Err(stop),
            Ok(read) => {
                let (round, more) = read;
                match round {
                    ItemRound::More(item) => {
                        items.push(item)?;
                        rest = more;
                    }
                    ItemRound::Last(last) => return Ok((items, last, more)),
                }
            }
        }
    }
    Err(Stop::Unexpected(rest.len()))
}

/// "{" { item ";" } [item] "}"
#[cycle(expressions)]
#[tactic(auto, unfolding(crate::specs::BodyReading::block_by))]
pub fn block(alloc: Global, tokens: &[Token], depth: u32) -> Result<(Block, &[Token]), Stop>
    ensures { Gives (λ x. (x.0, x.1.now)) result (block_by depth (within depth) tokens.now) }
{
    let (open, rest, inside) = opening(tokens, 0, depth)?;
    let (items, last, rest) = items(alloc, rest, inside)?;
    let (close, rest) = mark(rest, 1)?;
    Ok((
        Block {
            open,
            items,
            last,
            close,
        },
        rest,
    ))
}

// "if" comparison "then" block "else" block ["giving" atoms]
#[cycle(expressions)]
#[tactic(auto, unfolding(crate::specs::BodyReading::if_by))]
fn if_else(alloc: Global, tokens: &[Token], depth: u32) -> Result<(Expression, &[Token]), Stop>
    ensures { Gives (λ x. (x.0, x.1.now)) result (if_by depth (within depth) tokens.now) }
{
    let (word, rest) = key(tokens, 7)?;
    let (test, rest) = comparison(alloc, rest, depth)?;
    let (_, rest) = key(rest, 8)?;
    let (yes, rest) = block(alloc, rest, depth)?;
    let (_, rest) = key(rest, 9)?;
    let (no, rest) = block(alloc, rest, depth)?;
    let (giving, rest) = giving(alloc, rest, depth)?;
    Ok((
        Expression::If {
            key: word,
            test,
            yes: Boxed::new(alloc, yes)?,
            no: Boxed::new(alloc, no)?,
            giving,
        },
        rest,
    ))
}

// up "->" block
#[cycle(expressions)]
#[tactic(auto, unfolding(crate::specs::BodyReading::case_by, crate::specs::BodyReading::within))]
fn case(alloc: Global, tokens: &[Token], inside: u32) -> Result<(Case, &[Token]), Stop>
    ensures { Gives (λ x. (x.0, x.1.now)) result (case_by (within (suc inside)) tokens.now) }
{
    let (con, rest) = up(tokens)?;
    let (_, rest) = mark(rest, 15)?;
    let (block, rest) = block(alloc, rest, inside)?;
    Ok((Case { con, block }, rest))
}

// { case }
#[cycle(expressions)]
#[tactic(auto, unfolding(mz_grammar::specs::Reading::many_at))]
fn next_cases(alloc: Global, tokens: &[Token], inside: u32) -> Result<(Items<Case>, &[Token]), Stop>
    ensures { Gives (λ x. (x.0, x.1.now)) result (many upper (case_by (within (suc inside))) tokens.now) }
{
    let mut items = Items::new(alloc);
    let mut rest = tokens;
    for i in 0..tokens.len() {
        if !up_next(rest) {
            return Ok((items, rest));
        }
        let (item, more) = case(alloc, rest, inside)?;
        items.push(item)?;
        rest = more;
    }
    Ok((items, rest))
}

// case { case }
#[cycle(expressions)]
#[tactic(auto, unfolding(crate::specs::BodyReading::cases_by))]
fn cases(alloc: Global, tokens: &[Token], inside: u32) -> Result<(Items<Case>, &[Token]), Stop>
    ensures { Gives (λ x. (x.0, x.1.now)) result (cases_by (within (suc inside)) tokens.now) }
{
    let mut all = Items::new(alloc);
    let (one, rest) = case(alloc, tokens, inside)?;
    let (others, rest) = next_cases(alloc, rest, inside)?;
    all.push(one)?;
    all.append(others)?;
    Ok((all, rest))
}

// "match" low "{" case { case } "}" ["giving" atoms]
#[cycle(expressions)]
#[tactic(auto, unfolding(crate::specs::BodyReading::match_by))]
fn match_cases(alloc: Global, tokens: &[Token], depth: u32) -> Result<(Expression, &[Token]), Stop>
    ensures { Gives (λ x. (x.0, x.1.now)) result (match_by depth (within depth) tokens.now) }
{
    let (word, rest) = key(tokens, 10)?;
    let (name, rest) = low(rest)?;
    let (_, rest, inside) = opening(rest, 0, depth)?;
    let (cases, rest) = cases(alloc, rest, inside)?;
    let (_, rest) = mark(rest, 1)?;
    let (giving, rest) = giving(alloc, rest, depth)?;
    Ok((
        Expression::Match {
            key: word,
            name,
            cases,
            giving,
        },
        rest,
    ))
}

// "spawn" low "(" expression ")"
#[cycle(expressions)]
#[tactic(auto, unfolding(crate::specs::BodyReading::spawn_by))]
fn spawn(alloc: Global, tokens: &[Token], depth: u32) -> Result<(Expression, &[Token]), Stop>
    ensures { Gives (λ x. (x.0, x.1.now)) result (spawn_by depth (within depth) tokens.now) }
{
    let (word, rest) = key(tokens, 23)?;
    let (name, rest) = low(rest)?;
    let (_, rest, inside) = opening(rest, 2, depth)?;
    let (argument, rest) = argument(alloc, rest, inside)?;
    let (_, rest) = mark(rest, 3)?;
    Ok((
        Expression::Spawn {
            key: word,
            name,
            argument: Boxed::new(alloc, argument)?,
        },
        rest,
    ))
}

// An expression, by the next token
#[cycle(expressions)]
#[tactic(auto, unfolding(crate::specs::BodyReading::expression_by))]
fn expression(alloc: Global, tokens: &[Token], depth: u32) -> Result<(Expression, &[Token]), Stop>
    ensures { Gives (λ x. (x.0, x.1.now)) result (expression_by depth (within depth) tokens.now) }
{
    if beginning_next(tokens) {
        simple(alloc, tokens, depth)
    } else if key_next(tokens, 24) {
        print(alloc, tokens, depth)
    } else if key_next(tokens, 7) {
        if_else(alloc, tokens, depth)
    } else if key_next(tokens, 10) {
        match_cases(alloc, tokens, depth)
    } else if key_next(tokens, 13) {
        retag(tokens)
    } else if key_next(tokens, 16) {
        give(tokens)
    } else if key_next(tokens, 17) {
        take(tokens)
    } else if key_next(tokens, 21) {
        acquire(tokens)
    } else if key_next(tokens, 22) {
        release(tokens)
    } else {
        spawn(alloc, tokens, depth)
    }
}
