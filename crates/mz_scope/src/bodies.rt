//! Expressions and blocks, and what they come to. Each level of the tree has a function, which adds the commands of its
//! parts from left to right and then its own, and gives the name of its value. Lists are gone over by loops; what is left
//! of recursion is bounded by the brackets of the source. A block works on a copy of the names in scope, so what it binds
//! ends with it.
ghost use Rattle.std.specs.Prelude.{◌≡◌, ◌++◌, ◌∷◌, ℕ, List, [], map, reverse, IfOk, MatchOption, option_map};
ghost use Rattle.std.specs.Option.{option_copied};
ghost use Rattle.mz_tree.specs.View.{plain_atoms, plain_body, plain_cases};
ghost use Rattle.mz_scope.specs.Syntax.{Expr, Call_expr, New_expr, Match_expr, Retag_expr, Spawn_expr, BlockItems, Let_item};
ghost use Rattle.mz_scope.specs.Making.{Came_to};
ghost use Rattle.mz_scope.specs.Bodies.{flat_expression, flat_expressions, flat_values, flat_cases, flat_block, flat_items, flat_item, with_number, own_name, local_name};
ghost use Rattle.mz_scope.specs.Trees.{word_of, selected, primary_tree, product_tree, sum_tree, comparison_tree, expr_tree, item_tree, items_of, block_tree, atom_trees, operator_in, number_in};
ghost use Rattle.mz_scope.specs.Lists.{exprs_of, values_of, arms_of};
ghost use Rattle.mz_scope.specs.Kinds.{name_of, flat_end};
ghost use Rattle.mz_scope.specs.View.{made_of, Comes, as_is};

use crate::callees::{given, name_value};
use crate::fault::Cause;
use crate::fields::{are_fields, in_order, is_field, number_of};
use crate::known::con_by_name;
use crate::making::Making;
use crate::names::ConEntry;
use crate::plain::name_in_expression;
use crate::select::{field_in, read, select_con};
use crate::shapes::{differ_in_fields, has_other_count, is_misplaced, lacks_a_case, match_data};
use crate::types::atoms;
use crate::words::Source;
use mz_names::{FieldList, Scope};
use mz_parse::{
    Block, BlockItem, Case, Comparison, Expression, FieldValue, Primary, Product, Select, Sum,
};
use mz_token::{Kind, Token};
use mz_tree::{Arith, Body, Case as FlatCase, Cases, Memory, Names, Op, Place};
use mz_types::SurfaceAtom;
use sqlite_items::{Boxed, Items};

// the operator of a mark's token
fn operator(kind: Kind) -> Arith
    ensures { result ≡ operator_in kind }
{
    match kind {
        Kind::Mark(10) => Arith::Add,
        Kind::Mark(11) => Arith::Sub,
        Kind::Mark(9) => Arith::Mul,
        Kind::Mark(12) => Arith::Div,
        Kind::Mark(13) => Arith::Rem,
        Kind::Mark(16) => Arith::Eq,
        Kind::Mark(17) => Arith::Ne,
        Kind::Mark(18) => Arith::Lt,
        Kind::Mark(19) => Arith::Le,
        Kind::Mark(20) => Arith::Gt,
        Kind::Mark(_) => Arith::Ge,
        _ => Arith::Add,
    }
}

// the value of a number's token
fn number(kind: Kind) -> u64
    ensures { result ≡ number_in kind }
{
    match kind {
        Kind::Number(value) => value,
        _ => 0,
    }
}

// a block's constructor is changed for another
#[tactic(auto, unfolding(crate::specs::Bodies::flat_expression))]
fn retag(
    source: &Source<'_>,
    scope: &Scope,
    key: Place,
    name: &Token,
    old: &Token,
    new: &Token,
    making: &mut Making,
) -> Result<u32, Memory>
    ensures { Comes as_is (flat_expression source.now.globals.now scope.now (Retag_expr key (word_of source.now.text.now name.now) (word_of source.now.text.now old.now) (word_of source.now.text.now new.now))) making.old result making.new }
{
    let block = name_value(source, scope, name, making)?;
    let before = con_by_name(source, old, making)?;
    let after = con_by_name(source, new, making)?;
    making.fault_if(differ_in_fields(before, after), Cause::Shape, key)?;
    let op = Op::Retag {
        block,
        from: number_of(before),
        to: number_of(after),
    };
    making.command(source.alloc, key, op)
}

// the number of a constructor is added, where that is declared
fn add_number(con: Option<&ConEntry>, numbers: &mut Names) -> Result<(), Memory>
    ensures { IfOk result (λ _. reverse numbers.new ≡ with_number (reverse numbers.old) (option_copied con.entry)) }
{
    if let Some(con) = con {
        numbers.push(con.number())?;
    }
    Ok(())
}

// a local name's value is copied to a name of its own; each other value has one
fn own_name(
    source: &Source<'_>,
    scope: &Scope,
    value: &Expression,
    known: u32,
    making: &mut Making,
) -> Result<u32, Memory>
    ensures { Comes as_is (own_name (local_name scope.now (expr_tree source.now.text.now value.now)) known) making.old result making.new }
{
    match name_in_expression(value) {
        Some(name) => {
            if scope.find(source.spelled(name)).is_none() {
                return Ok(known);
            }
            making.command(source.alloc, name.place, Op::Copy(known))
        }
        None => Ok(known),
    }
}

// selects without the last of them, and that one
fn split_last(selects: &[Select]) -> Option<(&[Select], &Select)>
    ensures { MatchOption result (selects.now ≡ []) (λ x. selects.now ≡ x.0.now ++ x.1.now ∷ []) }
{
    match selects.len().checked_sub(1) {
        None => None,
        Some(last) => Some((&selects[..last], &selects[last])),
    }
}

// an expression with selects behind it
#[cycle(bodies)]
fn postfix(
    source: &Source<'_>,
    scope: &Scope,
    base: &Primary,
    selects: &[Select],
    making: &mut Making,
) -> Result<u32, Memory>
    ensures { Comes as_is (flat_expression source.now.globals.now scope.now (selected source.now.text.now (primary_tree source.now.text.now base.now) selects.now)) making.old result making.new }
{
    let mut value = primary(source, scope, base, making)?;
    for i in 0..selects.len() {
        value = read(source, value, &selects[i], making)?;
    }
    Ok(value)
}

// a product
#[cycle(bodies)]
fn product(
    source: &Source<'_>,
    scope: &Scope,
    product: &Product,
    making: &mut Making,
) -> Result<u32, Memory>
    ensures { Comes as_is (flat_expression source.now.globals.now scope.now (product_tree source.now.text.now product.now)) making.old result making.new }
{
    let first = &product.first;
    let mut left = postfix(source, scope, &first.base, first.selects.as_slice(), making)?;
    let factors = product.factors.as_slice();
    for i in 0..factors.len() {
        let factor = &factors[i];
        let part = &factor.part;
        let right = postfix(source, scope, &part.base, part.selects.as_slice(), making)?;
        let mark = factor.mark;
        left = making.command(
            source.alloc,
            mark.place,
            Op::Arith {
                op: operator(mark.kind),
                left,
                right,
            },
        )?;
    }
    Ok(left)
}

// a sum
#[cycle(bodies)]
fn sum(source: &Source<'_>, scope: &Scope, sum: &Sum, making: &mut Making) -> Result<u32, Memory>
    ensures { Comes as_is (flat_expression source.now.globals.now scope.now (sum_tree source.now.text.now sum.now)) making.old result making.new }
{
    let mut left = product(source, scope, &sum.first, making)?;
    let terms = sum.terms.as_slice();
    for i in 0..terms.len() {
        let term = &terms[i];
        let right = product(source, scope, &term.product, making)?;
        let mark = term.mark;
        left = making.command(
            source.alloc,
            mark.place,
            Op::Arith {
                op: operator(mark.kind),
                left,
                right,
            },
        )?;
    }
    Ok(left)
}

// a comparison
#[cycle(bodies)]
fn comparison(
    source: &Source<'_>,
    scope: &Scope,
    comparison: &Comparison,
    making: &mut Making,
) -> Result<u32, Memory>
    ensures { Comes as_is (flat_expression source.now.globals.now scope.now (comparison_tree source.now.text.now comparison.now)) making.old result making.new }
{
    let left = sum(source, scope, &comparison.left, making)?;
    match &comparison.right {
        None => Ok(left),
        Some(comparing) => {
            let comparing = comparing.get();
            let right = sum(source, scope, &comparing.right, making)?;
            let mark = comparing.mark;
            making.command(
                source.alloc,
                mark.place,
                Op::Arith {
                    op: operator(mark.kind),
                    left,
                    right,
                },
            )
        }
    }
}

// the values of expressions, one after the other
#[cycle(bodies)]
fn expressions(
    source: &Source<'_>,
    scope: &Scope,
    all: &[Expression],
    making: &mut Making,
) -> Result<Names, Memory>
    ensures { Comes as_is (flat_expressions source.now.globals.now scope.now (exprs_of source.now.text.now all.now)) making.old result making.new }
{
    let mut values = Items::new(source.alloc);
    for i in 0..all.len() {
        values.push(expression(source, scope, &all[i], making)?)?;
    }
    Ok(values)
}

// the fields of a new block with their values, as they are written
#[cycle(bodies)]
fn values(
    source: &Source<'_>,
    scope: &Scope,
    con: Option<&ConEntry>,
    fields: &[FieldValue],
    making: &mut Making,
) -> Result<FieldList, Memory>
    ensures { Comes as_is (flat_values source.now.globals.now scope.now (option_copied con.entry) (values_of source.now.text.now fields.now)) making.old result making.new }
{
    let mut written = FieldList::new(source.alloc);
    for i in 0..fields.len() {
        let one = &fields[i];
        is_field(source, con, &one.field, making)?;
        let value = expression(source, scope, &one.value, making)?;
        written.push(source.alloc, source.spelled(&one.field), value)?;
    }
    Ok(written)
}

// a call
#[cycle(bodies)]
#[tactic(auto, unfolding(crate::specs::Bodies::flat_expression))]
fn call(
    source: &Source<'_>,
    scope: &Scope,
    callee: &Token,
    arguments: &[Expression],
    making: &mut Making,
) -> Result<u32, Memory>
    ensures { Comes as_is (flat_expression source.now.globals.now scope.now (Call_expr (word_of source.now.text.now callee.now) (exprs_of source.now.text.now arguments.now))) making.old result making.new }
{
    let function = name_value(source, scope, callee, making)?;
    let args = expressions(source, scope, arguments, making)?;
    let other = has_other_count(source, scope, callee, args.len());
    making.fault_if(other, Cause::Shape, callee.place)?;
    let op = Op::Call {
        callee: function,
        args,
    };
    making.command(source.alloc, callee.place, op)
}

// a new block
#[cycle(bodies)]
#[tactic(auto, unfolding(crate::specs::Bodies::flat_expression))]
fn construct(
    source: &Source<'_>,
    scope: &Scope,
    name: &Token,
    fields: &[FieldValue],
    making: &mut Making,
) -> Result<u32, Memory>
    ensures { Comes as_is (flat_expression source.now.globals.now scope.now (New_expr (word_of source.now.text.now name.now) (values_of source.now.text.now fields.now))) making.old result making.new }
{
    let con = con_by_name(source, name, making)?;
    let written = values(source, scope, con, fields, making)?;
    are_fields(con, &written, name.place, making)?;
    let op = Op::New {
        con: number_of(con),
        fields: in_order(source.alloc, con, &written)?,
    };
    making.command(source.alloc, name.place, op)
}

// what is no expression made of others by a mark
#[cycle(bodies)]
#[tactic(auto, unfolding(crate::specs::Bodies::flat_expression))]
fn primary(
    source: &Source<'_>,
    scope: &Scope,
    primary: &Primary,
    making: &mut Making,
) -> Result<u32, Memory>
    ensures { Comes as_is (flat_expression source.now.globals.now scope.now (primary_tree source.now.text.now primary.now)) making.old result making.new }
{
    match primary {
        Primary::Number(token) => making.command(
            source.alloc,
            token.place,
            Op::Int(number(token.kind)),
        ),
        Primary::Name(name) => name_value(source, scope, name, making),
        Primary::Call { callee, arguments } => call(
            source,
            scope,
            callee,
            arguments.as_slice(),
            making,
        ),
        Primary::Unit { open } => making.command(source.alloc, open.place, Op::Unit),
        Primary::Group { inner, .. } => expression(source, scope, inner.get(), making),
        Primary::Construct { con, fields } => construct(
            source,
            scope,
            con,
            fields.as_slice(),
            making,
        ),
        Primary::NewLock { key, guarded } => {
            let guarded = atoms(source, scope, guarded.as_slice(), making)?;
            making.command(source.alloc, key.place, Op::NewLock(guarded))
        }
    }
}

// the cases of a match by a data type
#[cycle(bodies)]
fn cases(
    source: &Source<'_>,
    scope: &Scope,
    variety: Option<u32>,
    all: &[Case],
    making: &mut Making,
) -> Result<Cases, Memory>
    ensures { Comes plain_cases (flat_cases source.now.globals.now scope.now variety [] (arms_of source.now.text.now all.now)) making.old result making.new }
{
    let mut cases = Items::new(source.alloc);
    let mut earlier = Items::new(source.alloc);
    for i in 0..all.len() {
        let case = &all[i];
        let con = con_by_name(source, &case.con, making)?;
        let misplaced = is_misplaced(variety, earlier.as_slice(), con);
        making.fault_if(misplaced, Cause::Shape, case.con.place)?;
        let body = block(source, scope, &case.block, making)?;
        cases.push(FlatCase {
            con: number_of(con),
            body,
        })?;
        add_number(con, &mut earlier)?;
    }
    Ok(cases)
}

// one of several blocks, by a constructor
#[cycle(bodies)]
#[tactic(auto, unfolding(crate::specs::Bodies::flat_expression))]
fn choose(
    source: &Source<'_>,
    scope: &Scope,
    key: Place,
    name: &Token,
    all: &[Case],
    giving: &[SurfaceAtom],
    making: &mut Making,
) -> Result<u32, Memory>
    ensures { Comes as_is (flat_expression source.now.globals.now scope.now (Match_expr key (word_of source.now.text.now name.now) (arms_of source.now.text.now all.now) (atom_trees source.now.text.now giving.now))) making.old result making.new }
{
    let matched = name_value(source, scope, name, making)?;
    let lacks = lacks_a_case(source, all)?;
    making.fault_if(lacks, Cause::NotExhaustive, key)?;
    let variety = match_data(source, all);
    let cases = cases(source, scope, variety, all, making)?;
    let giving = given(source, scope, giving, making)?;
    let op = Op::Match {
        block: matched,
        variety: variety.unwrap_or(0),
        cases,
        giving,
    };
    making.command(source.alloc, key, op)
}

// a function is started in a new thread
#[cycle(bodies)]
#[tactic(auto, unfolding(crate::specs::Bodies::flat_expression))]
fn spawn(
    source: &Source<'_>,
    scope: &Scope,
    key: Place,
    callee: &Token,
    argument: &Expression,
    making: &mut Making,
) -> Result<u32, Memory>
    ensures { Comes as_is (flat_expression source.now.globals.now scope.now (Spawn_expr key (word_of source.now.text.now callee.now) (expr_tree source.now.text.now argument.now))) making.old result making.new }
{
    let function = name_value(source, scope, callee, making)?;
    let arg = expression(source, scope, argument, making)?;
    let other = has_other_count(source, scope, callee, 1);
    making.fault_if(other, Cause::Shape, callee.place)?;
    let op = Op::Spawn {
        callee: function,
        arg,
    };
    making.command(source.alloc, key, op)
}

// an expression
#[cycle(bodies)]
#[tactic(auto, unfolding(crate::specs::Bodies::flat_expression))]
fn expression(
    source: &Source<'_>,
    scope: &Scope,
    expression: &Expression,
    making: &mut Making,
) -> Result<u32, Memory>
    ensures { Comes as_is (flat_expression source.now.globals.now scope.now (expr_tree source.now.text.now expression.now)) making.old result making.new }
{
    match expression {
        Expression::Plain(value) => comparison(source, scope, value, making),
        Expression::Write {
            target,
            mark,
            value,
        } => {
            let Some((front, last)) = split_last(target.selects.as_slice()) else {
                return making.command(source.alloc, mark.place, Op::Unit);
            };
            let block = postfix(source, scope, &target.base, front, making)?;
            let con = select_con(source, last, making)?;
            let field = field_in(source, con, &last.field, making)?;
            let from = comparison(source, scope, value, making)?;
            let op = Op::Write {
                block,
                con: number_of(con),
                field,
                from,
            };
            making.command(source.alloc, mark.place, op)
        }
        Expression::Print { key, value } => {
            let value = comparison(source, scope, value, making)?;
            making.command(source.alloc, key.place, Op::Print(value))
        }
        Expression::If {
            key,
            test,
            yes,
            no,
            giving,
        } => {
            let test = comparison(source, scope, test, making)?;
            let yes = block(source, scope, yes.get(), making)?;
            let other = block(source, scope, no.get(), making)?;
            let giving = given(source, scope, giving.as_slice(), making)?;
            let op = Op::If {
                test,
                yes,
                other,
                giving,
            };
            making.command(source.alloc, key.place, op)
        }
        Expression::Match {
            key,
            name,
            cases,
            giving,
        } => choose(
            source,
            scope,
            key.place,
            name,
            cases.as_slice(),
            giving.as_slice(),
            making,
        ),
        Expression::Retag {
            key,
            name,
            from,
            to,
        } => retag(source, scope, key.place, name, from, to, making),
        Expression::Give { key, name, to } => {
            let block = name_value(source, scope, name, making)?;
            let adopter = name_value(source, scope, to, making)?;
            making.command(source.alloc, key.place, Op::Give { block, adopter })
        }
        Expression::Take { key, name, from } => {
            let block = name_value(source, scope, name, making)?;
            let adopter = name_value(source, scope, from, making)?;
            making.command(source.alloc, key.place, Op::Take { block, adopter })
        }
        Expression::Acquire { key, name } => {
            let lock = name_value(source, scope, name, making)?;
            making.command(source.alloc, key.place, Op::Acquire(lock))
        }
        Expression::Release { key, name } => {
            let lock = name_value(source, scope, name, making)?;
            making.command(source.alloc, key.place, Op::Release(lock))
        }
        Expression::Spawn {
            key,
            name,
            argument,
        } => spawn(source, scope, key.place, name, argument.get(), making),
    }
}

// a `let`: it binds its name to a name of its own
#[cycle(bodies)]
#[tactic(auto, unfolding(crate::specs::Bodies::flat_item))]
fn bind(
    source: &Source<'_>,
    scope: &mut Scope,
    name: &Token,
    value: &Expression,
    making: &mut Making,
) -> Result<(), Memory>
    ensures { IfOk result (λ _. flat_item source.now.globals.now scope.old (Let_item (word_of source.now.text.now name.now) (expr_tree source.now.text.now value.now)) (made_of making.old) ≡ Came_to scope.new (made_of making.new)) }
{
    let text = source.spelled(name);
    let twice = scope.find(text).is_some();
    making.fault_if(twice, Cause::Twice, name.place)?;
    let known = expression(source, scope, value, making)?;
    let own = own_name(source, scope, value, known, making)?;
    making.spell(source.alloc, text)?;
    scope.push(source.alloc, text, own)
}

// an item of a block
#[cycle(bodies)]
#[tactic(auto, unfolding(crate::specs::Bodies::flat_item))]
fn item(
    source: &Source<'_>,
    scope: &mut Scope,
    item: &BlockItem,
    making: &mut Making,
) -> Result<(), Memory>
    ensures { IfOk result (λ _. flat_item source.now.globals.now scope.old (item_tree source.now.text.now item.now) (made_of making.old) ≡ Came_to scope.new (made_of making.new)) }
{
    match item {
        BlockItem::Let { name, value, .. } => bind(source, scope, name, value, making),
        BlockItem::Plain(value) => {
            expression(source, scope, value, making)?;
            Ok(())
        }
    }
}

// the items that a `;` ends, whatever stands behind them
#[cycle(bodies)]
fn items(
    source: &Source<'_>,
    scope: &mut Scope,
    all: &[BlockItem],
    making: &mut Making,
) -> Result<(), Memory>
    ensures { IfOk result (λ _. (behind : BlockItems) → flat_items source.now.globals.now scope.old (items_of source.now.text.now (map (item_tree source.now.text.now) all.now) behind) (made_of making.old) ≡ flat_items source.now.globals.now scope.new behind (made_of making.new)) }
{
    for i in 0..all.len() {
        item(source, scope, &all[i], making)?;
    }
    Ok(())
}

// the end of a block: its last item, where no `;` ends it, and its value
#[cycle(bodies)]
fn ending(
    source: &Source<'_>,
    scope: &mut Scope,
    last: &Option<Boxed<BlockItem>>,
    brace: Place,
    making: &mut Making,
) -> Result<u32, Memory>
    ensures { Comes as_is (flat_end source.now.globals.now scope.old brace (option_map (item_tree source.now.text.now) last.now)) making.old result making.new }
{
    let Some(last) = last else {
        return making.command(source.alloc, brace, Op::Unit);
    };
    match last.get() {
        BlockItem::Let { name, value, .. } => {
            bind(source, scope, name, value, making)?;
            making.command(source.alloc, brace, Op::Unit)
        }
        BlockItem::Plain(value) => expression(source, scope, value, making),
    }
}

/// A block is a body of its own.
#[cycle(bodies)]
pub(crate) fn block(
    source: &Source<'_>,
    scope: &Scope,
    block: &Block,
    making: &mut Making,
) -> Result<Body, Memory>
    ensures { Comes plain_body (flat_block source.now.globals.now scope.now (block_tree source.now.text.now block.now)) making.old result making.new }
{
    let mut inner = scope.copy()?;
    let before = making.begin(source.alloc);
    items(source, &mut inner, block.items.as_slice(), making)?;
    let value = ending(source, &mut inner, &block.last, block.close.place, making)?;
    Ok(making.end(before, value, block.close.place))
}
