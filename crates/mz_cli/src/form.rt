//! Whether a source that is read is of the first form: a test for each part of its grammar. None takes memory.
ghost use Rattle.std.specs.Prelude.{◌≡◌};
ghost use Rattle.std.specs.List.{list_all, list_any};
ghost use Rattle.mz_tree.specs.Code.{op_of, commands_in};
ghost use Rattle.mz_tree.specs.View.{plain_body, plain_op, plain_program};
ghost use Rattle.mz_cli.specs.FirstForm.{is_plain_select, is_field, is_part, is_part_alone, is_plus, is_sum, is_sum_alone, is_value, is_new, is_new_alone, is_new_sum, is_new_value, is_act, is_item, is_last, is_block, is_int, is_unknown, is_int_field, is_cell, is_cell_data, is_start, is_form, is_function, names_function, is_first_form};

use mz_parse::{
    Block, BlockItem, Comparison, Constructor, DataDeclaration, Declaration, Expression,
    FieldDeclaration, Primary, Product, Select, SignatureDeclaration, Sum, Surface, Term,
};
use mz_tree::{Body, Op, Program};
use mz_types::SurfaceType;

// One `.low`.
fn is_plain_select(selects: &[Select]) -> bool
    ensures { result ≡ is_plain_select selects.now }
{
    match selects {
        [select] => select.con.is_none(),
        _ => false,
    }
}

// low "." low
fn is_field(base: &Primary, selects: &[Select]) -> bool
    ensures { result ≡ is_field base.now selects.now }
{
    match base {
        Primary::Name(_) => is_plain_select(selects),
        _ => false,
    }
}

// number | low "." low
fn is_part(base: &Primary, selects: &[Select]) -> bool
    ensures { result ≡ is_part base.now selects.now }
{
    match base {
        Primary::Number(_) => selects.len() == 0,
        _ => is_field(base, selects),
    }
}

// A part, and no other with it.
fn is_part_alone(product: &Product) -> bool
    ensures { result ≡ is_part_alone product.now }
{
    is_part(&product.first.base, product.first.selects.as_slice()) && product.factors.len() == 0
}

// [ "+" part ]
fn is_plus(terms: &[Term]) -> bool
    ensures { result ≡ is_plus terms.now }
{
    match terms {
        [] => true,
        [term] => term.mark.kind.is_mark(10) && is_part_alone(&term.product),
        _ => false,
    }
}

// part [ "+" part ]
fn is_sum(sum: &Sum) -> bool
    ensures { result ≡ is_sum sum.now }
{
    is_part_alone(&sum.first) && is_plus(sum.terms.as_slice())
}

// A sum, and no comparison.
fn is_sum_alone(comparison: &Comparison) -> bool
    ensures { result ≡ is_sum_alone comparison.now }
{
    is_sum(&comparison.left) && comparison.right.is_none()
}

// A sum, as the value of a field.
fn is_value(expression: &Expression) -> bool
    ensures { result ≡ is_value expression.now }
{
    match expression {
        Expression::Plain(comparison) => is_sum_alone(comparison),
        _ => false,
    }
}

// up "{" low "=" sum "}"
fn is_new(base: &Primary) -> bool
    ensures { result ≡ is_new base.now }
{
    match base {
        Primary::Construct { fields, .. } => match fields.as_slice() {
            [field] => is_value(&field.value),
            _ => false,
        },
        _ => false,
    }
}

// The same, and nothing behind it.
fn is_new_alone(product: &Product) -> bool
    ensures { result ≡ is_new_alone product.now }
{
    is_new(&product.first.base) && product.first.selects.len() == 0 && product.factors.len() == 0
}

fn is_new_sum(sum: &Sum) -> bool
    ensures { result ≡ is_new_sum sum.now }
{
    is_new_alone(&sum.first) && sum.terms.len() == 0
}

// A new block, as the value of a `let`.
fn is_new_value(expression: &Expression) -> bool
    ensures { result ≡ is_new_value expression.now }
{
    match expression {
        Expression::Plain(comparison) => {
            is_new_sum(&comparison.left) && comparison.right.is_none()
        }
        _ => false,
    }
}

// "print" sum | low "." low "<-" sum
fn is_act(expression: &Expression) -> bool
    ensures { result ≡ is_act expression.now }
{
    match expression {
        Expression::Print { value, .. } => is_sum_alone(value),
        Expression::Write { target, value, .. } => {
            is_field(&target.base, target.selects.as_slice()) && is_sum_alone(value)
        }
        _ => false,
    }
}

// One item of the body.
fn is_item(item: &BlockItem) -> bool
    ensures { result ≡ is_item item.now }
{
    match item {
        BlockItem::Let { value, .. } => is_new_value(value),
        BlockItem::Plain(value) => is_act(value),
    }
}

// The items of the body.
fn are_items(items: &[BlockItem]) -> bool
    ensures { result ≡ list_all is_item items.now }
{
    for i in 0..items.len() {
        if !is_item(&items[i]) {
            return false;
        }
    }
    true
}

// The last item, if there is one that no `;` ends.
fn is_last(block: &Block) -> bool
    ensures { result ≡ is_last block.now.last }
{
    match &block.last {
        None => true,
        Some(item) => is_item(item.get()),
    }
}

// The body.
fn is_block(block: &Block) -> bool
    ensures { result ≡ is_block block.now }
{
    are_items(block.items.as_slice()) && is_last(block)
}

fn is_int(ty: &SurfaceType) -> bool
    ensures { result ≡ is_int ty.now }
{
    matches!(ty, SurfaceType::Int(_))
}

fn is_unknown(ty: &SurfaceType) -> bool
    ensures { result ≡ is_unknown ty.now }
{
    matches!(ty, SurfaceType::Unknown(_))
}

// One field that is a number.
fn is_int_field(fields: &[FieldDeclaration]) -> bool
    ensures { result ≡ is_int_field fields.now }
{
    match fields {
        [field] => is_int(&field.ty),
        _ => false,
    }
}

// One constructor of such a field.
fn is_cell(cons: &[Constructor]) -> bool
    ensures { result ≡ is_cell cons.now }
{
    match cons {
        [con] => is_int_field(con.fields.as_slice()),
        _ => false,
    }
}

// "data" "mutable" low "=" up "{" low ":" "int" "}"
fn is_cell_data(declaration: &DataDeclaration) -> bool
    ensures { result ≡ is_cell_data declaration.now }
{
    declaration.mutable.is_some()
        && declaration.adopts.is_none()
        && is_cell(declaration.cons.as_slice())
}

// "sig" low "=" "(" ")" "->" "(" low ":" "unknown" ")"
fn is_start(sig: &SignatureDeclaration) -> bool
    ensures { result ≡ is_start sig.now }
{
    sig.params.len() == 0 && sig.needs.len() == 0 && is_unknown(&sig.ty) && sig.gives.len() == 0
}

// All declarations.
fn is_form(declarations: &[Declaration]) -> bool
    ensures { result ≡ is_form declarations.now }
{
    match declarations {
        [
            Declaration::Data(data),
            Declaration::Signature(sig),
            Declaration::Function(function),
        ] => is_cell_data(data) && is_start(sig) && is_block(&function.block),
        _ => false,
    }
}

fn is_function(op: &Op) -> bool
    ensures { result ≡ is_function (plain_op op.now) }
{
    matches!(op, Op::Fun(_))
}

// Whether a command of the body has a function as its value.
fn has_function(body: &Body) -> bool
    ensures { result ≡ list_any (λ c. is_function (op_of c)) (commands_in (plain_body body.now)) }
{
    let commands = body.commands.as_slice();
    for i in 0..commands.len() {
        if is_function(&commands[i].op) {
            return true;
        }
    }
    false
}

// Whether some command has a function as its value.
fn names_function(program: &Program) -> bool
    ensures { result ≡ names_function (plain_program program.now) }
{
    let functions = program.funs.as_slice();
    for i in 0..functions.len() {
        if has_function(&functions[i].body) {
            return true;
        }
    }
    false
}

/// Whether a source with this tree and this program is of the first form.
pub fn is_first_form(surface: &Surface, program: &Program) -> bool
    ensures { result ≡ is_first_form surface.now (plain_program program.now) }
{
    is_form(surface.declarations.as_slice()) && !names_function(program)
}
