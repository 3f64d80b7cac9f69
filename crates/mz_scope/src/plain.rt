//! Expressions that are a name alone, in brackets or not.
ghost use Rattle.std.specs.Prelude.{◌≡◌, ℕ, List, option_map};
ghost use Rattle.std.specs.Option.{option_copied};
ghost use Rattle.mz_scope.specs.Trees.{word_of, primary_tree, product_tree, sum_tree, comparison_tree, expr_tree};
ghost use Rattle.mz_scope.specs.Kinds.{name_of};

use mz_parse::{Comparison, Expression, Primary, Product, Sum};
use mz_token::Token;

/// The name that an expression is, if it is one. It takes no memory.
#[cycle(plain)]
pub(crate) fn name_in_expression(expression: &Expression) -> Option<&Token>
    ensures { (bytes : List ℕ) → option_map (word_of bytes) (option_copied result) ≡ name_of (expr_tree bytes expression.now) }
{
    match expression {
        Expression::Plain(value) => name_in_comparison(value),
        _ => None,
    }
}

// that of a comparison
#[cycle(plain)]
fn name_in_comparison(comparison: &Comparison) -> Option<&Token>
    ensures { (bytes : List ℕ) → option_map (word_of bytes) (option_copied result) ≡ name_of (comparison_tree bytes comparison.now) }
{
    if comparison.right.is_some() {
        return None;
    }
    name_in_sum(&comparison.left)
}

// that of a sum
#[cycle(plain)]
fn name_in_sum(sum: &Sum) -> Option<&Token>
    ensures { (bytes : List ℕ) → option_map (word_of bytes) (option_copied result) ≡ name_of (sum_tree bytes sum.now) }
{
    if !sum.terms.is_empty() {
        return None;
    }
    name_in_product(&sum.first)
}

// that of a product
#[cycle(plain)]
fn name_in_product(product: &Product) -> Option<&Token>
    ensures { (bytes : List ℕ) → option_map (word_of bytes) (option_copied result) ≡ name_of (product_tree bytes product.now) }
{
    if !product.factors.is_empty() {
        return None;
    }
    if !product.first.selects.is_empty() {
        return None;
    }
    name_in_primary(&product.first.base)
}

// that of a primary expression
#[cycle(plain)]
fn name_in_primary(primary: &Primary) -> Option<&Token>
    ensures { (bytes : List ℕ) → option_map (word_of bytes) (option_copied result) ≡ name_of (primary_tree bytes primary.now) }
{
    match primary {
        Primary::Name(name) => Some(name),
        Primary::Group { inner, .. } => name_in_expression(inner.get()),
        _ => None,
    }
}
