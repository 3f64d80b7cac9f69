//! What an instruction looks up: a function, a place among the words, the target of a tag, and the result of an operator.
ghost use Rattle.std.specs.Prelude.{◌≡◌, ◌+◌, ◌≤◌, ◌<◌, MatchOption};
ghost use Rattle.mz_tree.specs.Arithmetic.{computed};
ghost use Rattle.mz_words.specs.Steps.{callee_of, case_at};

use mz_tree::Arith;
use mz_words::{Code, Options, Start};
use sqlite_items::at;

/// The function of this number, where it has so many parameters.
pub(crate) fn callee(code: &Code, number: u64, params: usize) -> Option<Start>
    ensures { result ≡ callee_of code.now number params }
{
    match code.entries.get(number as usize) {
        Some(start) => {
            if start.params as usize == params {
                Some(*start)
            } else {
                None
            }
        }
        None => None,
    }
}

/// The place that lies so far behind this one, where it is among the words.
pub(crate) fn place_at(options: &Options, base: u64, offset: u64) -> Option<u32>
    ensures { MatchOption result (options.now.heap ≤ base + offset) (λ p. (p ≡ base + offset) × (p < options.now.heap)) }
{
    let heap = options.heap as u64;
    if base < heap && offset < heap - base {
        Some((base + offset) as u32)
    } else {
        None
    }
}

/// The target of the first constructor that has this tag.
pub(crate) fn find_case(cons: &[u32], targets: &[u32], tag: u64) -> Option<u32>
    ensures { result ≡ case_at cons.now targets.now tag }
{
    for i in 0..cons.len() {
        match at(targets, i) {
            Some(target) => {
                if cons[i] as u64 + 1 == tag {
                    return Some(*target);
                }
            }
            None => return None,
        }
    }
    None
}

/// What the operator makes of two numbers, or none where it stops the thread.
pub(crate) fn result_of(operator: Arith, left: u64, right: u64) -> Option<u64>
    ensures { result ≡ computed operator left right }
{
    match operator {
        Arith::Add => left.checked_add(right),
        Arith::Sub => left.checked_sub(right),
        Arith::Mul => left.checked_mul(right),
        Arith::Div => left.checked_div(right),
        Arith::Rem => left.checked_rem(right),
        Arith::Eq => Some((left == right) as u64),
        Arith::Ne => Some((left != right) as u64),
        Arith::Lt => Some((left < right) as u64),
        Arith::Le => Some((left <= right) as u64),
        Arith::Gt => Some((left > right) as u64),
        Arith::Ge => Some((left >= right) as u64),
    }
}
