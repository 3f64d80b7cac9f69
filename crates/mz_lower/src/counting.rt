//! How many instructions a body has. Targets of jumps are known by these numbers before anything behind them is written.
ghost use Rattle.std.specs.Prelude.{◌≡◌, ◌+◌, IfOk};
ghost use Rattle.mz_tree.specs.View.{plain_body, plain_op, plain_commands, plain_cases};
ghost use Rattle.mz_tree.specs.Code.{commands_of, cases_of};
ghost use Rattle.mz_lower.specs.Layout.{size_body, size_op, size_commands, size_cases};

use mz_tree::{Body, Case, Command, Memory, Op};

/// The sum of two numbers of instructions. Code whose numbers don't fit has no room in memory.
pub(crate) fn plus(left: u32, right: u32) -> Result<u32, Memory>
    ensures { IfOk result (λ sum. sum ≡ left + right) }
{
    match left.checked_add(right) {
        Some(sum) => Ok(sum),
        None => Err(Memory),
    }
}

/// The number of instructions of a body, without what stands behind it.
#[cycle(counts)]
pub fn count_body(body: &Body) -> Result<u32, Memory>
    ensures { IfOk result (λ n. n ≡ size_body (plain_body body.now)) }
{
    count_commands(body.commands.as_slice())
}

#[cycle(counts)]
fn count_commands(commands: &[Command]) -> Result<u32, Memory>
    ensures { IfOk result (λ n. n ≡ size_commands (commands_of (plain_commands commands.now))) }
{
    let mut total = 0;
    for i in 0..commands.len() {
        total = plus(total, count_op(&commands[i].op)?)?;
    }
    Ok(total)
}

#[cycle(counts)]
fn count_op(op: &Op) -> Result<u32, Memory>
    ensures { IfOk result (λ n. n ≡ size_op (plain_op op.now)) }
{
    match op {
        Op::If { yes, other, .. } => {
            let first = plus(count_body(yes)?, 3)?;
            plus(first, plus(count_body(other)?, 2)?)
        }
        Op::Match { cases, .. } => plus(1, count_cases(cases.as_slice())?),
        _ => Ok(1),
    }
}

#[cycle(counts)]
fn count_cases(cases: &[Case]) -> Result<u32, Memory>
    ensures { IfOk result (λ n. n ≡ size_cases (cases_of (plain_cases cases.now))) }
{
    let mut total = 0;
    for i in 0..cases.len() {
        total = plus(total, plus(count_body(&cases[i].body)?, 2)?)?;
    }
    Ok(total)
}
