//! The bodies in which a command may go on: those of an `if`, and those of a `match`, or of its one case whose constructor
//! is known.
ghost use Rattle.std.specs.Prelude.{◌≡◌, [], ◌∷◌, length, map, slice_get, option_map, option_copied};
ghost use Rattle.mz_tree.specs.Code.{body_of};
ghost use Rattle.mz_tree.specs.View.{plain_atom, plain_op, plain_body, plain_case, plain_cases};
ghost use Rattle.mz_flow.specs.Branches.{cases_at, walked_cases, walked_bodies};
ghost use Rattle.mz_flow.specs.Walking.{known_con, cases_known};

use mz_tree::{Atom, Body, Case, Command, Op, Ty};

/// How many bodies of the command a script walks, where it uses this permission: two of an `if`; of a `match` that of each
/// case, or of those alone whose constructor the permission tells, if it tells one among them. A command of another kind
/// has none. It takes no memory.
pub fn walked(command: &Command, uses: Option<&Atom>) -> usize
    ensures { result ≡ length (walked_bodies (plain_op command.now.op) (option_map plain_atom (option_copied uses.entry))) }
{
    match &command.op {
        Op::If { .. } => 2,
        Op::Match { cases, .. } => walked_cases(cases.as_slice(), known_con(uses)),
        _ => 0,
    }
}

/// The body of this number, from 0, of those that a script walks; none where there are not so many. It takes no memory.
pub fn walked_body<'a>(command: &'a Command, uses: Option<&Atom>, number: u32) -> Option<&'a Body>
    ensures { option_map plain_body (option_copied result) ≡ slice_get (walked_bodies (plain_op command.now.op) (option_map plain_atom (option_copied uses.entry))) number }
{
    match &command.op {
        Op::If { yes, other, .. } => either(yes, other, number),
        Op::Match { cases, .. } => {
            match walked_case(cases.as_slice(), known_con(uses), number) {
                Some(case) => Some(&case.body),
                None => None,
            }
        }
        _ => None,
    }
}

// the first or the second of two bodies
fn either<'a>(yes: &'a Body, other: &'a Body, number: u32) -> Option<&'a Body>
    ensures { option_map plain_body (option_copied result) ≡ slice_get (plain_body yes.now ∷ plain_body other.now ∷ []) number }
{
    if number == 0 {
        return Some(yes);
    }
    if number == 1 {
        return Some(other);
    }
    None
}

// the constructor that the permission tells, where it is for a block
fn known_con(uses: Option<&Atom>) -> Option<u32>
    ensures { result ≡ known_con (option_map plain_atom (option_copied uses.entry)) }
{
    match uses {
        Some(Atom::Has { name: _, ty }) => match ty {
            Ty::Block { con, .. } => Some(*con),
            _ => None,
        },
        _ => None,
    }
}

// how many cases are walked, where this constructor is known
fn walked_cases(cases: &[Case], known: Option<u32>) -> usize
    ensures { result ≡ length (walked_cases (plain_cases cases.now) (cases_known known (plain_cases cases.now))) }
{
    match known {
        None => cases.len(),
        Some(con) => {
            let count = count_at(cases, con);
            if count == 0 {
                return cases.len();
            }
            count
        }
    }
}

// the case of this number of those that are walked, where this constructor is known
fn walked_case(cases: &[Case], known: Option<u32>, number: u32) -> Option<&Case>
    ensures { option_map plain_case (option_copied result) ≡ slice_get (walked_cases (plain_cases cases.now) (cases_known known (plain_cases cases.now))) number }
{
    match known {
        None => cases.get(number as usize),
        Some(con) => {
            if count_at(cases, con) == 0 {
                return cases.get(number as usize);
            }
            case_at(cases, con, number)
        }
    }
}

// how many cases are of the constructor
pub(crate) fn count_at(cases: &[Case], con: u32) -> usize
    ensures { result ≡ length (cases_at con (plain_cases cases.now)) }
{
    let mut count = 0;
    for i in 0..cases.len() {
        if cases[i].con == con {
            count += 1;
        }
    }
    count
}

// the case of this number, from 0, of those of the constructor
fn case_at(cases: &[Case], con: u32, number: u32) -> Option<&Case>
    ensures { option_map plain_case (option_copied result) ≡ slice_get (cases_at con (plain_cases cases.now)) number }
{
    let mut left = number;
    for i in 0..cases.len() {
        if cases[i].con == con {
            if left == 0 {
                return Some(&cases[i]);
            }
            left -= 1;
        }
    }
    None
}
