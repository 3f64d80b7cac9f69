//! The walk of a body: its commands one after the other, with those that go on in branches.
//!
//! Each branch is walked from a state of its own, and its fresh names follow on those of the branch before it.
ghost use Rattle.std.specs.Prelude.{◌≡◌, ◌∷◌, ◌++◌, [], ℕ, List, IfOk, Some, map, reverse, slice_get};
ghost use Rattle.mz_tree.specs.Plain.{Atom as PlainAtom, Has_atom, Named_type};
ghost use Rattle.mz_tree.specs.Code.{Match_op, The_command, body_of, cases_of, con_of};
ghost use Rattle.mz_tree.specs.View.{plain_atoms, plain_body, plain_case, plain_cases, plain_command};
ghost use Rattle.mz_decl.specs.View.{plain_decls};
ghost use Rattle.mz_modes.specs.Modes.{AreModes};
ghost use Rattle.mz_index.specs.Finding.{InClass, NoneFits};
ghost use Rattle.mz_elab.specs.Sought.{IsFirstAt};
ghost use Rattle.mz_elab.specs.Opening.{BlockIn, open_case};
ghost use Rattle.mz_elab.specs.Scoping.{IsConOf, ScopedBody, ScopedCommand};
ghost use Rattle.mz_elab.specs.Walking.{BodyOr, BranchOr, BranchesOr, GoesOver, MatchScoped, PutsIn};

use crate::acting::{number, one};
use crate::ends::End;
use crate::fault::ElabFault;
use crate::finding::{Sought, first_of};
use crate::goals::{meet_goals, subject};
use crate::joins::join_in;
use crate::matching::{begin_known, begin_opened, case_of, con_at, use_at};
use crate::naming::copied;
use crate::opening::open_con;
use crate::scoping::{case_is_scoped, match_is_scoped};
use crate::steps::act;
use mz_decl::Decls;
use mz_deriv::Item;
use mz_index::Indexed;
use mz_modes::Modes;
use mz_tree::{Atom, Body, Case, Command, Memory, Op, Place, Ty};
use sqlite_items::Items;
use std::alloc::Global;

// walks the body from this state, with its script begun so far
#[cycle(walking)]
pub(crate) fn walk(
    alloc: Global,
    body: &Body,
    decls: &Decls,
    modes: &Modes,
    bound: &[u32],
    next: &mut u32,
    begun: Indexed,
    opened: u32,
    script: Items<Item>,
) -> Result<End, ElabFault>
    requires modes { AreModes (plain_decls decls.now) modes.now }
    requires scoped { ScopedBody (plain_decls decls.now) (reverse bound.now) (plain_body body.now) }
    ensures { BodyOr (plain_decls decls.now) (reverse bound.now) begun next.old (plain_body body.now) next.new result }
{
    let commands = body.commands.as_slice();
    let mut names = copied(alloc, bound)?;
    let mut state = begun;
    let mut items = script;
    for i in 0..commands.len() {
        let command = &commands[i];
        go(
            alloc,
            command,
            decls,
            modes,
            names.as_slice(),
            next,
            &mut state,
            &mut items,
        )?;
        bind(&mut names, command.to)?;
    }
    Ok(End {
        state,
        value: body.result,
        brace: body.place,
        opened,
        items,
    })
}

// one more name is bound
fn bind(names: &mut Items<u32>, name: u32) -> Result<(), Memory>
    ensures { IfOk result (λ _. names.new ≡ names.old ++ name ∷ []) }
{
    names.push(name)?;
    Ok(())
}

// goes over one command
#[cycle(walking)]
fn go(
    alloc: Global,
    command: &Command,
    decls: &Decls,
    modes: &Modes,
    bound: &[u32],
    next: &mut u32,
    state: &mut Indexed,
    items: &mut Items<Item>,
) -> Result<(), ElabFault>
    requires modes { AreModes (plain_decls decls.now) modes.now }
    requires scoped { ScopedCommand (plain_decls decls.now) (reverse bound.now) (plain_command command.now) }
    ensures { GoesOver (plain_decls decls.now) (reverse bound.now) state.old next.old (plain_command command.now) state.new next.new result }
{
    match &command.op {
        Op::If {
            test,
            yes,
            other,
            giving,
        } => {
            let before = state.copy(alloc)?;
            let goals = one(alloc, number(*test))?;
            meet_goals(
                alloc,
                decls,
                modes,
                bound,
                *next,
                state,
                goals.as_slice(),
                command.place,
                items,
            )?;
            let left = state.copy(alloc)?;
            let first = walk(
                alloc,
                yes,
                decls,
                modes,
                bound,
                next,
                left,
                0,
                Items::new(alloc),
            )?;
            let left = state.copy(alloc)?;
            let second = walk(
                alloc,
                other,
                decls,
                modes,
                bound,
                next,
                left,
                0,
                Items::new(alloc),
            )?;
            let ends = two_ends(alloc, first, second)?;
            join_in(
                alloc,
                decls,
                modes,
                bound,
                *next,
                command.to,
                &before,
                giving.as_slice(),
                ends,
                None,
                state,
                items,
            )
        }
        Op::Match {
            block,
            variety,
            cases,
            giving,
        } => {
            let cases = cases.as_slice();
            let giving = giving.as_slice();
            match_is_scoped(decls, bound, command, *block, *variety, cases, giving);
            go_match(
                alloc,
                cases,
                decls,
                modes,
                bound,
                next,
                state,
                command.to,
                *block,
                *variety,
                giving,
                command.place,
                items,
            )
        }
        _ => act(
            alloc,
            decls,
            modes,
            bound,
            next,
            state,
            command.to,
            &command.op,
            command.place,
            items,
        ),
    }
}

// the end of one branch, of two
fn one_end(alloc: Global, end: End) -> Result<Vec<End>, Memory>
    ensures { IfOk result (λ it. it.items ≡ end ∷ []) }
{
    let mut ends = Vec::new(alloc);
    add_end(&mut ends, end)?;
    Ok(ends)
}

fn two_ends(alloc: Global, first: End, second: End) -> Result<Vec<End>, Memory>
    ensures { IfOk result (λ it. it.items ≡ first ∷ second ∷ []) }
{
    let mut ends = one_end(alloc, first)?;
    add_end(&mut ends, second)?;
    Ok(ends)
}

// one more end
fn add_end(ends: &mut Vec<End>, end: End) -> Result<(), Memory>
    ensures { IfOk result (λ _. ends.new.items ≡ ends.old.items ++ end ∷ []) }
{
    match ends.push(end) {
        Ok(_) => Ok(()),
        Err(_) => Err(Memory),
    }
}

// a match: by the constructor of the block, where it is known, and else by each case
#[cycle(walking)]
fn go_match(
    alloc: Global,
    cases: &[Case],
    decls: &Decls,
    modes: &Modes,
    bound: &[u32],
    next: &mut u32,
    state: &mut Indexed,
    to: u32,
    block: u32,
    variety: u32,
    giving: &[Atom],
    place: Place,
    items: &mut Items<Item>,
) -> Result<(), ElabFault>
    requires modes { AreModes (plain_decls decls.now) modes.now }
    requires scoped { MatchScoped (plain_decls decls.now) (reverse bound.now) variety (plain_cases cases.now) }
    ensures { GoesOver (plain_decls decls.now) (reverse bound.now) state.old next.old (The_command to (Match_op block variety (cases_of (plain_cases cases.now)) (plain_atoms giving.now)) place) state.new next.new result }
{
    match first_of(alloc, decls, modes, state, block, &Sought::Known(variety))? {
        Some(at) => match_known(
            alloc, cases, decls, modes, bound, next, state, at, to, block, variety, giving, place,
            items,
        ),
        None => match_closed(
            alloc, cases, decls, modes, bound, next, state, to, block, variety, giving, place,
            items,
        ),
    }
}

// a match where the constructor isn't known
#[cycle(walking)]
fn match_closed(
    alloc: Global,
    cases: &[Case],
    decls: &Decls,
    modes: &Modes,
    bound: &[u32],
    next: &mut u32,
    state: &mut Indexed,
    to: u32,
    block: u32,
    variety: u32,
    giving: &[Atom],
    place: Place,
    items: &mut Items<Item>,
) -> Result<(), ElabFault>
    requires modes { AreModes (plain_decls decls.now) modes.now }
    requires scoped { MatchScoped (plain_decls decls.now) (reverse bound.now) variety (plain_cases cases.now) }
    requires alone { NoneFits (InClass state.old block (BlockIn (plain_decls decls.now) variety)) state.old }
    ensures { GoesOver (plain_decls decls.now) (reverse bound.now) state.old next.old (The_command to (Match_op block variety (cases_of (plain_cases cases.now)) (plain_atoms giving.now)) place) state.new next.new result }
{
    match first_of(alloc, decls, modes, state, block, &Sought::Closed(variety))? {
        None => Err(ElabFault::NoPermission {
            place,
            atom: Atom::Has {
                name: block,
                ty: Ty::Named(variety),
            },
        }),
        Some(at) => match_each(
            alloc, cases, decls, modes, bound, next, state, at, to, block, variety, giving, place,
            items,
        ),
    }
}

// the block at this place tells its constructor: the case of that goes on with all that is known
#[cycle(walking)]
fn match_known(
    alloc: Global,
    cases: &[Case],
    decls: &Decls,
    modes: &Modes,
    bound: &[u32],
    next: &mut u32,
    state: &mut Indexed,
    at: usize,
    to: u32,
    block: u32,
    variety: u32,
    giving: &[Atom],
    place: Place,
    items: &mut Items<Item>,
) -> Result<(), ElabFault>
    requires modes { AreModes (plain_decls decls.now) modes.now }
    requires scoped { MatchScoped (plain_decls decls.now) (reverse bound.now) variety (plain_cases cases.now) }
    requires first { IsFirstAt state.old block (BlockIn (plain_decls decls.now) variety) at }
    ensures { GoesOver (plain_decls decls.now) (reverse bound.now) state.old next.old (The_command to (Match_op block variety (cases_of (plain_cases cases.now)) (plain_atoms giving.now)) place) state.new next.new result }
{
    let before = state.copy(alloc)?;
    let own = subject(before.at(at));
    let used = use_at(alloc, decls, modes, bound, *next, &before, at, block, items)?;
    let script = begin_known(alloc, &used, own)?;
    let number = case_of(cases, con_at(&before, at));
    let case = &cases[number];
    case_is_scoped(decls, bound, variety, cases, number, case);
    let left = state.copy(alloc)?;
    let end = walk(
        alloc, &case.body, decls, modes, bound, next, left, 0, script,
    )?;
    let ends = one_end(alloc, end)?;
    join_in(
        alloc,
        decls,
        modes,
        bound,
        *next,
        to,
        &before,
        giving,
        ends,
        Some(used),
        state,
        items,
    )
}

// the permission at this place has the data type alone: each case goes on with it opened
#[cycle(walking)]
fn match_each(
    alloc: Global,
    cases: &[Case],
    decls: &Decls,
    modes: &Modes,
    bound: &[u32],
    next: &mut u32,
    state: &mut Indexed,
    at: usize,
    to: u32,
    block: u32,
    variety: u32,
    giving: &[Atom],
    place: Place,
    items: &mut Items<Item>,
) -> Result<(), ElabFault>
    requires modes { AreModes (plain_decls decls.now) modes.now }
    requires scoped { MatchScoped (plain_decls decls.now) (reverse bound.now) variety (plain_cases cases.now) }
    requires alone { NoneFits (InClass state.old block (BlockIn (plain_decls decls.now) variety)) state.old }
    requires first { IsFirstAt state.old block (λ t. t ≡ Named_type variety) at }
    ensures { GoesOver (plain_decls decls.now) (reverse bound.now) state.old next.old (The_command to (Match_op block variety (cases_of (plain_cases cases.now)) (plain_atoms giving.now)) place) state.new next.new result }
{
    let before = state.copy(alloc)?;
    let own = subject(before.at(at));
    let used = use_at(alloc, decls, modes, bound, *next, &before, at, block, items)?;
    let ends = each_case(
        alloc, cases, decls, modes, bound, next, &before, at, own, block, variety,
    )?;
    join_in(
        alloc,
        decls,
        modes,
        bound,
        *next,
        to,
        &before,
        giving,
        ends,
        Some(used),
        state,
        items,
    )
}

// walks each case
#[cycle(walking)]
fn each_case(
    alloc: Global,
    cases: &[Case],
    decls: &Decls,
    modes: &Modes,
    bound: &[u32],
    next: &mut u32,
    state: &Indexed,
    at: usize,
    own: u32,
    block: u32,
    variety: u32,
) -> Result<Vec<End>, ElabFault>
    requires modes { AreModes (plain_decls decls.now) modes.now }
    requires scoped { MatchScoped (plain_decls decls.now) (reverse bound.now) variety (plain_cases cases.now) }
    requires held { slice_get state.now at ≡ Some (Has_atom own (Named_type variety)) }
    ensures { (put : List (PlainAtom ℕ) → List (PlainAtom ℕ)) → PutsIn (plain_decls decls.now) state.now at variety put → BranchesOr (plain_decls decls.now) (reverse bound.now) next.old (map (open_case (plain_decls decls.now) own variety put state.now) (plain_cases cases.now)) next.new result }
{
    let mut ends = Vec::new(alloc);
    for i in 0..cases.len() {
        let case = &cases[i];
        case_is_scoped(decls, bound, variety, cases, i, case);
        let end = one_case(
            alloc, case, decls, modes, bound, next, state, at, own, block, variety,
        )?;
        add_end(&mut ends, end)?;
    }
    Ok(ends)
}

// walks one case, with the block opened at its constructor
#[cycle(walking)]
fn one_case(
    alloc: Global,
    case: &Case,
    decls: &Decls,
    modes: &Modes,
    bound: &[u32],
    next: &mut u32,
    state: &Indexed,
    at: usize,
    own: u32,
    block: u32,
    variety: u32,
) -> Result<End, ElabFault>
    requires modes { AreModes (plain_decls decls.now) modes.now }
    requires scoped { ScopedBody (plain_decls decls.now) (reverse bound.now) (body_of (plain_case case.now)) }
    requires con { IsConOf (plain_decls decls.now) variety (con_of (plain_case case.now)) }
    requires held { slice_get state.now at ≡ Some (Has_atom own (Named_type variety)) }
    ensures { (put : List (PlainAtom ℕ) → List (PlainAtom ℕ)) → PutsIn (plain_decls decls.now) state.now at variety put → BranchOr (plain_decls decls.now) (reverse bound.now) next.old (open_case (plain_decls decls.now) own variety put state.now (plain_case case.now)) next.new result }
{
    let opened = *next;
    let mut begun = state.copy(alloc)?;
    *next = open_con(
        alloc, decls, modes, opened, &mut begun, at, own, variety, case.con,
    )?;
    let script = begin_opened(alloc, decls, block, own, variety, case.con, opened)?;
    walk(
        alloc, &case.body, decls, modes, bound, next, begun, opened, script,
    )
}
