//! The lines of a script, each with its end, written behind a text.
ghost use Rattle.std.specs.Prelude.{◌≡◌, ◌∷◌, [], ◌++◌, OnOk, codes, decimal, option_map};
ghost use Rattle.mz_tree.specs.View.{plain_atom, plain_atoms, plain_program};
ghost use Rattle.mz_view.specs.Steps.{plain_step};
ghost use Rattle.mz_script.specs.Pieces.{Step_line, Do_line, Join_line};
ghost use Rattle.mz_script.specs.Words.{atom_text, data_text, name_text};
ghost use Rattle.mz_script.specs.Lines.{line_of, step_text};

use super::words::{atom, atoms, data, name, number, text};
use mz_tree::{Atom, Memory, Program};
use mz_view::ViewStep;

// A word, and the permission that it is about.
fn about(out: &mut Vec<u8>, program: &Program, word: &[u8], subject: &Atom) -> Result<(), Memory>
    ensures { OnOk result (out.new.items ≡ out.old.items ++ (word.now ++ atom_text (plain_program program.now) (plain_atom subject.now))) }
{
    text(out, word)?;
    atom(out, program, subject)
}

// A word, and the name that it is about.
fn about_name(out: &mut Vec<u8>, word: &[u8], subject: u32) -> Result<(), Memory>
    ensures { OnOk result (out.new.items ≡ out.old.items ++ (word.now ++ name_text subject)) }
{
    text(out, word)?;
    name(out, subject)
}

// A data type behind a space.
fn next_data(out: &mut Vec<u8>, program: &Program, variety: u32) -> Result<(), Memory>
    ensures { OnOk result (out.new.items ≡ out.old.items ++ (codes " " ++ data_text (plain_program program.now) variety)) }
{
    text(out, b" ")?;
    data(out, program, variety)
}

// A number behind a space.
fn next_number(out: &mut Vec<u8>, next: u32) -> Result<(), Memory>
    ensures { OnOk result (out.new.items ≡ out.old.items ++ (codes " " ++ decimal next)) }
{
    text(out, b" ")?;
    number(out, next)
}

fn unfold(
    out: &mut Vec<u8>,
    program: &Program,
    subject: u32,
    variety: u32,
    fresh: u32,
) -> Result<(), Memory>
    ensures { OnOk result (out.new.items ≡ out.old.items ++ (codes "unfold " ++ (name_text subject ++ (codes " " ++ (data_text (plain_program program.now) variety ++ (codes " " ++ decimal fresh)))))) }
{
    about_name(out, b"unfold ", subject)?;
    next_data(out, program, variety)?;
    next_number(out, fresh)
}

fn rename(out: &mut Vec<u8>, program: &Program, subject: &Atom, to: u32) -> Result<(), Memory>
    ensures { OnOk result (out.new.items ≡ out.old.items ++ (codes "rename " ++ (atom_text (plain_program program.now) (plain_atom subject.now) ++ (codes " to " ++ name_text to)))) }
{
    about(out, program, b"rename ", subject)?;
    about_name(out, b" to ", to)
}

fn equal(out: &mut Vec<u8>, left: u32, right: u32) -> Result<(), Memory>
    ensures { OnOk result (out.new.items ≡ out.old.items ++ (codes "equal " ++ (name_text left ++ (codes " " ++ name_text right)))) }
{
    about_name(out, b"equal ", left)?;
    about_name(out, b" ", right)
}

fn clause(out: &mut Vec<u8>, program: &Program, subject: &Atom, adopts: u32) -> Result<(), Memory>
    ensures { OnOk result (out.new.items ≡ out.old.items ++ (codes "clause " ++ (atom_text (plain_program program.now) (plain_atom subject.now) ++ (codes " " ++ data_text (plain_program program.now) adopts)))) }
{
    about(out, program, b"clause ", subject)?;
    next_data(out, program, adopts)
}

fn meet(out: &mut Vec<u8>, program: &Program, left: &Atom, right: &Atom) -> Result<(), Memory>
    ensures { OnOk result (out.new.items ≡ out.old.items ++ (codes "meet " ++ (atom_text (plain_program program.now) (plain_atom left.now) ++ (codes " " ++ atom_text (plain_program program.now) (plain_atom right.now))))) }
{
    about(out, program, b"meet ", left)?;
    about(out, program, b" ", right)
}

// A step inside of a permission: a place in it gets another name.
fn inside(
    out: &mut Vec<u8>,
    program: &Program,
    word: &[u8],
    subject: &Atom,
    place: u32,
    to: u32,
) -> Result<(), Memory>
    ensures { OnOk result (out.new.items ≡ out.old.items ++ (word.now ++ (atom_text (plain_program program.now) (plain_atom subject.now) ++ (codes " " ++ (decimal place ++ (codes " to " ++ name_text to)))))) }
{
    about(out, program, word, subject)?;
    next_number(out, place)?;
    about_name(out, b" to ", to)
}

// What stands in the line of a view step.
fn step(out: &mut Vec<u8>, program: &Program, step: &ViewStep) -> Result<(), Memory>
    ensures { OnOk result (out.new.items ≡ out.old.items ++ step_text (plain_program program.now) (plain_step step.now)) }
{
    match step {
        ViewStep::Drop { atom } => about(out, program, b"drop ", atom),
        ViewStep::Copy { atom } => about(out, program, b"copy ", atom),
        ViewStep::Unfold {
            name,
            variety,
            fresh,
        } => unfold(out, program, *name, *variety, *fresh),
        ViewStep::Fold { atom } => about(out, program, b"fold ", atom),
        ViewStep::Rename { atom, to } => rename(out, program, atom, *to),
        ViewStep::Equal { left, right } => equal(out, *left, *right),
        ViewStep::Dynamic { name } => about_name(out, b"dynamic ", *name),
        ViewStep::Clause { atom, adopts } => clause(out, program, atom, *adopts),
        ViewStep::Unknown { name } => about_name(out, b"unknown ", *name),
        ViewStep::Meet { left, right } => meet(out, program, left, right),
        ViewStep::InField { atom, field, to } => {
            inside(out, program, b"infield ", atom, *field, *to)
        }
        ViewStep::InLock { atom, spot, to } => inside(out, program, b"inlock ", atom, *spot, *to),
    }
}

/// The line of a view step.
pub(crate) fn step_line(out: &mut Vec<u8>, program: &Program, line: &ViewStep) -> Result<(), Memory>
    ensures { OnOk result (out.new.items ≡ out.old.items ++ line_of (plain_program program.now) (Step_line (plain_step line.now))) }
{
    step(out, program, line)?;
    text(out, b"\n")
}

/// The line of a command, with the permission that it uses, if it names one.
pub(crate) fn do_line(
    out: &mut Vec<u8>,
    program: &Program,
    uses: &Option<Atom>,
) -> Result<(), Memory>
    ensures { OnOk result (out.new.items ≡ out.old.items ++ line_of (plain_program program.now) (Do_line (option_map plain_atom uses.now))) }
{
    match uses {
        None => text(out, b"do\n"),
        Some(used) => {
            about(out, program, b"do ", used)?;
            text(out, b"\n")
        }
    }
}

/// The line that begins a case, with its number.
pub(crate) fn case_line(out: &mut Vec<u8>, fresh: u32) -> Result<(), Memory>
    ensures { OnOk result (out.new.items ≡ out.old.items ++ (codes "case " ++ decimal fresh ++ 10 ∷ [])) }
{
    text(out, b"case ")?;
    number(out, fresh)?;
    text(out, b"\n")
}

/// The line of a join, with its permissions.
pub(crate) fn join_line(out: &mut Vec<u8>, program: &Program, join: &[Atom]) -> Result<(), Memory>
    ensures { OnOk result (out.new.items ≡ out.old.items ++ line_of (plain_program program.now) (Join_line (plain_atoms join.now))) }
{
    if join.is_empty() {
        return text(out, b"join\n");
    }
    text(out, b"join ")?;
    atoms(out, program, join)?;
    text(out, b"\n")
}

/// The line of a function, with its name.
pub(crate) fn fun_line(out: &mut Vec<u8>, name: &[u8]) -> Result<(), Memory>
    ensures { OnOk result (out.new.items ≡ out.old.items ++ (codes "fun " ++ name.now ++ 10 ∷ [])) }
{
    text(out, b"fun ")?;
    text(out, name)?;
    text(out, b"\n")
}
