//! All declarations of a source, one after the other, and the program that they come to. What is declared is added to the
//! end of the program's lists, so the number of each is its place there.
ghost use Rattle.std.specs.Prelude.{◌≡◌, map, IfOk};
ghost use Rattle.mz_tree.specs.View.{plain_program};
ghost use Rattle.mz_scope.specs.Syntax.{Data_declaration, Sig_declaration, Fun_declaration};
ghost use Rattle.mz_scope.specs.Declarations.{declarations, no_program};
ghost use Rattle.mz_scope.specs.Trees.{data_tree, sig_tree, fun_tree, declaration_tree};
ghost use Rattle.mz_scope.specs.View.{made_of, Comes};
ghost use Rattle.mz_scope.specs.Growing.{Adds_declaration};

use crate::counts::{Counts, after, sum};
use crate::data_types::{cons, data_type};
use crate::functions::function;
use crate::making::Making;
use crate::signatures::signature;
use crate::words::Source;
use mz_parse::{DataDeclaration, Declaration, FunctionDeclaration, SignatureDeclaration};
use mz_tree::{Memory, Program};
use sqlite_items::Items;
use std::alloc::Global;

// nothing is declared
fn no_program(alloc: Global) -> Program
    ensures { plain_program result ≡ no_program }
{
    Program {
        varieties: Items::new(alloc),
        cons: Items::new(alloc),
        sigs: Items::new(alloc),
        funs: Items::new(alloc),
        clauses: Items::new(alloc),
    }
}

// a data type is added, with its constructors
fn add_data(
    source: &Source<'_>,
    one: &DataDeclaration,
    counts: &mut Counts,
    program: &mut Program,
    making: &mut Making,
) -> Result<(), Memory>
    ensures { IfOk result (λ _. Adds_declaration source.now.globals.now (Data_declaration (data_tree source.now.text.now one.now)) counts.old program.old making.old counts.new program.new making.new) }
{
    let before = sum(counts.varieties, counts.sigs)?;
    let variety = data_type(source, before, counts.cons, one, making)?;
    let cons = cons(
        source,
        counts.varieties,
        counts.cons,
        one.cons.as_slice(),
        making,
    )?;
    program.varieties.push(variety)?;
    program.cons.append(cons)?;
    counts.varieties = sum(counts.varieties, 1)?;
    counts.cons = after(counts.cons, one.cons.len())?;
    Ok(())
}

// a signature is added
fn add_sig(
    source: &Source<'_>,
    one: &SignatureDeclaration,
    counts: &mut Counts,
    program: &mut Program,
    making: &mut Making,
) -> Result<(), Memory>
    ensures { IfOk result (λ _. Adds_declaration source.now.globals.now (Sig_declaration (sig_tree source.now.text.now one.now)) counts.old program.old making.old counts.new program.new making.new) }
{
    let before = sum(counts.varieties, counts.sigs)?;
    let sig = signature(source, before, one, making)?;
    program.sigs.push(sig)?;
    counts.sigs = sum(counts.sigs, 1)?;
    Ok(())
}

// a function is added
fn add_fun(
    source: &Source<'_>,
    one: &FunctionDeclaration,
    counts: &mut Counts,
    program: &mut Program,
    making: &mut Making,
) -> Result<(), Memory>
    ensures { IfOk result (λ _. Adds_declaration source.now.globals.now (Fun_declaration (fun_tree source.now.text.now one.now)) counts.old program.old making.old counts.new program.new making.new) }
{
    let fun = function(source, counts.funs, one, making)?;
    program.funs.push(fun)?;
    counts.funs = sum(counts.funs, 1)?;
    Ok(())
}

// a declaration is added
fn add(
    source: &Source<'_>,
    one: &Declaration,
    counts: &mut Counts,
    program: &mut Program,
    making: &mut Making,
) -> Result<(), Memory>
    ensures { IfOk result (λ _. Adds_declaration source.now.globals.now (declaration_tree source.now.text.now one.now) counts.old program.old making.old counts.new program.new making.new) }
{
    match one {
        Declaration::Data(one) => add_data(source, one, counts, program, making),
        Declaration::Signature(one) => add_sig(source, one, counts, program, making),
        Declaration::Function(one) => add_fun(source, one, counts, program, making),
    }
}

/// All declarations of a source. The `adopts` of structural types stay in what is made.
pub(crate) fn program_of(
    source: &Source<'_>,
    all: &[Declaration],
    making: &mut Making,
) -> Result<Program, Memory>
    ensures { Comes plain_program (declarations source.now.globals.now 0 0 0 0 (map (declaration_tree source.now.text.now) all.now)) making.old result making.new }
{
    let mut counts = Counts {
        varieties: 0,
        sigs: 0,
        cons: 0,
        funs: 0,
    };
    let mut program = no_program(source.alloc);
    for i in 0..all.len() {
        add(source, &all[i], &mut counts, &mut program, making)?;
    }
    Ok(program)
}
