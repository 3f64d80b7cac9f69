//! The code of a program: the code of its functions, one behind the other in their order, where each begins, and the number of
//! `main`.
ghost use Rattle.std.specs.Prelude.{◌≡◌, ◌++◌, codes, length, map, slice_get, IfOk, OnOk};
ghost use Rattle.mz_tree.specs.View.{plain_fun, plain_program, plain_sig};
ghost use Rattle.mz_lower.specs.Layout.{code_of, lay_fun, lay_funs, number_of, params_in, size_fun, start_of, starts_of};

use crate::counting::{count_body, plus};
use crate::emitting::{emit_body, put};
use mz_tree::{Fun, Memory, Program, Sig};
use mz_words::{Act, Code, Entries, Instrs, Start};
use sqlite_items::Items;
use std::alloc::Global;

/// The code of a program.
///
/// Registers are core names. Each command is one instruction with the command's place, but for an `if` and a `match`, whose branches
/// stand behind it, each with a copy of its value and a jump to the end of the command. A function ends with a return.
/// `Memory` where memory is wanting, and where an instruction's number would be no u32.
pub fn lower(alloc: Global, program: &Program) -> Result<Code, Memory>
    ensures { IfOk result (λ code. code ≡ code_of (plain_program program.now)) }
{
    let funs = program.funs.as_slice();
    let instrs = instrs_of(alloc, funs)?;
    let entries = entries_of(alloc, program.sigs.as_slice(), funs)?;
    let main = main_of(funs)?;
    Ok(Code {
        instrs,
        entries,
        main,
    })
}

// the instructions of all functions
fn instrs_of(alloc: Global, funs: &[Fun]) -> Result<Instrs, Memory>
    ensures { IfOk result (λ instrs. instrs ≡ lay_funs 0 (map plain_fun funs.now)) }
{
    let mut instrs = Items::new(alloc);
    emit_funs(alloc, &mut instrs, funs)?;
    Ok(instrs)
}

fn emit_funs(alloc: Global, code: &mut Instrs, funs: &[Fun]) -> Result<(), Memory>
    ensures { OnOk result (code.new ≡ code.old ++ lay_funs (length code.old) (map plain_fun funs.now)) }
{
    for i in 0..funs.len() {
        emit_fun(alloc, code, &funs[i])?;
    }
    Ok(())
}

// a body, and the return of its value
fn emit_fun(alloc: Global, code: &mut Instrs, fun: &Fun) -> Result<(), Memory>
    ensures { OnOk result (code.new ≡ code.old ++ lay_fun (length code.old) (plain_fun fun.now)) }
{
    emit_body(alloc, code, &fun.body)?;
    put(
        code,
        fun.body.place,
        Act::Return {
            from: fun.body.result,
        },
    )
}

// where each function begins
fn entries_of(alloc: Global, sigs: &[Sig], funs: &[Fun]) -> Result<Entries, Memory>
    ensures { IfOk result (λ entries. entries ≡ starts_of (map plain_sig sigs.now) 0 (map plain_fun funs.now)) }
{
    let mut entries = Items::new(alloc);
    let mut first = 0;
    for i in 0..funs.len() {
        entries.push(entry_of(sigs, first, &funs[i])?)?;
        first = plus(first, count_fun(&funs[i])?)?;
    }
    Ok(entries)
}

fn entry_of(sigs: &[Sig], first: u32, fun: &Fun) -> Result<Start, Memory>
    ensures { IfOk result (λ start. start ≡ start_of (map plain_sig sigs.now) first (plain_fun fun.now)) }
{
    match u32::try_from(fun.spelling.len()) {
        Ok(registers) => Ok(Start {
            first,
            params: params_of(sigs, fun.sig),
            registers,
        }),
        Err(_) => Err(Memory),
    }
}

// how many parameters a signature has, 0 where there is none of this number
fn params_of(sigs: &[Sig], number: u32) -> u32
    ensures { result ≡ params_in (slice_get (map plain_sig sigs.now) number) }
{
    match sigs.get(number as usize) {
        Some(sig) => sig.count,
        None => 0,
    }
}

// the number of instructions of a function
fn count_fun(fun: &Fun) -> Result<u32, Memory>
    ensures { IfOk result (λ n. n ≡ size_fun (plain_fun fun.now)) }
{
    plus(count_body(&fun.body)?, 1)
}

// the number of the first function named `main`
fn main_of(funs: &[Fun]) -> Result<u32, Memory>
    ensures { IfOk result (λ number. number ≡ number_of (codes "main") (map plain_fun funs.now)) }
{
    let mut number = 0;
    for i in 0..funs.len() {
        if funs[i].name.as_slice() == b"main".as_slice() {
            return Ok(number);
        }
        number = plus(number, 1)?;
    }
    Ok(number)
}
