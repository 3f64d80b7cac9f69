//! Where a program begins.
ghost use Rattle.std.specs.Prelude.{◌≡◌, IfOk, MatchOption, Some, codes, count_by, slice_get};
ghost use Rattle.std.specs.Str.{bytes_eq};
ghost use Rattle.mz_tree.specs.Scoped.{Scoped};
ghost use Rattle.mz_tree.specs.View.{plain_fun, plain_program};
ghost use Rattle.mz_named.specs.Opening.{is_main, IsMain, BeginsAt};
ghost use Rattle.mz_named.specs.Safety.{IsOpening};
ghost use Rattle.mz_named.specs.View.{plain_config};

use crate::bodies::start;
use crate::config::{NamedConfig, Thread};
use mz_tree::{Fun, Memory, Program};
use sqlite_items::Items;
use std::alloc::Global;

impl NamedConfig {
    /// The configuration in which thread 0 is at the start of the function `main`, and nothing else is there. The program
    /// is as it is read, so that it has just one function of that name.
    pub fn opening(alloc: Global, program: &Program) -> Result<NamedConfig, Memory>
        requires { Scoped (plain_program program.now) }
        ensures { IfOk result (λ config. IsOpening (plain_program program.now) (plain_config config)) }
    {
        match main_of(program) {
            Some(main) => NamedConfig::beginning(alloc, main),
            None => unreachable!(),
        }
    }

    /// The configuration in which thread 0 is at the start of this function, whose parameters are all 0, and nothing else
    /// is there.
    pub fn beginning(alloc: Global, fun: &Fun) -> Result<NamedConfig, Memory>
        ensures { IfOk result (λ config. BeginsAt (plain_fun fun.now) (plain_config config)) }
    {
        let top = start(alloc, fun, Items::new(alloc))?;
        let mut threads = Vec::new(alloc);
        let thread = Thread::Running {
            top,
            below: Vec::new(alloc),
        };
        match threads.push(thread) {
            Ok(()) => {}
            Err(_) => return Err(Memory),
        }
        Ok(NamedConfig {
            cells: Vec::new(alloc),
            threads,
            prints: Items::new(alloc),
        })
    }
}

// the first function named `main`
fn main_of(program: &Program) -> Option<&Fun>
    ensures { MatchOption result (count_by is_main (plain_program program.now).funs ≡ 0) (λ fun. IsMain (plain_program program.now) (plain_fun fun.now)) }
{
    let funs = program.funs.as_slice();
    for i in 0..funs.len() {
        if funs[i].name.as_slice() == b"main".as_slice() {
            return Some(&funs[i]);
        }
    }
    None
}
