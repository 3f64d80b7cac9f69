//! Whether a program's numbers can be declarations.
ghost use Rattle.std.specs.Prelude.{◌↔◌, IsTrue};
ghost use Rattle.mz_tree.specs.View.{plain_program};
ghost use Rattle.mz_decl.specs.Declarations.{IsNumbered};

use mz_tree::Program;

// the most data types, constructors, signatures and functions that a program has
const LIMIT: usize = 1000;

// whether a program has at most 1,000 data types, constructors, signatures and functions each, and each of its
// constructors belongs to one of its data types
pub(crate) fn is_numbered(program: &Program) -> bool
    ensures { IsTrue result ↔ IsNumbered (plain_program program.now) }
{
    let count = program.varieties.len();
    let all = program.cons.as_slice();
    if count > LIMIT
        || all.len() > LIMIT
        || program.sigs.len() > LIMIT
        || program.funs.len() > LIMIT
    {
        return false;
    }
    for i in 0..all.len() {
        if all[i].variety as usize >= count {
            return false;
        }
    }
    true
}
