//! All that a source declares at the top level is gathered.
ghost use Rattle.std.specs.Prelude.{◌≡◌, IfOk};
ghost use Rattle.mz_scope.specs.Trees.{tree_of};
ghost use Rattle.mz_scope.specs.Names.{globals_of};

use crate::names::Globals;
use crate::tables::{con_table, fun_table, param_table, type_table};
use mz_parse::Surface;
use mz_tree::Memory;
use std::alloc::Global;

impl Globals {
    /// What a source declares at the top level.
    pub(crate) fn new(alloc: Global, surface: &Surface) -> Result<Globals, Memory>
        ensures { IfOk result (λ g. g ≡ globals_of (tree_of surface.now)) }
    {
        let types = type_table(alloc, surface)?;
        let cons = con_table(alloc, surface)?;
        let params = param_table(alloc, surface)?;
        let funs = fun_table(alloc, surface, &types, params.as_slice())?;
        Ok(Globals {
            types,
            cons,
            params,
            funs,
        })
    }
}
