//! What a source declares at the top level, which is visible everywhere.
ghost use Rattle.mz_scope.specs.Tables.{IsTypeTable, IsConTable, IsFunTable};

pub(crate) use crate::con_entry::ConEntry;
use crate::con_entry::ConTable;
use crate::entries::{FunTable, Params, TypeTable};
use sqlite_items::Items;
use std::marker::Model;

/// All that is declared at the top level.
#[derive(Drop)]
pub(crate) struct Globals {
    pub(crate) types: TypeTable,
    pub(crate) cons: ConTable,
    pub(crate) params: Items<Params>,
    pub(crate) funs: FunTable,
    ghost types_kept: { IsTypeTable types },
    ghost cons_kept: { IsConTable cons },
    ghost funs_kept: { IsFunTable funs },
}

impl Model for Globals {
    ghost use Rattle.mz_scope.specs.Names.{Globals as PlainGlobals};
    ghost use Rattle.mz_scope.specs.Tables.{types_in, cons_in, params_in, funs_in};

    ghost Value = { PlainGlobals };

    ghost view = { λ g. record { types = types_in g.types.list; cons = cons_in g.cons.list; params = params_in g.params; funs = funs_in g.funs.list } };
}
