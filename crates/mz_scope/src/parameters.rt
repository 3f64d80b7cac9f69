//! The parameters of signatures, and the core names that they are in a function.
ghost use Rattle.std.specs.Prelude.{◌≡◌, [], map, option_map, unwrap_or, IfOk};
ghost use Rattle.std.specs.Option.{option_copied};
ghost use Rattle.mz_scope.specs.Names.{numbered};
ghost use Rattle.mz_scope.specs.Declarations.{params_by_name, param_name};
ghost use Rattle.mz_scope.specs.Tables.{param_word};
ghost use Rattle.mz_scope.specs.View.{core_name_of};

use crate::counts::number;
use crate::entries::{Param, Params};
use crate::making::CoreName;
use crate::names::Globals;
use mz_names::Scope;
use mz_tree::{Alike, Memory};
use sqlite_items::Items;
use std::alloc::Global;

impl Globals {
    /// The parameters of the signature of a name, if there is one.
    pub(crate) fn params_named(&self, text: &[u8]) -> Option<&Params>
        ensures { unwrap_or (option_map (map param_word) (option_copied result)) [] ≡ params_by_name self.now text.now }
    {
        match self.sig_named(text) {
            Some(sig) => self.params.get(sig as usize),
            None => None,
        }
    }
}

/// Parameters as a scope, numbered in order.
pub(crate) fn param_scope(alloc: Global, params: &[Param]) -> Result<Scope, Memory>
    ensures { IfOk result (λ it. it ≡ numbered 0 (map param_word params.now)) }
{
    let mut scope = Scope::new();
    for i in 0..params.len() {
        scope.push(alloc, params[i].name.as_slice(), number(i)?)?;
    }
    Ok(scope)
}

// the core name that a parameter is
fn param_name(alloc: Global, param: &Param) -> Result<CoreName, Memory>
    ensures { IfOk result (λ it. core_name_of it ≡ param_name (param_word param.now)) }
{
    Ok(CoreName {
        spelling: param.name.copy(alloc)?,
        place: param.place,
    })
}

/// The core names that parameters are.
pub(crate) fn param_names(alloc: Global, params: &[Param]) -> Result<Items<CoreName>, Memory>
    ensures { IfOk result (λ it. map core_name_of it ≡ map param_name (map param_word params.now)) }
{
    let mut names = Items::new(alloc);
    for i in 0..params.len() {
        names.push(param_name(alloc, &params[i])?)?;
    }
    Ok(names)
}
