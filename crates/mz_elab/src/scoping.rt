//! What the scope of a command says of the bodies that it holds.
ghost use Rattle.std.specs.Prelude.{◌≡◌, Some, reverse, slice_get};
ghost use Rattle.mz_tree.specs.Code.{Match_op, body_of, cases_of, con_of};
ghost use Rattle.mz_tree.specs.declared.code.Case.{out-Case};
ghost use Rattle.mz_tree.specs.View.{plain_atoms, plain_body, plain_case, plain_cases, plain_command, plain_op};
ghost use Rattle.mz_decl.specs.View.{plain_decls};
ghost use Rattle.mz_elab.specs.Scoping.{IsConOf, ScopedBody, ScopedCommand};
ghost use Rattle.mz_elab.specs.Walking.{MatchScoped};

use mz_decl::Decls;
use mz_tree::{Atom, Case, Command};

// the cases of a match are those of its data type, and scoped
pub(crate) fn match_is_scoped(
    decls: &Decls,
    bound: &[u32],
    command: &Command,
    block: u32,
    variety: u32,
    cases: &[Case],
    giving: &[Atom],
)
    requires scoped { ScopedCommand (plain_decls decls.now) (reverse bound.now) (plain_command command.now) }
    requires is { plain_op command.now.op ≡ Match_op block variety (cases_of (plain_cases cases.now)) (plain_atoms giving.now) }
    ensures { MatchScoped (plain_decls decls.now) (reverse bound.now) variety (plain_cases cases.now) }
{}

// and so is each of them
pub(crate) fn case_is_scoped(
    decls: &Decls,
    bound: &[u32],
    variety: u32,
    cases: &[Case],
    at: usize,
    case: &Case,
)
    requires scoped { MatchScoped (plain_decls decls.now) (reverse bound.now) variety (plain_cases cases.now) }
    requires here { slice_get cases.now at ≡ Some case.now }
    ensures body { ScopedBody (plain_decls decls.now) (reverse bound.now) (body_of (plain_case case.now)) }
    ensures own { ScopedBody (plain_decls decls.now) (reverse bound.now) (plain_body (out-Case case.now).body) }
    ensures con { IsConOf (plain_decls decls.now) variety (con_of (plain_case case.now)) }
{}
