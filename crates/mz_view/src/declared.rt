//! Whether a constructor is immutable.
ghost use Rattle.mz_decl.specs.View.{plain_decls};
ghost use Rattle.mz_tree.specs.Saying.{Says};
ghost use Rattle.mz_view.specs.Rules.{IsImmutableCon};

use mz_decl::Decls;

// whether the constructor of this number is one of an immutable data type
pub(crate) fn is_immutable_con(decls: &Decls, number: u32) -> bool
    ensures { Says result (IsImmutableCon (plain_decls decls.now) number) }
{
    match decls.con_at(number) {
        None => false,
        Some(con) => {
            if con.variety < decls.varieties() {
                return !decls.variety(con.variety).mutable;
            }
            false
        }
    }
}
