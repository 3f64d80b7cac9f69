//! What the laws say of programs, and what a derivation alone doesn't.

ghost use Rattle.std.specs.Prelude.{List, [], ◌∷◌};
ghost use Rattle.mz_tree.specs.Scoped.{Scoped};
ghost use Rattle.mz_deriv.specs.Derivable.{Derivable};
ghost use Rattle.mz_named.specs.Safety.{NamedSafe};
ghost use Rattle.mz_resource.specs.Examples.{doubling, doubling_scripts, lacking, lacking_script, sharing, sharing_scripts};

/// A program with a branch, a call and two functions can be read and has a derivation. So it is safe.
pub fn doubling_is_safe()
    ensures is_read { Scoped doubling }
    ensures has_a_derivation { Derivable doubling doubling_scripts }
    ensures is_safe { NamedSafe doubling }
{}

/// A program whose match lacks a case has a derivation, and isn't safe: that cases are exhaustive is a premise of `sound`, and no
/// consequence of the derivation. `Scoped` asks it.
pub fn lacking_is_not_safe()
    ensures has_a_derivation { Derivable lacking (lacking_script ∷ []) }
    ensures goes_wrong { NamedSafe lacking → ⊥ }
{}

/// A program with a lock and a second thread, which both add to one cell, can be read and has a derivation. So it is safe.
pub fn sharing_is_safe()
    ensures is_read { Scoped sharing }
    ensures has_a_derivation { Derivable sharing sharing_scripts }
    ensures is_safe { NamedSafe sharing }
{}
