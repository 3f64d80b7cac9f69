//! The laws.
ghost use Rattle.mz_lower.specs.Layout.{code_of};
ghost use Rattle.mz_lower.specs.Safe.{Safe};
ghost use Rattle.mz_lowered.specs.Laws.{AllCodeOpens, DerivableIsSafeInCode, LowersSafely};
ghost use Rattle.mz_resource.specs.Examples.{doubling};

/// The code of a program that was read and is safe by name is safe.
pub fn lowers_safely()
    ensures { LowersSafely }
{}

/// The code of a program that was read and has a derivation is safe: it is in range, whatever events come no thread's next act is a
/// fault and no two threads race, and the state that the events lead to stands for where the named run of their steps has come to.
pub fn derivable_is_safe()
    ensures { DerivableIsSafeInCode }
{}

/// For each code there is a state in which it opens.
pub fn all_code_opens()
    ensures { AllCodeOpens }
{}

/// The code of a program with a branch, a call and two functions is safe.
pub fn doubling_runs_safely()
    ensures { Safe doubling (code_of doubling) }
{}
