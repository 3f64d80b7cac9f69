//! A schedule has no choice.
ghost use Rattle.mz_sched.specs.Laws.{OneReport};

/// Code has at most one report for its options.
pub fn one_report()
    ensures { OneReport }
{}
