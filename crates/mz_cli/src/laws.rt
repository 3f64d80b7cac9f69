//! What holds of all refusals of a source or an input, and of all runs of a program of the first form.
ghost use Rattle.mz_cli.specs.OneOutcome.{AtMostOneOutcome};
ghost use Rattle.mz_cli.specs.OneRefusal.{
  AtMostOneRefusal,
  AtMostOneVerifyRefusal,
  NothingRunsAndIsRefused,
  NothingVerifiedIsRefused,
};

/// All runs of the program's `main` come to the same, whatever names their new blocks take: they end with the same prints,
/// or they stop at the same place with the same prints.
pub fn at_most_one_outcome()
    ensures { AtMostOneOutcome }
{}

/// A source has at most one refusal.
pub fn at_most_one_refusal()
    ensures { AtMostOneRefusal }
{}

/// A source that runs has no refusal.
pub fn nothing_runs_and_is_refused()
    ensures { NothingRunsAndIsRefused }
{}

/// An input of `verify` has at most one refusal.
pub fn at_most_one_verify_refusal()
    ensures { AtMostOneVerifyRefusal }
{}

/// An input whose script is the text of a derivation of its source's program has no refusal.
pub fn nothing_verified_is_refused()
    ensures { NothingVerifiedIsRefused }
{}
