//! What holds of every text.
ghost use Rattle.mz_scope.specs.Laws.{AtMostOneProgram};

/// A text has at most one program.
pub fn at_most_one_program()
    ensures { AtMostOneProgram }
{}
