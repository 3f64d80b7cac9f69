//! What holds of every program and configuration.
ghost use Rattle.mz_named.specs.Laws.{AtMostOneAnswer, AccessesAreCounted, LeadsToOne};

/// A thread's step has one answer: no two of a step, an end, a stop of either kind, a wait and what is wrong hold at once.
pub fn at_most_one_answer()
    ensures { AtMostOneAnswer }
{}

/// The names that a command is said to read and write are those that races count.
pub fn accesses_are_counted()
    ensures { AccessesAreCounted }
{}

/// A step of a thread leads to one configuration, but for the name that a new block or lock takes.
pub fn leads_to_one()
    ensures { LeadsToOne }
{}
