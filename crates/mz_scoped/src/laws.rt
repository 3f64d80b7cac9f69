//! What holds of every text that reads.
ghost use Rattle.mz_scoped.specs.Laws.{WhatReadsIsScoped};

/// The program of a text is scoped.
pub fn what_reads_is_scoped()
    ensures { WhatReadsIsScoped }
{}
