//! What holds of all code and of all lists of events.
ghost use Rattle.mz_words.specs.Laws.{TurnsAreEvents, PartsFollow, RunsInterleave, RecordsAreRuns, ReportsAreRuns, BlocksAreStored, StartsAreStored, RunsKeepTickets, RunsPrintTheirEntries};

/// A turn of a thread, on what it sees of a run, goes on with the run by events of this thread.
pub fn turns_are_events()
    ensures { TurnsAreEvents }
{}

/// Each thread of a run is where the replay of its own part leaves it.
pub fn parts_follow()
    ensures { PartsFollow }
{}

/// The entries of a run interleave.
pub fn runs_interleave()
    ensures { RunsInterleave }
{}

/// Records that follow the code and interleave are one run, which leads to the last words and ends each thread as its own
/// replay does.
pub fn records_are_runs()
    ensures { RecordsAreRuns }
{}

/// A report whose records follow the code and interleave tells of a run.
pub fn reports_are_runs()
    ensures { ReportsAreRuns }
{}

/// A block is complete only where its thread has stored each of its words.
pub fn blocks_are_stored()
    ensures { BlocksAreStored }
{}

/// A thread is told that it may start only where its function and its argument were stored.
pub fn starts_are_stored()
    ensures { StartsAreStored }
{}

/// Where no state of a run is at a fault, each of its prints is at the word of tickets, and no other entry is.
pub fn runs_keep_tickets()
    ensures { RunsKeepTickets }
{}

/// A run prints the values of its print entries, in their order.
pub fn runs_print_their_entries()
    ensures { RunsPrintTheirEntries }
{}
