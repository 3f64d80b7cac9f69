//! What holds of all reports.
ghost use Rattle.mz_print.specs.Laws.{PrintsAreOne, ReportsPrintInOrder};

/// A report whose tickets are in order has one list of printed numbers.
pub fn prints_are_one()
    ensures { PrintsAreOne }
{}

/// Records that interleave, where only prints touch the word of the tickets, have their tickets in order, and the report printed the
/// numbers in the order of the whole list.
pub fn reports_print_in_order()
    ensures { ReportsPrintInOrder }
{}
