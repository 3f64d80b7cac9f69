//! The table of reports.

/// Reports and what they printed: a name, the entries with their threads, and the numbers by ticket. An entry is its thread,
/// its kind, its value and what it saw, which for a print is its ticket.
pub(crate) const REPORTS: &str = "\
nothing at all | |
no print | 0 load 0 7, 5 store 9 0, 63 add 1 2 |
one thread | 0 print 7 0, 0 print 5 1, 0 print 7 2 | 7 5 7
other entries stand between | 3 store 0 0, 3 print 8 0, 3 load 1 1, 3 print 9 1, 3 add 2 1 | 8 9
threads print by turns | 0 print 10 0, 0 print 12 2, 1 print 11 1, 1 print 13 3 | 10 11 12 13
a later thread was first | 0 print 1 2, 1 print 2 1, 63 print 3 0 | 3 2 1
only the last thread printed | 63 print 18446744073709551615 0, 63 print 0 1 | 18446744073709551615 0
a ticket as large as another's number | 7 print 1 1, 9 print 0 0, 8 print 2 2 | 0 1 2";
