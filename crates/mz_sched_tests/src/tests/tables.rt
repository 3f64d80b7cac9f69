//! The table of reports.

/// A row is a name, the source, the limits (words, units, tries, workers and the units of a turn), and the report: of each thread, or
/// of several that report the same, the end with its place, how many entries the record has, how many tries were lost where there
/// are any, and each number that was printed with its ticket.
///
/// A start makes three entries, an end makes one, and each unit but a call makes one.
pub(crate) const REPORTS: &str = "\
one cell | cell | 65536 200000 100000000 4 64 | 0 Done 12 entries 42@0; 1-63 NeverStarted 1 entries
the units of a turn change nothing of it | cell | 65536 200000 100000000 4 1 | 0 Done 12 entries 42@0; 1-63 NeverStarted 1 entries
it makes eight units | cell | 1024 8 1 1 1000000 | 0 Done 12 entries 42@0; 1-63 NeverStarted 1 entries
seven are one too few | cell | 65536 7 100000000 4 64 | 0 Spent 11 entries; 1-63 Halted 1 entries
one unit | cell | 65536 1 100000000 4 64 | 0 Spent 5 entries; 1-63 Halted 1 entries
a call and a block make five | grow | 65536 5 100000000 4 64 | 0 Spent 8 entries; 1-63 Halted 1 entries
as many blocks as the words have room for | grow | 1024 200000 100000000 4 64 | 0 HeapFull 5:11 1105 entries; 1-63 Halted 1 entries
calls make no entry | spin | 65536 1000 100000000 4 64 | 0 Spent 4 entries; 1-63 Halted 1 entries
the stack is full | spin | 65536 1000000 100000000 4 64 | 0 StackFull 3:22 4 entries; 1-63 Halted 1 entries
past the largest number | sum | 65536 200000 100000000 4 64 | 0 Arith 5:30 5 entries 18446744073709551615@0; 1-63 Halted 1 entries
a division by zero | quotient | 65536 200000 100000000 4 64 | 0 Arith 2:30 4 entries; 1-63 Halted 1 entries
one try | held | 65536 200000 1 4 64 | 0 Blocked 7:3 11 entries 1 lost; 1-63 Halted 1 entries
three tries | held | 65536 200000 3 4 64 | 0 Blocked 7:3 11 entries 3 lost; 1-63 Halted 1 entries
ten tries | held | 65536 200000 10 4 64 | 0 Blocked 7:3 11 entries 10 lost; 1-63 Halted 1 entries
nodes are given and taken | cycle | 65536 200000 100000000 4 64 | 0 Done 33 entries 11@0 2@1; 1-63 NeverStarted 1 entries
a node is taken twice | again | 65536 200000 100000000 4 64 | 0 TakeFailed 16:3 30 entries 11@0; 1-63 Halted 1 entries
a node is taken from another pool | pools | 65536 200000 100000000 4 64 | 0 TakeFailed 9:3 18 entries; 1-63 Halted 1 entries
the first thread prints all | printers | 65536 200000 100000000 4 64 | 0 Done 12 entries 1@0 2@1 3@2; 1 Done 7 entries 7@3 7@4 7@5; 2-63 NeverStarted 1 entries
one number in each turn | printers | 65536 200000 100000000 4 1 | 0 Done 12 entries 1@1 2@3 3@5; 1 Done 7 entries 7@0 7@2 7@4; 2-63 NeverStarted 1 entries
two in each turn | printers | 65536 200000 100000000 4 2 | 0 Done 12 entries 1@2 2@3 3@5; 1 Done 7 entries 7@0 7@1 7@4; 2-63 NeverStarted 1 entries
a spawn is a turn of five units | printers | 65536 200000 100000000 4 5 | 0 Done 12 entries 1@3 2@4 3@5; 1 Done 7 entries 7@0 7@1 7@2; 2-63 NeverStarted 1 entries
and one unit is left of six | printers | 65536 200000 100000000 4 6 | 0 Done 12 entries 1@0 2@4 3@5; 1 Done 7 entries 7@1 7@2 7@3; 2-63 NeverStarted 1 entries
two threads share a lock | locked | 65536 200000 100000000 4 64 | 0 Done 25 entries; 1 Done 12 entries 1@0; 2 Done 12 entries 2@1; 3-63 NeverStarted 1 entries
the sixth try wins | locked | 65536 200000 6 4 1 | 0 Done 25 entries; 1 Done 12 entries 1@0; 2 Done 12 entries 2@1; 3-63 NeverStarted 1 entries
five are too few | locked | 65536 200000 5 4 1 | 0 Done 25 entries; 1 Halted 11 entries 1@0; 2 Blocked 7:3 5 entries 5 lost; 3-63 Halted 1 entries
eleven threads are started in a turn | many | 65536 200000 100000000 4 64 | 0 ThreadsFull 6:5 320 entries; 1-55 Done 4 entries; 56-63 Halted 4 entries
all in one turn | many | 65536 200000 100000000 4 1000 | 0 ThreadsFull 6:5 320 entries; 1-63 Halted 4 entries
without a script | no script | 65536 200000 100000000 4 64 | none
with the script of another program | another script | 65536 200000 100000000 4 64 | none
without a program | no program | 65536 200000 100000000 4 64 | none
too few words | cell | 1023 200000 100000000 4 64 | none
too many words | cell | 16777217 200000 100000000 4 64 | none
no units | cell | 65536 0 100000000 4 64 | none
too many units | cell | 65536 1000001 100000000 4 64 | none
no tries | cell | 65536 200000 0 4 64 | none
no workers | cell | 65536 200000 100000000 0 64 | none
too many workers | cell | 65536 200000 100000000 17 64 | none
no units of a turn | cell | 65536 200000 100000000 4 0 | none
too many units of a turn | cell | 65536 200000 100000000 4 1000001 | none";

/// The entries of the one cell: the kind, the place, the value and what was seen.
pub(crate) const CELL_ENTRIES: &str =
    "Load 5 0 1, Load 6 0 0, Load 7 0 0, Add 0 3 197, Store 197 1 0, Store 198 0 0, Store 199 41 0, Load 199 0 41, Store 199 42 0, Load 199 0 42, Print 4 42 0, Sub 2 1 1";

/// The entries of the sum that is too large.
pub(crate) const SUM_ENTRIES: &str =
    "Load 5 0 1, Load 6 0 0, Load 7 0 0, Print 4 18446744073709551615 0, Max 3 1 0";
