//! The table of ends.

/// A row is a name, the functions (each the number of its first instruction, of its parameters and of its registers), the
/// instructions, the limits (words, units, tries and the units of a turn), what another actor stores (before which turn, the place
/// and the value), and what comes of it: the end with the line of the instruction, in which turn, how many entries the record
/// has, and how many tries were lost.
///
/// A start makes three entries, and an end one. The first free word is 197; word 0 is the next free word, 1 the next thread
/// number, 2 how many threads are alive, 3 whether all have to stop, and 5 whether thread 0 may start.
pub(crate) const ENDS: &str = "\
done at once | 0 0 1 | return 0 | 1024 1 1 1 | | Done, turn 1, 4 entries, 0 lost
done with all its units | 0 0 1 | print 0 0; return 0 | 1024 1 1 1 | | Done, turn 2, 5 entries, 0 lost
no unit is left for a print | 0 0 1 | print 0 0; print 0 0; return 0 | 1024 1 1 9 | | Spent, turn 1, 5 entries, 0 lost
nor for a call | 0 0 2 + 3 0 1 | print 0 0; call 0 1; return 0; return 0 | 1024 1 1 9 | | Spent, turn 1, 5 entries, 0 lost
nor for the last word of a block | 0 0 1 | new 0 0 0; return 0 | 1024 3 1 9 | | Spent, turn 1, 7 entries, 0 lost
each of its words is a unit | 0 0 1 | new 0 0 0; return 0 | 1024 4 1 9 | | Done, turn 1, 8 entries, 0 lost
a call is a unit | 0 0 2 + 4 0 1 | const 0 1; call 1 0; call 1 0; return 0; return 0 | 1024 1 1 9 | | Spent, turn 1, 4 entries, 0 lost
a return is none | 0 0 2 + 4 0 1 | const 0 1; call 1 0; call 1 0; return 0; return 0 | 1024 2 1 9 | | Done, turn 1, 4 entries, 0 lost
the largest sum | 0 0 3 | const 1 18446744073709551615; add 0 1 2; return 0 | 1024 1 1 1 | | Done, turn 1, 4 entries, 0 lost
one more | 0 0 3 | const 1 18446744073709551615; const 2 1; add 0 1 2; return 0 | 1024 1 1 1 | | Arith 3, turn 1, 4 entries, 0 lost
one divided by nothing | 0 0 3 | const 1 1; div 0 1 2; return 0 | 1024 1 1 1 | | Arith 2, turn 1, 4 entries, 0 lost
nothing less one | 0 0 3 | const 1 1; sub 0 2 1; return 0 | 1024 1 1 1 | | Arith 2, turn 1, 4 entries, 0 lost
a block of the last words | 0 0 1 | new 0 0 0; return 0 | 1024 9 1 9 | 0 0 1021 | Done, turn 1, 8 entries, 0 lost
one word too few | 0 0 1 | new 0 0 0; return 0 | 1024 9 1 9 | 0 0 1022 | HeapFull 1, turn 1, 5 entries, 0 lost
a lock at the last word | 0 0 1 | newlock 0; return 0 | 1024 9 1 9 | 0 0 1023 | Done, turn 1, 6 entries, 0 lost
a lock behind it | 0 0 1 | newlock 0; return 0 | 1024 9 1 9 | 0 0 1024 | HeapFull 1, turn 1, 5 entries, 0 lost
the last thread | 0 0 2 + 3 1 1 | const 1 1; spawn 0 1 0; return 0; return 0 | 1024 9 1 9 | 0 1 63 | Done, turn 1, 9 entries, 0 lost
one too many | 0 0 2 + 3 1 1 | const 1 1; spawn 0 1 0; return 0; return 0 | 1024 9 1 9 | 0 1 64 | ThreadsFull 2, turn 1, 5 entries, 0 lost
as many registers as may be | 0 0 2 + 3 0 1048574 | const 1 1; call 0 1; return 0; return 0 | 1024 9 1 9 | | Done, turn 1, 4 entries, 0 lost
one too many registers | 0 0 2 + 3 0 1048575 | const 1 1; call 0 1; return 0; return 0 | 1024 9 1 9 | | StackFull 2, turn 1, 4 entries, 0 lost
a block is taken back | 0 0 3 | new 1 0; new 2 0; give 0 1 2; take 0 1 2; return 0 | 1024 99 1 99 | | Done, turn 1, 13 entries, 0 lost
it has another adopter | 0 0 3 | new 1 0; new 2 0; give 0 1 2; take 0 1 1; return 0 | 1024 99 1 99 | | TakeFailed 4, turn 1, 12 entries, 0 lost
it has none any more | 0 0 3 | new 1 0; new 2 0; give 0 1 2; take 0 1 2; take 0 1 2; return 0 | 1024 99 1 99 | | TakeFailed 5, turn 1, 14 entries, 0 lost
a free lock | 0 0 2 | newlock 1; acquire 0 1; return 0 | 1024 9 1 9 | | Done, turn 1, 7 entries, 0 lost
one try is all | 0 0 2 | newlock 1; acquire 0 1; acquire 0 1; return 0 | 1024 9 1 9 | | Blocked 3, turn 1, 7 entries, 1 lost
three tries | 0 0 2 | newlock 1; acquire 0 1; acquire 0 1; return 0 | 1024 9 3 9 | | Blocked 3, turn 3, 7 entries, 3 lost
it is free before the last try | 0 0 2 | newlock 1; acquire 0 1; acquire 0 1; return 0 | 1024 9 3 9 | 2 197 0 | Done, turn 3, 8 entries, 0 lost
no unit is left for a try | 0 0 2 | newlock 1; acquire 0 1; acquire 0 1; return 0 | 1024 3 3 9 | | Spent, turn 1, 7 entries, 0 lost
it is told to stop between two tries | 0 0 2 | newlock 1; acquire 0 1; acquire 0 1; return 0 | 1024 9 3 9 | 1 3 1 | Halted, turn 2, 7 entries, 0 lost
it is told to stop before it starts | 0 0 1 | return 0 | 1024 1 1 1 | 0 3 1 | Halted, turn 1, 4 entries, 0 lost
before its last instruction | 0 0 1 | print 0 0; return 0 | 1024 1 1 1 | 1 3 1 | Halted, turn 2, 5 entries, 0 lost
rather than spent | 0 0 1 | print 0 0; print 0 0; return 0 | 1024 1 1 1 | 1 3 1 | Halted, turn 2, 5 entries, 0 lost
and behind it, too late | 0 0 1 | print 0 0; return 0 | 1024 1 1 1 | 2 3 1 | Done, turn 2, 5 entries, 0 lost
while it is idle | 0 0 1 | return 0 | 1024 1 1 1 | 0 5 0 + 0 3 1 | Halted, turn 1, 1 entries, 0 lost
no thread is alive | 0 0 1 | return 0 | 1024 1 1 1 | 0 5 0 + 0 2 0 | NeverStarted, turn 1, 1 entries, 0 lost
none any more | 0 0 1 | return 0 | 1024 1 1 1 | 0 5 0 + 2 2 0 | NeverStarted, turn 3, 1 entries, 0 lost
it may start after all | 0 0 1 | return 0 | 1024 1 1 1 | 0 5 0 + 2 2 0 + 2 5 1 | Done, turn 3, 4 entries, 0 lost
it stays idle | 0 0 1 | return 0 | 1024 1 1 1 | 0 5 0 | again, turn 9, 0 entries, 0 lost
no case has the tag | 0 0 1 | new 0 0; switch 0; return 0 | 1024 9 1 9 | | wild, turn 1, 7 entries, 0 lost
no block is there | 0 0 2 | const 1 1022; read 0 1 0 0; return 0 | 1024 9 1 9 | | wild, turn 1, 3 entries, 0 lost
there is no such function | 0 0 2 | const 1 7; call 0 1; return 0 | 1024 9 1 9 | | wild, turn 1, 3 entries, 0 lost
it has another number of parameters | 0 0 2 + 3 1 1 | const 1 1; call 0 1; return 0; return 0 | 1024 9 1 9 | | wild, turn 1, 3 entries, 0 lost
there is no instruction | 0 0 1 | print 0 0 | 1024 9 1 9 | | wild, turn 1, 4 entries, 0 lost";
