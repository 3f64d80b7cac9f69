//! The tables.

/// The front of a program that is `main` alone.
pub(crate) const MAIN: &str = "fun 0:";

/// Two bodies to go on in, which print 1 and give 11, and print 2 and give 22; and functions: number 0 shows its argument, number 1
/// gives the difference of its two, and number 2 has no parameter and gives 7. The rest is `main`, number 3.
pub(crate) const WITH_FUNCTIONS: &str =
    "body 100: int 1, print 100, int 11 / body 110: int 2, print 110, int 22 / \
fun 1: print 0 / fun 2: sub 0 1 / fun 0: int 7 / fun 0:";

/// Each kind of command right and wrong: what it gives is printed by a command behind it.
pub(crate) const COMMANDS: &str = "\
a number | int 7, print 0 | 0SSE | [7]
the largest number | int 18446744073709551615, print 0 | 0SSE | [18446744073709551615]
`()` is 0 | int 7, unit, print 1 | 0SSSE | [0]
what isn't bound is 0 | print 9 | 0SE | [0]
a copy of a number | int 7, copy 0, print 1 | 0SSSE | [7]
a copy of a block is the same block | int 1, new 0 0, copy 1, int 5, write 2 0 0 3, read 1 0 0, print 5 | 0SSSSSSSE | [5]
a copy of a function is the function | fun 0, copy 0, int 3, call 1 2 | 0SSSSSSE | [3]
a print gives 0 | int 7, print 0, print 1 | 0SSSE | [7, 0]
a function is printed | fun 0, print 0 | 0SX | []
a block is printed | new 0, print 0 | 0SX | []
a lock is printed | newlock, print 0 | 0SX | []
the left number stands left | int 9, int 4, sub 0 1, print 2 | 0SSSSE | [5]
a block is added to | int 1, new 0 0, add 1 0 | 0SSX | []
a block is added | int 1, new 0 0, add 0 1 | 0SSX | []
two functions are compared | fun 0, fun 0, eq 0 1 | 0SSX | []
fields stand in order | int 1, int 2, new 1 1 0, read 2 1 0, print 3, read 2 1 1, print 5 | 0SSSSSSSE | [2, 1]
two blocks of one look are apart | int 1, new 0 0, new 0 0, int 2, write 1 0 0 3, read 2 0 0, print 5 | 0SSSSSSSE | [1]
a field holds a block | int 1, new 0 0, new 0 1, read 2 0 0, read 3 0 0, print 4 | 0SSSSSSE | [1]
a block of another constructor is read | int 1, new 0 0, read 1 1 0 | 0SSX | []
a field past the last is read | int 1, new 0 0, read 1 0 1 | 0SSX | []
a number is read | int 1, read 0 0 0 | 0SX | []
a function is read | fun 0, read 0 0 0 | 0SX | []
a lock is read | newlock, read 0 0 0 | 0SX | []
a write gives 0 | int 1, new 0 0, write 1 0 0 0, print 2 | 0SSSSE | [0]
a write leaves the other field | int 1, int 2, new 1 0 0, write 2 1 1 1, read 2 1 0, print 4, read 2 1 1, print 6 | 0SSSSSSSSE | [1, 2]
a block of another constructor is written | int 1, new 0 0, write 1 1 0 0 | 0SSX | []
a field past the last is written | int 1, new 0 0, write 1 0 1 0 | 0SSX | []
a number is written | int 1, write 0 0 0 0 | 0SX | []
a lock is written | newlock, write 0 0 0 0 | 0SX | []
another constructor | int 1, new 0 0, retag 1 0 1, read 1 1 0, print 3 | 0SSSSSE | [1]
the old constructor is gone | int 1, new 0 0, retag 1 0 1, read 1 0 0 | 0SSSX | []
a constructor is changed that isn't there | int 1, new 0 0, retag 1 1 0 | 0SSX | []
the constructor of a number is changed | int 1, retag 0 0 1 | 0SX | []
1 is true | int 1, if 0 0 1, print 1 | 0SSSSSSSE | [1, 11]
0 is false | int 0, if 0 0 1, print 1 | 0SSSSSSSE | [2, 22]
the largest number is true | int 18446744073709551615, if 0 0 1, print 1 | 0SSSSSSSE | [1, 11]
a block is asked whether it is 0 | new 0, if 0 0 1 | 0SX | []
a function is asked whether it is 0 | fun 0, if 0 0 1 | 0SX | []
the case of the constructor | new 1, match 0 0 0 1 1, print 1 | 0SSSSSSSE | [2, 22]
the first of two cases | new 1, match 0 1 0 1 1, print 1 | 0SSSSSSSE | [1, 11]
no case of the constructor | new 1, match 0 0 0 | 0SX | []
no case at all | new 1, match 0 | 0SX | []
a number has no case | int 0, match 0 0 0 | 0SX | []
a lock has no case | newlock, match 0 0 0 | 0SX | []
arguments stand in order | int 9, int 4, fun 1, call 2 0 1, print 3 | 0SSSSSSSE | [5]
a callee stops the thread | int 4, int 9, fun 1, call 2 0 1, print 3 | 0SSSSA | []
a call without arguments | int 3, fun 2, call 1, print 2, print 0 | 0SSSSSSSE | [7, 3]
a call with an argument too few | int 9, fun 1, call 1 0 | 0SSX | []
a call with an argument too many | int 9, fun 0, call 1 0 0 | 0SSX | []
a number is called | int 1, call 0 0 | 0SX | []
a block is called | new 0, call 0 0 | 0SX | []
a function is called that isn't there | fun 4, call 0 | 0SX | []
a thread is started, and its start gives 0 | int 3, fun 0, spawn 1 0, print 2 | 0SSSSE | [0]
a function of two parameters is started | int 3, fun 1, spawn 1 0 | 0SSX | []
a function without a parameter is started | int 3, fun 2, spawn 1 0 | 0SSX | []
a number is started | int 1, spawn 0 0 | 0SX | []
a function is started that isn't there | fun 4, spawn 0 0 | 0SX | []
a block is given and taken | int 1, new 0 0, new 1, give 1 2, take 1 2, read 1 0 0, print 5 | 0SSSSSSSE | [1]
a give and a take give 0 | new 0, new 1, give 0 1, take 0 1, print 2, print 3 | 0SSSSSSE | [0, 0]
a block is given again after its take | new 0, new 1, new 1, give 0 1, take 0 1, give 0 2, take 0 1 | 0SSSSSST | []
what has an adopter is given | new 0, new 1, new 1, give 0 1, give 0 2 | 0SSSSX | []
what has an adopter is given to it again | new 0, new 1, give 0 1, give 0 1 | 0SSSX | []
a number is given | int 1, new 1, give 0 1 | 0SSX | []
a block is given to a number | int 1, new 1, give 1 0 | 0SSX | []
a block is given to a lock | newlock, new 1, give 1 0 | 0SSX | []
a block is taken from another adopter | new 0, new 1, new 1, give 0 1, take 0 2 | 0SSSST | []
a block is taken that wasn't given | new 0, new 1, take 0 1 | 0SST | []
a block is taken twice | new 0, new 1, give 0 1, take 0 1, take 0 1 | 0SSSST | []
a number is taken | int 1, new 1, take 0 1 | 0SSX | []
a block is taken from a number | int 1, new 1, take 1 0 | 0SSX | []
a lock is acquired, released and acquired | newlock, acquire 0, release 0, acquire 0, print 1, print 2 | 0SSSSSSE | [0, 0]
a held lock is acquired | newlock, acquire 0, acquire 0 | 0SSW | []
one of two locks is held | newlock, newlock, acquire 0, acquire 1, release 0, acquire 1 | 0SSSSSW | []
a free lock is released | newlock, release 0 | 0SX | []
a lock is released twice | newlock, acquire 0, release 0, release 0 | 0SSSX | []
a number is acquired | int 0, acquire 0 | 0SX | []
a block is acquired | new 0, acquire 0 | 0SX | []
a number is released | int 0, release 0 | 0SX | []
a block is released | new 0, release 0 | 0SX | []";

/// Each operator at the ends of the numbers, the largest of which is 18446744073709551615.
pub(crate) const NUMBERS: &str = "\
largest sum | int 18446744073709551614, int 1, add 0 1, print 2 | 0SSSSE | [18446744073709551615]
sum with 0 | int 18446744073709551615, int 0, add 0 1, print 2 | 0SSSSE | [18446744073709551615]
sum past the largest number | int 18446744073709551615, int 1, add 0 1 | 0SSA | []
sum of two largest numbers | int 18446744073709551615, int 18446744073709551615, add 0 1 | 0SSA | []
difference | int 9, int 4, sub 0 1, print 2 | 0SSSSE | [5]
smallest difference | int 4, int 4, sub 0 1, print 2 | 0SSSSE | [0]
largest difference | int 18446744073709551615, int 0, sub 0 1, print 2 | 0SSSSE | [18446744073709551615]
difference below 0 | int 0, int 1, sub 0 1 | 0SSA | []
difference far below 0 | int 0, int 18446744073709551615, sub 0 1 | 0SSA | []
largest product | int 4294967295, int 4294967297, mul 0 1, print 2 | 0SSSSE | [18446744073709551615]
product with 0 | int 0, int 18446744073709551615, mul 0 1, print 2 | 0SSSSE | [0]
product past the largest number | int 4294967296, int 4294967296, mul 0 1 | 0SSA | []
product of two largest numbers | int 18446744073709551615, int 18446744073709551615, mul 0 1 | 0SSA | []
quotient rounded down | int 7, int 2, div 0 1, print 2 | 0SSSSE | [3]
quotient of less | int 6, int 7, div 0 1, print 2 | 0SSSSE | [0]
largest quotient | int 18446744073709551615, int 1, div 0 1, print 2 | 0SSSSE | [18446744073709551615]
quotient of 0 | int 0, int 18446744073709551615, div 0 1, print 2 | 0SSSSE | [0]
quotient by 0 | int 7, int 0, div 0 1 | 0SSA | []
quotient of 0 by 0 | int 0, int 0, div 0 1 | 0SSA | []
rest | int 7, int 2, rem 0 1, print 2 | 0SSSSE | [1]
rest of less | int 6, int 7, rem 0 1, print 2 | 0SSSSE | [6]
rest by 1 | int 18446744073709551615, int 1, rem 0 1, print 2 | 0SSSSE | [0]
rest by itself | int 18446744073709551615, int 18446744073709551615, rem 0 1, print 2 | 0SSSSE | [0]
rest by 0 | int 7, int 0, rem 0 1 | 0SSA | []
rest of 0 by 0 | int 0, int 0, rem 0 1 | 0SSA | []
equal | int 18446744073709551615, int 18446744073709551615, eq 0 1, print 2 | 0SSSSE | [1]
not equal | int 18446744073709551615, int 0, eq 0 1, print 2 | 0SSSSE | [0]
unequal | int 0, int 1, ne 0 1, print 2 | 0SSSSE | [1]
not unequal | int 0, int 0, ne 0 1, print 2 | 0SSSSE | [0]
less | int 0, int 18446744073709551615, lt 0 1, print 2 | 0SSSSE | [1]
not less, as it is equal | int 3, int 3, lt 0 1, print 2 | 0SSSSE | [0]
not less | int 18446744073709551615, int 0, lt 0 1, print 2 | 0SSSSE | [0]
at most, as it is less | int 0, int 1, le 0 1, print 2 | 0SSSSE | [1]
at most, as it is equal | int 18446744073709551615, int 18446744073709551615, le 0 1, print 2 | 0SSSSE | [1]
not at most | int 1, int 0, le 0 1, print 2 | 0SSSSE | [0]
greater | int 18446744073709551615, int 0, gt 0 1, print 2 | 0SSSSE | [1]
not greater, as it is equal | int 0, int 0, gt 0 1, print 2 | 0SSSSE | [0]
not greater | int 0, int 18446744073709551615, gt 0 1, print 2 | 0SSSSE | [0]
at least, as it is greater | int 1, int 0, ge 0 1, print 2 | 0SSSSE | [1]
at least, as it is equal | int 3, int 3, ge 0 1, print 2 | 0SSSSE | [1]
not at least | int 0, int 1, ge 0 1, print 2 | 0SSSSE | [0]";

/// What the next command accesses.
pub(crate) const ACCESSES: &str = "\
a read reads | new 0, read 0 0 0 | 0S | 0 reads [0] writes []
a match reads | new 0, match 0 | 0S | 0 reads [0] writes []
a write writes the block, and not what it puts there | new 0, new 0 0, write 1 0 0 0 | 0SS | 0 reads [] writes [1]
a change of the constructor writes | new 0, retag 0 0 1 | 0S | 0 reads [] writes [0]
a give writes the block and its adopter | new 0, new 1, give 0 1 | 0SS | 0 reads [] writes [0, 1]
a take writes the adopter alone | new 0, new 1, give 0 1, take 0 1 | 0SSS | 0 reads [] writes [1]
a block counts whatever its constructor is | new 0, read 0 1 0 | 0S | 0 reads [0] writes []
a number is no block | int 0, read 0 0 0 | 0S | 0 reads [] writes []
a number is no adopter | int 0, new 0, give 1 0 | 0SS | 0 reads [] writes [0]
a new block is accessed by nobody | int 0, new 0 0 | 0S | 0 reads [] writes []
an acquire accesses nothing | newlock, acquire 0 | 0S | 0 reads [] writes []
a wait accesses nothing | newlock, acquire 0, acquire 0 | 0SS | 0 reads [] writes []
a release accesses nothing | newlock, acquire 0, release 0 | 0SS | 0 reads [] writes []
a print accesses nothing | int 0, print 0 | 0S | 0 reads [] writes []
a choice by a number accesses nothing | int 0, if 0 0 0 | 0S | 0 reads [] writes []
a call accesses nothing | new 0, fun 0, call 1 0 | 0SS | 0 reads [] writes []
a start accesses nothing | new 0, fun 0, spawn 1 0 | 0SS | 0 reads [] writes []
the end of a body accesses nothing | int 0 | 0S | 0 reads [] writes []";

/// Whole programs that are accepted, from their first step to their last. The frozen list is of the constructors 0, which is raw,
/// 1, which is empty, and 2; the pool is of the constructor 1 and its nodes of 0.
pub(crate) const PROGRAMS: &str = "\
one cell | fun 0: int 41, new 0 0, read 1 0 0, int 1, add 2 3, write 1 0 0 4, read 1 0 0, print 6 | 0SSSSSSSSE | [42]
a frozen list is shown twice | body 10: unit / body 20: read 0 2 0, print 20 / fun 1: match 0 1 0 2 1 / fun 0: new 1, int 7, unit, new 0 1 2, write 3 0 1 0, retag 3 0 2, fun 0, call 6 3, fun 0, call 8 3 | 0SSSSSSSSSSSSSSSSSSSSE | [7, 7]
an adopted cycle | fun 0: int 1, unit, new 0 0 1, int 2, new 0 3 2, write 2 0 1 4, new 1 2, give 2 6, give 4 6, read 6 1 0, take 9 6, read 9 0 0, int 10, add 11 12, write 9 0 0 13, read 9 0 0, print 15, read 9 0 1, take 17 6, read 17 0 0, print 19 | 0SSSSSSSSSSSSSSSSSSSSSE | [11, 2]
the second take of a node fails | fun 0: int 1, unit, new 0 0 1, int 2, new 0 3 2, write 2 0 1 4, new 1 2, give 2 6, give 4 6, read 6 1 0, take 9 6, read 9 0 0, int 10, add 11 12, write 9 0 0 13, read 9 0 0, print 15, read 9 0 1, take 9 6, unit | 0SSSSSSSSSSSSSSSSSST 0E | [11]
a call in a call | fun 1: mul 0 0 / fun 1: fun 0, call 1 0, add 2 0 / fun 0: int 3, fun 1, call 1 0, mul 2 0, print 3 | 0SSSSSSSSSSSE | [36]
a branch in a branch | body 20: int 5 / body 30: int 6 / body 10: int 0, if 10 0 1, add 11 0 / body 40: / fun 0: int 100, if 0 2 3, add 1 0, print 2 | 0SSSSSSSSSSE | [206]
an empty main | fun 0: | 0E | []";

/// `let c = Cell { v = 41 }; c.v <- c.v + 1; print c.v`
pub(crate) const ONE_CELL: &str =
    "fun 0: int 41, new 0 0, read 1 0 0, int 1, add 2 3, write 1 0 0 4, read 1 0 0, print 6";

/// What the program of one cell accesses before each of its steps, how many blocks there are, and what the step answers.
pub(crate) const STEPS: &str = "\
0 reads [] writes [], 0 blocks: Stepped
0 reads [] writes [], 0 blocks: Stepped
0 reads [0] writes [], 1 blocks: Stepped
0 reads [] writes [], 1 blocks: Stepped
0 reads [] writes [], 1 blocks: Stepped
0 reads [] writes [0], 1 blocks: Stepped
0 reads [0] writes [], 1 blocks: Stepped
0 reads [] writes [], 1 blocks: Stepped
0 reads [] writes [], 1 blocks: Ended
0 reads [] writes [], 1 blocks: Ended
";

/// Thread 0 prints 1 and thread 1 prints 2, each under one lock.
pub(crate) const LOCKED: &str = "fun 1: int 2, acquire 0, print 1, release 0 / \
fun 0: newlock, int 1, fun 0, spawn 2 0, acquire 0, print 1, release 0";

pub(crate) const LOCKED_ORDERS: &str = "\
thread 1 after thread 0 | | 0SSSS 1S 0SSSE 1SSSE | [1, 2]
thread 0 after thread 1 | | 0SSSS 1S 1SSSE 0SSSE | [2, 1]
thread 1 waits for thread 0 | | 0SSSS 1S 0S 1W 0S 1W 0S 1SSSE 0E | [1, 2]
thread 0 waits for thread 1 | | 0SSSS 1SS 0W 1S 0W 1S 0SSS 1E 0E | [2, 1]
the lock goes from thread 0 to thread 1 and nobody waits | | 0SSSS 0SSS 1SS 0E 1SSE | [1, 2]
thread 0 ends while thread 1 holds the lock | | 0SSSS 0SSS 1SSS 0E 1SE | [1, 2]";

/// Thread 0 prints 1 and 2, and thread 1 prints 3 and 4.
pub(crate) const PRINTING: &str = "fun 1: int 3, int 4, print 1, print 2 / \
fun 0: int 1, int 2, fun 0, spawn 2 0, print 0, print 1";

pub(crate) const PRINTING_ORDERS: &str = "\
prints in the order 0 0 1 1 | | 0SSSS 1SS 0SS 1SS | [1, 2, 3, 4]
prints in the order 0 1 0 1 | | 0SSSS 1SS 0S 1S 0S 1S | [1, 3, 2, 4]
prints in the order 0 1 1 0 | | 0SSSS 1SS 0S 1SS 0S | [1, 3, 4, 2]
prints in the order 1 0 0 1 | | 0SSSS 1SS 1S 0SS 1S | [3, 1, 2, 4]
prints in the order 1 0 1 0 | | 0SSSS 1SS 1S 0S 1S 0S | [3, 1, 4, 2]
prints in the order 1 1 0 0 | | 0SSSS 1SS 1SS 0SS | [3, 4, 1, 2]";

/// Programs that have no derivation, and a thread of which has no step. What the refusal asks for, row by row: that the lock is held, for
/// the second release; the cell once more; the case of the empty list; that the number may be asked for, as a block may; the node,
/// which is given away; a node in place of a cell; the cell, which is frozen; a function.
pub(crate) const WRONG: &str = "\
the second release | fun 0: newlock, acquire 0, release 0, release 0 | 0SSSX | []
one cell for two parameters | fun 2: retag 0 0 2, read 1 0 0 / fun 0: int 1, new 0 0, fun 0, call 2 1 1 | 0SSSSSX | []
a match without a case | body 10: read 0 6 0, print 10 / fun 1: match 0 6 0 / fun 0: new 5, fun 0, call 1 0 | 0SSSX | []
a take of a number | fun 0: int 1, new 3 0, take 0 1 | 0SSX | []
a node given twice | fun 0: int 1, new 2 0, new 3 0, new 3 0, give 1 2, give 1 3 | 0SSSSSX | []
a cell given as a node | fun 0: int 1, new 0 0, new 3 0, give 1 2, take 1 2, read 1 2 0 | 0SSSSSX | []
a frozen cell written as before | fun 0: int 0, new 0 0, retag 1 0 1, int 1, write 1 0 0 3 | 0SSSSX | []
a call of a cell | fun 0: int 0, new 0 0, call 1 0 | 0SSX | []";

/// Programs that have no derivation, and two threads of which race: the next command of one writes a block that the next one of the other
/// touches. What the refusal asks for, row by row: the cell, which the new thread has got; a mutable cell in place of a frozen one; the
/// cell, which the call has consumed; the cell, which the lock guards; that the releasing thread holds the lock; the node, which the
/// pool has got; the pool, for the second new thread; the list, which the new thread has got.
pub(crate) const RACES: &str = "\
a cell is written by two threads | fun 1: int 2, write 0 0 0 1 / fun 0: int 0, new 0 0, fun 0, spawn 2 1, int 1, write 1 0 0 4 | 0SSSSS 1S | 0 reads [] writes [0], 1 reads [] writes [0]
a frozen cell is read and written | fun 1: read 0 1 0, print 1 / fun 0: int 0, new 0 0, retag 1 0 1, fun 0, spawn 3 1, int 1, write 1 1 0 5 | 0SSSSSS | 0 reads [] writes [0], 1 reads [0] writes []
a consumed cell is written | fun 1: int 2, write 0 0 0 1 / fun 1: fun 0, spawn 1 0 / fun 0: int 0, new 0 0, fun 1, call 2 1, int 1, write 1 0 0 4 | 0SSSSSSSS 1S | 0 reads [] writes [0], 1 reads [] writes [0]
a guarded cell is written without its lock | fun 1: read 0 4 1, acquire 1, read 0 4 0, int 2, write 3 0 0 4 / fun 0: int 0, new 0 0, newlock, new 4 1 2, fun 0, spawn 4 3, int 1, write 1 0 0 6 | 0SSSSSSS 1SSSS | 0 reads [] writes [0], 1 reads [] writes [0]
a lock is released by a thread that hasn't got it | fun 1: read 0 4 1, release 1, acquire 1, read 0 4 0, read 4 0 0 / fun 0: int 0, new 0 0, newlock, new 4 1 2, acquire 2, fun 0, spawn 5 3, int 1, write 1 0 0 7 | 0SSSSSSSS 1SSSS | 0 reads [] writes [0], 1 reads [0] writes []
a given node is written | fun 1: read 0 3 0, take 1 0, int 2, write 1 2 0 3 / fun 0: int 0, new 2 0, new 3 1, give 1 2, fun 0, spawn 4 2, int 1, write 1 2 0 6 | 0SSSSSSS 1SSS | 0 reads [] writes [0], 1 reads [] writes [0]
two threads take from a pool | fun 1: read 0 3 0, take 1 0 / fun 0: int 0, new 2 0, new 3 1, give 1 2, fun 0, spawn 4 2, spawn 4 2 | 0SSSSSSS 1S 2S | 0 reads [] writes [], 1 reads [] writes [1], 2 reads [] writes [1]
a list changes its constructor as it is looked at | body 10: int 0 / fun 1: match 0 5 0 / fun 0: new 5, fun 0, spawn 1 0, retag 0 5 6 | 0SSS | 0 reads [] writes [0], 1 reads [0] writes []";
