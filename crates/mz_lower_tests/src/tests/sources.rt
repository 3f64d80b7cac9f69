//! Sources and their code. A line of code is an instruction: its place, what it does, the register that gets its result if it has one,
//! and its other parts in the order in which they are declared.

/// A cell with a number, which is raised by one and printed.
pub(crate) const ONE_CELL: &str = "data mutable cell = Cell { v: int }
sig start = () -> (r: unknown)
fun main : start = {
  let c = Cell { v = 41 };
  c.v <- c.v + 1;
  print c.v
}";

pub(crate) const ONE_CELL_CODE: &str = "main 0
entry 0 0 8
4:22 const 0 41
4:11 new 1 0 [0]
5:12 read 2 1 0 0
5:16 const 3 1
5:14 arith 4 + 2 3
5:7 write 5 1 0 0 4
6:11 read 6 1 0 0
6:3 print 7 6
7:1 return 7
";

/// Three functions: a match whose first branch has an `if` in an `if`, and whose second has a call; and a new thread.
pub(crate) const BRANCHES: &str = "data tree = Leaf { n: int } | Fork { left: tree; right: tree }
sig start = () -> (r: unknown)
sig work = (n: int) -> (r: unknown)
sig depth = (t: tree, d: int) -> (r: int)
fun show : work = { print n }
fun measure : depth = {
  match t {
    Leaf -> { if d then { if d == 1 then { 1 } else { 2 } } else { 0 } }
    Fork -> { measure(t.Fork.left, d) + 1 }
  }
}
fun main : start = {
  let l = Leaf { n = 3 };
  let s = measure(l, 1);
  spawn show(s)
}";

pub(crate) const BRANCHES_CODE: &str = "main 2
entry 0 1 2
entry 2 2 15
entry 28 0 7
5:21 print 1 0
5:29 return 1
7:3 switch 0 [0 1] [3 20]
8:15 branch 1 15
8:35 const 2 1
8:32 arith 3 == 1 2
8:27 branch 3 10
8:44 const 4 1
8:27 copy 6 4
8:27 jump 13
8:55 const 5 2
8:27 copy 6 5
8:27 jump 13
8:15 copy 8 6
8:15 jump 18
8:68 const 7 0
8:15 copy 8 7
8:15 jump 18
7:3 copy 14 8
7:3 jump 27
9:15 const 9 1
9:30 read 10 0 1 0
9:15 call 11 9 [10 1]
9:41 const 12 1
9:39 arith 13 + 11 12
7:3 copy 14 13
7:3 jump 27
11:1 return 14
13:22 const 0 3
13:11 new 1 0 [0]
14:11 const 2 1
14:22 const 3 1
14:11 call 4 2 [1 3]
15:9 const 5 0
15:3 spawn 6 5 4
16:1 return 6
";

/// The commands on locks, adopters and tags. It can be read, and has no derivation.
pub(crate) const WORD_STEPS: &str = "data mutable node = A { n: int } | B { n: int }
sig start = () -> (r: unknown)
fun main : start = {
  let a = A { n = 18446744073709551615 };
  let l = newlock (a @ node);
  acquire l;
  retag a from A to B;
  give a to l;
  take a from l;
  release l;
  ()
}";

pub(crate) const WORD_STEPS_CODE: &str = "main 0
entry 0 0 9
4:19 const 0 18446744073709551615
4:11 new 1 0 [0]
5:11 newlock 2
6:3 acquire 3 2
7:3 retag 4 1 0 1
8:3 give 5 1 2
9:3 take 6 1 2
10:3 release 7 2
11:3 const 8 0
12:1 return 8
";
