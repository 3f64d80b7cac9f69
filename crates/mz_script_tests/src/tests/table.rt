//! Programs, a text of a derivation for each, and rows that change one line of it.

/// A line, counted from 1; the bytes that stand in its place; and the first wrong line then, or 0 where the text is still one
/// of a derivation.
pub type Row = (usize, &'static [u8], u32);

/// One cell, as in the examples.
pub const CELL: &[u8] = b"data mutable cell = Cell { v: int }
sig start = () -> (r: unknown)
fun main : start = {
  let c = Cell { v = 41 };
  c.v <- c.v + 1;
  print c.v
}
";

pub const CELL_SCRIPT: &[u8] = b"%derivation 1
fun main
do
do
do %1 @ Cell { v = %0 }
do
equal %2 %0
rename %0 @ int to %2
do
do %1 @ Cell { v = %0 }
do %1 @ Cell { v = %4 }
equal %6 %4
rename %4 @ int to %6
do
end
";

pub const CELL_ROWS: [Row; 58] = [
    (1, b"", 1),
    (1, b"%derivation 2\n", 1),
    (1, b"%derivation 1\n%derivation 1\n", 2),
    (1, b"%derivation 1 \n", 1),
    (1, b" %derivation 1\n", 1),
    (2, b"", 2),
    (2, b"fun other\n", 2),
    (2, b"fun  main\n", 2),
    (2, b"fun main\nfun main\n", 3),
    (2, b"fun main", 2),
    (2, b"fun mai\n", 2),
    (2, b"fun mainn\n", 2),
    (3, b"", 14),
    (3, b"do\ndo\n", 15),
    (3, b"do \n", 3),
    (3, b"d\n", 3),
    (3, b"case 0\n", 3),
    (3, b"join\n", 3),
    (3, b"end\n", 3),
    (3, b"\n", 3),
    (3, b"do\r\n", 3),
    (5, b"do  %1 @ Cell { v = %0 }\n", 5),
    (5, b"do %1 @ Cell { v = %00 }\n", 5),
    (5, b"do %01 @ Cell { v = %0 }\n", 5),
    (5, b"do %1 @ Cell {v = %0}\n", 5),
    (5, b"do %1 @ Cell { w = %0 }\n", 5),
    (5, b"do %1 @ Cell { }\n", 5),
    (5, b"do %1 @ Other { v = %0 }\n", 5),
    (5, b"do %1 @ Cell { v = %0; v = %0 }\n", 5),
    (5, b"do %1 @ Cell { v = %0 \n", 5),
    (5, b"do %1 @ Cell { v = %0 } \n", 5),
    (5, b"do %1 @ cell\n", 0),
    (5, b"do %1 @ start\n", 0),
    (5, b"do %1 @ other\n", 5),
    (5, b"do %1 @ lock\n", 5),
    (5, b"do %4294967295 @ int\n", 0),
    (5, b"do %4294967296 @ int\n", 5),
    (5, b"do % @ int\n", 5),
    (5, b"do 1 @ int\n", 5),
    (5, b"do %1 @ Cell { v = %0 } adopts cell\n", 0),
    (5, b"do %1 @ Cell { v = %0 } adopts other\n", 5),
    (7, b"", 0),
    (7, b"equal %2 %0\nequal %2 %0\n", 0),
    (7, b"equal %2  %0\n", 7),
    (7, b"equal %2\n", 7),
    (7, b"equal %2 %0 %0\n", 7),
    (7, b"equal %2 0\n", 7),
    (8, b"rename %0 @ int to %2", 8),
    (8, b"rename %0 @ int  to %2\n", 8),
    (8, b"rename %0 @ int to 2\n", 8),
    (8, b"rename %0 to %2\n", 8),
    (8, b"Rename %0 @ int to %2\n", 8),
    (14, b"", 14),
    (15, b"", 15),
    (15, b"end", 15),
    (15, b"end\nend\n", 16),
    (15, b"end\nend", 16),
    (15, b"en\n", 15),
];

/// An if, whose branches give numbers.
pub const IF: &[u8] = b"sig start = () -> (r: unknown)
fun main : start = {
  if 1 then { 2 } else { 3 }
}
";

pub const IF_SCRIPT: &[u8] = b"%derivation 1
fun main
do
do
case 0
do
end
case 0
do
end
join %3 @ int
unknown %3
end
";

pub const IF_ROWS: [Row; 17] = [
    (5, b"", 5),
    (5, b"case 1\n", 5),
    (5, b"case 00\n", 5),
    (5, b"case\n", 5),
    (5, b"case 0\ncase 0\n", 6),
    (6, b"", 6),
    (7, b"", 7),
    (8, b"", 8),
    (11, b"", 11),
    (11, b"join\n", 0),
    (11, b"join %3 @ int * %3 @ int\n", 0),
    (11, b"join %3 @ int *%3 @ int\n", 11),
    (11, b"join \n", 11),
    (11, b"join %3 @ int * \n", 11),
    (11, b"join %3 @ int\njoin\n", 12),
    (13, b"", 13),
    (12, b"", 0),
];

/// A match, and two functions.
pub const MATCH: &[u8] = b"data list = Nil { } | Cons { head: int; tail: list }
sig start = () -> (r: unknown)
sig look = (x: list) -> (r: unknown)
fun show : look = {
  match x { Nil -> { () } Cons -> { print x.Cons.head } }
}
fun main : start = { () }
";

pub const MATCH_SCRIPT: &[u8] = b"%derivation 1
fun show
do %0 @ list
case 256
drop %0 @ Nil { }
do
end
case 257
do %0 @ Cons { head = %257; tail = %258 }
do
end
join %0 @ list * %4 @ unknown
end
fun main
do
end
";

pub const MATCH_ROWS: [Row; 16] = [
    (3, b"do %0 @ Nil { }\n", 4),
    (3, b"do %0 @ Cons { head = %1; tail = %2 }\n", 4),
    (3, b"do\n", 0),
    (4, b"case 0\n", 0),
    (4, b"case 4294967296\n", 4),
    (4, b"case 0256\n", 4),
    (8, b"", 8),
    (9, b"do %0 @ Cons { tail = %258; head = %257 }\n", 9),
    (9, b"do %0 @ Cons { head = %257 }\n", 9),
    (9, b"do %0 @ Cons { head = %257;tail = %258 }\n", 9),
    (9, b"do %0 @ Nil {  }\n", 9),
    (9, b"do %0 @ Nil { head = %1 }\n", 9),
    (12, b"", 12),
    (14, b"fun show\n", 14),
    (14, b"", 14),
    (16, b"end\nfun show\n", 17),
];

/// A program with types of every kind, and a text with a step of every kind.
pub const STEPS: &[u8] = b"data mutable node = Node { v: int }
data mutable pool adopts node = Pool { n: int }
data shared = Shared { p: unknown; l: lock (p @ pool) }
sig start = () -> (r: unknown)
fun main : start = { () }
";

pub const STEPS_SCRIPT: &[u8] = b"%derivation 1
fun main
copy %0 @ lock (%1 @ pool * %2 = %3)
unfold %0 shared 256
clause %1 @ Pool { n = %2 } adopts node pool
meet %1 @ start %2 @ unknown
infield %1 @ Shared { p = %2; l = %3 } 0 to %3
inlock %0 @ lock (%1 @ dynamic) 0 to %4294967295
dynamic %1
unknown %2
fold %1 @ Node { v = %2 }
drop %1 @ locked
do
end
";

pub const STEPS_ROWS: [Row; 19] = [
    (3, b"copy %0 @ lock(%1 @ pool)\n", 3),
    (3, b"copy %0 @ lock (%1 @ pool * )\n", 3),
    (3, b"copy %0 @ lock ()\n", 3),
    (3, b"copy %0 = %1\n", 0),
    (3, b"copy %0 =  %1\n", 3),
    (4, b"unfold %0 other 256\n", 4),
    (4, b"unfold %0 start 256\n", 4),
    (4, b"unfold %0 shared\n", 4),
    (4, b"unfold %0 shared 0256\n", 4),
    (5, b"clause %1 @ Pool { n = %2 } pool\n", 0),
    (5, b"clause %1 @ Pool { n = %2 } adopts node\n", 5),
    (6, b"meet %1 @ start\n", 6),
    (7, b"infield %1 @ Shared { p = %2; l = %3 } to %3\n", 7),
    (7, b"infield %1 @ Shared { l = %3; p = %2 } 0 to %3\n", 7),
    (8, b"inlock %0 @ lock (%1 @ dynamic) 0 %1\n", 8),
    (9, b"dynamic\n", 9),
    (10, b"unknown 2\n", 10),
    (11, b"fold\n", 11),
    (12, b"drop %1 @ locked %2\n", 12),
];
