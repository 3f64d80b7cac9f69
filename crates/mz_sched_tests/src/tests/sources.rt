//! Sources, and for each a script that is a derivation of it.

/// A source and its script.
pub(crate) type Source = (&'static str, &'static str);

/// The source of a row.
pub(crate) fn source_of(name: &str) -> Option<Source> {
    match name {
        "cell" => Some((CELL, CELL_SCRIPT)),
        "grow" => Some((GROW, GROW_SCRIPT)),
        "spin" => Some((SPIN, SPIN_SCRIPT)),
        "sum" => Some((SUM, SUM_SCRIPT)),
        "quotient" => Some((QUOTIENT, QUOTIENT_SCRIPT)),
        "held" => Some((HELD, HELD_SCRIPT)),
        "cycle" => Some((CYCLE, CYCLE_SCRIPT)),
        "again" => Some((AGAIN, AGAIN_SCRIPT)),
        "pools" => Some((POOLS, POOLS_SCRIPT)),
        "printers" => Some((PRINTERS, PRINTERS_SCRIPT)),
        "locked" => Some((LOCKED, LOCKED_SCRIPT)),
        "many" => Some((MANY, MANY_SCRIPT)),
        "no script" => Some((CELL, "")),
        "another script" => Some((CELL, SUM_SCRIPT)),
        "no program" => Some(("fun main", CELL_SCRIPT)),
        _ => None,
    }
}

/// One cell, raised and printed.
const CELL: &str = "data mutable cell = Cell { v: int }
sig start = () -> (r: unknown)
fun main : start = {
  let c = Cell { v = 41 };
  c.v <- c.v + 1;
  print c.v
}";

const CELL_SCRIPT: &str = "%derivation 1
fun main
do
do
do %1 @ Cell { v = %0 }
do
equal %2 %0
rename %0 @ int to %2
do
do %1 @ Cell { v = %0 }
do %1 @ Cell { v = %4 }
equal %6 %4
rename %4 @ int to %6
do
end
";

/// New cells without end.
const GROW: &str = "data mutable cell = Cell { v: int }
sig start = () -> (r: unknown)
sig count = (n: int) -> (r: unknown)
fun grow : count = {
  let c = Cell { v = n };
  grow(n)
}
fun main : start = { grow(0) }";

const GROW_SCRIPT: &str = "%derivation 1
fun grow
do
do
do %2 @ count
end
fun main
do
do
do %0 @ count
end
";

/// Calls without end.
const SPIN: &str = "sig start = () -> (r: unknown)
sig count = (n: int) -> (r: unknown)
fun spin : count = { spin(n) }
fun main : start = { spin(0) }";

const SPIN_SCRIPT: &str = "%derivation 1
fun spin
do
do %1 @ count
end
fun main
do
do
do %0 @ count
end
";

/// The largest number, and one more.
const SUM: &str = "data mutable cell = Cell { v: int }
sig start = () -> (r: unknown)
fun main : start = {
  print 18446744073709551615;
  print 18446744073709551615 + 1
}";

const SUM_SCRIPT: &str = "%derivation 1
fun main
do
do
do
do
do
do
end
";

/// A division by zero.
const QUOTIENT: &str = "sig start = () -> (r: unknown)
fun main : start = { print 1 / 0 }";

const QUOTIENT_SCRIPT: &str = "%derivation 1
fun main
do
do
do
do
end
";

/// A lock that the thread itself holds for ever.
const HELD: &str = "data mutable cell = Cell { v: int }
sig start = () -> (r: unknown)
fun main : start = {
  let c = Cell { v = 0 };
  let l = newlock (c @ cell);
  acquire l;
  acquire l
}";

const HELD_SCRIPT: &str = "%derivation 1
fun main
do
do
fold %1 @ Cell { v = %0 }
do
do %2 @ lock (%1 @ cell)
do %2 @ lock (%1 @ cell)
end
";

/// Two nodes that point at each other are given and taken.
const CYCLE: &str = "data mutable node = Node { v: int; next: dynamic }
data mutable pool adopts node = Pool { head: dynamic }
sig start = () -> (r: unknown)
fun main : start = {
  let a = Node { v = 1; next = () };
  let b = Node { v = 2; next = a };
  a.next <- b;
  let p = Pool { head = a };
  give a to p;
  give b to p;
  let h = p.head;
  take h from p;
  h.v <- h.v + 10;
  print h.v;
  let n = h.next;
  take n from p;
  print n.v
}";

const CYCLE_SCRIPT: &str = "%derivation 1
fun main
do
do
do
do
do
do %2 @ Node { v = %0; next = %1 }
do
dynamic %2
dynamic %4
fold %2 @ Node { v = %0; next = %4 }
clause %6 @ Pool { head = %2 } node
do %6 @ Pool { head = %2 } adopts node
fold %4 @ Node { v = %3; next = %2 }
do %6 @ Pool { head = %2 } adopts node
do %6 @ Pool { head = %2 } adopts node
equal %9 %2
rename %2 @ dynamic to %9
do %6 @ Pool { head = %2 } adopts node
unfold %9 node 256
do %9 @ Node { v = %256; next = %257 }
do
equal %11 %256
rename %256 @ int to %11
do
do %9 @ Node { v = %256; next = %257 }
do %9 @ Node { v = %13; next = %257 }
equal %15 %13
rename %13 @ int to %15
do
do %9 @ Node { v = %13; next = %257 }
equal %17 %257
rename %257 @ dynamic to %17
do %6 @ Pool { head = %2 } adopts node
unfold %17 node 258
do %17 @ Node { v = %258; next = %259 }
equal %19 %258
rename %258 @ int to %19
do
end
";

/// The first node is taken again.
const AGAIN: &str = "data mutable node = Node { v: int; next: dynamic }
data mutable pool adopts node = Pool { head: dynamic }
sig start = () -> (r: unknown)
fun main : start = {
  let a = Node { v = 1; next = () };
  let b = Node { v = 2; next = a };
  a.next <- b;
  let p = Pool { head = a };
  give a to p;
  give b to p;
  let h = p.head;
  take h from p;
  h.v <- h.v + 10;
  print h.v;
  let n = h.next;
  take h from p;
  ()
}";

const AGAIN_SCRIPT: &str = "%derivation 1
fun main
do
do
do
do
do
do %2 @ Node { v = %0; next = %1 }
do
dynamic %2
dynamic %4
fold %2 @ Node { v = %0; next = %4 }
clause %6 @ Pool { head = %2 } node
do %6 @ Pool { head = %2 } adopts node
fold %4 @ Node { v = %3; next = %2 }
do %6 @ Pool { head = %2 } adopts node
do %6 @ Pool { head = %2 } adopts node
equal %9 %2
rename %2 @ dynamic to %9
do %6 @ Pool { head = %2 } adopts node
unfold %9 node 256
do %9 @ Node { v = %256; next = %257 }
do
equal %11 %256
rename %256 @ int to %11
do
do %9 @ Node { v = %256; next = %257 }
do %9 @ Node { v = %13; next = %257 }
equal %15 %13
rename %13 @ int to %15
do
do %9 @ Node { v = %13; next = %257 }
do %6 @ Pool { head = %2 } adopts node
do
end
";

/// A node is given to one pool and taken from another.
const POOLS: &str = "data mutable node = Node { v: int }
data mutable pool adopts node = Pool { n: int }
sig start = () -> (r: unknown)
fun main : start = {
  let x = Node { v = 5 };
  let p = Pool { n = 0 };
  let q = Pool { n = 0 };
  give x to q;
  take x from p;
  print x.v
}";

const POOLS_SCRIPT: &str = "%derivation 1
fun main
do
do
do
do
do
do
dynamic %1
fold %1 @ Node { v = %0 }
clause %5 @ Pool { n = %4 } node
do %5 @ Pool { n = %4 } adopts node
clause %3 @ Pool { n = %2 } node
do %3 @ Pool { n = %2 } adopts node
unfold %1 node 256
do %1 @ Node { v = %256 }
equal %8 %256
rename %256 @ int to %8
do
end
";

/// Two threads, each of which prints three numbers.
const PRINTERS: &str = "sig start = () -> (r: unknown)
sig count = (n: int) -> (r: unknown)
fun thrice : count = { print n; print n; print n }
fun main : start = {
  spawn thrice(7);
  print 1;
  print 2;
  print 3
}";

const PRINTERS_SCRIPT: &str = "%derivation 1
fun thrice
do
do
do
end
fun main
do
do
do %0 @ count
do
do
do
do
do
do
end
";

/// Two threads raise and print a cell that a lock guards.
const LOCKED: &str = "data mutable cell = Cell { v: int }
data shared = Shared { c: unknown; l: lock (c @ cell) }
sig start = () -> (r: unknown)
sig work = (s: shared) -> (r: unknown)
fun add : work = {
  let l = s.l;
  acquire l;
  let c = s.c;
  c.v <- c.v + 1;
  print c.v;
  release l
}
fun main : start = {
  let c = Cell { v = 0 };
  let l = newlock (c @ cell);
  let s = Shared { c = c; l = l };
  spawn add(s);
  spawn add(s)
}";

const LOCKED_SCRIPT: &str = "%derivation 1
fun add
unfold %0 shared 256
do %0 @ Shared { c = %256; l = %257 }
equal %1 %257
rename %257 @ lock (%256 @ cell) to %1
do %1 @ lock (%256 @ cell)
do %0 @ Shared { c = %256; l = %257 }
equal %3 %256
rename %256 @ cell to %3
unfold %3 cell 258
do %3 @ Cell { v = %258 }
do
equal %4 %258
rename %258 @ int to %4
do
do %3 @ Cell { v = %258 }
do %3 @ Cell { v = %6 }
equal %8 %6
rename %6 @ int to %8
do
fold %3 @ Cell { v = %6 }
rename %3 @ cell to %256
do %1 @ lock (%256 @ cell)
end
fun main
do
do
fold %1 @ Cell { v = %0 }
do
do
unknown %1
fold %3 @ Shared { c = %1; l = %2 }
do
do %4 @ work
do
do %6 @ work
end
";

/// One thread more than there may be.
const MANY: &str = "sig start = () -> (r: unknown)
sig count = (n: int) -> (r: unknown)
fun idle : count = { () }
fun go : count = {
  if n == 0 then { () } else {
    spawn idle(n);
    go(n - 1)
  }
}
fun main : start = { go(64) }";

const MANY_SCRIPT: &str = "%derivation 1
fun idle
do
end
fun go
do
do
do
case 0
do
end
case 0
do
do %4 @ count
do
do
do
do %6 @ count
end
join %0 @ int * %10 @ unknown
end
fun main
do
do
do %0 @ count
end
";
