//! Programs that want a permission, and the first that they want.

/// A name, a source, and what is answered to it.
pub(crate) const REFUSED: &[(&str, &str, &str)] = &[
    (
        "branch result without giving",
        "data mutable cell = Cell { v: int }
sig start = () -> (r: unknown)
sig pick = (n: int) -> (c: cell)
fun choose : pick = {
  if n == 0 then { Cell { v = 1 } } else { Cell { v = n } }
}
fun main : start = { () }",
        "refused: 6:1: no permission: %6 @ cell",
    ),
    (
        "consumed cell",
        "data mutable cell = Cell { v: int }
sig start = () -> (r: unknown)
sig eat = (consumes c: cell) -> (r: unknown)
fun forget : eat = { () }
fun main : start = {
  let c = Cell { v = 1 };
  forget(c);
  print c.v
}",
        "refused: 8:11: no permission: c @ cell",
    ),
    (
        "lock released twice",
        "data mutable cell = Cell { v: int }
data shared = Shared { c: unknown; l: lock (c @ cell) }
sig start = () -> (r: unknown)
sig work = (s: shared) -> (r: unknown)
fun add : work = {
  let l = s.l;
  acquire l;
  let c = s.c;
  c.v <- c.v + 1;
  print c.v;
  release l;
  release l
}
fun main : start = {
  let c = Cell { v = 0 };
  let l = newlock (c @ cell);
  let s = Shared { c = c; l = l };
  spawn add(s);
  spawn add(s)
}",
        "refused: 12:3: no permission: %256 @ cell",
    ),
    (
        "node given twice",
        "data mutable node = Node { v: int; next: dynamic }
data mutable pool adopts node = Pool { head: dynamic }
sig start = () -> (r: unknown)
fun main : start = {
  let a = Node { v = 1; next = () };
  let b = Node { v = 2; next = a };
  a.next <- b;
  let p = Pool { head = a };
  give a to p;
  give b to p;
  give b to p;
  let h = p.head;
  take h from p;
  h.v <- h.v + 10;
  print h.v;
  let n = h.next;
  take n from p;
  print n.v
}",
        "refused: 11:3: no permission: b @ node",
    ),
    (
        "one cell for two parameters",
        "data mutable cell = Cell { v: int }
sig start = () -> (r: unknown)
sig two = (a: cell, b: cell) -> (r: unknown)
fun both : two = { () }
fun main : start = {
  let c = Cell { v = 1 };
  both(c, c)
}",
        "refused: 7:3: no permission: c @ cell",
    ),
    (
        "write to a frozen block",
        "data mutable raw = Raw { head: int; tail: unknown }
data list = Nil { } | Cons { head: int; tail: list }
sig start = () -> (r: unknown)
sig look = (x: list) -> (r: unknown)
fun show : look = {
  match x { Nil -> { () } Cons -> { print x.Cons.head } }
}
fun main : start = {
  let n = Nil { };
  let x = Raw { head = 7; tail = () };
  x.Raw.tail <- n;
  retag x from Raw to Cons;
  x.Raw.head <- 1;
  spawn show(x)
}",
        "refused: 13:14: no permission: x @ raw",
    ),
    (
        "arithmetic of a block",
        "data mutable cell = Cell { v: int }
sig start = () -> (r: unknown)
fun main : start = {
  let c = Cell { v = 1 };
  print c + 1
}",
        "refused: 5:11: no permission: c @ int",
    ),
    (
        "a print of a block",
        "data mutable cell = Cell { v: int }
sig start = () -> (r: unknown)
fun main : start = {
  let c = Cell { v = 1 };
  print c
}",
        "refused: 5:3: no permission: c @ int",
    ),
    (
        "a test of a block",
        "data mutable cell = Cell { v: int }
sig start = () -> (r: unknown)
fun main : start = {
  let c = Cell { v = 1 };
  if c then { () } else { () }
}",
        "refused: 5:3: no permission: c @ int",
    ),
    (
        "a read of a number",
        "data mutable cell = Cell { v: int }
sig start = () -> (r: unknown)
fun main : start = {
  let n = 1;
  print n.v
}",
        "refused: 5:11: no permission: n @ cell",
    ),
    (
        "a write to a number",
        "data mutable cell = Cell { v: int }
sig start = () -> (r: unknown)
fun main : start = {
  let n = 1;
  n.v <- 2
}",
        "refused: 5:7: no permission: n @ cell",
    ),
    (
        "a change of a number's tag",
        "data mutable cell = Cell { v: int } | Full { w: int }
sig start = () -> (r: unknown)
fun main : start = {
  let n = 1;
  retag n from Cell to Full
}",
        "refused: 5:3: no permission: n @ cell",
    ),
    (
        "a match of a number",
        "data list = Nil { } | Cons { head: int; tail: list }
sig start = () -> (r: unknown)
fun main : start = {
  let n = 1;
  match n { Nil -> { () } Cons -> { () } }
}",
        "refused: 5:3: no permission: n @ list",
    ),
    (
        "a call of a number",
        "sig start = () -> (r: unknown)
fun main : start = {
  let n = 1;
  n()
}",
        "refused: 4:3: no permission: n @ unknown",
    ),
    (
        "a number is spawned",
        "sig start = () -> (r: unknown)
fun main : start = {
  let n = 1;
  spawn n(n)
}",
        "refused: 4:3: no permission: n @ unknown",
    ),
    (
        "a block is given to a number",
        "data mutable cell = Cell { v: int }
sig start = () -> (r: unknown)
fun main : start = {
  let c = Cell { v = 1 };
  let n = 1;
  give c to n
}",
        "refused: 6:3: no permission: n @ unknown",
    ),
    (
        "a block is taken from a number",
        "data mutable cell = Cell { v: int }
sig start = () -> (r: unknown)
fun main : start = {
  let c = Cell { v = 1 };
  let n = 1;
  take c from n
}",
        "refused: 6:3: no permission: n @ unknown",
    ),
    (
        "a number is taken",
        "data mutable cell = Cell { v: int }
data mutable pool adopts cell = Pool { size: int }
sig start = () -> (r: unknown)
fun main : start = {
  let n = 1;
  let p = Pool { size = 0 };
  take n from p
}",
        "refused: 7:3: no permission: n @ dynamic",
    ),
    (
        "a lock guards what isn't held",
        "data mutable cell = Cell { v: int }
sig start = () -> (r: unknown)
fun main : start = {
  let n = 1;
  let l = newlock (n @ cell)
}",
        "refused: 5:11: no permission: n @ cell",
    ),
    (
        "a number is acquired",
        "sig start = () -> (r: unknown)
fun main : start = {
  let n = 1;
  acquire n
}",
        "refused: 4:3: no permission: n @ unknown",
    ),
    (
        "a number is released",
        "sig start = () -> (r: unknown)
fun main : start = {
  let n = 1;
  release n
}",
        "refused: 4:3: no permission: n @ unknown",
    ),
    (
        "what a lock guards isn't held at its release",
        "data mutable cell = Cell { v: int }
sig start = () -> (r: unknown)
fun main : start = {
  let c = Cell { v = 1 };
  let l = newlock (c @ cell);
  release l
}",
        "refused: 6:3: no permission: c @ cell",
    ),
    (
        "a lock is released that isn't held",
        "sig start = () -> (r: unknown)
fun main : start = {
  let n = 1;
  let l = newlock (n @ int);
  release l
}",
        "refused: 5:3: no permission: l @ locked",
    ),
    (
        "the second branch lacks what is given",
        "data mutable cell = Cell { v: int }
sig start = () -> (r: unknown)
fun main : start = {
  let n = 1;
  if n then { Cell { v = 1 } }
  else { n } giving result @ cell
}",
        "refused: 6:12: no permission: n @ cell",
    ),
    (
        "the first branch lacks what is given",
        "data mutable cell = Cell { v: int }
sig start = () -> (r: unknown)
fun main : start = {
  let n = 1;
  if n then { n }
  else { Cell { v = 1 } } giving result @ cell
}",
        "refused: 5:17: no permission: n @ cell",
    ),
    (
        "a function lacks its result",
        "data mutable cell = Cell { v: int }
sig start = () -> (r: unknown)
sig make = (n: int) -> (c: cell)
fun forget : make = {
  n
}
fun main : start = { () }",
        "refused: 6:1: no permission: n @ cell",
    ),
];
