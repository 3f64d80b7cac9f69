//! Programs that the guided rules lead through.

/// A name, a source, and what is answered to it.
pub(crate) const ACCEPTED: &[(&str, &str, &str)] = &[
    (
        "acquire twice",
        "data mutable cell = Cell { v: int }
sig start = () -> (r: unknown)
fun main : start = {
  let c = Cell { v = 0 };
  let l = newlock (c @ cell);
  acquire l;
  acquire l
}",
        "accepted",
    ),
    (
        "addition past the largest number",
        "data mutable cell = Cell { v: int }
sig start = () -> (r: unknown)
fun main : start = {
  print 18446744073709551615;
  print 18446744073709551615 + 1
}",
        "accepted",
    ),
    (
        "adopted cycle",
        "data mutable node = Node { v: int; next: dynamic }
data mutable pool adopts node = Pool { head: dynamic }
sig start = () -> (r: unknown)
fun main : start = {
  let a = Node { v = 1; next = () };
  let b = Node { v = 2; next = a };
  a.next <- b;
  let p = Pool { head = a };
  give a to p;
  give b to p;
  let h = p.head;
  take h from p;
  h.v <- h.v + 10;
  print h.v;
  let n = h.next;
  take n from p;
  print n.v
}",
        "accepted",
    ),
    (
        "all options in order",
        "data mutable cell = Cell { v: int }
sig start = () -> (r: unknown)
fun main : start = {
  let c = Cell { v = 41 };
  c.v <- c.v + 1;
  print c.v
}",
        "accepted",
    ),
    (
        "arithmetic table",
        "sig start = () -> (r: unknown)
fun main : start = {
  print 7 + 2;
  print 7 - 2;
  print 7 * 2;
  print 7 / 2;
  print 7 % 2;
  print 7 == 7;
  print 7 != 7;
  print 2 < 7;
  print 7 <= 2;
  print 7 > 2;
  print 2 >= 7;
  print 10 - 2 - 3;
  print 2 + 3 * 4;
  print (2 + 3) * 4
}",
        "accepted",
    ),
    (
        "branch result with giving",
        "data mutable cell = Cell { v: int }
sig start = () -> (r: unknown)
sig pick = (n: int) -> (c: cell)
fun choose : pick = {
  if n == 0 then { Cell { v = 1 } } else { Cell { v = n } } giving result @ cell
}
fun main : start = { () }",
        "accepted",
    ),
    (
        "default steps are spent",
        "sig start = () -> (r: unknown)
sig count = (n: int) -> (r: unknown)
fun spin : count = { spin(n) }
fun main : start = { spin(0) }",
        "accepted",
    ),
    (
        "derived script of a match is verified",
        "data mutable raw = Raw { head: int; tail: unknown }
data list = Nil { } | Cons { head: int; tail: list }
sig start = () -> (r: unknown)
sig look = (x: list) -> (r: unknown)
fun show : look = {
  match x { Nil -> { () } Cons -> { print x.Cons.head } }
}
fun main : start = {
  let n = Nil { };
  let x = Raw { head = 7; tail = () };
  x.Raw.tail <- n;
  retag x from Raw to Cons;
  show(x);
  show(x)
}",
        "accepted",
    ),
    (
        "derived script of the frozen list is verified",
        "data mutable raw = Raw { head: int; tail: unknown }
data list = Nil { } | Cons { head: int; tail: list }
sig start = () -> (r: unknown)
sig look = (x: list) -> (r: unknown)
fun show : look = {
  match x { Nil -> { () } Cons -> { print x.Cons.head } }
}
fun main : start = {
  let n = Nil { };
  let x = Raw { head = 7; tail = () };
  x.Raw.tail <- n;
  retag x from Raw to Cons;
  spawn show(x);
  spawn show(x)
}",
        "accepted",
    ),
    (
        "derived script of the generated program is verified",
        "data mutable node = Node { v: int; next: dynamic }
data mutable pool adopts node = Pool { head: dynamic; sum: int }
data shared = Shared { p: unknown; l: lock (p @ pool) }
sig start = () -> (r: unknown)
sig fill = (n: int, p: pool) -> (r: unknown)
sig work = (s: shared) -> (r: unknown)
sig launch = (n: int, s: shared) -> (r: unknown)
fun add : fill = {
  if n == 0 then { () } else {
    let x = Node { v = n; next = p.head };
    p.head <- x;
    give x to p;
    add(n - 1, p)
  }
}
fun pop : work = {
  let l = s.l;
  acquire l;
  let p = s.p;
  let x = p.head;
  take x from p;
  x.v <- x.v * 2;
  p.sum <- p.sum + x.v;
  p.head <- x.next;
  give x to p;
  print p.sum;
  release l
}
fun go : launch = {
  if n == 0 then { () } else {
    spawn pop(s);
    go(n - 1, s)
  }
}
fun main : start = {
  let z = Node { v = 0; next = () };
  z.next <- z;
  let p = Pool { head = z; sum = 0 };
  give z to p;
  add(8, p);
  let l = newlock (p @ pool);
  let s = Shared { p = p; l = l };
  go(8, s)
}",
        "accepted",
    ),
    (
        "derived script of the locked cell is verified",
        "data mutable cell = Cell { v: int }
data shared = Shared { c: unknown; l: lock (c @ cell) }
sig start = () -> (r: unknown)
sig work = (s: shared) -> (r: unknown)
fun add : work = {
  let l = s.l;
  acquire l;
  let c = s.c;
  c.v <- c.v + 1;
  print c.v;
  release l
}
fun main : start = {
  let c = Cell { v = 0 };
  let l = newlock (c @ cell);
  let s = Shared { c = c; l = l };
  spawn add(s);
  spawn add(s)
}",
        "accepted",
    ),
    (
        "difference below zero",
        "sig start = () -> (r: unknown)
fun main : start = {
  print 5;
  print 2 - 3
}",
        "accepted",
    ),
    (
        "division by zero",
        "sig start = () -> (r: unknown)
fun main : start = { print 1 / 0 }",
        "accepted",
    ),
    (
        "empty main prints nothing",
        "data mutable cell = Cell { v: int }
sig start = () -> (r: unknown)
fun main : start = { }",
        "accepted",
    ),
    (
        "endless growth",
        "data mutable cell = Cell { v: int }
sig start = () -> (r: unknown)
sig count = (n: int) -> (r: unknown)
fun grow : count = {
  let c = Cell { v = n };
  grow(n)
}
fun main : start = { grow(0) }",
        "accepted",
    ),
    (
        "generated program of size two",
        "data mutable node = Node { v: int; next: dynamic }
data mutable pool adopts node = Pool { head: dynamic; sum: int }
data shared = Shared { p: unknown; l: lock (p @ pool) }
sig start = () -> (r: unknown)
sig fill = (n: int, p: pool) -> (r: unknown)
sig work = (s: shared) -> (r: unknown)
sig launch = (n: int, s: shared) -> (r: unknown)
fun add : fill = {
  if n == 0 then { () } else {
    let x = Node { v = n; next = p.head };
    p.head <- x;
    give x to p;
    add(n - 1, p)
  }
}
fun pop : work = {
  let l = s.l;
  acquire l;
  let p = s.p;
  let x = p.head;
  take x from p;
  x.v <- x.v * 2;
  p.sum <- p.sum + x.v;
  p.head <- x.next;
  give x to p;
  print p.sum;
  release l
}
fun go : launch = {
  if n == 0 then { () } else {
    spawn pop(s);
    go(n - 1, s)
  }
}
fun main : start = {
  let z = Node { v = 0; next = () };
  z.next <- z;
  let p = Pool { head = z; sum = 0 };
  give z to p;
  add(2, p);
  let l = newlock (p @ pool);
  let s = Shared { p = p; l = l };
  go(2, s)
}",
        "accepted",
    ),
    (
        "just enough threads",
        "sig start = () -> (r: unknown)
sig count = (n: int) -> (r: unknown)
fun idle : count = { () }
fun go : count = {
  if n == 0 then { () } else {
    spawn idle(n);
    go(n - 1)
  }
}
fun main : start = { go(63) }",
        "accepted",
    ),
    (
        "known tag",
        "data mutable raw = Raw { head: int; tail: unknown }
data list = Nil { } | Cons { head: int; tail: list }
sig start = () -> (r: unknown)
sig look = (x: list) -> (r: unknown)
fun show : look = {
  match x { Nil -> { () } Cons -> { print x.Cons.head } }
}
fun main : start = {
  let n = Nil { };
  match n { Nil -> { print 1 } Cons -> { print n } }
}",
        "accepted",
    ),
    (
        "largest generated program",
        "data mutable node = Node { v: int; next: dynamic }
data mutable pool adopts node = Pool { head: dynamic; sum: int }
data shared = Shared { p: unknown; l: lock (p @ pool) }
sig start = () -> (r: unknown)
sig fill = (n: int, p: pool) -> (r: unknown)
sig work = (s: shared) -> (r: unknown)
sig launch = (n: int, s: shared) -> (r: unknown)
fun add : fill = {
  if n == 0 then { () } else {
    let x = Node { v = n; next = p.head };
    p.head <- x;
    give x to p;
    add(n - 1, p)
  }
}
fun pop : work = {
  let l = s.l;
  acquire l;
  let p = s.p;
  let x = p.head;
  take x from p;
  x.v <- x.v * 2;
  p.sum <- p.sum + x.v;
  p.head <- x.next;
  give x to p;
  print p.sum;
  release l
}
fun go : launch = {
  if n == 0 then { () } else {
    spawn pop(s);
    go(n - 1, s)
  }
}
fun main : start = {
  let z = Node { v = 0; next = () };
  z.next <- z;
  let p = Pool { head = z; sum = 0 };
  give z to p;
  add(60, p);
  let l = newlock (p @ pool);
  let s = Shared { p = p; l = l };
  go(60, s)
}",
        "accepted",
    ),
    (
        "largest number",
        "sig start = () -> (r: unknown)
fun main : start = { print 18446744073709551615 }",
        "accepted",
    ),
    (
        "largest sum is printed",
        "data mutable cell = Cell { v: int }
sig start = () -> (r: unknown)
fun main : start = {
  print 18446744073709551614 + 1
}",
        "accepted",
    ),
    (
        "leading zeros are lawful",
        "data mutable cell = Cell { v: int }
sig start = () -> (r: unknown)
fun main : start = {
  let c = Cell { v = 00000000000000000000000041 };
  c.v <- c.v + 1;
  print c.v
}",
        "accepted",
    ),
    (
        "name of 64 letters",
        "data mutable cell = Cell { v: int }
sig start = () -> (r: unknown)
fun main : start = {
  let cccccccccccccccccccccccccccccccccccccccccccccccccccccccccccccccc = Cell { v = 41 };
  cccccccccccccccccccccccccccccccccccccccccccccccccccccccccccccccc.v <- cccccccccccccccccccccccccccccccccccccccccccccccccccccccccccccccc.v + 1;
  print cccccccccccccccccccccccccccccccccccccccccccccccccccccccccccccccc.v
}",
        "accepted",
    ),
    (
        "second take fails",
        "data mutable node = Node { v: int; next: dynamic }
data mutable pool adopts node = Pool { head: dynamic }
sig start = () -> (r: unknown)
fun main : start = {
  let a = Node { v = 1; next = () };
  let b = Node { v = 2; next = a };
  a.next <- b;
  let p = Pool { head = a };
  give a to p;
  give b to p;
  let h = p.head;
  take h from p;
  h.v <- h.v + 10;
  print h.v;
  let n = h.next;
  take h from p;
  ()
}",
        "accepted",
    ),
    (
        "take from another pool fails",
        "data mutable node = Node { v: int }
data mutable pool adopts node = Pool { n: int }
sig start = () -> (r: unknown)
fun main : start = {
  let x = Node { v = 5 };
  let p = Pool { n = 0 };
  let q = Pool { n = 0 };
  give x to q;
  take x from p;
  print x.v
}",
        "accepted",
    ),
    (
        "too many threads",
        "sig start = () -> (r: unknown)
sig count = (n: int) -> (r: unknown)
fun idle : count = { () }
fun go : count = {
  if n == 0 then { () } else {
    spawn idle(n);
    go(n - 1)
  }
}
fun main : start = { go(64) }",
        "accepted",
    ),
    (
        "two cells are apart",
        "data mutable cell = Cell { v: int }
sig start = () -> (r: unknown)
fun main : start = {
  let c = Cell { v = 1 + 1 };
  let d = Cell { v = c.v + 3 };
  c.v <- d.v + c.v;
  print c.v;
  print d.v
}",
        "accepted",
    ),
    (
        "two hundred open brackets",
        "sig start = () -> (r: unknown)
fun main : start = { print (((((((((((((((((((((((((((((((((((((((((((((((((((((((((((((((((((((((((((((((((((((((((((((((((((((((((((((((((((((((((((((((((((((((((((((((((((((((((((((((((((((((((((((((((((((((((((((((((((((((1))))))))))))))))))))))))))))))))))))))))))))))))))))))))))))))))))))))))))))))))))))))))))))))))))))))))))))))))))))))))))))))))))))))))))))))))))))))))))))))))))))))))))))))))))))))))))))))))))))))) }",
        "accepted",
    ),
];
