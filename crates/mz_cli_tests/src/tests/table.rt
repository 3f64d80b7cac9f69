//! The tables of tests: what is called, and what is wanted of it.
use mz_cli::Status;

/// The source of one cell.
pub(super) const ONE_CELL: &[u8] = b"data mutable cell = Cell { v: int }
sig start = () -> (r: unknown)
fun main : start = {
  let c = Cell { v = 41 };
  c.v <- c.v + 1;
  print c.v
}";

/// A sum past the largest number.
pub(super) const PAST_THE_LARGEST: &[u8] = b"data mutable cell = Cell { v: int }
sig start = () -> (r: unknown)
fun main : start = {
  print 18446744073709551615;
  print 18446744073709551615 + 1
}";

/// The usage line.
pub(super) const USAGE_LINE: &[u8] =
    b"usage: mezzo MODE [--heap N] [--steps N] [--tries N] [--workers N] [--quantum N] [--size N]\n";

/// One call: the source's bytes, the mode, the most bytes of a read and of a write, the read and the write that fail (from
/// 1, or none at 0), and what is wanted of it.
pub(super) struct Call {
    pub name: &'static str,
    pub bytes: &'static [u8],
    pub mode: &'static str,
    pub most: (usize, usize),
    pub failing: (u64, u64),
    pub status: Status,
    pub written: &'static [u8],
}

/// Calls with what they answer and write.
pub(super) const CALLS: [Call; 14] = [
    Call {
        name: "one cell",
        bytes: ONE_CELL,
        mode: "sched",
        most: (99, 99),
        failing: (0, 0),
        status: Status::Done,
        written: b"42\n",
    },
    Call {
        name: "one byte at a read",
        bytes: ONE_CELL,
        mode: "sched",
        most: (1, 1),
        failing: (0, 0),
        status: Status::Done,
        written: b"42\n",
    },
    Call {
        name: "the first read fails",
        bytes: ONE_CELL,
        mode: "sched",
        most: (1, 99),
        failing: (1, 0),
        status: Status::ReadFault,
        written: b"",
    },
    Call {
        name: "the read after the last byte fails",
        bytes: ONE_CELL,
        mode: "sched",
        most: (1, 99),
        failing: (147, 0),
        status: Status::ReadFault,
        written: b"",
    },
    Call {
        name: "the third read fails",
        bytes: ONE_CELL,
        mode: "sched",
        most: (10, 99),
        failing: (3, 0),
        status: Status::ReadFault,
        written: b"",
    },
    Call {
        name: "past the largest number",
        bytes: PAST_THE_LARGEST,
        mode: "sched",
        most: (99, 99),
        failing: (0, 0),
        status: Status::Stopped,
        written: b"18446744073709551615\nstopped: thread 0: arithmetic at 5:30\n",
    },
    Call {
        name: "the first write fails",
        bytes: PAST_THE_LARGEST,
        mode: "sched",
        most: (99, 99),
        failing: (0, 1),
        status: Status::WriteFault,
        written: b"",
    },
    Call {
        name: "the fifth write fails",
        bytes: PAST_THE_LARGEST,
        mode: "sched",
        most: (99, 1),
        failing: (0, 5),
        status: Status::WriteFault,
        written: b"1844",
    },
    Call {
        name: "no byte",
        bytes: b"",
        mode: "sched",
        most: (99, 99),
        failing: (0, 0),
        status: Status::Refused,
        written: b"refused: 1:1: no main\n",
    },
    Call {
        name: "a comment",
        bytes: b"data mutable cell = Cell { v: int } // a cell
sig start = () -> (r: unknown)
fun main : start = { }",
        mode: "sched",
        most: (99, 99),
        failing: (0, 0),
        status: Status::Done,
        written: b"",
    },
    Call {
        name: "an empty body",
        bytes: b"data mutable cell = Cell { v: int }
sig start = () -> (r: unknown)
fun main : start = { }",
        mode: "sched",
        most: (99, 99),
        failing: (0, 0),
        status: Status::Done,
        written: b"",
    },
    Call {
        name: "a body that ends with a semicolon",
        bytes: b"data mutable cell = Cell { v: int } sig start = () -> (r: unknown) fun main : start = { let c = Cell { v = 20 + 1 }; c.v <- c.v + c.v; print c.v; }",
        mode: "sched",
        most: (99, 99),
        failing: (0, 0),
        status: Status::Done,
        written: b"42\n",
    },
    Call {
        name: "another mode",
        bytes: ONE_CELL,
        mode: "frob",
        most: (99, 99),
        failing: (1, 0),
        status: Status::Usage,
        written: USAGE_LINE,
    },
    Call {
        name: "a mode that hasn't come",
        bytes: ONE_CELL,
        mode: "run",
        most: (99, 99),
        failing: (1, 0),
        status: Status::Usage,
        written: USAGE_LINE,
    },
];

/// A source and the line for which it is refused.
pub(super) struct Refused {
    pub name: &'static str,
    pub bytes: &'static [u8],
    pub line: &'static [u8],
}

/// Sources that are refused.
pub(super) const REFUSALS: [Refused; 27] = [
    Refused {
        name: "no function",
        bytes: b"",
        line: b"refused: 1:1: no main\n",
    },
    Refused {
        name: "a number past the largest",
        bytes: b"sig start = () -> (r: unknown)
fun main : start = { print 18446744073709551616 }",
        line: b"refused: 2:28: bad number\n",
    },
    Refused {
        name: "a byte of no token",
        bytes: b"data mutable cell = Cell { v: int }
sig start = () -> (r: unknown)
fun main : start = {
  let c = Cell { v = 41 };
  c.v <- c.v + 1;
  print c.v ?
}",
        line: b"refused: 6:13: bad byte\n",
    },
    Refused {
        name: "a name of 65 letters",
        bytes: b"sig start = () -> (r: unknown)
fun ccccccccccccccccccccccccccccccccccccccccccccccccccccccccccccccccc : start = { }",
        line: b"refused: 2:5: name too long\n",
    },
    Refused {
        name: "a mark is missing",
        bytes: b"data mutable cell = Cell { v: int }
sig start = () -> (r: unknown)
fun main start = { }",
        line: b"refused: 3:10: unexpected\n",
    },
    Refused {
        name: "the end comes too early",
        bytes: b"data mutable cell = Cell { v: int }
sig start = () -> (r: unknown)
fun main : start = {
",
        line: b"refused: 4:1: unexpected\n",
    },
    Refused {
        name: "the 201st bracket",
        bytes: b"sig start = () -> (r: unknown)
fun main : start = { print ((((((((((((((((((((((((((((((((((((((((((((((((((((((((((((((((((((((((((((((((((((((((((((((((((((((((((((((((((((((((((((((((((((((((((((((((((((((((((((((((((((((((((((((((((((((((((((((((((((((((1)))))))))))))))))))))))))))))))))))))))))))))))))))))))))))))))))))))))))))))))))))))))))))))))))))))))))))))))))))))))))))))))))))))))))))))))))))))))))))))))))))))))))))))))))))))))))))))))))))))))) }",
        line: b"refused: 2:227: too deep\n",
    },
    Refused {
        name: "a name that isn't bound",
        bytes: b"data mutable cell = Cell { v: int }
sig start = () -> (r: unknown)
fun main : start = { print d.v }",
        line: b"refused: 3:28: unknown name\n",
    },
    Refused {
        name: "a name bound twice",
        bytes: b"data mutable cell = Cell { v: int }
sig start = () -> (r: unknown)
fun main : start = {
  let c = Cell { v = 41 };
  let c = Cell { v = 2 };
  print c.v
}",
        line: b"refused: 5:7: declared twice\n",
    },
    Refused {
        name: "one name for a data type and a signature",
        bytes: b"data mutable cell = Cell { v: int } sig cell = () -> (r: unknown) fun main : cell = { }",
        line: b"refused: 1:41: declared twice\n",
    },
    Refused {
        name: "a field is left out",
        bytes: b"data mutable cell = Cell { v: int }
sig start = () -> (r: unknown)
fun main : start = {
  let c = Cell { };
  print c.v
}",
        line: b"refused: 4:11: wrong shape\n",
    },
    Refused {
        name: "a call with too few arguments",
        bytes: b"data mutable cell = Cell { v: int }
sig start = () -> (r: unknown)
sig two = (a: cell, b: cell) -> (r: unknown)
fun both : two = { () }
fun main : start = {
  let c = Cell { v = 1 };
  both(c)
}",
        line: b"refused: 7:3: wrong shape\n",
    },
    Refused {
        name: "a match without a case",
        bytes: b"data list = Nil { } | Cons { head: int; tail: list }
sig start = () -> (r: unknown)
sig look = (x: list) -> (r: unknown)
fun show : look = {
  match x { Cons -> { print x.Cons.head } }
}
fun main : start = { }",
        line: b"refused: 5:3: cases missing\n",
    },
    Refused {
        name: "33 fields",
        bytes: b"data wide = Wide { f0: int; f1: int; f2: int; f3: int; f4: int; f5: int; f6: int; f7: int; f8: int; f9: int; f10: int; f11: int; f12: int; f13: int; f14: int; f15: int; f16: int; f17: int; f18: int; f19: int; f20: int; f21: int; f22: int; f23: int; f24: int; f25: int; f26: int; f27: int; f28: int; f29: int; f30: int; f31: int; f32: int }
sig start = () -> (r: unknown)
fun main : start = { }",
        line: b"refused: 1:330: too many\n",
    },
    Refused {
        name: "an immutable adopter",
        bytes: b"data d adopts d = D { }
sig start = () -> (r: unknown)
fun main : start = { }",
        line: b"refused: 1:6: immutable adopter\n",
    },
    Refused {
        name: "an adopter of what is immutable",
        bytes: b"data list = Nil { } | Cons { head: int; tail: list }
data mutable e adopts list = E { }
sig start = () -> (r: unknown)
fun main : start = { }",
        line: b"refused: 2:14: not exclusive\n",
    },
    Refused {
        name: "what is immutable adopts, behind an adopter of it",
        bytes: b"data mutable e adopts d = E { }
data d adopts d = D { }
sig start = () -> (r: unknown)
fun main : start = { }",
        line: b"refused: 2:6: immutable adopter\n",
    },
    Refused {
        name: "an immutable block that adopts",
        bytes: b"data l = L { }
data mutable c = C { f: L { } adopts c }
sig start = () -> (r: unknown)
fun main : start = { }",
        line: b"refused: 2:38: immutable adopter\n",
    },
    Refused {
        name: "a block that adopts what is immutable",
        bytes: b"data l = L { }
data mutable c = C { f: C { f = f } adopts l }
sig start = () -> (r: unknown)
fun main : start = { }",
        line: b"refused: 2:44: not exclusive\n",
    },
    Refused {
        name: "names before declarations",
        bytes: b"data d adopts d = D { }
sig start = () -> (r: unknown)
fun main : start = { x }",
        line: b"refused: 3:22: unknown name\n",
    },
    Refused {
        name: "scope before the form",
        bytes: b"sig start = () -> (r: unknown)
fun main : start = { print x }",
        line: b"refused: 2:28: unknown name\n",
    },
    Refused {
        name: "brackets",
        bytes: b"data mutable cell = Cell { v: int }
sig start = () -> (r: unknown)
fun main : start = { print (1) }",
        line: b"refused: not built yet\n",
    },
    Refused {
        name: "a name that stands for a function",
        bytes: b"data mutable cell = Cell { v: int }
sig start = () -> (r: unknown)
fun main : start = { print main.v }",
        line: b"refused: not built yet\n",
    },
    Refused {
        name: "three parts of a sum",
        bytes: b"data mutable cell = Cell { v: int }
sig start = () -> (r: unknown)
fun main : start = { print 1 + 2 + 3 }",
        line: b"refused: not built yet\n",
    },
    Refused {
        name: "a case is missing in a whole program",
        bytes: b"data mutable raw = Raw { head: int; tail: unknown }
data list = Nil { } | Cons { head: int; tail: list }
sig start = () -> (r: unknown)
sig look = (x: list) -> (r: unknown)
fun show : look = {
  match x { Cons -> { print x.Cons.head } }
}
fun main : start = {
  let n = Nil { };
  let x = Raw { head = 7; tail = () };
  x.Raw.tail <- n;
  retag x from Raw to Cons;
  spawn show(x);
  spawn show(x)
}
",
        line: b"refused: 6:3: cases missing\n",
    },
    Refused {
        name: "what is adopted is immutable, in a whole program",
        bytes: b"data mutable raw = Raw { head: int; tail: unknown }
data list = Nil { } | Cons { head: int; tail: list }
data mutable e adopts list = E { }
sig start = () -> (r: unknown)
sig look = (x: list) -> (r: unknown)
fun show : look = {
  match x { Nil -> { () } Cons -> { print x.Cons.head } }
}
fun main : start = {
  let n = Nil { };
  let x = Raw { head = 7; tail = () };
  x.Raw.tail <- n;
  retag x from Raw to Cons;
  spawn show(x);
  spawn show(x)
}
",
        line: b"refused: 3:14: not exclusive\n",
    },
    Refused {
        name: "what adopts is immutable, in a whole program",
        bytes: b"data d adopts d = D { }
data mutable cell = Cell { v: int }
sig start = () -> (r: unknown)
fun main : start = {
  let c = Cell { v = 41 };
  c.v <- c.v + 1;
  print c.v
}",
        line: b"refused: 1:6: immutable adopter\n",
    },
];
