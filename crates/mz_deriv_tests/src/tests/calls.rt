//! Calls, threads, and what is frozen.
use crate::tests::declared::{A_RAW, BUMP, CELL, CONS, EAT, LIST, LOOK, MAKE, NIL};
use crate::tests::form::{Held, Line, Source, Step, Table, Want};

const CALLS: &str = "fun main : start = {
  let c = make(1);
  bump(c);
  eat(c)
}
";

const THE_CELL: Held = Held::Named(2, CELL);

const DROPPED: Line = Line::See(Step::Drop(THE_CELL));

const CALLS_SCRIPT: &[Line] = &[
    Line::Do,
    Line::Do,
    Line::Uses(Held::Function(0, MAKE)),
    Line::Do,
    Line::Uses(Held::Function(3, BUMP)),
    Line::Do,
    Line::Uses(Held::Function(5, EAT)),
];

const CALLS_ROWS: &[Line] = &[
    Line::Row("a cell is made, lent and consumed", 0, 0, Want::Passes),
    Line::Row("a call names no permission", 2, 3, Want::Command(4, 11)),
    Line::Do,
    Line::Row("a call names another function", 4, 5, Want::Command(5, 3)),
    Line::Uses(Held::Function(0, MAKE)),
    Line::Row("a call names another signature", 4, 5, Want::Command(5, 3)),
    Line::Uses(Held::Function(3, EAT)),
    Line::Row("the argument was dropped", 4, 4, Want::Command(5, 3)),
    DROPPED,
    Line::Row("what is lent comes back once", 5, 5, Want::Step(6, 3, 2)),
    DROPPED,
    DROPPED,
    Line::Row(
        "what is consumed doesn't come back",
        7,
        7,
        Want::Step(7, 1, 1),
    ),
    DROPPED,
];

const FROZEN: &str = "fun main : start = {
  let n = Nil { };
  let x = Raw { head = 7; tail = () };
  x.Raw.tail <- n;
  retag x from Raw to Cons;
  spawn look(x);
  spawn look(x)
}
";

const THE_NIL: Held = Held::Empty(0, NIL);

const BEFORE: Held = Held::Pair(3, A_RAW, 1, 2);

const CHANGED: Held = Held::Pair(3, A_RAW, 1, 0);

const LINKED: Held = Held::Pair(3, CONS, 1, 0);

const FROZEN_SCRIPT: &[Line] = &[
    Line::Do,
    Line::Do,
    Line::Do,
    Line::Do,
    Line::Uses(BEFORE),
    Line::Uses(CHANGED),
    Line::See(Step::Fold(THE_NIL)),
    Line::See(Step::Fold(LINKED)),
    Line::Do,
    Line::Uses(Held::Function(6, LOOK)),
    Line::Do,
    Line::Uses(Held::Function(8, LOOK)),
];

const FROZEN_ROWS: &[Line] = &[
    Line::Row(
        "a frozen block is shared by two threads",
        0,
        0,
        Want::Passes,
    ),
    Line::Row("the block was changed before", 5, 6, Want::Command(7, 3)),
    Line::Uses(BEFORE),
    Line::Row("a mutable block isn't copied", 5, 5, Want::Step(7, 3, 1)),
    Line::See(Step::Copy(CHANGED)),
    Line::Row("the tail is no list yet", 6, 7, Want::Step(8, 9, 1)),
    Line::Row("the block is no list yet", 7, 8, Want::Command(8, 3)),
    Line::Row("a copy of a frozen block meets it", 7, 7, Want::Passes),
    Line::See(Step::Copy(LINKED)),
    Line::See(Step::Meet(LINKED, LINKED)),
    Line::See(Step::Field(LINKED, 1, 0)),
    Line::Row(
        "a field is exchanged without an equation",
        7,
        7,
        Want::Step(8, 9, 2),
    ),
    Line::See(Step::Field(LINKED, 1, 0)),
    Line::Row(
        "a thread starts by another signature",
        9,
        10,
        Want::Command(8, 3),
    ),
    Line::Uses(Held::Function(6, EAT)),
    Line::Row("the list was dropped", 10, 10, Want::Command(9, 3)),
    Line::See(Step::Drop(Held::Named(3, LIST))),
];

const THREAD: &str = "fun main : start = {
  let c = make(1);
  spawn eat(c)
}
";

const THREAD_SCRIPT: &[Line] = &[
    Line::Do,
    Line::Do,
    Line::Uses(Held::Function(0, MAKE)),
    Line::Do,
    Line::Uses(Held::Function(3, EAT)),
];

const THREAD_ROWS: &[Line] = &[
    Line::Row("a thread gets a cell", 0, 0, Want::Passes),
    Line::Row("the cell is the thread's", 5, 5, Want::Step(6, 1, 1)),
    DROPPED,
    Line::Row("the cell is held no more", 4, 4, Want::Command(5, 3)),
    DROPPED,
];

pub(crate) fn calls() -> Table {
    (Source::Main(CALLS), CALLS_SCRIPT, CALLS_ROWS)
}

pub(crate) fn frozen() -> Table {
    (Source::Main(FROZEN), FROZEN_SCRIPT, FROZEN_ROWS)
}

pub(crate) fn thread() -> Table {
    (Source::Main(THREAD), THREAD_SCRIPT, THREAD_ROWS)
}
