//! A lock, and the threads that share it.
use crate::tests::form::{Held, Line, Source, Step, Table, Want};

const LOCKED: &str = "data mutable cell = Cell { v: int }
data shared = Shared { c: unknown; l: lock (c @ cell) }
sig start = () -> (r: unknown)
sig work = (s: shared) -> (r: unknown)
fun add : work = {
  let l = s.l;
  acquire l;
  let c = s.c;
  c.v <- c.v + 1;
  print c.v;
  release l
}
fun main : start = {
  let c = Cell { v = 0 };
  let l = newlock (c @ cell);
  let s = Shared { c = c; l = l };
  spawn add(s);
  spawn add(s)
}";

const CELL: u32 = 0;

const SHARED: u32 = 1;

const A_CELL: u32 = 0;

const A_SHARED: u32 = 1;

const START: u32 = 0;

const WORK: u32 = 1;

const BOTH: Held = Held::Pair(0, A_SHARED, 256, 257);

const IN_FIELD: Held = Held::Lock(257, 256);

const LOCK: Held = Held::Lock(1, 256);

const OVER_3: Held = Held::Lock(1, 3);

const OPENED: Held = Held::Block(3, A_CELL, 258, None);

const RAISED: Held = Held::Block(3, A_CELL, 6, None);

const LOCKED_SCRIPT: &[Line] = &[
    Line::See(Step::Unfold(0, SHARED, 256)),
    Line::Uses(BOTH),
    Line::See(Step::Equal(1, 257)),
    Line::See(Step::Rename(IN_FIELD, 1)),
    Line::Uses(LOCK),
    Line::Uses(BOTH),
    Line::See(Step::Equal(3, 256)),
    Line::See(Step::Rename(Held::Named(256, CELL), 3)),
    Line::See(Step::Unfold(3, CELL, 258)),
    Line::Uses(OPENED),
    Line::Do,
    Line::See(Step::Equal(4, 258)),
    Line::See(Step::Rename(Held::Int(258), 4)),
    Line::Do,
    Line::Uses(OPENED),
    Line::Uses(RAISED),
    Line::See(Step::Equal(8, 6)),
    Line::See(Step::Rename(Held::Int(6), 8)),
    Line::Do,
    Line::See(Step::Fold(RAISED)),
    Line::See(Step::Rename(Held::Named(3, CELL), 256)),
    Line::Uses(LOCK),
    Line::Next,
    Line::Do,
    Line::Do,
    Line::See(Step::Fold(Held::Block(1, A_CELL, 0, None))),
    Line::Do,
    Line::Do,
    Line::See(Step::Unknown(1)),
    Line::See(Step::Fold(Held::Pair(3, A_SHARED, 1, 2))),
    Line::Do,
    Line::Uses(Held::Function(4, WORK)),
    Line::Do,
    Line::Uses(Held::Function(6, WORK)),
];

const LOCKED_ROWS: &[Line] = &[
    Line::Row("two threads raise a locked cell", 0, 0, Want::Passes),
    Line::Row(
        "before it is acquired the cell isn't held",
        4,
        4,
        Want::Step(7, 3, 3),
    ),
    Line::See(Step::Drop(Held::Named(256, CELL))),
    Line::Row(
        "the lock is acquired by another name",
        4,
        5,
        Want::Command(7, 3),
    ),
    Line::Uses(IN_FIELD),
    Line::Row("an acquire names no permission", 4, 5, Want::Command(7, 3)),
    Line::Do,
    Line::Row("the left side isn't renamed", 12, 13, Want::Command(9, 14)),
    Line::Row("the cell was changed before", 15, 16, Want::Command(10, 11)),
    Line::Uses(OPENED),
    Line::Row(
        "the cell isn't closed before the release",
        19,
        20,
        Want::Step(11, 3, 1),
    ),
    Line::Row(
        "the cell isn't held by the name that the lock guards",
        20,
        21,
        Want::Command(11, 3),
    ),
    Line::Row(
        "the lock guards the cell by another name",
        20,
        22,
        Want::Passes,
    ),
    Line::See(Step::Spot(LOCK, 0, 3)),
    Line::Uses(OVER_3),
    Line::Row(
        "a lock over that name isn't held",
        20,
        22,
        Want::Command(11, 3),
    ),
    Line::Uses(OVER_3),
    Line::Row(
        "the lock isn't held by the one who releases it",
        21,
        21,
        Want::Command(11, 3),
    ),
    Line::See(Step::Drop(Held::Locked(1))),
    Line::Row("the lock was released", 22, 22, Want::Step(12, 1, 1)),
    Line::See(Step::Drop(Held::Locked(1))),
    Line::Row(
        "the cell isn't closed for the lock",
        25,
        26,
        Want::Command(15, 11),
    ),
    Line::Row("the cell is the lock's", 27, 27, Want::Step(16, 11, 1)),
    Line::See(Step::Drop(Held::Named(1, CELL))),
    Line::Row("a field's content isn't held", 28, 29, Want::Step(17, 9, 1)),
    Line::Row(
        "the thread's argument isn't held",
        29,
        30,
        Want::Command(17, 3),
    ),
    Line::Row(
        "a thread starts by another signature",
        31,
        32,
        Want::Command(17, 3),
    ),
    Line::Uses(Held::Function(4, START)),
    Line::Row(
        "steps count anew in the next function",
        23,
        23,
        Want::Step(14, 22, 1),
    ),
    Line::See(Step::Equal(0, 9)),
    Line::Row(
        "the first function is wrong before the second",
        20,
        24,
        Want::Command(11, 3),
    ),
    Line::Uses(LOCK),
    Line::Next,
    Line::Row(
        "the last function's script ends too early",
        33,
        34,
        Want::Command(18, 3),
    ),
];

pub(crate) fn locked() -> Table {
    (Source::Whole(LOCKED), LOCKED_SCRIPT, LOCKED_ROWS)
}
