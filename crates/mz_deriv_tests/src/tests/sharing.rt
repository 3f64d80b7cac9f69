//! Adoption.
use crate::tests::declared::{A_NODE, A_POOL, CELL, NODE, POOL};
use crate::tests::form::{Held, Line, Source, Step, Table, Want};

const ADOPTED: &str = "fun main : start = {
  let a = Node { v = 1; next = () };
  a.next <- a;
  let p = Pool { head = a };
  give a to p;
  take a from p;
  print a.Node.v
}
";

const CYCLE: Held = Held::Pair(2, A_NODE, 0, 2);

const AGAIN: Held = Held::Pair(2, A_NODE, 256, 257);

// the pool that is said to adopt nothing, nodes, or cells
const PLAIN: Held = Held::Block(4, A_POOL, 2, None);

const OF_NODES: Held = Held::Block(4, A_POOL, 2, Some(NODE));

const OF_CELLS: Held = Held::Block(4, A_POOL, 2, Some(CELL));

const ADOPTED_SCRIPT: &[Line] = &[
    Line::Do,
    Line::Do,
    Line::Do,
    Line::Uses(Held::Pair(2, A_NODE, 0, 1)),
    Line::Do,
    Line::See(Step::Dynamic(2)),
    Line::See(Step::Fold(CYCLE)),
    Line::See(Step::Clause(PLAIN, NODE)),
    Line::Uses(OF_NODES),
    Line::Uses(OF_NODES),
    Line::See(Step::Unfold(2, NODE, 256)),
    Line::Uses(AGAIN),
    Line::See(Step::Equal(7, 256)),
    Line::See(Step::Rename(Held::Int(256), 7)),
    Line::Do,
];

const ADOPTED_ROWS: &[Line] = &[
    Line::Row("a node is given and taken", 0, 0, Want::Passes),
    Line::Row("the adopter is a data type", 7, 10, Want::Passes),
    Line::See(Step::Fold(PLAIN)),
    Line::Uses(Held::Named(4, POOL)),
    Line::Uses(Held::Named(4, POOL)),
    Line::Row(
        "the node isn't said to be dynamic",
        5,
        6,
        Want::Step(7, 3, 1),
    ),
    Line::Row("the node isn't folded", 6, 7, Want::Command(7, 3)),
    Line::Row("the pool adopts nothing yet", 7, 9, Want::Command(7, 3)),
    Line::Uses(PLAIN),
    Line::Row("the pool adopts cells", 7, 9, Want::Command(7, 3)),
    Line::See(Step::Clause(PLAIN, CELL)),
    Line::Uses(OF_CELLS),
    Line::Row(
        "a pool that adopts cells isn't folded",
        7,
        8,
        Want::Step(7, 3, 4),
    ),
    Line::See(Step::Clause(PLAIN, CELL)),
    Line::See(Step::Fold(OF_CELLS)),
    Line::Row("what was given has gone", 9, 9, Want::Step(8, 3, 1)),
    Line::See(Step::Drop(Held::Named(2, NODE))),
    Line::Row("a take names no permission", 9, 10, Want::Command(8, 3)),
    Line::Do,
    Line::Row(
        "of what is taken nothing is said",
        9,
        9,
        Want::Command(8, 3),
    ),
    Line::See(Step::Drop(Held::Dynamic(2))),
    Line::See(Step::Drop(Held::Dynamic(2))),
    Line::Row(
        "what was given isn't known as it was",
        10,
        12,
        Want::Command(9, 16),
    ),
    Line::Uses(CYCLE),
];

// two nodes that point at each other
const RING: &str = "data mutable node = Node { v: int; next: dynamic }
data mutable pool adopts node = Pool { head: dynamic }
sig start = () -> (r: unknown)
fun main : start = {
  let a = Node { v = 1; next = () };
  let b = Node { v = 2; next = a };
  a.next <- b;
  let p = Pool { head = a };
  give a to p;
  give b to p;
  let h = p.head;
  take h from p;
  h.v <- h.v + 10;
  print h.v;
  let n = h.next;
  take n from p;
  print n.v
}";

const THE_NODE: u32 = 0;

const RING_NODE: u32 = 0;

const RING_POOL: u32 = 1;

const FIRST: Held = Held::Pair(2, RING_NODE, 0, 4);

const SECOND: Held = Held::Pair(4, RING_NODE, 3, 2);

const EMPTY: Held = Held::Block(6, RING_POOL, 2, None);

const ADOPTER: Held = Held::Block(6, RING_POOL, 2, Some(THE_NODE));

const TAKEN: Held = Held::Pair(9, RING_NODE, 256, 257);

const RAISED: Held = Held::Pair(9, RING_NODE, 13, 257);

const LAST: Held = Held::Pair(17, RING_NODE, 258, 259);

const RING_SCRIPT: &[Line] = &[
    Line::Do,
    Line::Do,
    Line::Do,
    Line::Do,
    Line::Do,
    Line::Uses(Held::Pair(2, RING_NODE, 0, 1)),
    Line::Do,
    Line::See(Step::Dynamic(2)),
    Line::See(Step::Dynamic(4)),
    Line::See(Step::Fold(FIRST)),
    Line::See(Step::Clause(EMPTY, THE_NODE)),
    Line::Uses(ADOPTER),
    Line::See(Step::Fold(SECOND)),
    Line::Uses(ADOPTER),
    Line::Uses(ADOPTER),
    Line::See(Step::Equal(9, 2)),
    Line::See(Step::Rename(Held::Dynamic(2), 9)),
    Line::Uses(ADOPTER),
    Line::See(Step::Unfold(9, THE_NODE, 256)),
    Line::Uses(TAKEN),
    Line::Do,
    Line::See(Step::Equal(11, 256)),
    Line::See(Step::Rename(Held::Int(256), 11)),
    Line::Do,
    Line::Uses(TAKEN),
    Line::Uses(RAISED),
    Line::See(Step::Equal(15, 13)),
    Line::See(Step::Rename(Held::Int(13), 15)),
    Line::Do,
    Line::Uses(RAISED),
    Line::See(Step::Equal(17, 257)),
    Line::See(Step::Rename(Held::Dynamic(257), 17)),
    Line::Uses(ADOPTER),
    Line::See(Step::Unfold(17, THE_NODE, 258)),
    Line::Uses(LAST),
    Line::See(Step::Equal(19, 258)),
    Line::See(Step::Rename(Held::Int(258), 19)),
    Line::Do,
];

const RING_ROWS: &[Line] = &[
    Line::Row("two nodes are given and taken", 0, 0, Want::Passes),
    Line::Row(
        "a field isn't said to be dynamic",
        8,
        9,
        Want::Step(9, 3, 2),
    ),
    Line::Row("the first node isn't folded", 9, 10, Want::Command(9, 3)),
    Line::Row(
        "the second node is given while the first is held",
        11,
        13,
        Want::Command(9, 3),
    ),
    Line::See(Step::Fold(SECOND)),
    Line::See(Step::Drop(Held::Named(2, THE_NODE))),
    Line::Uses(ADOPTER),
    Line::Row("the second node isn't folded", 12, 13, Want::Command(10, 3)),
    Line::Row(
        "what was given can't be given again",
        13,
        14,
        Want::Command(10, 3),
    ),
    Line::See(Step::Drop(Held::Named(4, THE_NODE))),
    Line::Uses(ADOPTER),
    Line::Row(
        "of what the field holds nothing is said",
        16,
        17,
        Want::Command(12, 3),
    ),
    Line::Row("a node is taken from no pool", 17, 18, Want::Command(12, 3)),
    Line::Uses(Held::Dynamic(2)),
    Line::Row("what was taken isn't opened", 18, 19, Want::Command(13, 12)),
    Line::Row(
        "the node is written as it was",
        25,
        26,
        Want::Command(14, 11),
    ),
    Line::Uses(TAKEN),
    Line::Row(
        "the second take has no ground",
        30,
        31,
        Want::Step(16, 3, 1),
    ),
];

pub(crate) fn adopted() -> Table {
    (Source::Main(ADOPTED), ADOPTED_SCRIPT, ADOPTED_ROWS)
}

pub(crate) fn ring() -> Table {
    (Source::Whole(RING), RING_SCRIPT, RING_ROWS)
}
