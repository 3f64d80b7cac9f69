//! Tests of numbers: what two branches begin with, and what they join in.
use crate::tests::declared::{A_CELL, CELL};
use crate::tests::form::{Held, Line, Source, Step, Table, Want};

// a step that has no instance
const WRONG: Line = Line::See(Step::Equal(0, 9));

const RIGHT: Line = Line::See(Step::Unknown(0));

const IF: &str = "sig start = () -> (r: unknown)
fun main : start = {
  if 1 then { 2 } else { 3 }
}";

const IF_SCRIPT: &[Line] = &[
    Line::Do,
    Line::Forks(None),
    Line::Case(0),
    Line::Do,
    Line::End,
    Line::Case(0),
    Line::Do,
    Line::End,
    Line::Join(Held::Int(3)),
    Line::Joined,
    Line::See(Step::Unknown(3)),
];

const IF_ROWS: &[Line] = &[
    Line::Row("both branches give a number", 0, 0, Want::Passes),
    Line::Row(
        "nothing is said of the value at the end",
        10,
        11,
        Want::Command(4, 1),
    ),
    Line::Row("no case", 1, 10, Want::Command(3, 3)),
    Line::Do,
    Line::Row("one case too few", 5, 8, Want::Command(3, 3)),
    Line::Row("one case too many", 8, 8, Want::Command(3, 3)),
    Line::Case(0),
    Line::Do,
    Line::End,
    Line::Row("a test uses a permission", 1, 2, Want::Command(3, 3)),
    Line::Forks(Some(Held::Int(0))),
    Line::Row("the test is no number", 1, 1, Want::Command(3, 3)),
    Line::See(Step::Drop(Held::Int(0))),
    Line::Row(
        "a case has a number where none is",
        5,
        6,
        Want::Command(3, 3),
    ),
    Line::Case(256),
    Line::Row(
        "the join keeps the first branch's name",
        8,
        9,
        Want::Join(3, 3),
    ),
    Line::Join(Held::Int(1)),
    Line::Row(
        "the join keeps the second branch's name",
        8,
        9,
        Want::Join(3, 3),
    ),
    Line::Join(Held::Equal(3, 2)),
    Line::Row(
        "the join keeps a name that nobody made",
        8,
        9,
        Want::Join(3, 3),
    ),
    Line::Join(Held::Unknown(256)),
    Line::Row(
        "a wrong number comes before a wrong name",
        5,
        9,
        Want::Command(3, 3),
    ),
    Line::Case(256),
    Line::Do,
    Line::End,
    Line::Join(Held::Int(1)),
    Line::Row(
        "a missing case comes before a wrong name",
        5,
        9,
        Want::Command(3, 3),
    ),
    Line::Join(Held::Int(1)),
    Line::Row(
        "a wrong name comes before a wrong branch",
        3,
        9,
        Want::Join(3, 3),
    ),
    WRONG,
    Line::Do,
    Line::End,
    Line::Case(0),
    Line::Do,
    Line::End,
    Line::Join(Held::Int(1)),
    Line::Row("the first branch lacks the join", 8, 9, Want::Join(3, 17)),
    Line::Join(Held::Dynamic(3)),
    Line::Row(
        "the second branch lacks one permission of the join",
        6,
        9,
        Want::Join(3, 28),
    ),
    Line::See(Step::Drop(Held::Int(0))),
    Line::Do,
    Line::End,
    Line::Join(Held::Int(3)),
    Line::Join(Held::Int(0)),
    Line::Row(
        "the first branch's end comes before the second branch",
        4,
        6,
        Want::Join(3, 17),
    ),
    Line::See(Step::Drop(Held::Int(1))),
    Line::End,
    Line::Case(0),
    WRONG,
    Line::Row(
        "steps count anew in the first case",
        1,
        3,
        Want::Step(3, 15, 2),
    ),
    RIGHT,
    RIGHT,
    Line::Forks(None),
    Line::Case(0),
    RIGHT,
    WRONG,
    Line::Row(
        "steps count anew in the second case",
        3,
        7,
        Want::Step(3, 28, 2),
    ),
    RIGHT,
    Line::Do,
    RIGHT,
    RIGHT,
    Line::End,
    Line::Case(0),
    Line::Do,
    RIGHT,
    WRONG,
    Line::Row(
        "steps count anew behind the branches",
        1,
        11,
        Want::Step(4, 1, 1),
    ),
    RIGHT,
    Line::Forks(None),
    Line::Case(0),
    RIGHT,
    Line::Do,
    Line::End,
    Line::Case(0),
    Line::Do,
    Line::End,
    Line::Join(Held::Int(3)),
    Line::Joined,
    WRONG,
    Line::Row("a branch has an item too many", 7, 7, Want::Command(3, 28)),
    Line::Do,
    Line::Row("a branch has an item too few", 3, 4, Want::Command(3, 15)),
];

const OPENED: &str = "fun open : bump = {
  if 1 then { () } else { () }
}
";

const OPEN: Held = Held::Block(0, A_CELL, 256, None);

const CLOSED: Line = Line::See(Step::Fold(OPEN));

const MADE: Line = Line::See(Step::Unfold(0, CELL, 256));

const DROPPED: Line = Line::See(Step::Drop(Held::Int(256)));

const OPENED_SCRIPT: &[Line] = &[
    Line::Do,
    MADE,
    Line::Forks(None),
    Line::Case(0),
    Line::Do,
    Line::End,
    Line::Case(0),
    CLOSED,
    DROPPED,
    MADE,
    Line::Do,
    Line::End,
    Line::Join(OPEN),
    Line::Join(Held::Int(256)),
    Line::Join(Held::Unknown(4)),
    Line::Joined,
    CLOSED,
];

const OPENED_ROWS: &[Line] = &[
    Line::Row(
        "a branch drops a name and makes it again",
        0,
        0,
        Want::Passes,
    ),
    Line::Row(
        "a branch makes a name that is still held",
        8,
        9,
        Want::Step(4, 27, 2),
    ),
    Line::Row("a branch makes another name", 8, 10, Want::Join(4, 30)),
    Line::See(Step::Unfold(0, CELL, 257)),
    Line::Row(
        "the branches make the name, and the join keeps it",
        1,
        9,
        Want::Join(4, 3),
    ),
    Line::Forks(None),
    Line::Case(0),
    MADE,
    Line::Do,
    Line::End,
    Line::Case(0),
    Line::Row("the join keeps one block twice", 7, 12, Want::Join(4, 18)),
    Line::Do,
    Line::End,
    Line::Join(OPEN),
    Line::Row(
        "the cell isn't closed at the end",
        16,
        17,
        Want::Command(5, 1),
    ),
];

const NESTED: &str = "fun pick : test = {
  let k = n + 1;
  if n then {
    let m = k + 1;
    if m then { k } else { m }
  } else { n }
}
";

const NESTED_SCRIPT: &[Line] = &[
    Line::Do,
    Line::Do,
    Line::Forks(None),
    Line::Case(0),
    Line::Do,
    Line::Do,
    Line::Forks(None),
    Line::Case(0),
    Line::End,
    Line::Case(0),
    Line::End,
    Line::Join(Held::Int(5)),
    Line::Join(Held::Int(4)),
    Line::Join(Held::Int(2)),
    Line::Join(Held::Int(0)),
    Line::Joined,
    Line::End,
    Line::Case(0),
    Line::End,
    Line::Join(Held::Int(6)),
    Line::Join(Held::Int(2)),
    Line::Join(Held::Int(0)),
    Line::Joined,
];

const NESTED_ROWS: &[Line] = &[
    Line::Row(
        "joins keep what each body round them binds before",
        0,
        0,
        Want::Passes,
    ),
    Line::Row(
        "the outer join keeps a name of its branch",
        13,
        22,
        Want::Join(5, 3),
    ),
    Line::Joined,
    Line::End,
    Line::Case(0),
    Line::End,
    Line::Join(Held::Int(6)),
    Line::Join(Held::Int(4)),
    Line::Row(
        "the inner join keeps the name of the outer command",
        12,
        22,
        Want::Join(7, 5),
    ),
    Line::Join(Held::Unknown(6)),
    Line::Joined,
    Line::End,
    Line::Case(0),
    Line::End,
    Line::Join(Held::Int(6)),
    Line::Row(
        "the inner join loses what the outer one keeps",
        12,
        21,
        Want::Join(8, 3),
    ),
    Line::Joined,
    Line::End,
    Line::Case(0),
    Line::End,
    Line::Join(Held::Int(6)),
];

const GIVEN: &str = "fun some : make = {
  if n then { Cell { v = 1 } } else { Cell { v = n } } giving result @ cell
}
";

const FIRST: Line = Line::See(Step::Fold(Held::Block(2, A_CELL, 1, None)));

const SECOND: Line = Line::See(Step::Fold(Held::Block(3, A_CELL, 0, None)));

const GIVEN_SCRIPT: &[Line] = &[
    Line::Forks(None),
    Line::Case(0),
    Line::Do,
    Line::Do,
    FIRST,
    Line::End,
    Line::Case(0),
    Line::Do,
    SECOND,
    Line::End,
    Line::Join(Held::Named(4, CELL)),
    Line::Join(Held::Int(0)),
    Line::Joined,
];

const GIVEN_ROWS: &[Line] = &[
    Line::Row("both branches give a cell", 0, 0, Want::Passes),
    Line::Row(
        "the first branch gives an open cell",
        4,
        5,
        Want::Join(4, 30),
    ),
    Line::Row(
        "the second branch gives an open cell",
        8,
        9,
        Want::Join(4, 54),
    ),
    Line::Row("the join loses the parameter", 11, 12, Want::Command(5, 1)),
];

pub(crate) fn test() -> Table {
    (Source::Whole(IF), IF_SCRIPT, IF_ROWS)
}

pub(crate) fn opened() -> Table {
    (Source::Beside(OPENED), OPENED_SCRIPT, OPENED_ROWS)
}

pub(crate) fn nested() -> Table {
    (Source::Beside(NESTED), NESTED_SCRIPT, NESTED_ROWS)
}

pub(crate) fn given() -> Table {
    (Source::Beside(GIVEN), GIVEN_SCRIPT, GIVEN_ROWS)
}
