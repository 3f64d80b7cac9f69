//! Matches: by a data type, with a case for each constructor, and by a constructor that is known, with its case alone.
use crate::tests::declared::{CONS, LIST, NIL, RAW};
use crate::tests::form::{Held, Line, Source, Step, Table, Want};

const SHOWN: &str = "fun show : look = {
  match x { Nil -> { () } Cons -> { print x.Cons.head } }
}
";

const THE_LIST: Held = Held::Named(0, LIST);

const OPEN: Held = Held::Pair(0, CONS, 256, 257);

const EQUAL: Line = Line::See(Step::Equal(2, 256));

const SHOWN_SCRIPT: &[Line] = &[
    Line::Forks(Some(THE_LIST)),
    Line::Case(0),
    Line::Do,
    Line::End,
    Line::Case(256),
    Line::Uses(OPEN),
    EQUAL,
    Line::See(Step::Rename(Held::Int(256), 2)),
    Line::Do,
    Line::End,
    Line::Join(THE_LIST),
    Line::Join(Held::Unknown(4)),
    Line::Joined,
];

const SHOWN_ROWS: &[Line] = &[
    Line::Row("a list is opened in each case", 0, 0, Want::Passes),
    Line::Row("a match has a case too few", 4, 10, Want::Command(4, 3)),
    Line::Row("a match has a case too many", 10, 10, Want::Command(4, 3)),
    Line::Case(256),
    Line::Uses(OPEN),
    EQUAL,
    Line::See(Step::Rename(Held::Int(256), 2)),
    Line::Do,
    Line::End,
    Line::Row("a match names no permission", 0, 1, Want::Command(4, 3)),
    Line::Forks(None),
    Line::Row("a match by another data type", 0, 1, Want::Command(4, 3)),
    Line::Forks(Some(Held::Named(0, RAW))),
    Line::Row(
        "a match by a constructor that isn't known",
        0,
        8,
        Want::Command(4, 3),
    ),
    Line::Forks(Some(OPEN)),
    Line::Case(0),
    Line::Uses(OPEN),
    Line::Row("a case makes core names", 4, 8, Want::Command(4, 3)),
    Line::Case(254),
    Line::Row(
        "a case makes a name that is held",
        0,
        0,
        Want::Command(4, 3),
    ),
    Line::See(Step::Unknown(257)),
    Line::Row(
        "the join keeps a name that a case made",
        12,
        12,
        Want::Join(4, 3),
    ),
    Line::Join(Held::Int(256)),
    Line::Row(
        "the first case's end lacks the join",
        11,
        12,
        Want::Join(4, 25),
    ),
    Line::Join(Held::Int(4)),
    Line::Row(
        "the second case's end lacks the join",
        9,
        9,
        Want::Join(4, 55),
    ),
    Line::See(Step::Drop(THE_LIST)),
    Line::Row("the head isn't renamed", 7, 8, Want::Command(4, 37)),
    Line::Row(
        "the second step of a case has no instance",
        7,
        8,
        Want::Step(4, 37, 2),
    ),
    Line::See(Step::Rename(Held::Int(257), 2)),
    Line::Row("the join loses the list", 10, 11, Want::Command(5, 1)),
];

const KNOWN: &str = "fun main : start = {
  let n = Nil { };
  match n { Nil -> { print 1 } Cons -> { print n } }
}
";

const THE_NIL: Held = Held::Empty(0, NIL);

const KNOWN_SCRIPT: &[Line] = &[
    Line::Do,
    Line::Forks(Some(THE_NIL)),
    Line::Case(0),
    Line::Do,
    Line::Do,
    Line::End,
    Line::Join(Held::Unknown(4)),
    Line::Joined,
];

const KNOWN_ROWS: &[Line] = &[
    Line::Row(
        "the case of the known constructor alone",
        0,
        0,
        Want::Passes,
    ),
    Line::Row(
        "a case for a constructor that it isn't",
        6,
        6,
        Want::Command(5, 3),
    ),
    Line::Case(0),
    Line::Do,
    Line::End,
    Line::Row("the known case has a number", 2, 3, Want::Command(5, 3)),
    Line::Case(256),
    Line::Row(
        "a match's wrong number comes before a wrong name",
        2,
        7,
        Want::Command(5, 3),
    ),
    Line::Case(256),
    Line::Do,
    Line::Do,
    Line::End,
    Line::Join(Held::Unknown(2)),
    Line::Row(
        "the join keeps a name of the known case",
        6,
        7,
        Want::Join(5, 3),
    ),
    Line::Join(Held::Unknown(2)),
    Line::Row(
        "a constructor that isn't known any more",
        1,
        4,
        Want::Command(5, 42),
    ),
    Line::See(Step::Fold(THE_NIL)),
    Line::Forks(Some(THE_LIST)),
    Line::Case(0),
    Line::Do,
    Line::Do,
    Line::End,
    Line::Case(256),
];

pub(crate) fn shown() -> Table {
    (Source::Beside(SHOWN), SHOWN_SCRIPT, SHOWN_ROWS)
}

pub(crate) fn known() -> Table {
    (Source::Main(KNOWN), KNOWN_SCRIPT, KNOWN_ROWS)
}
