//! Blocks: a cell that is changed, and what a block is said to adopt.
use crate::tests::declared::{A_CELL, CELL};
use crate::tests::form::{Held, Line, Source, Step, Table, Want};

const ONE_CELL: &str = "data mutable cell = Cell { v: int }
sig start = () -> (r: unknown)
fun main : start = {
  let c = Cell { v = 41 };
  c.v <- c.v + 1;
  print c.v
}";

// the cell with this name in its field
const WITH_0: Held = Held::Block(1, A_CELL, 0, None);

const WITH_4: Held = Held::Block(1, A_CELL, 4, None);

const WITH_256: Held = Held::Block(1, A_CELL, 256, None);

const ONE_CELL_SCRIPT: &[Line] = &[
    Line::Do,
    Line::Do,
    Line::Uses(WITH_0),
    Line::Do,
    Line::See(Step::Equal(2, 0)),
    Line::See(Step::Rename(Held::Int(0), 2)),
    Line::Do,
    Line::Uses(WITH_0),
    Line::Uses(WITH_4),
    Line::See(Step::Equal(6, 4)),
    Line::See(Step::Rename(Held::Int(4), 6)),
    Line::Do,
];

const ONE_CELL_ROWS: &[Line] = &[
    Line::Row("a cell is raised and printed", 0, 0, Want::Passes),
    Line::Row("the left side isn't renamed", 5, 6, Want::Command(5, 14)),
    Line::Row("the rename has no equation", 4, 5, Want::Step(5, 14, 1)),
    Line::Row(
        "the second step renames to another name",
        5,
        6,
        Want::Step(5, 14, 2),
    ),
    Line::See(Step::Rename(Held::Int(0), 3)),
    Line::Row(
        "steps count anew behind a command",
        10,
        11,
        Want::Step(6, 3, 2),
    ),
    Line::See(Step::Rename(Held::Int(4), 7)),
    Line::Row(
        "steps count anew at the closing brace",
        12,
        12,
        Want::Step(7, 1, 2),
    ),
    Line::See(Step::Unknown(0)),
    Line::See(Step::Equal(5, 6)),
    Line::Row("a step that nothing needs", 12, 12, Want::Passes),
    Line::See(Step::Unknown(0)),
    Line::Row(
        "a permission that stands in no state",
        7,
        8,
        Want::Command(5, 7),
    ),
    Line::Uses(Held::Block(1, A_CELL, 3, None)),
    Line::Row("a permission that has gone", 8, 9, Want::Command(6, 11)),
    Line::Uses(WITH_0),
    Line::Row("a read names no permission", 2, 3, Want::Command(5, 12)),
    Line::Do,
    Line::Row("a number uses a permission", 3, 4, Want::Command(5, 16)),
    Line::Uses(Held::Int(0)),
    Line::Row("a number has a case", 0, 1, Want::Command(4, 22)),
    Line::Forks(None),
    Line::Case(0),
    Line::End,
    Line::Joined,
    Line::Row("a join where no case is", 0, 1, Want::Command(4, 22)),
    Line::Forks(None),
    Line::Join(Held::Int(0)),
    Line::Joined,
    Line::Row("no item at all", 0, 12, Want::Command(4, 22)),
    Line::Row("the print has no item", 11, 12, Want::Command(6, 3)),
    Line::Row("an item too many", 12, 12, Want::Command(7, 1)),
    Line::Do,
    Line::Row("the end lacks its permission", 12, 12, Want::Command(7, 1)),
    Line::See(Step::Drop(Held::Unknown(7))),
    Line::Row("the cell is closed and opened", 8, 11, Want::Passes),
    Line::See(Step::Fold(WITH_4)),
    Line::See(Step::Unfold(1, CELL, 256)),
    Line::Uses(WITH_256),
    Line::See(Step::Equal(6, 256)),
    Line::See(Step::Rename(Held::Int(256), 6)),
    Line::Row("the field gets a core name", 8, 8, Want::Step(6, 11, 2)),
    Line::See(Step::Fold(WITH_4)),
    Line::See(Step::Unfold(1, CELL, 255)),
];

// a block that is said to adopt what its data type doesn't
const CLAUSE: &str = "data mutable cell = Cell { v: int }
sig start = () -> (r: unknown)
data mutable box = Box { n: int }
fun main : start = {
  let b = Box { n = 1 };
  ()
}";

const A_BOX: u32 = 1;

const THE_BOX: Held = Held::Block(1, A_BOX, 0, None);

const OF_CELLS: Held = Held::Block(1, A_BOX, 0, Some(CELL));

const CLAUSE_SCRIPT: &[Line] = &[Line::Do, Line::Do, Line::See(Step::Fold(THE_BOX)), Line::Do];

const CLAUSE_ROWS: &[Line] = &[
    Line::Row("a block that adopts nothing is folded", 0, 0, Want::Passes),
    Line::Row("a block is said to adopt", 2, 3, Want::Passes),
    Line::See(Step::Clause(THE_BOX, CELL)),
    Line::Row(
        "a block that adopts what its data type doesn't is folded",
        2,
        3,
        Want::Step(6, 3, 2),
    ),
    Line::See(Step::Clause(THE_BOX, CELL)),
    Line::See(Step::Fold(OF_CELLS)),
];

pub(crate) fn one_cell() -> Table {
    (Source::Whole(ONE_CELL), ONE_CELL_SCRIPT, ONE_CELL_ROWS)
}

pub(crate) fn clause() -> Table {
    (Source::Whole(CLAUSE), CLAUSE_SCRIPT, CLAUSE_ROWS)
}
