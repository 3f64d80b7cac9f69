//! The common declarations of the tables, on two lines, and the common functions: one of each signature, with its name.

/// What stands before a function.
pub const DECLARATIONS: &str =
    "data mutable cell = Cell { v: int } data mutable node = Node { v: int; next: dynamic } data mutable pool adopts node = Pool { head: dynamic } data list = Nil { } | Cons { head: int; tail: list } data mutable raw = Raw { head: int; tail: unknown } data shared = Shared { c: unknown; l: lock (c @ cell) }
sig start = () -> (r: unknown) sig eat = (consumes c: cell) -> (r: unknown) sig bump = (c: cell) -> (r: unknown) sig make = (n: int) -> (c: cell) sig look = (x: list) -> (r: unknown) sig work = (s: shared) -> (r: unknown) sig test = (n: int) -> (r: int)
";

/// What stands behind it.
pub const FUNCTIONS: &str = "fun eat : eat = { () }
fun bump : bump = { () }
fun look : look = { () }
fun work : work = { () }
fun test : test = { 0 }
fun make : make = { Cell { v = n } }
";

/// And where it isn't `main` itself.
pub const MAIN: &str = "fun main : start = { () }
";

pub const CELL: u32 = 0;

pub const NODE: u32 = 1;

pub const POOL: u32 = 2;

pub const LIST: u32 = 3;

pub const RAW: u32 = 4;

pub const SHARED: u32 = 5;

pub const A_CELL: u32 = 0;

pub const A_NODE: u32 = 1;

pub const A_POOL: u32 = 2;

pub const NIL: u32 = 3;

pub const CONS: u32 = 4;

pub const A_RAW: u32 = 5;

pub const A_SHARED: u32 = 6;

pub const EAT: u32 = 1;

pub const BUMP: u32 = 2;

pub const MAKE: u32 = 3;

pub const LOOK: u32 = 4;
