//! Derivations and their scripts.
use mz_tree::{Atom, Atoms};
use mz_view::ViewStep;
use sqlite_items::Items;

/// A script for each function, in the order of the program's functions.
pub type Scripts = Items<Script>;

/// The cases of a command that goes on in branches, in the order of its branches.
pub type ScriptCases = Items<ScriptCase>;

/// Why a program's permissions suffice: for each of its functions a script, which goes along the function's body.
#[derive(Drop)]
pub struct Derivation {
    pub scripts: Scripts,
}

/// The derivation of one body: view steps and commands in the order in which they are made, and the view steps of the
/// body's end.
#[cycle(scripts)]
#[derive(Drop)]
pub struct Script {
    pub items: Items<Item>,
}

/// One point of a script.
#[cycle(scripts)]
#[derive(Drop)]
pub enum Item {
    /// A view step, before the body's next command or its end.
    Step(ViewStep),
    /// The body's next command is made. `uses` is the permission that its rule uses, where it has one. A command that
    /// goes on in branches has a case for each, and `join` are the permissions that each of them ends with; every other
    /// command has no case, and joins in nothing.
    Do {
        uses: Option<Atom>,
        cases: ScriptCases,
        join: Atoms,
    },
}

/// The derivation of one branch. `fresh` is the first of the names that are made where the branch opens the block that
/// is matched, and 0 where it opens none.
#[cycle(scripts)]
#[derive(Drop)]
pub struct ScriptCase {
    pub fresh: u32,
    pub body: Script,
}
