//! The ends of the branches of a command.
use mz_deriv::Item;
use mz_index::Indexed;
use mz_tree::Place;
use sqlite_items::Items;

// the end of a branch: its state, the name of its value, the place of its closing brace, and its script: the first of the
// names that were made where the block that is matched was opened, or 0, and the items so far
#[derive(Drop)]
pub(crate) struct End {
    pub state: Indexed,
    pub value: u32,
    pub brace: Place,
    pub opened: u32,
    pub items: Items<Item>,
}
