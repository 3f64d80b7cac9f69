//! Names that are made, one after the other.
ghost use Rattle.std.specs.Prelude.{◌≡◌, ◌+◌, IfOk};
ghost use Rattle.mz_decl.specs.Contents.{names_from};

use mz_tree::{Memory, Names};
use sqlite_items::Items;
use std::alloc::Global;

// names that were made, and the one after them
#[derive(Drop)]
pub(crate) struct Fresh {
    pub(crate) names: Names,
    pub(crate) next: u32,
}

// so many names from the next one on. A name that would need more than 32 bits is refused as memory is.
pub(crate) fn fresh_names(alloc: Global, next: u32, count: usize) -> Result<Fresh, Memory>
    ensures names { IfOk result (λ it. it.names ≡ names_from next count) }
    ensures next { IfOk result (λ it. it.next ≡ next + count) }
{
    let mut names = Items::new(alloc);
    let mut last = next;
    for _ in 0..count {
        names.push(last)?;
        let Some(after) = last.checked_add(1) else {
            return Err(Memory);
        };
        last = after;
    }
    Ok(Fresh { names, next: last })
}
