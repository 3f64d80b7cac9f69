//! The names of a scope in order. Scopes that begin alike share what they have in common.
ghost use Rattle.std.specs.Prelude.{◌≡◌, [], ◌∷◌, ◌++◌, IfOk};
ghost use Rattle.mz_names.specs.Chains.{names_of};

use mz_tree::{Memory, Text};
use sqlite_items::Items;
use std::alloc::{AllocError, Global};
use std::rc::Rc;

/// Names with their numbers, from the latest back.
#[cycle(chain)]
pub(crate) enum Chain {
    End,
    Link(Rc<Link>),
}

/// A name with its number, and those before it.
#[cycle(chain)]
#[derive(Drop)]
pub(crate) struct Link {
    text: Text,
    number: u32,
    before: Chain,
}

impl Drop for Chain {
    // A loop, since there may be tens of thousands of names.
    fn drop(mut self) {
        loop {
            match self {
                Chain::End => return,
                Chain::Link(shared) => match Rc::into_inner(shared) {
                    Some(link) => self = link.before,
                    None => return,
                },
            }
        }
    }
}

impl Chain {
    /// The same names.
    pub(crate) fn copy(&self) -> Result<Chain, Memory>
        ensures { IfOk result (λ it. names_of it ≡ names_of self.now) }
    {
        match self {
            Chain::End => Ok(Chain::End),
            Chain::Link(link) => Ok(Chain::Link(link.clone()?)),
        }
    }

    /// These names and one more at the end.
    pub(crate) fn with(&self, alloc: Global, text: &[u8], number: u32) -> Result<Chain, Memory>
        ensures { IfOk result (λ it. names_of it ≡ names_of self.now ++ (text.now, number) ∷ []) }
    {
        let text = Items::from_slice(alloc, text)?;
        let before = self.copy()?;
        let link = Link {
            text,
            number,
            before,
        };
        let link = Rc::new(alloc, link).map_err(AllocError::from)?;
        Ok(Chain::Link(link))
    }
}
