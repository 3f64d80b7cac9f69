//! Names with their numbers, as a tree in which a name is found bit by bit. No part of a tree is changed, so trees share
//! their parts.
ghost use Rattle.std.specs.Prelude.{◌≡◌, ℕ, ◌-◌, List, Some, if◌then◌else◌, IfOk};
ghost use Rattle.std.specs.Str.{bytes_eq};
ghost use Rattle.mz_names.specs.declared.tree.Tree.{Empty};
ghost use Rattle.mz_names.specs.Turns.{turn};
ghost use Rattle.mz_names.specs.Trees.{found, alone, Puts, Adds};

use mz_tree::{Memory, Text};
use sqlite_items::Items;
use std::alloc::{AllocError, Global};
use std::rc::Rc;

/// How many forks a way through a tree has at most: one for each bit of 64 bytes.
const FORKS: usize = 512;

/// Names with their numbers.
#[cycle(tree)]
#[derive(Drop)]
pub(crate) enum Tree {
    /// No name.
    Empty,
    /// A name before others. Others stand behind it only where no fork is left to tell them apart.
    Name(Rc<Entry>),
    /// The names whose bit at this fork is unset, and those whose bit is set.
    Fork(Rc<Fork>),
}

/// A name with its number, and the names behind it.
#[cycle(tree)]
#[derive(Drop)]
pub(crate) struct Entry {
    text: Text,
    number: u32,
    others: Tree,
}

/// The names on each side of a fork.
#[cycle(tree)]
#[derive(Drop)]
pub(crate) struct Fork {
    unset: Tree,
    set: Tree,
}

// Which side of a fork a name is on, where `left` forks are left, with this one.
fn turns(left: usize, text: &[u8]) -> bool
    ensures { result ≡ turn left text.now }
{
    let fork = FORKS.saturating_sub(left);
    let at = fork / 8;
    if at < text.len() {
        (text[at] >> (fork % 8)) % 2 == 1
    } else {
        false
    }
}

// A name before others.
fn before(alloc: Global, text: &[u8], number: u32, others: Tree) -> Result<Tree, Memory>
    ensures { IfOk result (λ new. (left : ℕ) → Puts others left text.now number new) }
{
    let text = Items::from_slice(alloc, text)?;
    let entry = Entry {
        text,
        number,
        others,
    };
    let entry = Rc::new(alloc, entry).map_err(AllocError::from)?;
    Ok(Tree::Name(entry))
}

// A fork of two trees.
fn forked(alloc: Global, unset: Tree, set: Tree) -> Result<Tree, Memory>
    ensures { IfOk result (λ new. (left : ℕ) (name : List ℕ) → found new left name ≡ (if turn left name then found set (left - 1) name else found unset (left - 1) name)) }
{
    let fork = Rc::new(alloc, Fork { unset, set }).map_err(AllocError::from)?;
    Ok(Tree::Fork(fork))
}

// A name beside one that has none behind it, parted from it by as many forks as it takes.
fn parted(
    alloc: Global,
    entry: &Rc<Entry>,
    left: usize,
    text: &[u8],
    number: u32,
) -> Result<Tree, Memory>
    requires { entry.now.value.others ≡ Empty }
    ensures { IfOk result (λ new. (other : List ℕ) → found new left other ≡ (if bytes_eq text.now other then Some number else alone entry.now.value.text entry.now.value.number other)) }
{
    if left == 0 {
        return before(alloc, text, number, Tree::Name(entry.clone()?));
    }
    match (turns(left, entry.text.as_slice()), turns(left, text)) {
        (false, true) => {
            let set = before(alloc, text, number, Tree::Empty)?;
            forked(alloc, Tree::Name(entry.clone()?), set)
        }
        (true, false) => {
            let unset = before(alloc, text, number, Tree::Empty)?;
            forked(alloc, unset, Tree::Name(entry.clone()?))
        }
        (true, true) => {
            let set = parted(alloc, entry, left - 1, text, number)?;
            forked(alloc, Tree::Empty, set)
        }
        (false, false) => {
            let unset = parted(alloc, entry, left - 1, text, number)?;
            forked(alloc, unset, Tree::Empty)
        }
    }
}

impl Tree {
    /// The number of a name. It takes no memory.
    pub(crate) fn find(&self, text: &[u8]) -> Option<u32>
        ensures { result ≡ found self.now 512 text.now }
    {
        let mut tree = self;
        let mut left = FORKS;
        loop {
            match tree {
                Tree::Empty => return None,
                Tree::Name(entry) => {
                    if entry.text.as_slice() == text {
                        return Some(entry.number);
                    }
                    tree = &entry.others;
                }
                Tree::Fork(fork) => {
                    tree = if turns(left, text) {
                        &fork.set
                    } else {
                        &fork.unset
                    };
                    left = left.saturating_sub(1);
                }
            }
        }
    }

    /// The same names.
    pub(crate) fn copy(&self) -> Result<Tree, Memory>
        ensures { IfOk result (λ it. (left : ℕ) (name : List ℕ) → found it left name ≡ found self.now left name) }
    {
        match self {
            Tree::Empty => Ok(Tree::Empty),
            Tree::Name(entry) => Ok(Tree::Name(entry.clone()?)),
            Tree::Fork(fork) => Ok(Tree::Fork(fork.clone()?)),
        }
    }

    /// The same names and one more, which has this number if it had none.
    pub(crate) fn adding(&self, alloc: Global, text: &[u8], number: u32) -> Result<Tree, Memory>
        ensures { IfOk result (Adds self.now text.now number) }
    {
        match self.find(text) {
            None => self.with(alloc, FORKS, text, number),
            Some(_) => self.copy(),
        }
    }

    // The same names but for one, which has this number. `left` is how many forks are left on the way.
    fn with(&self, alloc: Global, left: usize, text: &[u8], number: u32) -> Result<Tree, Memory>
        ensures { IfOk result (Puts self.now left text.now number) }
    {
        match self {
            Tree::Empty => before(alloc, text, number, Tree::Empty),
            Tree::Name(entry) => {
                if let Tree::Empty = entry.others {
                    parted(alloc, entry, left, text, number)
                } else {
                    before(alloc, text, number, Tree::Name(entry.clone()?))
                }
            }
            Tree::Fork(fork) => {
                let rest = left.saturating_sub(1);
                if turns(left, text) {
                    let set = fork.set.with(alloc, rest, text, number)?;
                    forked(alloc, fork.unset.copy()?, set)
                } else {
                    let unset = fork.unset.with(alloc, rest, text, number)?;
                    forked(alloc, unset, fork.set.copy()?)
                }
            }
        }
    }
}
