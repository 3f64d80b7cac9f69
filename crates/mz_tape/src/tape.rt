//! The list of entries, in one vector.
ghost use Rattle.std.specs.Prelude.{◌≡◌, ◌+◌, ◌≤◌, ◌<◌, [], ◌∷◌, ◌++◌, length, IfOk};
ghost use Rattle.std.specs.Iterator.{YieldsFirstRef, item_count};

use crate::Entry;
use mz_tree::Memory;
use std::alloc::Global;
use std::marker::Model;

/// A list of entries, the oldest first, with room for some more.
#[derive(Drop)]
pub struct Tape {
    entries: Vec<Entry>,
}

impl Model for Tape {
    ghost use Rattle.std.specs.Prelude.{◌-◌, vec_capacity, vec_len};
    ghost use Rattle.mz_tape.specs.Tapes.{TapeView};

    ghost Value = { TapeView };

    ghost view = { λ t. record { list = t.entries.items; spare = vec_capacity t.entries - vec_len t.entries } };
}

impl Tape {
    /// A tape without entries. It takes no memory.
    pub fn new(alloc: Global) -> Tape
        ensures { result.list ≡ [] }
    {
        Tape {
            entries: Vec::new(alloc),
        }
    }

    /// Makes room for at least `count` more entries, or keeps the room that there is where memory is wanting. The entries
    /// stay as they are, either way.
    pub fn reserve(&mut self, count: u64) -> Result<(), Memory>
        ensures enough { IfOk result (λ _. count ≤ self.new.spare) }
        ensures no_less { self.old.spare ≤ self.new.spare }
        ensures list { self.new.list ≡ self.old.list }
    {
        self.entries.reserve(count as usize)?;
        Ok(())
    }

    /// Puts an entry at the end, into room that there is. It takes no memory.
    pub fn push(&mut self, entry: Entry)
        requires { 0 < self.old.spare }
        ensures list { self.new.list ≡ self.old.list ++ entry ∷ [] }
        ensures spare { self.new.spare + 1 ≡ self.old.spare }
    {
        self.entries.push_reserved(entry);
    }

    /// How many entries may be pushed before more room is made.
    pub fn spare(&self) -> u64
        ensures { result ≡ self.now.spare }
    {
        (self.entries.capacity() - self.entries.len()) as u64
    }

    /// How many entries there are.
    pub fn len(&self) -> u64
        ensures { result ≡ length self.now.list }
    {
        self.entries.len() as u64
    }

    /// Goes over the entries, the oldest first. It takes no memory.
    pub fn iter(&self) -> TapeIter<'_>
        ensures { result.entries.now ≡ self.now.list }
    {
        TapeIter {
            entries: self.entries.as_slice(),
        }
    }
}

/// The entries of a tape that are still to come.
#[derive(Drop)]
pub struct TapeIter<'a> {
    entries: &'a [Entry],
}

impl<'a> Iterator for TapeIter<'a> {
    type Item = &'a Entry;

    ghost next_gives = { YieldsFirstRef (λ it. it.entries.now) };

    ghost remaining = { item_count (λ it. it.entries.now) };

    fn next(&mut self) -> Option<&'a Entry> {
        let (first, others) = self.entries.split_first()?;
        self.entries = others;
        Some(first)
    }
}
