//! Words in a vector, on which one actor after another steps.
ghost use Rattle.std.specs.Prelude.{◌≡◌, ℕ, ◌+◌, ◌-◌, ◌≤◌, ◌<◌, List, [], ◌∷◌, ◌++◌, length, slice_get, slice_index_or, slice_set, replicate, All, IfOk, Some, None, vec_len};
ghost use Rattle.mz_words.specs.Views.{logged, step};

use crate::opening::{Tries, first_words, fresh_tapes, fresh_tries};
use crate::reports::{Numbers, Tapes};
use crate::words::{Note, Until, Words};
use mz_tape::{Entry, Kind, Tape};
use mz_tree::Memory;
use sqlite_items::Items;
use std::alloc::Global;

/// Words for one schedule: all of them in one vector, and the records of the 64 actors. The calls of `Words` are those of
/// the actor whose turn it is. They tell the words.
#[derive(Drop)]
pub struct PlainWords {
    words: Vec<u64>,
    tapes: Vec<Tape>,
    tries: Vec<Tries>,
    turn: u32,
    ghost in_range: { turn < 64 },
    ghost all_tapes: { vec_len tapes ≡ 64 },
    ghost all_tries: { vec_len tries ≡ 64 },
    ghost enough: { 7 ≤ vec_len words },
    ghost small: { vec_len words ≤ 16777216 },
}

impl PlainWords {
    ghost use Rattle.std.specs.Prelude.{◌≡◌, ◌+◌, ◌<◌, ◌≤◌, IfOk, vec_len, [], ◌∷◌, ◌++◌};
    ghost use Rattle.mz_words.specs.FirstWords.{AreFirst, IsFreshTape, no_tries};
    ghost use Rattle.mz_words.specs.Plain.{view_of, others_of};
    ghost use Rattle.mz_words.specs.Views.{entry_by, step};

    /// The words at the opening of a run, `size` of them, whose thread 0 is to run the function `main`. The records are empty
    /// and have room for the entries of a start and an end, and it is the turn of actor 0. Only memory may be wanting.
    pub fn start(alloc: Global, size: u32, main: u32) -> Result<PlainWords, Memory>
        requires { (1024 ≤ size) × (size ≤ 16777216) }
        ensures words { IfOk result (λ w. AreFirst main w.words.items) }
        ensures size { IfOk result (λ w. vec_len w.words ≡ size) }
        ensures tapes { IfOk result (λ w. All IsFreshTape w.tapes.items) }
        ensures tries { IfOk result (λ w. w.tries.items ≡ replicate 64 no_tries) }
        ensures turn { IfOk result (λ w. w.turn ≡ 0) }
    {
        let words = first_words(alloc, size, main)?;
        let tapes = fresh_tapes(alloc)?;
        let tries = fresh_tries(alloc)?;
        Ok(PlainWords {
            words,
            tapes,
            tries,
            turn: 0,
        })
    }

    /// Makes it the turn of an actor, which is below 64. It takes no memory.
    pub fn turn_of(&mut self, actor: u32)
        requires { actor < 64 }
        ensures turn { self.new.turn ≡ actor }
        ensures words { self.new.words ≡ self.old.words }
        ensures tapes { self.new.tapes ≡ self.old.tapes }
        ensures tries { self.new.tries ≡ self.old.tries }
    {
        self.turn = actor;
    }

    /// The record of an actor, which is below 64. It takes no memory.
    pub fn part(&self, actor: u32) -> &Tape
        requires { actor < 64 }
        ensures { slice_get self.now.tapes.items actor ≡ Some result.now }
    {
        &self.tapes[actor as usize]
    }

    /// The words and the 64 records, at the end of a run. It takes no memory.
    pub fn close(self) -> (Numbers, Tapes)
        ensures words { result.0 ≡ self.words.items }
        ensures tapes { result.1 ≡ self.tapes.items }
    {
        let PlainWords { words, tapes, .. } = self;
        (Items::from_vec(words), Items::from_vec(tapes))
    }

    // Makes an entry of the actor whose turn it is. The word has its new value already.
    fn log(&mut self, kind: Kind, place: u32, value: u64, seen: u64)
        requires { 0 < (view_of self.old).spare }
        ensures part { (view_of self.new).part ≡ (view_of self.old).part ++ entry_by (view_of self.old).actor (step place kind value) seen ∷ [] }
        ensures note { (view_of self.new).note ≡ (view_of self.old).note }
        ensures spare { (view_of self.new).spare + 1 ≡ (view_of self.old).spare }
        ensures lost { (view_of self.new).lost ≡ 0 }
        ensures same { (self.new.words ≡ self.old.words) × (self.new.turn ≡ self.old.turn) }
        ensures others { others_of self.new ≡ others_of self.old }
    {
        let entry = Entry {
            actor: self.turn,
            place,
            kind,
            value,
            seen,
        };
        self.tapes[self.turn as usize].push(entry);
        self.tries[self.turn as usize].lost = 0;
    }
}

impl Words for PlainWords {
    ghost use Rattle.mz_words.specs.Plain.{Others, view_of, others_of};

    ghost Rest = { Others };

    ghost sees = { view_of };

    ghost rest = { others_of };

    fn size(&self) -> u32 {
        self.words.len() as u32
    }

    fn spare(&self) -> u64 {
        self.tapes[self.turn as usize].spare()
    }

    fn lost(&self) -> u64 {
        self.tries[self.turn as usize].lost
    }

    fn reserve(&mut self, count: u64) -> Result<(), Memory> {
        self.tapes[self.turn as usize].reserve(count)
    }

    fn load(&mut self, place: u32) -> u64 {
        let seen = self.words[place as usize];
        self.log(Kind::Load, place, 0, seen);
        seen
    }

    fn watch(&mut self, place: u32, until: Until) -> u64 {
        let seen = self.words[place as usize];
        let met = match until {
            Until::Zero => seen == 0,
            Until::NotZero => seen != 0,
        };
        if met {
            self.log(Kind::Load, place, 0, seen);
        }
        seen
    }

    fn store(&mut self, place: u32, value: u64) {
        self.words[place as usize] = value;
        self.log(Kind::Store, place, value, 0);
    }

    fn fetch_add(&mut self, place: u32, value: u64) -> u64 {
        let seen = self.words[place as usize];
        self.words[place as usize] = seen.wrapping_add(value);
        self.log(Kind::Add, place, value, seen);
        seen
    }

    fn fetch_sub(&mut self, place: u32, value: u64) -> u64 {
        let seen = self.words[place as usize];
        self.words[place as usize] = seen.wrapping_sub(value);
        self.log(Kind::Sub, place, value, seen);
        seen
    }

    fn fetch_max(&mut self, place: u32, value: u64) -> u64 {
        let seen = self.words[place as usize];
        self.words[place as usize] = seen.max(value);
        self.log(Kind::Max, place, value, seen);
        seen
    }

    fn try_lock(&mut self, place: u32) -> bool {
        if self.words[place as usize] == 0 {
            self.words[place as usize] = 1;
            self.log(Kind::Lock, place, 1, 0);
            return true;
        }
        let made = self.tapes[self.turn as usize].len();
        let tries = &mut self.tries[self.turn as usize];
        tries.note = Some(Note { place, made });
        tries.lost += 1;
        false
    }

    fn print(&mut self, value: u64) -> u64 {
        let ticket = self.words[4];
        self.words[4] = ticket.wrapping_add(1);
        self.log(Kind::Print, 4, value, ticket);
        ticket
    }
}
