//! The words of a run, as the actor whose turn it is sees them.
ghost use Rattle.std.specs.Prelude.{◌≡◌, ◌≤◌, ◌<◌, IfOk, true, false};
ghost use Rattle.mz_tape.specs.declared.entry.Kind.TheVariants.{Load, Store, Add, Sub, Max, Lock, Print};
ghost use Rattle.mz_words.specs.Views.{WordsView, logged, Sees, step, watched, tried, Shows, IsHeld};

use mz_tree::Memory;

/// What a look waits for.
#[derive(Clone, Copy, Debug, PartialEq, Eq)]
pub enum Until {
    /// That the word is 0.
    Zero,
    /// That the word isn't 0.
    NotZero,
}

/// A failed try.
#[derive(Clone, Copy, Debug, PartialEq, Eq)]
pub struct Note {
    /// The word that wasn't 0.
    pub place: u32,
    /// How many entries the actor had made.
    pub made: u64,
}

/// 64-bit words on which one actor steps, and its record.
///
/// Each call from `load` on is one step on one word, and wants a place below `size` and room for an entry. It makes the entry
/// of its kind, which takes one of the room and sets `lost` to 0; only a look that isn't met and a try that fails make
/// none. These calls take no memory. No call changes the actor, `size`, or what is kept besides (`rest`). Where the words
/// are told, each step sees them and they change by these steps alone.
pub trait Words {
    ghost Rest: { Type 0 };

    ghost sees: { Self → WordsView };

    ghost rest: { Self → Rest };

    /// How many words there are.
    fn size(&self) -> u32
        ensures { result ≡ (sees self.now).size };

    /// For how many entries there is room.
    fn spare(&self) -> u64
        ensures { result ≡ (sees self.now).spare };

    /// How many tries have failed since the last entry.
    fn lost(&self) -> u64
        ensures { result ≡ (sees self.now).lost };

    /// Makes room for at least `count` entries, or keeps the room that there is where memory is wanting.
    fn reserve(&mut self, count: u64) -> Result<(), Memory>
        ensures enough { IfOk result (λ _. count ≤ (sees self.new).spare) }
        ensures no_less { (sees self.old).spare ≤ (sees self.new).spare }
        ensures same { sees self.new ≡ record (sees self.old) { spare = (sees self.new).spare } }
        ensures rest { rest self.new ≡ rest self.old };

    /// The word at a place.
    fn load(&mut self, place: u32) -> u64
        requires place { place < (sees self.old).size }
        requires spare { 0 < (sees self.old).spare }
        ensures logged { sees self.new ≡ logged (sees self.old) (step place Load 0) result }
        ensures sees { Sees (sees self.old).told (step place Load 0) result }
        ensures rest { rest self.new ≡ rest self.old };

    /// The word at a place. Only a word that meets `until` makes an entry, that of a load.
    fn watch(&mut self, place: u32, until: Until) -> u64
        requires place { place < (sees self.old).size }
        requires spare { 0 < (sees self.old).spare }
        ensures watched { sees self.new ≡ watched until (sees self.old) place result }
        ensures shows { Shows (sees self.old).told place result }
        ensures rest { rest self.new ≡ rest self.old };

    /// Sets the word at a place.
    fn store(&mut self, place: u32, value: u64)
        requires place { place < (sees self.old).size }
        requires spare { 0 < (sees self.old).spare }
        ensures logged { sees self.new ≡ logged (sees self.old) (step place Store value) 0 }
        ensures sees { Sees (sees self.old).told (step place Store value) 0 }
        ensures rest { rest self.new ≡ rest self.old };

    /// Adds to the word at a place, modulo 2^64, and gives the word before.
    fn fetch_add(&mut self, place: u32, value: u64) -> u64
        requires place { place < (sees self.old).size }
        requires spare { 0 < (sees self.old).spare }
        ensures logged { sees self.new ≡ logged (sees self.old) (step place Add value) result }
        ensures sees { Sees (sees self.old).told (step place Add value) result }
        ensures rest { rest self.new ≡ rest self.old };

    /// Subtracts from the word at a place, modulo 2^64, and gives the word before.
    fn fetch_sub(&mut self, place: u32, value: u64) -> u64
        requires place { place < (sees self.old).size }
        requires spare { 0 < (sees self.old).spare }
        ensures logged { sees self.new ≡ logged (sees self.old) (step place Sub value) result }
        ensures sees { Sees (sees self.old).told (step place Sub value) result }
        ensures rest { rest self.new ≡ rest self.old };

    /// Makes the word at a place at least `value`, and gives the word before.
    fn fetch_max(&mut self, place: u32, value: u64) -> u64
        requires place { place < (sees self.old).size }
        requires spare { 0 < (sees self.old).spare }
        ensures logged { sees self.new ≡ logged (sees self.old) (step place Max value) result }
        ensures sees { Sees (sees self.old).told (step place Max value) result }
        ensures rest { rest self.new ≡ rest self.old };

    /// Sets the word at a place from 0 to 1, and says whether it did. A word that isn't 0 stays: the try fails, makes no entry,
    /// is noted, and counts in `lost`, which wants room for one more.
    fn try_lock(&mut self, place: u32) -> bool
        requires place { place < (sees self.old).size }
        requires spare { 0 < (sees self.old).spare }
        requires lost { (sees self.old).lost < 18446744073709551615 }
        ensures tried { sees self.new ≡ tried result (sees self.old) place }
        ensures won { result ≡ true → Sees (sees self.old).told (step place Lock 1) 0 }
        ensures held { result ≡ false → IsHeld (sees self.old).told place }
        ensures rest { rest self.new ≡ rest self.old };

    /// Draws the next ticket, from word 4, for a number that is printed.
    fn print(&mut self, value: u64) -> u64
        requires place { 4 < (sees self.old).size }
        requires spare { 0 < (sees self.old).spare }
        ensures logged { sees self.new ≡ logged (sees self.old) (step 4 Print value) result }
        ensures sees { Sees (sees self.old).told (step 4 Print value) result }
        ensures rest { rest self.new ≡ rest self.old };
}
