//! What stands at the opening of a run: the words, and an empty record of each actor.
ghost use Rattle.std.specs.Prelude.{◌≡◌, ◌≤◌, replicate, All, IfOk, vec_len};
ghost use Rattle.mz_words.specs.FirstWords.{first_words, IsFreshTape, no_tries};

use crate::words::Note;
use mz_tape::Tape;
use mz_tree::Memory;
use std::alloc::Global;

/// What is kept of an actor's failed tries: how many there were since its last entry, and the last one.
#[derive(Clone, Copy, Debug, PartialEq, Eq)]
pub struct Tries {
    pub lost: u64,
    pub note: Option<Note>,
}

/// 64 tapes with room for the entries of a start and an end.
pub fn fresh_tapes(alloc: Global) -> Result<Vec<Tape>, Memory>
    ensures many { IfOk result (λ v. vec_len v ≡ 64) }
    ensures fresh { IfOk result (λ v. All IsFreshTape v.items) }
{
    let mut tapes = Vec::new(alloc);
    for _i in 0..64u32 {
        let mut tape = Tape::new(alloc);
        tape.reserve(4)?;
        if tapes.push(tape).is_err() {
            return Err(Memory);
        }
    }
    Ok(tapes)
}

/// What is kept of the tries of 64 actors that have made none.
pub fn fresh_tries(alloc: Global) -> Result<Vec<Tries>, Memory>
    ensures many { IfOk result (λ v. vec_len v ≡ 64) }
    ensures fresh { IfOk result (λ v. v.items ≡ replicate 64 no_tries) }
{
    let none = Tries {
        lost: 0,
        note: None,
    };
    Ok(Vec::from_elem(alloc, none, 64)?)
}

/// The words at the opening, `size` of them, with the function of thread 0.
pub fn first_words(alloc: Global, size: u32, main: u32) -> Result<Vec<u64>, Memory>
    requires { 7 ≤ size }
    ensures many { IfOk result (λ v. vec_len v ≡ size) }
    ensures words { IfOk result (λ v. v.items ≡ first_words size main) }
{
    let header = [197, 1, 1, 0, 0, 1, main as u64];
    let mut words = Vec::with_capacity(alloc, size as usize)?;
    words.extend_from_slice(&header)?;
    let heap = Vec::from_elem(alloc, 0, size as usize - 7)?;
    words.extend_from_slice(heap.as_slice())?;
    Ok(words)
}
