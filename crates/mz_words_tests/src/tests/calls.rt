//! Calls on words, written as a name and two numbers, and what comes of them in words.
use mz_words::{PlainWords, Until, Words};
use std::alloc::Global;
use std::test::Fail;

/// Makes the call of this name at a place with a value, where it has one. A try answers 1 where it wins, and a store 0.
pub(crate) fn make<W: Words>(
    words: &mut W,
    name: &str,
    place: u32,
    value: u64,
) -> Result<u64, Fail> {
    words.reserve(1)?;
    let size = words.size();
    if place >= size || size < 5 || words.lost() == u64::MAX {
        return Err("the call isn't lawful")?;
    }
    match name {
        "load" => Ok(words.load(place)),
        "until_zero" => Ok(words.watch(place, Until::Zero)),
        "until_not_zero" => Ok(words.watch(place, Until::NotZero)),
        "store" => {
            words.store(place, value);
            Ok(0)
        }
        "fetch_add" => Ok(words.fetch_add(place, value)),
        "fetch_sub" => Ok(words.fetch_sub(place, value)),
        "fetch_max" => Ok(words.fetch_max(place, value)),
        "try_lock" => Ok(if words.try_lock(place) { 1 } else { 0 }),
        "print" => Ok(words.print(value)),
        _ => Err("there is no such call")?,
    }
}

/// What a call of an actor comes to, in words: its answer, its entry if it makes one, and how many tries were lost since the last
/// entry.
pub(crate) fn told(
    alloc: Global,
    words: &mut PlainWords,
    actor: u32,
    call: &str,
) -> Result<String, Fail> {
    if actor >= 64 {
        return Err("there is no such actor")?;
    }
    let parts: Vec<&str> = call.split_whitespace().collect(alloc)?;
    let name = parts.first().ok_or("a call has no name")?;
    let place = parts.get(1).ok_or("a call has no place")?.parse()?;
    let value = parts.get(2).ok_or("a call has no value")?.parse()?;
    words.turn_of(actor);
    let before = words.part(actor).len();
    let answer = make(words, name, place, value)?;
    let lost = words.lost();
    let tape = words.part(actor);
    if tape.len() == before {
        return Ok(format!(in alloc; "{answer}, no entry, {lost} lost")?);
    }
    let entry = tape.iter().last().ok_or("there is no entry")?;
    Ok(format!(in alloc;
        "{answer}, {:?} {} {} {}, {lost} lost",
        entry.kind, entry.place, entry.value, entry.seen
    )?)
}
