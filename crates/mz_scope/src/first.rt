//! The first of the faults that were found: by its line, its column and then the order of the causes. They are gone over
//! once.
ghost use Rattle.std.specs.Prelude.{◌≡◌, ◌⊎◌, [], MatchBool, MatchOption};
ghost use Rattle.mz_scope.specs.Faults.{rank, IsNotAfter, IsFirst};

use crate::fault::{Cause, Fault};

// where a cause stands in the order of the causes
fn rank(cause: Cause) -> u8
    ensures { result ≡ rank cause }
{
    match cause {
        Cause::Unknown => 0,
        Cause::Twice => 1,
        Cause::Shape => 2,
        Cause::NotExhaustive => 3,
        Cause::TooMany => 4,
    }
}

// whether one fault comes before another, or stands with it
fn is_not_after(a: Fault, b: Fault) -> bool
    ensures { MatchBool result (IsNotAfter a b) (IsNotAfter b a) }
{
    if a.place.line != b.place.line {
        return a.place.line < b.place.line;
    }
    if a.place.col != b.place.col {
        return a.place.col < b.place.col;
    }
    rank(a.cause) <= rank(b.cause)
}

// the first of two faults
fn first_of(a: Fault, b: Fault) -> Fault
    ensures { ((result ≡ a) × IsNotAfter a b) ⊎ ((result ≡ b) × IsNotAfter b a) }
{
    if is_not_after(a, b) {
        return a;
    }
    b
}

/// The first of faults, if there is one.
pub(crate) fn first_fault(faults: &[Fault]) -> Option<Fault>
    ensures { MatchOption result (faults.now ≡ []) (IsFirst faults.now) }
{
    match faults {
        [] => None,
        [one, ..] => {
            let mut first = *one;
            for i in 0..faults.len() {
                first = first_of(first, faults[i]);
            }
            Some(first)
        }
    }
}
