//! The earlier of two places.
ghost use Rattle.mz_decl.specs.Places.{IsEarlier};

use mz_tree::Place;

/// The earlier of two places, of which each may be missing. Lines decide, then columns. It takes no memory.
pub fn earlier(left: Option<Place>, right: Option<Place>) -> Option<Place>
    ensures { IsEarlier left right result }
{
    match left {
        None => right,
        Some(a) => match right {
            None => left,
            Some(b) => {
                if b.line < a.line || b.line == a.line && b.col < a.col {
                    right
                } else {
                    left
                }
            }
        },
    }
}
