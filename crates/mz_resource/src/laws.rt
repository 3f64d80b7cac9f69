//! The laws.

ghost use Rattle.mz_resource.specs.Laws.{HeldIsFine, KeepsCommand, KeepsView, OpeningIsHeld, Sound};

/// A view step of a thread's top frame keeps the invariant.
pub fn keeps_view()
    ensures { KeepsView }
{}

/// A step of a thread keeps the invariant, by the holding that the view steps before its command and then the rule give.
pub fn keeps_command()
    ensures { KeepsCommand }
{}

/// The invariant holds where a derivable program opens.
pub fn opening_is_held()
    ensures { OpeningIsHeld }
{}

/// Where the invariant holds each running thread goes on or waits for a lock, and no two threads race.
pub fn held_is_fine()
    ensures { HeldIsFine }
{}

/// What is derivable is safe: no list of steps leads to anything wrong, or to a race.
pub fn sound()
    ensures { Sound }
{}
