//! The laws.
ghost use Rattle.mz_lower.specs.Laws.{Simulates};

/// Each list of events on the code of a program that is safe by name stands for a run by name, in which all is fine; and no thread's
/// next act is a fault, and no two threads race.
pub fn simulates()
    ensures { Simulates }
{}
