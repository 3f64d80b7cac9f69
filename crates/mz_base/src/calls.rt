//! The calls of a device in memory, of which some are to fail.

use crate::Failed;
use crate::count::raised;

/// How many calls there were, which are to fail by their numbers from 1, and how many failed.
#[derive(Drop)]
pub struct Calls {
    failing: Vec<u64>,
    made: u64,
    faults: u64,
}

impl Calls {
    ghost use Rattle.std.specs.Prelude.{◌≡◌};
    ghost use Rattle.mz_base.specs.Calls.{Counts};
    ghost use Rattle.mz_base.specs.Causes.{HasCause};

    /// No call yet.
    pub fn new(failing: Vec<u64>) -> Calls
        ensures failing { result.failing.items ≡ failing.items }
        ensures made { result.made ≡ 0 }
        ensures faults { result.faults ≡ 0 }
    {
        Calls {
            failing,
            made: 0,
            faults: 0,
        }
    }

    /// Counts a call, and fails where its number is to fail.
    pub fn next(&mut self) -> Result<(), Failed>
        ensures counts { Counts self.old self.new result }
        ensures cause { HasCause self.old.faults self.new.faults result }
    {
        self.made = self.made.saturating_add(1);
        if self.failing.contains(&self.made) {
            self.faults = raised(self.faults);
            return Err(Failed);
        }
        Ok(())
    }
}
