//! What the parts of a source make, in one place: the commands of the body that is read, the core names of its function, the
//! `adopts` of structural types and the faults. A name's number is its place among the names, and faults are kept in the
//! order in which they are found, so that no part has to compare places. After want of memory nothing is said of it.
ghost use Rattle.std.specs.Prelude.{◌≡◌, ◌++◌, ◌∷◌, [], IfOk};
ghost use Rattle.mz_tree.specs.View.{plain_op, plain_clause, plain_body, plain_commands};
ghost use Rattle.mz_scope.specs.Making.{Made, Came_to, nothing_made, add_command, next_name, add_clause, add_fault, fault_if};
ghost use Rattle.mz_scope.specs.Bodies.{spell, body_came};
ghost use Rattle.mz_scope.specs.View.{made_of, Comes, as_is};

use crate::fault::{Cause, Fault};
use mz_tree::{Body, Clause, Command, Commands, Memory, Op, Place, Text};
use sqlite_items::Items;
use std::alloc::Global;

/// A core name: how the source spells it, empty where it has no spelling, and the place of its parameter or command.
#[derive(Drop)]
pub(crate) struct CoreName {
    pub(crate) spelling: Text,
    pub(crate) place: Place,
}

/// What is made so far.
#[derive(Drop)]
pub(crate) struct Making {
    pub(crate) commands: Items<Command>,
    pub(crate) names: Items<CoreName>,
    pub(crate) clauses: Items<Clause>,
    pub(crate) faults: Items<Fault>,
}

impl Making {
    /// Nothing is made.
    #[tactic(auto, unfolding(crate::specs::View::made_of))]
    pub(crate) fn new(alloc: Global) -> Making
        ensures { made_of result ≡ nothing_made }
    {
        Making {
            commands: Items::new(alloc),
            names: Items::new(alloc),
            clauses: Items::new(alloc),
            faults: Items::new(alloc),
        }
    }

    /// The number of the next core name.
    #[tactic(auto, unfolding(crate::specs::View::made_of))]
    pub(crate) fn next_name(&self) -> Result<u32, Memory>
        ensures { IfOk result (λ n. next_name (made_of self.now) ≡ Came_to n (made_of self.now)) }
    {
        match u32::try_from(self.names.len()) {
            Ok(number) => Ok(number),
            Err(_) => Err(Memory),
        }
    }

    /// Adds a command, which binds the next core name; that name is its value.
    #[tactic(auto, unfolding(crate::specs::View::made_of))]
    pub(crate) fn command(&mut self, alloc: Global, place: Place, op: Op) -> Result<u32, Memory>
        ensures { Comes as_is (add_command place (plain_op op)) self.old result self.new }
    {
        let to = self.next_name()?;
        self.commands.push(Command { to, op, place })?;
        self.names.push(CoreName {
            spelling: Items::new(alloc),
            place,
        })?;
        Ok(to)
    }

    /// Adds an `adopts` of a structural type.
    #[tactic(auto, unfolding(crate::specs::View::made_of))]
    pub(crate) fn clause(&mut self, clause: Clause) -> Result<(), Memory>
        ensures { Comes as_is (add_clause (plain_clause clause)) self.old result self.new }
    {
        self.clauses.push(clause)?;
        Ok(())
    }

    /// Adds a fault.
    #[tactic(auto, unfolding(crate::specs::View::made_of))]
    pub(crate) fn fault(&mut self, cause: Cause, place: Place) -> Result<(), Memory>
        ensures { Comes as_is (add_fault cause place) self.old result self.new }
    {
        self.faults.push(Fault { cause, place })?;
        Ok(())
    }

    /// Adds a fault where this holds.
    pub(crate) fn fault_if(&mut self, holds: bool, cause: Cause, place: Place) -> Result<(), Memory>
        ensures { Comes as_is (fault_if holds cause place) self.old result self.new }
    {
        if holds {
            return self.fault(cause, place);
        }
        Ok(())
    }

    /// Gives the last core name a spelling.
    #[tactic(auto, unfolding(crate::specs::View::made_of))]
    pub(crate) fn spell(&mut self, alloc: Global, text: &[u8]) -> Result<(), Memory>
        ensures { Comes as_is (spell text.now) self.old result self.new }
    {
        let spelling = Items::from_slice(alloc, text)?;
        if let Some(last) = self.names.pop() {
            self.names.push(CoreName {
                spelling,
                place: last.place,
            })?;
        }
        Ok(())
    }

    /// Begins a body of its own: what was made of the one around it is set aside.
    #[tactic(auto, unfolding(crate::specs::View::made_of))]
    pub(crate) fn begin(&mut self, alloc: Global) -> Commands
        ensures { (plain_commands result ≡ (made_of self.old).commands) × (made_of self.new ≡ record (made_of self.old) { commands = [] }) }
    {
        std::mem::replace(&mut self.commands, Items::new(alloc))
    }

    /// Ends a body: it has the commands that were made since it began, and what was set aside comes back.
    #[tactic(auto, unfolding(crate::specs::View::made_of))]
    pub(crate) fn end(&mut self, before: Commands, value: u32, place: Place) -> Body
        ensures { body_came place (plain_commands before) (Came_to value (made_of self.old)) ≡ Came_to (plain_body result) (made_of self.new) }
    {
        let commands = std::mem::replace(&mut self.commands, before);
        Body {
            commands,
            result: value,
            place,
        }
    }
}
