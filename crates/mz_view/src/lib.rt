//! View steps: how the permissions at a place may be seen in another way, with no step of the program.
//!
//! `apply` makes one of twelve steps. `specs/Steps.antt` has the steps, `specs/Rules.antt` the rules, one record for each
//! with what it needs, uses up and adds, `specs/Spots.antt` which names a lock's permissions have, and
//! `specs/Equations.antt` the equations of names place by place. `apply` answers Ok just where the rule of the step has
//! an instance in the state, and then leaves the rule's state, where of equal permissions the first goes and what is new
//! stands at the end; else the state is as it was. The rules ask nothing of the state or of a step's numbers: a number
//! that names nothing has no instance. Two laws say that rules don't look at the order of a state. A rule that takes out
//! one permission adds what is new first, since that alone may want memory; one that takes out or adds several works on
//! a copy.
#![tactic(auto)]

mod adding;
mod changing;
mod declared;
mod folding;
mod laws;
mod meeting;
mod opening;
mod spots;
mod step;
mod using;
mod view;

pub use laws::{leads_to_one, order_is_free};
pub use step::{ViewFault, ViewStep, ViewSteps};
pub use view::apply;

#[cfg(test)]
mod tests;
