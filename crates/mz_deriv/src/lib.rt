//! Derivations: why a program's permissions suffice, and the check of them.
//!
//! A derivation has a script for each function, which goes along the function's body: view steps, an item for each command
//! with the permission that its rule uses, and, for one that goes on in branches, a script for each and the permissions in
//! which they join. `check_derivation` answers Ok just where the derivation is one of the program, and else with the first
//! point, in script order, that has no instance, and its place. `specs/Rules.antt` has the rules of all commands in one
//! place, `specs/Walks.antt` says how a script leads through a body, `specs/Derivable.antt` what a derivation is, and
//! `specs/Refused.antt` which point is the first.
//!
//! A derivation can be written as a text: `specs/Spelled.antt` says which form a script has for that, and what it may
//! name. The check doesn't ask it. It is proved: each permission that a script names stands in some state of the walk, but
//! for its names, and each state of a walk through a program that was read holds lawful permissions alone. Laws say that
//! the two answers exclude each other and that there is one first point: walks don't look at the order of a state, though
//! the check goes by one order.
//!
//! The check walks each body in one loop over its items; its invariant says that what is left leads, and is refused, just
//! as the whole. The bodies of a command are walked by the same function, each from a state of its own.
#![tactic(auto)]

mod check;
mod fault;
mod fork;
mod join;
mod laws;
mod numbers;
mod outer;
mod owing;
mod rule;
mod script;
mod walk;

pub use check::{check_derivation, check_fun, lawful_decls, lawful_modes};
pub use fault::DerivFault;
pub use join::state_of;
pub use laws::{
    at_most_one_refusal, at_most_one_refusal_of_a_fun, leads_to_one, no_derivation_is_refused,
    no_walk_of_a_fun_is_refused, order_is_free,
};
pub use owing::owed;
pub use script::{Derivation, Item, Script, ScriptCase, ScriptCases, Scripts};
