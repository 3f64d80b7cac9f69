//! The proposer: a derivation of a program is looked for by guided rules, or the first permission that is wanting is named.
//!
//! The guided rules say which permission is looked for, in which order, and what is done with it, so that they have no choice.
//! `specs/Guided.antt` says where they lead through bodies, functions and programs, over `specs/Acting.antt` (commands without
//! branches), `specs/Opening.antt` (how branches begin) and `specs/Joins.antt` (how they join), and `specs/Lacking.antt` which
//! permission is the first that they want, and where. The laws say that they lead to one list, that what is guided wants
//! nothing, and that there is one first permission at most.
//!
//! `elaborate` answers Ok just where the guided rules lead through the whole program, and else with the first permission that
//! they want, at its place. It walks each body once, from a list of permissions in which the order counts; each branch is
//! walked from a copy of its own. Beside it goes the script, which is what Ok gives. `specs/Scripting.antt` says how a script
//! goes along with the guided state: steps that say nothing new aren't written. That it is a derivation isn't proved yet; of
//! goals in a row and of joins the steps are.
//!
//! There are three layers: what is looked for in a state (`finding`, `goals`, `outer`), commands (`acting` to `steps`) and
//! joins (`joining` and what it stands on), and the walk over bodies (`walking`, `elaborating`).
#![tactic(auto)]

mod acting;
mod adopting;
mod blocks;
mod calling;
mod changing;
mod common;
mod doing;
mod elaborating;
mod ends;
mod fault;
mod finding;
mod fresh;
mod giving;
mod goals;
mod joining;
mod joins;
mod laws;
mod lending;
mod locking;
mod matching;
mod naming;
mod opening;
mod outer;
mod restoring;
mod scoping;
mod sharing;
mod steps;
mod thinning;
mod trying;
mod values;
mod valuing;
mod walking;

pub use elaborating::elaborate;
pub use fault::ElabFault;
pub use laws::{at_most_one_is_wanting, leads_to_one_list, nothing_guided_lacks};
