//! The rules of the commands that have no crate of their own: what each needs of a state, and what it leaves.
//!
//! `plain_rule` changes a state by the rule of a plain command or of a call, or says that the rule has no instance there,
//! or that memory is wanting; a refusal leaves the state as it was. `specs/Commands.antt` has the rules, `PlainRule`, with
//! one case for each kind of command and a record of its conditions. `branch_state` gives the state in which a branch of
//! an `if` or a `match` begins (`specs/Branches.antt`), `walked` and `walked_body` the bodies in which it goes on, and
//! `end_rule` uses up what the end of a branch or of a function owes.
//!
//! Of equal copies of a permission the rules let any go; the calls take the first, and so promise one state. What is
//! added stands at the end. `specs/Laws.antt` says that the rules don't look at the order of a state. A rule that changes
//! more than one permission works on a copy of the state, so that want of memory leaves the state whole.
#![tactic(auto)]

mod adding;
mod block;
mod branches;
mod calling;
mod changing;
mod ending;
mod laws;
mod plain;
mod walking;

pub use branches::branch_state;
pub use ending::end_rule;
pub use laws::{branch_leads_to_one, branch_order_is_free, leads_to_one, order_is_free};
pub use mz_modes::RuleFault;
pub use plain::plain_rule;
pub use walking::{walked, walked_body};
