//! Goals: the permissions that a command, a join or an end of a body asks for, met by the guided rules.
//!
//! `need` meets one goal, where the rules do, and adds the view steps that lead there; `need_beside` does so while the
//! permission at a place is set aside. `specs/Goals.antt` has the rules as a relation, one constructor for each: a goal,
//! the permissions that are held, and what is left of them. `specs/Needs.antt` has the goals of a command, one after the
//! other, each of which begins without marks, and what it is that a goal can't be met; `specs/Leads.antt` what it is that
//! view steps lead from one state to another; `specs/Answers.antt` what the answers say. Two laws: a goal leads to one
//! state, so that "isn't met" says all that there is to say, and where the rules meet a goal view steps lead there. No
//! step of a goal takes a new name; that is why its steps may be made beside other permissions, on which the second law
//! rests (`proofs/Frames.antt`). Each fold leaves fewer unused blocks and no goal makes any (`proofs/Fewer.antt`), so a
//! goal of goals comes to its end.
//!
//! Marks stand in a list beside the state. A goal works on a copy of the state and collects its steps apart, since only
//! the whole goal is given up. A permission that a step is to use stands at the end of the state that the steps lead to:
//! it gets the goal's name and its type there, each by equations that are made for it and dropped again.
#![tactic(auto)]

mod appending;
mod command;
mod folding;
mod goals;
mod laws;
mod listing;
mod marks;
mod naming;
mod offers;
mod retyping;
mod taking;

pub use command::{need, need_beside};
pub use laws::{leads_to_one, views_lead};
