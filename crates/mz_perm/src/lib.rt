//! States: what the checker knows at a place of a body, as a list of permissions.
//!
//! The rules of the checker are stated over a `State`, whose value in contracts is its list of plain atoms. They don't
//! look at its order; the calls here keep it, so that what they give is one list: `add` puts at the end and `remove`
//! takes the first equal atom. `specs/Lists.antt` says what stands in a list, what is left where a copy is taken out,
//! any or the first, and when lists are the same up to order; `specs/Using.antt` what is left where permissions are
//! used up, `specs/Occurrence.antt` where a name occurs, `specs/Joining.antt` which names the equations join.
//! `proofs/Orders.antt` has the laws of order, on which the rules above stand, and `proofs/Firsts.antt` that the first
//! copy is one of the copies. `remove`, `has` and `occurs` take no memory and are exact for every state.
#![tactic(auto)]

mod joining;
mod occurrence;
mod renaming;
mod state;

pub use renaming::substitute;
pub use state::State;

#[cfg(test)]
mod tests;
