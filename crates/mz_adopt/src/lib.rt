//! Adoption: giving a block to an adopter, and taking it back.
//!
//! A block that is given loses its permission and keeps `x @ dynamic`, with which anybody may ask the adopter for it; a
//! take gives the permission back and leaves the question of whether the block is there to the running program. `give_rule`
//! and `take_rule` change a state by the rules in `specs/Adopting.antt`, where `AdoptionRule` is the sum of the two, or
//! say that there is no instance, or that memory is wanting; a refusal leaves the state as it was.
//!
//! Three choices. What a block adopts is told by the permission that the command names: a data type adopts what it is
//! declared to, and a structural type what stands behind it and nothing else, also where its data type adopts something.
//! A give takes out the block first and asks for the adopter's permission then, so that no block is given to itself. The
//! rules let any of several equal copies go; the calls take the first, and where they find no instance there is none
//! whichever goes. `specs/Laws.antt` says that the rules don't look at the order of a state.
#![tactic(auto)]

mod adopter;
mod giving;
mod laws;
mod taking;

pub use giving::give_rule;
pub use laws::{leads_to_one, order_is_free};
pub use taking::take_rule;

#[cfg(test)]
mod tests;
