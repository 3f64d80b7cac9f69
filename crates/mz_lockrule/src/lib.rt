//! Locks and threads: making a lock, acquiring and releasing it, and starting a function in a thread of its own.
//!
//! A lock guards a list of permissions. Making it takes them from whoever makes it, acquiring it gives them and says that
//! the lock is held, and releasing it takes both. That a lock is held can't be copied, so what was acquired once is
//! released once. A spawn takes all that its function needs and gives nothing back, since nobody waits for the thread.
//! `newlock_rule`, `acquire_rule`, `release_rule` and `spawn_rule` change a state by the rules in `specs/Locking.antt`,
//! where `LockRule` is the sum of the four, or say that there is no instance, or that memory is wanting; a refusal leaves
//! the state as it was.
//!
//! Three choices. The permission of the lock is duplicable and stays, so threads may share it, and one who acquires a
//! lock twice is let through here and waits when the program runs. What is guarded is used up like what a call needs:
//! an affine permission goes, a duplicable one need only be held. The rules let any of several equal copies go; the calls
//! take the first, and where they find no instance there is none whichever goes. `specs/Laws.antt` says that the rules
//! don't look at the order of a state.
#![tactic(auto)]

mod acquire;
mod laws;
mod lock;
mod new_lock;
mod release;
mod spawn;
mod spending;

pub use acquire::acquire_rule;
pub use laws::{leads_to_one, order_is_free};
pub use new_lock::newlock_rule;
pub use release::release_rule;
pub use spawn::spawn_rule;

#[cfg(test)]
mod tests;
