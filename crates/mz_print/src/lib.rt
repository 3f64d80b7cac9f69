//! Prints: the numbers that a run printed.
//!
//! Each thread's record has its own prints alone. The order of all of them is that of the tickets, which every print draws from one
//! word. `prints` gives the numbers in that order (`specs/Prints.antt`). The definition doesn't speak of sorting: it says at
//! which place each number stands, and a law says that no other list is meant. The code puts each number at its ticket, so its
//! time is linear. That the tickets are 0, 1, 2 and so on is asked of the report: whoever makes one knows it.
#![tactic(auto)]

mod laws;
mod printing;

pub use laws::{prints_are_one, reports_print_in_order};
pub use printing::prints;
