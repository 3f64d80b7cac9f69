//! Names and shapes of a source, and its flat program.
//!
//! `resolve` goes once over the tree of a source. It stands on `specs/Syntax.antt` and `specs/Trees.antt` (the tree without
//! brackets and levels), `specs/Names.antt` (what is declared at the top level, where the first declaration of a name
//! counts), `specs/Types.antt`, `Bodies.antt` and `Declarations.antt` (what each part comes to), and `specs/Flattening.antt`
//! and `Faults.antt` (the flat program, and the first of all that is wrong); `specs/Resolves.antt` is its promise.
//! `specs/Reads.antt` says what it is that bytes are the text of a program; that it is scoped then is said by `mz_scoped`.
//!
//! The definition of a part says its commands, its value and its faults together, handed on from left to right as in
//! `specs/Making.antt`: where something is wrong a default stands for it and the walk goes on, so the first fault of all is
//! among those found, whatever places the tokens have. The code mirrors that: one walk over a `Making`, each contract one
//! equation with its part, all faults kept as a list. A name is looked up in an ordered map that has its first declaration.
#![tactic(auto)]

mod bodies;
mod callees;
mod con_entry;
mod counts;
mod data_types;
mod declarations;
mod declares;
mod entries;
mod fault;
mod fields;
mod first;
mod functions;
mod globals;
mod known;
mod laws;
mod look_ups;
mod making;
mod name_map;
mod names;
mod parameters;
mod plain;
mod resolution;
mod select;
mod shapes;
mod signatures;
mod tables;
mod types;
mod words;

pub use laws::at_most_one_program;
pub use resolution::{ScopeFault, resolve};
