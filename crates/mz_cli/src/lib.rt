//! The whole of what the program does: words and bytes in, a status and a text out.
//!
//! It stands on `specs/Outcome.antt`, which says by cases on the status why it comes and what is written, and through it on
//! what it is that bytes are the text of a program (the crate mz_scope), the causes of refusals and their texts
//! (`specs/Refusals.antt`), the first form (`specs/FirstForm.antt`), the derivations of programs (the crate mz_deriv), and
//! the steps and the safety of the named machine (the crate mz_named), of which `specs/Running.antt` names runs. The promise
//! of `mezzo` is that what is written is the prints of a run of the program that the source is a text of, that this program
//! has a derivation by the permission rules, that it is safe, and that each other answer has its cause, a refusal the first
//! of all causes. Four laws add that a text has at most one program, that all runs of its `main` that come to an end or a
//! stop come to the same, that a source has at most one refusal, and that one that runs has none.
//!
//! Design choices: the whole text is made before its first byte is written. The whole language is read, and a text that
//! isn't of the first form is refused last of all, so that this refusal alone goes when more is run. The run is a loop of
//! steps of the named machine, one for each command of `main` and one more (`proofs/Standing.antt`). No derivation is made
//! or checked when the program runs: a proposer (`proofs/Proposed.antt`) names the derivation of each program of the form,
//! what is read of such a program (`proofs/Cells.antt`) is all that it needs, and the law of ownership (the crate
//! mz_resource) makes it safe (`proofs/Ready.antt`).
#![tactic(auto)]

mod first;
mod form;
mod input;
mod laws;
mod refusal;
mod run;
mod status;
mod text;
mod top;
mod verify;
mod words;

pub use laws::{
    at_most_one_outcome, at_most_one_refusal, at_most_one_verify_refusal,
    nothing_runs_and_is_refused, nothing_verified_is_refused,
};
pub use status::Status;
pub use top::{mezzo, mezzo_plain};
