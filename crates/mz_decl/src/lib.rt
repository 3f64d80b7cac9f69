//! The declarations of a program: data types, constructors, signatures, and where an `adopts` stands.
//!
//! `well_formed` refuses a program where an `adopts` stands on what is immutable, at the first place of all, and else
//! gives its declarations, `Decls`, whose look-ups take no memory. `specs/Places.antt` says what a first place is,
//! `specs/Declarations.antt` what is declared and what is refused, `specs/Contents.antt` what the fields of a block
//! hold, `specs/Signatures.antt` what a signature asks and gives. `Decls` owns copies, so that it can outlive the
//! program and later crates carry no lifetime. Contracts see it by `plain_decls`, as lists in which a number may name
//! nothing. It keeps that each constructor's data type is declared, on which the modes stand.
#![tactic(auto)]

mod decls;
mod faults;
mod form;
mod found;
mod look_ups;
mod numbers;
mod places;

pub use decls::Decls;
pub use faults::immutable_adopter;
pub use form::{DeclFault, declarations, well_formed};
pub use places::earlier;
