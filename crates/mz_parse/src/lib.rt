//! The second step of the front end: from the tokens of a source to its tree.
//!
//! It stands on `specs/Grammar.antt`, the grammar of the language as relations between tokens and the tree that they spell,
//! one for each alternative, and on the grammar of types below it; `specs/Parses.antt` says what a tree of tokens is, and
//! what is wrong where they have none. The promise of `parse` is exact: it gives the tree where the tokens have one within
//! the limit of brackets, and that tree alone; else it names the first token that can't stand where it does, the end that
//! comes too early, or the first bracket that is one too many. Four laws add that tokens have at most one tree, and at
//! most one of these faults, and not both, and that they have one of them.
//!
//! Design choices: the leaves of the tree are tokens, so that names are spans of the one source text, and each part keeps
//! the token that its place is taken from. The grammar is read from left to right with one token of look-ahead, but for a
//! write, which is known behind its target. The functions of the code are proved against readers on lists
//! (`specs/BodyReading`, `specs/DeclarationReading`), and these against the grammar by the lemmas of the combinators
//! (`proofs/BodyProductions`, `ExpressionProductions`, `ExpressionLayers`, `DeclarationProductions`). Only brackets are
//! read by recursion, and the limit bounds it.
#![tactic(auto)]

mod bodies;
mod declarations;
mod expressions;
mod laws;
mod phrases;
mod tree;
mod whole;

pub use bodies::{
    Block, BlockItem, Case, Comparing, Comparison, Expression, Factor, FieldValue, Postfix,
    Primary, Product, Select, Sum, Term,
};
pub use laws::{at_most_one_fault, at_most_one_tree, no_tree_and_fault, tree_or_fault};
pub use tree::{
    Constructor, DataDeclaration, Declaration, FieldDeclaration, FunctionDeclaration,
    NeedDeclaration, Parameter, SignatureDeclaration, Surface, SyntaxFault,
};
pub use whole::parse;
