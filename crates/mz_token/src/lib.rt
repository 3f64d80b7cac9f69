//! The front of the front end: it cuts the bytes of a source into tokens.
//!
//! It stands on `specs/Lexes.antt`: a text is cut into pieces (white space, comments and words), each the longest that
//! stands there, and its tokens are the words with their spans and places. The promise of `tokens` is that the tokens
//! that it gives are those, that nothing else is a list of tokens of the text, and that a refusal names the first place
//! where no lawful piece stands, with the reason.
//!
//! Design choices: a token's text is its span of the one source text, with no copy of its own. What a piece is
//! (`specs/Shapes.antt`) is said of whole texts, and which piece stands at a place by comparing whole fronts, so that no
//! definition follows the scan. The keys and the marks are two tables, and a token holds the number in its table.
#![tactic(auto)]

mod bytes;
mod laws;
mod pieces;
mod scan;
mod tables;
mod token;

pub use laws::{at_most_one_fault, at_most_one_list, no_list_and_fault, tokens_or_fault};
pub use scan::tokens;
pub use token::{Kind, LexFault, Token, Tokens};

#[cfg(test)]
mod tests;
