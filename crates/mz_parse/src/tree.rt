//! The tree of a source above the bodies of its functions: one struct or variant for each alternative of the grammar, with
//! its parts in written order. Its leaves are the tokens, from which names and places are taken; the marks and keys that
//! tell nothing aren't kept.
use crate::Block;
use mz_token::Token;
use mz_tree::{Place, Text};
use mz_types::{SurfaceAtom, SurfaceType};
use sqlite_items::Items;
use std::alloc::AllocError;
use thiserror::Error;

/// A whole source: its bytes, which the tokens of the tree point into, and its declarations.
#[derive(Drop)]
pub struct Surface {
    pub text: Text,
    pub declarations: Items<Declaration>,
}

/// A data type, a signature or a function.
#[derive(Drop)]
pub enum Declaration {
    Data(DataDeclaration),
    Signature(SignatureDeclaration),
    Function(FunctionDeclaration),
}

/// `data [mutable] name [adopts other] = con | con ..`, with one constructor or more. `key` is the word `data`, `mutable`
/// the word of that name, and `adopts` the name behind `adopts`.
#[derive(Drop)]
pub struct DataDeclaration {
    pub key: Token,
    pub mutable: Option<Token>,
    pub name: Token,
    pub adopts: Option<Token>,
    pub cons: Items<Constructor>,
}

/// `Name { field; field .. }`
#[derive(Drop)]
pub struct Constructor {
    pub name: Token,
    pub fields: Items<FieldDeclaration>,
}

/// `name : ty`
#[derive(Drop)]
pub struct FieldDeclaration {
    pub name: Token,
    pub ty: SurfaceType,
}

/// `sig name = (parameters | needs) -> (result : ty | gives)`. Without the mark `|` there are no needs, and nothing is
/// given. `key` is the word `sig`.
#[derive(Drop)]
pub struct SignatureDeclaration {
    pub key: Token,
    pub name: Token,
    pub params: Items<Parameter>,
    pub needs: Items<NeedDeclaration>,
    pub result: Token,
    pub ty: SurfaceType,
    pub gives: Items<SurfaceAtom>,
}

/// `[consumes] name : ty`, where `consumes` is the word of that name.
#[derive(Drop)]
pub struct Parameter {
    pub consumes: Option<Token>,
    pub name: Token,
    pub ty: SurfaceType,
}

/// `[consumes] atom`
#[derive(Drop)]
pub struct NeedDeclaration {
    pub consumes: Option<Token>,
    pub atom: SurfaceAtom,
}

/// `fun name : sig = block`, where `key` is the word `fun`.
#[derive(Drop)]
pub struct FunctionDeclaration {
    pub key: Token,
    pub name: Token,
    pub sig: Token,
    pub block: Block,
}

/// Why tokens spell no tree, with the first place where that shows.
#[derive(Clone, Copy, Debug, PartialEq, Eq, Error)]
pub enum SyntaxFault {
    /// The token there can't follow those before it; or the text ends too early, at the place after its last byte.
    #[error("unexpected token or end of the source at {0}")]
    Unexpected(Place),
    /// The bracket there would be one more than may be open at once.
    #[error("too many open brackets at {0}")]
    TooDeep(Place),
    /// Want of memory.
    #[error("not enough memory to hold the tree of the source")]
    Memory,
}

impl From<AllocError> for SyntaxFault {
    ghost use Rattle.std.specs.Prelude.{◌≡◌};
    ghost use Rattle.mz_parse.specs.declared.tree.SyntaxFault.TheVariants.{Memory};

    ghost from_gives = { λ _ e. e ≡ Memory };

    fn from(_: AllocError) -> Self {
        SyntaxFault::Memory
    }
}
