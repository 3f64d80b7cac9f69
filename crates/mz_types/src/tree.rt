//! The tree of types and of permissions (atoms) as they are written. Its leaves are the tokens, from which names and places
//! are taken, and its parts stand in written order. Types hold atoms in a `lock`, and atoms hold types.

use mz_token::Token;
use sqlite_items::Items;

/// `field = name` in a structural type: the field holds the value of that name.
#[derive(Clone, Copy, Debug, PartialEq, Eq)]
pub struct FieldName {
    pub field: Token,
    pub name: Token,
}

/// A type.
#[cycle(tree)]
#[derive(Drop)]
pub enum SurfaceType {
    /// `int`
    Int(Token),
    /// `unknown`
    Unknown(Token),
    /// `dynamic`
    Dynamic(Token),
    /// `locked`
    Locked(Token),
    /// `= name`, where `mark` is the `=`
    Singleton {
        mark: Token,
        name: Token,
    },
    /// A data type or a signature, by its name
    Named(Token),
    /// `lock (guarded)`, where `key` is the word `lock`
    Lock {
        key: Token,
        guarded: Items<SurfaceAtom>,
    },
    /// `con { fields }`, and perhaps the data type that it adopts
    Structure {
        con: Token,
        fields: Items<FieldName>,
        adopts: Option<Token>,
    },
}

/// An atom: a permission for one name, or an equation of two.
#[cycle(tree)]
#[derive(Drop)]
pub enum SurfaceAtom {
    /// `name @ ty`
    Has { name: Token, ty: SurfaceType },
    /// `left = right`
    Same { left: Token, right: Token },
}
