//! The tree of a function's body: blocks, items and expressions, which hold each other.
use mz_token::Token;
use mz_types::SurfaceAtom;
use sqlite_items::{Boxed, Items};

/// `{ item; item; .. last }`: the items that a `;` ends, the last one if none ends it, and the two braces.
#[cycle(bodies)]
#[derive(Drop)]
pub struct Block {
    pub open: Token,
    pub items: Items<BlockItem>,
    pub last: Option<Boxed<BlockItem>>,
    pub close: Token,
}

/// One item of a block.
#[cycle(bodies)]
#[derive(Drop)]
pub enum BlockItem {
    /// `let name = value`
    Let {
        key: Token,
        name: Token,
        value: Expression,
    },
    /// An expression alone.
    Plain(Expression),
}

/// An expression. `key` is the word that it begins with, and `mark` the mark `<-`.
#[cycle(bodies)]
#[derive(Drop)]
pub enum Expression {
    /// A comparison, a sum, a product or less.
    Plain(Comparison),
    /// `target <- value`, where the target ends in a select.
    Write {
        target: Postfix,
        mark: Token,
        value: Comparison,
    },
    /// `print value`
    Print {
        key: Token,
        value: Comparison,
    },
    /// `if test then yes else no [giving atoms]`. Without `giving` there are no atoms.
    If {
        key: Token,
        test: Comparison,
        yes: Boxed<Block>,
        no: Boxed<Block>,
        giving: Items<SurfaceAtom>,
    },
    /// `match name { case case .. } [giving atoms]`, with one case or more
    Match {
        key: Token,
        name: Token,
        cases: Items<Case>,
        giving: Items<SurfaceAtom>,
    },
    /// `retag name from con to con`
    Retag {
        key: Token,
        name: Token,
        from: Token,
        to: Token,
    },
    /// `give name to other`
    Give {
        key: Token,
        name: Token,
        to: Token,
    },
    /// `take name from other`
    Take {
        key: Token,
        name: Token,
        from: Token,
    },
    /// `acquire name`
    Acquire {
        key: Token,
        name: Token,
    },
    /// `release name`
    Release {
        key: Token,
        name: Token,
    },
    /// `spawn name(argument)`
    Spawn {
        key: Token,
        name: Token,
        argument: Boxed<Expression>,
    },
}

/// `con -> block`
#[cycle(bodies)]
#[derive(Drop)]
pub struct Case {
    pub con: Token,
    pub block: Block,
}

/// A sum, or two with a comparison between.
#[cycle(bodies)]
#[derive(Drop)]
pub struct Comparison {
    pub left: Sum,
    pub right: Option<Boxed<Comparing>>,
}

/// `mark sum`, where the mark is one of `==`, `!=`, `<`, `<=`, `>`, `>=`.
#[cycle(bodies)]
#[derive(Drop)]
pub struct Comparing {
    pub mark: Token,
    pub right: Sum,
}

/// `first + product - product ..`, from left to right
#[cycle(bodies)]
#[derive(Drop)]
pub struct Sum {
    pub first: Product,
    pub terms: Items<Term>,
}

/// `mark product`, where the mark is `+` or `-`.
#[cycle(bodies)]
#[derive(Drop)]
pub struct Term {
    pub mark: Token,
    pub product: Product,
}

/// `first * part / part ..`, from left to right
#[cycle(bodies)]
#[derive(Drop)]
pub struct Product {
    pub first: Postfix,
    pub factors: Items<Factor>,
}

/// `mark part`, where the mark is `*`, `/` or `%`.
#[cycle(bodies)]
#[derive(Drop)]
pub struct Factor {
    pub mark: Token,
    pub part: Postfix,
}

/// `base.field.Con.field ..`: from left to right, each reads a field of what stands before it.
#[cycle(bodies)]
#[derive(Drop)]
pub struct Postfix {
    pub base: Primary,
    pub selects: Items<Select>,
}

/// `.field` or `.Con.field`
#[derive(Clone, Copy, Debug, PartialEq, Eq)]
pub struct Select {
    pub con: Option<Token>,
    pub field: Token,
}

/// What is no expression made of others by a mark.
#[cycle(bodies)]
#[derive(Drop)]
pub enum Primary {
    /// A number.
    Number(Token),
    /// A name.
    Name(Token),
    /// `callee(argument, argument ..)`
    Call {
        callee: Token,
        arguments: Items<Expression>,
    },
    /// `()`, where `open` is the opening bracket.
    Unit {
        open: Token,
    },
    /// `(inner)`, where `open` is the opening bracket.
    Group {
        open: Token,
        inner: Boxed<Expression>,
    },
    /// `Con { field = value; field = value .. }`
    Construct {
        con: Token,
        fields: Items<FieldValue>,
    },
    /// `newlock (atoms)`, where `key` is the word `newlock`.
    NewLock {
        key: Token,
        guarded: Items<SurfaceAtom>,
    },
}

/// `field = value`
#[cycle(bodies)]
#[derive(Drop)]
pub struct FieldValue {
    pub field: Token,
    pub value: Expression,
}
