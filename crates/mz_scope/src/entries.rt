//! What names of the top level stand for, and the lists of what is declared.
use crate::name_map::NameMap;
use mz_tree::{Place, Text};
use sqlite_items::Items;

/// What a name stands for that is used as a type.
#[derive(Clone, Copy, Debug, PartialEq, Eq)]
pub(crate) enum TypeName {
    /// The data type of this number.
    Data(u32),
    /// The signature of this number.
    Sig(u32),
}

/// A data type or a signature, and how many of both are declared before it.
#[derive(Clone, Copy, Debug, PartialEq, Eq)]
pub(crate) struct TypeEntry {
    pub(crate) position: u32,
    pub(crate) stands_for: TypeName,
}

/// The name of a data type or of a signature.
#[derive(Drop)]
pub(crate) struct NamedType {
    pub(crate) name: Text,
    pub(crate) entry: TypeEntry,
}

/// All data types and signatures, in order, and the first of each name.
#[derive(Drop)]
pub(crate) struct TypeTable {
    pub(crate) list: Items<NamedType>,
    pub(crate) first: NameMap<TypeEntry>,
}

/// A parameter, and where it is declared.
#[derive(Drop)]
pub(crate) struct Param {
    pub(crate) name: Text,
    pub(crate) place: Place,
}

/// The parameters of a signature, in order.
pub(crate) type Params = Items<Param>;

/// A function: its number, and how many parameters its signature has, where that is declared.
#[derive(Clone, Copy, Debug, PartialEq, Eq)]
pub(crate) struct FunEntry {
    pub(crate) number: u32,
    pub(crate) params: Option<u32>,
}

/// The name of a function.
#[derive(Drop)]
pub(crate) struct NamedFun {
    pub(crate) name: Text,
    pub(crate) entry: FunEntry,
}

/// All functions, in order, and the first of each name.
#[derive(Drop)]
pub(crate) struct FunTable {
    pub(crate) list: Items<NamedFun>,
    pub(crate) first: NameMap<FunEntry>,
}

/// Of the constructors with a field, the place of the first in their list, and whether there is another.
#[derive(Clone, Copy, Debug, PartialEq, Eq)]
pub(crate) struct Holder {
    pub(crate) place: u32,
    pub(crate) shared: bool,
}
