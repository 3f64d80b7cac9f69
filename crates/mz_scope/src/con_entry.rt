//! Constructors with their fields, and the list of them.
use crate::entries::Holder;
use crate::name_map::NameMap;
use mz_names::FieldList;
use mz_tree::Text;
use sqlite_items::Items;
use std::marker::Model;

/// A constructor: its number, that of its data type, and its fields.
#[derive(Drop)]
pub(crate) struct ConEntry {
    pub(crate) number: u32,
    pub(crate) variety: u32,
    pub(crate) fields: FieldList,
}

impl Model for ConEntry {
    ghost use Rattle.mz_scope.specs.Names.{ConEntry as PlainCon};

    ghost Value = { PlainCon };

    ghost view = { λ c. record { number = c.number; variety = c.variety; fields = c.fields } };
}

/// The name of a constructor.
#[derive(Drop)]
pub(crate) struct NamedCon {
    pub(crate) name: Text,
    pub(crate) con: ConEntry,
}

/// All constructors, in order; the place of the first of each name; and for each field the first that has it.
#[derive(Drop)]
pub(crate) struct ConTable {
    pub(crate) list: Items<NamedCon>,
    pub(crate) first: NameMap<u32>,
    pub(crate) holders: NameMap<Holder>,
}
