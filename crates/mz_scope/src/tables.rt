//! The tables of a source are filled, from its first declaration to its last: data types and signatures, constructors with
//! their fields, the parameters of signatures, and functions.
ghost use Rattle.std.specs.Prelude.{◌≡◌, ◌+◌, ◌++◌, ◌∷◌, [], List, ℕ, map, length, IfOk};
ghost use Rattle.std.specs.Option.{option_map};
ghost use Rattle.mz_token.specs.Tokens.{text_of};
ghost use Rattle.mz_scope.specs.Syntax.{Declaration as PlainDeclaration, FieldTree, ParamTree};
ghost use Rattle.mz_scope.specs.Trees.{tree_of, word_of, declaration_tree, field_tree, con_tree, param_tree, fun_tree};
ghost use Rattle.mz_scope.specs.Names.{numbered, type_names, con_names, con_names_in, con_entry, param_lists, fun_names, sig_number, param_count};
ghost use Rattle.mz_scope.specs.Types.{names_in};
ghost use Rattle.mz_scope.specs.NameMaps.{found};
ghost use Rattle.mz_scope.specs.Tables.{types_in, IsTypeTable, AddsType, AddsTypes, cons_in, IsConTable, marked_all, Marks, AddsCon, AddsConsOf, AddsCons, param_word, params_in, funs_in, IsFunTable, AddsFun};

use crate::con_entry::{ConEntry, ConTable, NamedCon};
use crate::entries::{
    FunEntry, FunTable, Holder, NamedFun, NamedType, Param, Params, TypeEntry, TypeName, TypeTable,
};
use crate::name_map::NameMap;
use mz_names::FieldList;
use mz_parse::{
    Constructor, Declaration, FieldDeclaration, FunctionDeclaration, Parameter, Surface,
};
use mz_token::Token;
use mz_tree::Memory;
use sqlite_items::{Items, at};
use std::alloc::Global;

// the bytes of a token
fn spelled<'a>(text: &'a [u8], token: &Token) -> &'a [u8]
    ensures { result.now ≡ text_of text.now token.now }
{
    let end = (token.end as usize).min(text.len());
    let start = (token.start as usize).min(end);
    &text[start..end]
}

// a number in 32 bits; no memory holds more than these
fn in_32_bits(number: usize) -> Result<u32, Memory>
    ensures { IfOk result (λ n. n ≡ number) }
{
    match u32::try_from(number) {
        Ok(number) => Ok(number),
        Err(_) => Err(Memory),
    }
}

// one more
fn next(number: u32) -> Result<u32, Memory>
    ensures { IfOk result (λ n. n ≡ number + 1) }
{
    match number.checked_add(1) {
        Some(next) => Ok(next),
        None => Err(Memory),
    }
}

// ---- data types and signatures

// one more data type or signature
fn add_type(
    alloc: Global,
    name: &[u8],
    stands_for: TypeName,
    table: &mut TypeTable,
) -> Result<(), Memory>
    requires kept { IsTypeTable table.old }
    ensures { IfOk result (λ _. AddsType table.old name.now stands_for table.new) }
{
    let entry = TypeEntry {
        position: in_32_bits(table.list.len())?,
        stands_for,
    };
    table.first.add(alloc, name, entry)?;
    table.list.push(NamedType {
        name: Items::from_slice(alloc, name)?,
        entry,
    })?;
    Ok(())
}

// how many data types and signatures there are so far
#[derive(Clone, Copy, Debug, PartialEq, Eq)]
struct Counts {
    datas: u32,
    sigs: u32,
}

// one more declaration, which may be of a data type or of a signature
fn add_types(
    alloc: Global,
    text: &[u8],
    declaration: &Declaration,
    counts: &mut Counts,
    table: &mut TypeTable,
) -> Result<(), Memory>
    requires kept { IsTypeTable table.old }
    ensures { IfOk result (λ _. AddsTypes counts.old.datas counts.old.sigs table.old (declaration_tree text.now declaration.now) counts.new.datas counts.new.sigs table.new) }
{
    match declaration {
        Declaration::Data(x) => {
            let number = counts.datas;
            add_type(alloc, spelled(text, &x.name), TypeName::Data(number), table)?;
            counts.datas = next(number)?;
            Ok(())
        }
        Declaration::Signature(x) => {
            let number = counts.sigs;
            add_type(alloc, spelled(text, &x.name), TypeName::Sig(number), table)?;
            counts.sigs = next(number)?;
            Ok(())
        }
        Declaration::Function(_) => Ok(()),
    }
}

/// The data types and signatures of a source.
pub(crate) fn type_table(alloc: Global, surface: &Surface) -> Result<TypeTable, Memory>
    ensures { IfOk result (λ t. IsTypeTable t × (types_in t.list ≡ type_names 0 0 (tree_of surface.now))) }
{
    let text = surface.text.as_slice();
    let declarations = surface.declarations.as_slice();
    let mut counts = Counts { datas: 0, sigs: 0 };
    let mut table = TypeTable {
        list: Items::new(alloc),
        first: NameMap::new(alloc),
    };
    for i in 0..declarations.len() {
        add_types(alloc, text, &declarations[i], &mut counts, &mut table)?;
    }
    Ok(table)
}

// ---- constructors

// the fields of a constructor with their numbers
fn fields_of(alloc: Global, text: &[u8], fields: &[FieldDeclaration]) -> Result<FieldList, Memory>
    ensures { IfOk result (λ s. s ≡ numbered 0 (map (λ (f : FieldTree). f.name) (map (field_tree text.now) fields.now))) }
{
    let mut scope = FieldList::new(alloc);
    for i in 0..fields.len() {
        scope.push(alloc, spelled(text, &fields[i].name), in_32_bits(i)?)?;
    }
    Ok(scope)
}

// the constructor at a place has a field
fn mark(
    alloc: Global,
    field: &[u8],
    place: u32,
    holders: &mut NameMap<Holder>,
) -> Result<(), Memory>
    ensures { IfOk result (λ _. Marks holders.old.first place field.now holders.new.first) }
{
    let holder = match holders.get(field) {
        None => Holder {
            place,
            shared: false,
        },
        Some(holder) => Holder {
            place: holder.place,
            shared: holder.shared || holder.place != place,
        },
    };
    holders.set(alloc, field, holder)
}

// the constructor at a place has these fields
fn mark_all(
    alloc: Global,
    fields: &FieldList,
    place: u32,
    holders: &mut NameMap<Holder>,
) -> Result<(), Memory>
    ensures { IfOk result (λ _. (field : List ℕ) → found holders.new.first field ≡ marked_all place (names_in fields.now) field (found holders.old.first field)) }
{
    for i in 0..fields.len() {
        mark(alloc, fields.text_at(i), place, holders)?;
    }
    Ok(())
}

// one more constructor, of this data type
fn add_con(
    alloc: Global,
    text: &[u8],
    variety: u32,
    con: &Constructor,
    table: &mut ConTable,
) -> Result<(), Memory>
    requires kept { IsConTable table.old }
    ensures { IfOk result (λ _. AddsCon variety table.old (con_tree text.now con.now) table.new) }
{
    let number = in_32_bits(table.list.len())?;
    let name = spelled(text, &con.name);
    let fields = fields_of(alloc, text, con.fields.as_slice())?;
    table.first.add(alloc, name, number)?;
    mark_all(alloc, &fields, number, &mut table.holders)?;
    table.list.push(NamedCon {
        name: Items::from_slice(alloc, name)?,
        con: ConEntry {
            number,
            variety,
            fields,
        },
    })?;
    Ok(())
}

// the constructors of a data type
fn add_cons_of(
    alloc: Global,
    text: &[u8],
    variety: u32,
    cons: &[Constructor],
    table: &mut ConTable,
) -> Result<(), Memory>
    requires kept { IsConTable table.old }
    ensures { IfOk result (λ _. AddsConsOf variety table.old (map (con_tree text.now) cons.now) table.new) }
{
    for i in 0..cons.len() {
        add_con(alloc, text, variety, &cons[i], table)?;
    }
    Ok(())
}

// one more declaration, which may be of a data type, after so many of them
fn add_cons(
    alloc: Global,
    text: &[u8],
    declaration: &Declaration,
    datas: &mut u32,
    table: &mut ConTable,
) -> Result<(), Memory>
    requires kept { IsConTable table.old }
    ensures { IfOk result (λ _. AddsCons datas.old table.old (declaration_tree text.now declaration.now) datas.new table.new) }
{
    match declaration {
        Declaration::Data(x) => {
            add_cons_of(alloc, text, *datas, x.cons.as_slice(), table)?;
            *datas = next(*datas)?;
            Ok(())
        }
        Declaration::Signature(_) => Ok(()),
        Declaration::Function(_) => Ok(()),
    }
}

/// The constructors of a source.
pub(crate) fn con_table(alloc: Global, surface: &Surface) -> Result<ConTable, Memory>
    ensures { IfOk result (λ t. IsConTable t × (cons_in t.list ≡ con_names 0 0 (tree_of surface.now))) }
{
    let text = surface.text.as_slice();
    let declarations = surface.declarations.as_slice();
    let mut datas = 0;
    let mut table = ConTable {
        list: Items::new(alloc),
        first: NameMap::new(alloc),
        holders: NameMap::new(alloc),
    };
    for i in 0..declarations.len() {
        add_cons(alloc, text, &declarations[i], &mut datas, &mut table)?;
    }
    Ok(table)
}

// ---- parameters of signatures

// the parameters of a signature
fn params_of(alloc: Global, text: &[u8], params: &[Parameter]) -> Result<Params, Memory>
    ensures { IfOk result (λ it. map param_word it ≡ map (λ (p : ParamTree). p.name) (map (param_tree text.now) params.now)) }
{
    let mut all = Items::new(alloc);
    for i in 0..params.len() {
        all.push(Param {
            name: Items::from_slice(alloc, spelled(text, &params[i].name))?,
            place: params[i].name.place,
        })?;
    }
    Ok(all)
}

/// The parameters of each signature of a source.
pub(crate) fn param_table(alloc: Global, surface: &Surface) -> Result<Items<Params>, Memory>
    ensures { IfOk result (λ it. params_in it ≡ param_lists (tree_of surface.now)) }
{
    let text = surface.text.as_slice();
    let declarations = surface.declarations.as_slice();
    let mut all = Items::new(alloc);
    for i in 0..declarations.len() {
        match &declarations[i] {
            Declaration::Data(_) => {}
            Declaration::Signature(x) => all.push(params_of(alloc, text, x.params.as_slice())?)?,
            Declaration::Function(_) => {}
        }
    }
    Ok(all)
}

// ---- functions

// how many parameters the signature of a name has
fn param_count(types: &TypeTable, params: &[Params], name: &[u8]) -> Result<Option<u32>, Memory>
    requires kept { IsTypeTable types.now }
    ensures { IfOk result (λ count. count ≡ param_count (types_in types.now.list) (params_in params.now) name.now) }
{
    let Some(entry) = types.first.get(name) else {
        return Ok(None);
    };
    match entry.stands_for {
        TypeName::Data(_) => Ok(None),
        TypeName::Sig(number) => match at(params, number as usize) {
            None => Ok(None),
            Some(all) => Ok(Some(in_32_bits(all.len())?)),
        },
    }
}

// one more function
fn add_fun(
    alloc: Global,
    text: &[u8],
    types: &TypeTable,
    params: &[Params],
    function: &FunctionDeclaration,
    table: &mut FunTable,
) -> Result<(), Memory>
    requires types { IsTypeTable types.now }
    requires kept { IsFunTable table.old }
    ensures { IfOk result (λ _. AddsFun (types_in types.now.list) (params_in params.now) table.old (fun_tree text.now function.now) table.new) }
{
    let name = spelled(text, &function.name);
    let entry = FunEntry {
        number: in_32_bits(table.list.len())?,
        params: param_count(types, params, spelled(text, &function.sig))?,
    };
    table.first.add(alloc, name, entry)?;
    table.list.push(NamedFun {
        name: Items::from_slice(alloc, name)?,
        entry,
    })?;
    Ok(())
}

/// The functions of a source, whose data types, signatures and parameters these are.
pub(crate) fn fun_table(
    alloc: Global,
    surface: &Surface,
    types: &TypeTable,
    params: &[Params],
) -> Result<FunTable, Memory>
    requires types { IsTypeTable types.now }
    ensures { IfOk result (λ t. IsFunTable t × (funs_in t.list ≡ fun_names (types_in types.now.list) (params_in params.now) 0 (tree_of surface.now))) }
{
    let text = surface.text.as_slice();
    let declarations = surface.declarations.as_slice();
    let mut table = FunTable {
        list: Items::new(alloc),
        first: NameMap::new(alloc),
    };
    for i in 0..declarations.len() {
        match &declarations[i] {
            Declaration::Data(_) => {}
            Declaration::Signature(_) => {}
            Declaration::Function(x) => add_fun(alloc, text, types, params, x, &mut table)?,
        }
    }
    Ok(table)
}
