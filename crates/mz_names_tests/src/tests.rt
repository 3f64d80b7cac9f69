//! Tables of names: what is pushed in order, and what is found then.
use mz_names::Scope;
use mz_tree::Memory;
use std::alloc::Global;
use std::test::Fail;

/// The names that are pushed, each with its place in this table.
const PUSHED: &[&[u8]] = &[
    b"x",
    b"y",
    b"xy",
    b"x",
    b"",
    b"yx",
    b"xyz",
    b"\x00",
    b"0123456789012345678901234567890123456789012345678901234567890123",
    b"01234567890123456789012345678901234567890123456789012345678901234",
    b"01234567890123456789012345678901234567890123456789012345678901235",
    b"01234567890123456789012345678901234567890123456789012345678901234",
];

/// What a row is about, a name, and what is found for it.
type Row = (&'static str, &'static [u8], Option<u32>);

const FOUND: &[Row] = &[
    ("a name that comes twice", b"x", Some(0)),
    ("a name", b"y", Some(1)),
    ("a name behind one that it begins with", b"xy", Some(2)),
    ("no byte", b"", Some(4)),
    ("the same bytes in another order", b"yx", Some(5)),
    ("three bytes", b"xyz", Some(6)),
    ("the byte zero", b"\x00", Some(7)),
    (
        "64 bytes",
        b"0123456789012345678901234567890123456789012345678901234567890123",
        Some(8),
    ),
    (
        "65 bytes, of which the last counts, twice",
        b"01234567890123456789012345678901234567890123456789012345678901234",
        Some(9),
    ),
    (
        "65 bytes, of which the last counts",
        b"01234567890123456789012345678901234567890123456789012345678901235",
        Some(10),
    ),
    (
        "65 bytes that no name has",
        b"01234567890123456789012345678901234567890123456789012345678901236",
        None,
    ),
    ("a byte that no name begins with", b"z", None),
    ("a last byte that no name has", b"xx", None),
    ("a name and one byte more", b"xyzz", None),
    ("the byte zero twice", b"\x00\x00", None),
    (
        "a name without its last byte",
        b"012345678901234567890123456789012345678901234567890123456789012",
        None,
    ),
];

/// What is found where the name z is pushed, too.
const GROWN: &[Row] = &[
    ("what is pushed to the original", b"z", Some(20)),
    ("what is pushed to the copy", b"xx", None),
    ("what both have", b"xyz", Some(6)),
];

/// What is found in a copy from before, where the name xx is pushed.
const OTHER: &[Row] = &[
    ("what is pushed to the original", b"z", None),
    ("what is pushed to the copy", b"xx", Some(21)),
    ("what both have", b"xyz", Some(6)),
];

/// These names, each with its place among them.
fn pushed(alloc: Global, names: &[&[u8]]) -> Result<Scope, Memory> {
    let mut scope = Scope::new();
    let mut number = 0u32;
    for k in 0..names.len() {
        scope.push(alloc, names[k], number)?;
        number = number.saturating_add(1);
    }
    Ok(scope)
}

/// The first of the rows whose name isn't found as it says.
fn wrong(scope: &Scope, rows: &[Row]) -> Option<&'static str> {
    for k in 0..rows.len() {
        if scope.find(rows[k].1) != rows[k].2 {
            return Some(rows[k].0);
        }
    }
    None
}

#[test]
fn the_first_of_equal_names_is_found(rt: HostRuntime) -> Result<(), Fail> {
    let scope = pushed(rt.alloc(), PUSHED)?;
    assert_eq!(rt; wrong(&scope, FOUND), None);
    Ok(())
}

#[test]
fn a_copy_and_its_original_grow_apart(rt: HostRuntime) -> Result<(), Fail> {
    let alloc = rt.alloc();
    let mut scope = pushed(alloc, PUSHED)?;
    let mut copy = scope.copy()?;
    scope.push(alloc, b"z", 20)?;
    copy.push(alloc, b"xx", 21)?;
    assert_eq!(rt; wrong(&scope, GROWN), None);
    assert_eq!(rt; wrong(&copy, OTHER), None);
    Ok(())
}
