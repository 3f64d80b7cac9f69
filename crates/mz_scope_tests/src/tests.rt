//! Each refusal at each kind of place, both sides of each limit, and what lawful texts come to.
use mz_parse::parse;
use mz_scope::{ScopeFault, resolve};
use mz_token::tokens;
use mz_tree::Place;
use std::alloc::Global;
use std::test::Fail;
use table::{
    AT_ONE_PLACE, FLAT_BODIES, FLAT_SOURCES, LIMITS, Many, OPERATORS, REFUSED_BODIES,
    REFUSED_SOURCES, Row, Shape,
};
use words::{declared, function};

mod table;
mod words;

/// What a refusal is and where
fn refused(alloc: Global, fault: ScopeFault, out: &mut String) -> Result<(), Fail> {
    let (cause, place) = match fault {
        ScopeFault::Unknown(place) => ("unknown", place),
        ScopeFault::Twice(place) => ("twice", place),
        ScopeFault::Shape(place) => ("shape", place),
        ScopeFault::NotExhaustive(place) => ("lacks", place),
        ScopeFault::TooMany(place) => ("many", place),
        ScopeFault::NoMain => ("no main", Place { line: 1, col: 1 }),
        ScopeFault::Memory => ("memory", Place { line: 1, col: 1 }),
    };
    let text = format!(in alloc; "{} {}:{}", cause, place.line, place.col)?;
    out.push_str(&text)?;
    Ok(())
}

/// What the last function of a text comes to, with `whole` what is declared before it; or why there is no program.
fn told(alloc: Global, text: &[u8], whole: bool) -> Result<String, Fail> {
    let mut out = String::new(alloc);
    if text.len() > 1_000_000 {
        return Ok(out);
    }
    let Ok(found) = tokens(alloc, text) else {
        out.push_str("no tokens")?;
        return Ok(out);
    };
    if found.text.len() > 1_000_000 {
        return Ok(out);
    }
    let Ok(surface) = parse(alloc, &found) else {
        out.push_str("no tree")?;
        return Ok(out);
    };
    match resolve(alloc, &surface) {
        Err(fault) => refused(alloc, fault, &mut out)?,
        Ok(program) => {
            if whole {
                declared(alloc, &program, &mut out)?;
            }
            let count = program.funs.len();
            if let Some(last) = program.funs.get(count.saturating_sub(1)) {
                function(alloc, last, &mut out)?;
            }
        }
    }
    Ok(out)
}

/// Two data types, two signatures, a function, and a `main` with this body on line 7.
fn in_main(alloc: Global, body: &str) -> Result<String, Fail> {
    let mut text = String::from_str(
        alloc,
        "data mutable c = C { f: int; g: int } | D { h: int }
data e = E { f: int } | F { }
sig s = () -> (r: unknown)
sig t = (a: c, b: int) -> (q: unknown)
fun two : t = { () }
fun main : s = {
",
    )?;
    text.push_str(body)?;
    text.push_str("\n}")?;
    Ok(text)
}

/// The first body of the rows that, in `main`, isn't told as its row says.
fn wrong_body(alloc: Global, rows: &[Row]) -> Result<Option<&'static str>, Fail> {
    for row in rows {
        let text = in_main(alloc, row.0)?;
        let got = told(alloc, text.as_bytes(), false)?;
        if got.as_str() != row.1 {
            return Ok(Some(row.0));
        }
    }
    Ok(None)
}

/// The first source of the rows that isn't told as its row says.
fn wrong_source(alloc: Global, rows: &[Row], whole: bool) -> Result<Option<&'static str>, Fail> {
    for row in rows {
        let got = told(alloc, row.0.as_bytes(), whole)?;
        if got.as_str() != row.1 {
            return Ok(Some(row.0));
        }
    }
    Ok(None)
}

#[test]
fn bodies_are_refused(rt: HostRuntime) -> Result<(), Fail> {
    let alloc = rt.alloc();
    assert_eq!(rt; wrong_body(alloc, &REFUSED_BODIES)?, None);
    Ok(())
}

#[test]
fn sources_are_refused(rt: HostRuntime) -> Result<(), Fail> {
    let alloc = rt.alloc();
    assert_eq!(rt; wrong_source(alloc, &REFUSED_SOURCES, false)?, None);
    Ok(())
}

#[test]
fn bodies_are_flattened(rt: HostRuntime) -> Result<(), Fail> {
    let alloc = rt.alloc();
    assert_eq!(rt; wrong_body(alloc, &FLAT_BODIES)?, None);
    Ok(())
}

#[test]
fn operators_are_flattened(rt: HostRuntime) -> Result<(), Fail> {
    let alloc = rt.alloc();
    assert_eq!(rt; wrong_body(alloc, &OPERATORS)?, None);
    Ok(())
}

#[test]
fn declarations_are_flattened(rt: HostRuntime) -> Result<(), Fail> {
    let alloc = rt.alloc();
    assert_eq!(rt; wrong_source(alloc, &FLAT_SOURCES, true)?, None);
    Ok(())
}

/// A text of so many pieces.
fn many(alloc: Global, shape: &Shape, count: u32) -> Result<String, Fail> {
    let mut text = String::from_str(alloc, shape.0)?;
    for i in 0..count {
        if i > 0 {
            text.push_str(shape.3)?;
        }
        let one = format!(in alloc; "{}{}{}", shape.1, i, shape.2)?;
        text.push_str(&one)?;
    }
    text.push_str(shape.4)?;
    Ok(text)
}

/// What a text of so many pieces comes to.
fn many_told(alloc: Global, shape: &Shape, count: u32) -> Result<String, Fail> {
    let text = many(alloc, shape, count)?;
    told(alloc, text.as_bytes(), false)
}

/// The first of the rows that is refused, or isn't refused as its row says where it has one piece more.
fn wrong_limit(alloc: Global, rows: &[Many]) -> Result<Option<&'static str>, Fail> {
    for row in rows {
        let kept = many_told(alloc, &row.0, row.1)?;
        let past = many_told(alloc, &row.0, row.1.saturating_add(1))?;
        if !kept.as_bytes().starts_with(b"fun ") || past.as_str() != row.2 {
            return Ok(Some(row.2));
        }
    }
    Ok(None)
}

/// The first of the rows that isn't told as it says.
fn wrong_fault(alloc: Global, rows: &[Many]) -> Result<Option<&'static str>, Fail> {
    for row in rows {
        let got = many_told(alloc, &row.0, row.1)?;
        if got.as_str() != row.2 {
            return Ok(Some(row.2));
        }
    }
    Ok(None)
}

#[test]
fn limits_are_kept(rt: HostRuntime) -> Result<(), Fail> {
    let alloc = rt.alloc();
    assert_eq!(rt; wrong_limit(alloc, &LIMITS)?, None);
    Ok(())
}

#[test]
fn one_place_has_one_fault(rt: HostRuntime) -> Result<(), Fail> {
    let alloc = rt.alloc();
    assert_eq!(rt; wrong_fault(alloc, &AT_ONE_PLACE)?, None);
    Ok(())
}
