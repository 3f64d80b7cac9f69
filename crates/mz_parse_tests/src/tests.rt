//! What is parsed: each alternative of the grammar, where a refusal stands, and the limit of brackets.
use mz_parse::{SyntaxFault, parse};
use mz_token::{Kind, Token, Tokens, tokens};
use sqlite_items::Items;
use std::alloc::Global;
use std::test::Fail;
use table::{ARROWS_AND_RESULTS, BODIES, DECLARATIONS, Row};

mod table;

/// A program that uses the whole grammar, each key and each mark.
const WHOLE: &str = "data mutable node = Node { v: int; next: dynamic }
data mutable pool adopts node = Pool { head: dynamic; sum: int }
data list = Nil { } | Cons { head: unknown; tail: list }
data held = Held { p: =q; l: lock (p @ pool * q = p); s: Node { v = q; next = q } adopts node; t: locked }
sig start = () -> (r: unknown)
sig work = (consumes n: int, p: pool | consumes n @ int * p = n) -> (r: list | r @ list * p @ pool)
fun go : work = {
  let a = Node { v = 1 + 2 * 3 - 4 / 5 % 6; next = () };
  a.v <- (a.Node.v + n);
  if a.v == 0 then { print 1 } else { } giving result @ list * a = result;
  match a { Node -> { a.v != 1; } Pool -> { 1 < 2; 1 <= 2; 1 > 2; 1 >= 2 } } giving a @ node;
  retag a from Node to Pool;
  give a to p;
  take a from p;
  let l = newlock (p @ pool);
  acquire l;
  release l;
  spawn go(go(a, p));
  Nil { }
}
fun main : start = { }";

/// How many declarations the tokens have, or the fault with its place.
fn told(alloc: Global, found: &Tokens) -> Result<String, Fail> {
    if found.text.len() > 100000 {
        return Ok(String::new(alloc));
    }
    let line = match parse(alloc, found) {
        Ok(surface) => format!(in alloc; "{} declarations", surface.declarations.len())?,
        Err(SyntaxFault::Unexpected(place)) => {
            format!(in alloc; "unexpected {}:{}", place.line, place.col)?
        }
        Err(SyntaxFault::TooDeep(place)) => {
            format!(in alloc; "too deep {}:{}", place.line, place.col)?
        }
        Err(SyntaxFault::Memory) => format!(in alloc; "memory")?,
    };
    Ok(line)
}

/// The same of a text.
fn text_told(alloc: Global, text: &str) -> Result<String, Fail> {
    if text.len() > 100000 {
        return Ok(String::new(alloc));
    }
    let found = tokens(alloc, text.as_bytes())?;
    told(alloc, &found)
}

/// The first text of the rows that, behind this, isn't told as its row says.
fn first_wrong(alloc: Global, before: &str, rows: &[Row]) -> Result<Option<&'static str>, Fail> {
    for row in rows {
        let text = format!(in alloc; "{before}{}", row.0)?;
        let got = text_told(alloc, text.as_str())?;
        if got.as_str() != row.1 {
            return Ok(Some(row.0));
        }
    }
    Ok(None)
}

#[test]
fn declarations_are_read(rt: HostRuntime) -> Result<(), Fail> {
    let alloc = rt.alloc();
    assert_eq!(rt; first_wrong(alloc, "", &DECLARATIONS)?, None);
    Ok(())
}

#[test]
fn bodies_are_read(rt: HostRuntime) -> Result<(), Fail> {
    let alloc = rt.alloc();
    assert_eq!(rt;
        first_wrong(alloc, "fun main : start = {\n", &BODIES)?,
        None
    );
    Ok(())
}

#[test]
fn arrows_and_results_stand_where_they_may(rt: HostRuntime) -> Result<(), Fail> {
    let alloc = rt.alloc();
    assert_eq!(rt;
        first_wrong(alloc, "fun main : start = {\n", &ARROWS_AND_RESULTS)?,
        None
    );
    Ok(())
}

/// The tokens without the one of this number, or with it twice.
fn changed(alloc: Global, found: &Tokens, at: usize, doubled: bool) -> Result<Tokens, Fail> {
    let text = Items::from_slice(alloc, found.text.as_slice())?;
    let mut items = Items::new(alloc);
    for (i, token) in found.items.as_slice().iter().enumerate() {
        if i != at {
            items.push(*token)?;
        } else if doubled {
            items.push(*token)?;
            items.push(*token)?;
        }
    }
    Ok(Tokens { text, items })
}

/// A key without which the rest is a program: `mutable`, `consumes`, `acquire`, `release`, `spawn`, `print`.
fn may_be_dropped(key: u8) -> bool {
    matches!(key, 1 | 5 | 21 | 22 | 23 | 24)
}

// a key twice is unexpected the second time
#[test]
fn keys_are_dropped_and_doubled(rt: HostRuntime) -> Result<(), Fail> {
    let alloc = rt.alloc();
    let found = tokens(alloc, WHOLE.as_bytes())?;
    let got_whole = told(alloc, &found)?;
    assert_eq!(rt; got_whole.as_str(), "8 declarations");
    for (i, token) in found.items.as_slice().iter().enumerate() {
        if let Kind::Key(key) = token.kind {
            let dropped = changed(alloc, &found, i, false)?;
            let got_dropped = told(alloc, &dropped)?;
            let read = got_dropped.as_str() == "8 declarations";
            assert_eq!(rt; read, may_be_dropped(key), "without token {i}");
            let doubled = changed(alloc, &found, i, true)?;
            let got_doubled = told(alloc, &doubled)?;
            let want = format!(in alloc; "unexpected {}:{}", token.place.line, token.place.col)?;
            assert_eq!(rt; got_doubled.as_str(), want.as_str(), "with token {i} twice");
        }
    }
    Ok(())
}

// nothing, each declaration and the first constructor of two end a program; every other front ends too early
#[test]
fn fronts_end_too_early(rt: HostRuntime) -> Result<(), Fail> {
    let alloc = rt.alloc();
    let found = tokens(alloc, WHOLE.as_bytes())?;
    let items = found.items.as_slice();
    let mut programs = 0u32;
    for size in 0..items.len() {
        let text = Items::from_slice(alloc, found.text.as_slice())?;
        let front = Tokens {
            text,
            items: Items::from_slice(alloc, &items[..size])?,
        };
        let got = told(alloc, &front)?;
        if got.as_str().ends_with("declarations") {
            programs = programs.saturating_add(1);
        } else {
            assert_eq!(rt; got.as_str(), "unexpected 21:23", "{size} tokens");
        }
    }
    assert_eq!(rt; programs, 9);
    Ok(())
}

/// What is told of `before`, `open` so many times, `inner`, `close` as many times, and `after`.
fn nested(
    alloc: Global,
    before: &str,
    open: &str,
    times: usize,
    inner: &str,
    close: &str,
    after: &str,
) -> Result<String, Fail> {
    let mut text = String::new(alloc);
    text.push_str(before)?;
    for i in 0..times {
        text.push_str(open)?;
    }
    text.push_str(inner)?;
    for i in 0..times {
        text.push_str(close)?;
    }
    text.push_str(after)?;
    text_told(alloc, text.as_str())
}

#[test]
fn two_hundred_brackets_may_be_open(rt: HostRuntime) -> Result<(), Fail> {
    let alloc = rt.alloc();
    let start = "fun f : s = { ";
    let groups = nested(alloc, start, "(", 199, "1", ")", " }")?;
    assert_eq!(rt; groups.as_str(), "1 declarations");
    let calls = nested(alloc, start, "f(", 199, "", ")", " }")?;
    assert_eq!(rt; calls.as_str(), "1 declarations");
    let constructs = nested(alloc, start, "A { f = ", 199, "1", " }", " }")?;
    assert_eq!(rt; constructs.as_str(), "1 declarations");
    let blocks = nested(
        alloc,
        "fun f : s = ",
        "{ if 1 then ",
        199,
        "{ }",
        " else { } }",
        "",
    )?;
    assert_eq!(rt; blocks.as_str(), "1 declarations");
    let cases = nested(alloc, start, "match x { A -> { ", 99, "(1)", " } }", " }")?;
    assert_eq!(rt; cases.as_str(), "1 declarations");
    let types = nested(
        alloc,
        "sig s = (x: ",
        "lock (y @ ",
        199,
        "int",
        ")",
        ") -> (r: int)",
    )?;
    assert_eq!(rt; types.as_str(), "1 declarations");
    let givings = nested(
        alloc,
        "fun f : s = { if 1 then { } else { } giving x @ ",
        "lock (y @ ",
        199,
        "int",
        ")",
        " }",
    )?;
    assert_eq!(rt; givings.as_str(), "1 declarations");
    Ok(())
}

#[test]
fn one_more_is_too_deep(rt: HostRuntime) -> Result<(), Fail> {
    let alloc = rt.alloc();
    let start = "fun f : s = { ";
    let groups = nested(alloc, start, "(", 200, "1", ")", " }")?;
    assert_eq!(rt; groups.as_str(), "too deep 1:214");
    let calls = nested(alloc, start, "f(", 200, "", ")", " }")?;
    assert_eq!(rt; calls.as_str(), "too deep 1:414");
    let constructs = nested(alloc, start, "A { f = ", 200, "1", " }", " }")?;
    assert_eq!(rt; constructs.as_str(), "too deep 1:1609");
    let blocks = nested(
        alloc,
        "fun f : s = ",
        "{ if 1 then ",
        200,
        "{ }",
        " else { } }",
        "",
    )?;
    assert_eq!(rt; blocks.as_str(), "too deep 1:2413");
    let types = nested(
        alloc,
        "sig s = (x: ",
        "lock (y @ ",
        200,
        "int",
        ")",
        ") -> (r: int)",
    )?;
    assert_eq!(rt; types.as_str(), "too deep 1:2008");
    let fields = nested(
        alloc,
        "data d = A { f: ",
        "lock (y @ ",
        200,
        "int",
        ")",
        " }",
    )?;
    assert_eq!(rt; fields.as_str(), "too deep 1:2012");
    // a bracket that can't stand there is unexpected, however many are open
    let curly = nested(alloc, start, "(", 199, "{", ")", " }")?;
    assert_eq!(rt; curly.as_str(), "unexpected 1:214");
    Ok(())
}
