use super::*;
use std::alloc::Global;
use std::test::Fail;

/// The tokens of a text in words, or its fault: each token with its span, its line and its column.
fn told(alloc: Global, text: &[u8]) -> Result<String, Fail> {
    let mut out = String::new(alloc);
    if text.len() > 1000 {
        return Ok(out);
    }
    match tokens(alloc, text) {
        Ok(found) => {
            for token in found.items.as_slice() {
                let place = token.place;
                let line = format!(in alloc;
                    "{:?} {}-{} {}:{}; ",
                    token.kind, token.start, token.end, place.line, place.col
                )?;
                out.push_str(&line)?;
            }
        }
        Err(fault) => {
            let line = match fault {
                LexFault::Byte(place) => format!(in alloc; "byte {}:{}", place.line, place.col)?,
                LexFault::Number(place) => format!(in alloc;
                    "number {}:{}",
                    place.line, place.col
                )?,
                LexFault::NameTooLong(place) => format!(in alloc;
                    "name {}:{}",
                    place.line, place.col
                )?,
                LexFault::Memory => format!(in alloc; "memory")?,
            };
            out.push_str(&line)?;
        }
    }
    Ok(out)
}

#[test]
fn texts_are_cut(rt: HostRuntime) -> Result<(), Fail> {
    let alloc = rt.alloc();
    let rows: [(&[u8], &str); 34] = [
        (b"", ""),
        (b"\t\r\n ", ""),
        (b"x", "Lower 0-1 1:1; "),
        (b"_x9Z Ab_1", "Lower 0-4 1:1; Upper 5-9 1:6; "),
        (
            b"take takes Take",
            "Key(17) 0-4 1:1; Lower 5-10 1:6; Upper 11-15 1:12; ",
        ),
        (
            b"locked lock newlock",
            "Key(20) 0-6 1:1; Key(19) 7-11 1:8; Key(18) 12-19 1:13; ",
        ),
        (b"12ab", "Number(12) 0-2 1:1; Lower 2-4 1:3; "),
        (b"x<-y", "Lower 0-1 1:1; Mark(14) 1-3 1:2; Lower 3-4 1:4; "),
        (
            b"<- < <=",
            "Mark(14) 0-2 1:1; Mark(18) 3-4 1:4; Mark(19) 5-7 1:6; ",
        ),
        (
            b"= == - ->",
            "Mark(8) 0-1 1:1; Mark(16) 2-4 1:3; Mark(11) 5-6 1:6; Mark(15) 7-9 1:8; ",
        ),
        (
            b"> >= !=",
            "Mark(20) 0-1 1:1; Mark(21) 2-4 1:3; Mark(17) 5-7 1:6; ",
        ),
        (b"===", "Mark(16) 0-2 1:1; Mark(8) 2-3 1:3; "),
        (b"<<-", "Mark(18) 0-1 1:1; Mark(14) 1-3 1:2; "),
        (b"!==", "Mark(17) 0-2 1:1; Mark(8) 2-3 1:3; "),
        (b"/ /", "Mark(12) 0-1 1:1; Mark(12) 2-3 1:3; "),
        (b"///", ""),
        (b"// a comment that never ends \xff\0!", ""),
        (b"//\nx", "Lower 3-4 2:1; "),
        (
            b"1//\r!\n\n  2 // 3\n4",
            "Number(1) 0-1 1:1; Number(2) 9-10 3:3; Number(4) 16-17 4:1; ",
        ),
        (b"x\n", "Lower 0-1 1:1; "),
        (b"\ta\rb", "Lower 1-2 1:2; Lower 3-4 1:4; "),
        (b"0", "Number(0) 0-1 1:1; "),
        (b"000000000000000000000000000007", "Number(7) 0-30 1:1; "),
        (
            b"18446744073709551615",
            "Number(18446744073709551615) 0-20 1:1; ",
        ),
        (b"18446744073709551616", "number 1:1"),
        (b"\n x 99999999999999999999", "number 2:4"),
        (
            b"aaaaaaaaaaaaaaaabbbbbbbbbbbbbbbbccccccccccccccccdddddddddddddddd",
            "Lower 0-64 1:1; ",
        ),
        (
            b"aaaaaaaaaaaaaaaabbbbbbbbbbbbbbbbccccccccccccccccdddddddddddddddde",
            "name 1:1",
        ),
        (
            b"Aaaaaaaaaaaaaaaabbbbbbbbbbbbbbbbccccccccccccccccdddddddddddddddd",
            "Upper 0-64 1:1; ",
        ),
        (
            b"x\n  Aaaaaaaaaaaaaaaabbbbbbbbbbbbbbbbccccccccccccccccdddddddddddddddde",
            "name 2:3",
        ),
        (b"!", "byte 1:1"),
        (b"x\n\n !<", "byte 3:2"),
        (b"a\x80", "byte 1:2"),
        (b"a \0 #", "byte 1:3"),
    ];
    for (text, want) in rows {
        let told = told(alloc, text)?;
        assert_eq!(rt; told.as_str(), want, "at {want}");
    }
    Ok(())
}

#[test]
fn keys_and_marks_are_numbered(rt: HostRuntime) -> Result<(), Fail> {
    let alloc = rt.alloc();
    let keys = tokens(
        alloc,
        b"data mutable adopts sig fun consumes let if then else match giving result retag from to give take newlock lock locked acquire release spawn print int unknown dynamic",
    )?;
    assert_eq!(rt; keys.items.len(), 28);
    for (number, token) in keys.items.as_slice().iter().enumerate() {
        assert!(rt; number < 28);
        assert!(rt; token.kind.is_key(number as u8), "at {number}");
    }
    let marks = tokens(
        alloc,
        b"{ } ( ) ; : , . = * + - / % <- -> == != < <= > >= @ |",
    )?;
    assert_eq!(rt; marks.items.len(), 24);
    for (number, token) in marks.items.as_slice().iter().enumerate() {
        assert!(rt; number < 24);
        assert!(rt; token.kind.is_mark(number as u8), "at {number}");
    }
    Ok(())
}

#[test]
fn a_token_has_its_bytes(rt: HostRuntime) -> Result<(), Fail> {
    let alloc = rt.alloc();
    let found = tokens(alloc, b"fun f\n  1 // end")?;
    assert_eq!(rt; found.items.len(), 3);
    let items = found.items.as_slice();
    assert_eq!(rt; found.text_of(&items[1]), b"f".as_slice());
    assert!(rt; items[1].kind.is_lower() && items[2].kind.is_number() && !items[2].kind.is_upper());
    assert!(rt; found.text.len() < 100);
    assert_eq!(rt; found.end_place(), mz_tree::Place { line: 2, col: 11 });
    Ok(())
}
