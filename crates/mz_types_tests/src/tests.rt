//! What is read of a text: each form of type and atom, what follows it, where a refusal stands, and the limit of brackets.
use mz_token::tokens;
use mz_types::{Stop, SurfaceAtom, SurfaceType, read_atoms, read_type};
use sqlite_items::Items;
use std::alloc::Global;
use std::test::Fail;

/// A type in words, with its tokens by where they start in the text, and the guarded atoms by their number.
fn type_told(alloc: Global, ty: &SurfaceType) -> Result<String, Fail> {
    let line = match ty {
        SurfaceType::Int(word) => format!(in alloc; "int {}", word.start)?,
        SurfaceType::Unknown(word) => format!(in alloc; "unknown {}", word.start)?,
        SurfaceType::Dynamic(word) => format!(in alloc; "dynamic {}", word.start)?,
        SurfaceType::Locked(word) => format!(in alloc; "locked {}", word.start)?,
        SurfaceType::Singleton { mark, name } => {
            format!(in alloc; "singleton {} {}", mark.start, name.start)?
        }
        SurfaceType::Named(name) => format!(in alloc; "named {}", name.start)?,
        SurfaceType::Lock { key, guarded } => {
            format!(in alloc; "lock {} of {}", key.start, guarded.len())?
        }
        SurfaceType::Structure {
            con,
            fields,
            adopts,
        } => {
            let mut out = format!(in alloc; "structure {}", con.start)?;
            for field in fields.as_slice() {
                let part = format!(in alloc; " {}={}", field.field.start, field.name.start)?;
                out.push_str(&part)?;
            }
            if let Some(adopted) = adopts {
                let part = format!(in alloc; " adopts {}", adopted.start)?;
                out.push_str(&part)?;
            }
            out
        }
    };
    Ok(line)
}

/// An atom in words, likewise.
fn atom_told(alloc: Global, atom: &SurfaceAtom) -> Result<String, Fail> {
    let line = match atom {
        SurfaceAtom::Has { name, ty } => {
            let part = type_told(alloc, ty)?;
            format!(in alloc; "{} @ {}", name.start, part)?
        }
        SurfaceAtom::Same { left, right } => {
            format!(in alloc; "{} = {}", left.start, right.start)?
        }
    };
    Ok(line)
}

#[test]
fn types_are_read(rt: HostRuntime) -> Result<(), Fail> {
    let alloc = rt.alloc();
    let rows = [
        ("int", "int 0, 0 left"),
        ("unknown", "unknown 0, 0 left"),
        ("dynamic", "dynamic 0, 0 left"),
        ("locked", "locked 0, 0 left"),
        ("=x", "singleton 0 1, 0 left"),
        ("cell", "named 0, 0 left"),
        ("A {}", "structure 0, 0 left"),
        ("A { f = x }", "structure 0 4=8, 0 left"),
        (
            "A { f = x; g = y; h = z }",
            "structure 0 4=8 11=15 18=22, 0 left",
        ),
        ("A {} adopts d", "structure 0 adopts 12, 0 left"),
        ("A { f = x } adopts d", "structure 0 4=8 adopts 19, 0 left"),
        ("lock (x @ int)", "lock 0 of 1, 0 left"),
        (
            "lock (x @ int * y = z * z @ A {} adopts d)",
            "lock 0 of 3, 0 left",
        ),
        ("lock (x @ lock (y @ lock (z = z)))", "lock 0 of 1, 0 left"),
        ("int adopts d", "int 0, 2 left"),
        ("int ; x", "int 0, 2 left"),
        ("cell { }", "named 0, 2 left"),
        ("A { f = x } * y", "structure 0 4=8, 2 left"),
        ("lock (x = y) adopts d", "lock 0 of 1, 2 left"),
        ("", "Unexpected(0)"),
        ("result", "Unexpected(1)"),
        ("adopts d", "Unexpected(2)"),
        ("=", "Unexpected(0)"),
        ("= result", "Unexpected(1)"),
        ("= A", "Unexpected(1)"),
        ("A", "Unexpected(0)"),
        ("A (", "Unexpected(1)"),
        ("A { f }", "Unexpected(1)"),
        ("A { f = }", "Unexpected(1)"),
        ("A { f = x; }", "Unexpected(1)"),
        ("A { ; }", "Unexpected(2)"),
        ("A { f = x g = y }", "Unexpected(4)"),
        ("A { f = result }", "Unexpected(2)"),
        ("A { f @ int }", "Unexpected(3)"),
        ("A { } adopts", "Unexpected(0)"),
        ("A { } adopts int", "Unexpected(1)"),
        ("A { } adopts result", "Unexpected(1)"),
        ("lock", "Unexpected(0)"),
        ("lock x", "Unexpected(1)"),
        ("lock { }", "Unexpected(2)"),
        ("lock ()", "Unexpected(1)"),
        ("lock (x)", "Unexpected(1)"),
        ("lock (x @ int *)", "Unexpected(1)"),
        ("lock (x @ int + y = z)", "Unexpected(5)"),
        ("lock (x @ int", "Unexpected(0)"),
        ("lock (x @ int }", "Unexpected(1)"),
        ("lock (result = x)", "Unexpected(4)"),
    ];
    for (text, want) in rows {
        assert!(rt; text.len() < 1000);
        let found = tokens(alloc, text.as_bytes())?;
        let told = match read_type(alloc, found.items.as_slice(), 200, false) {
            Ok((ty, rest)) => {
                let part = type_told(alloc, &ty)?;
                format!(in alloc; "{}, {} left", part, rest.len())?
            }
            Err(stop) => format!(in alloc; "{stop:?}")?,
        };
        assert_eq!(rt; told.as_str(), want, "at {text}");
    }
    Ok(())
}

/// What is read of atoms: their number and each of them, or the stop.
fn atoms_told(alloc: Global, text: &str, result_stands: bool) -> Result<String, Fail> {
    if text.len() > 1000 {
        return Ok(String::new(alloc));
    }
    let found = tokens(alloc, text.as_bytes())?;
    let told = match read_atoms(alloc, found.items.as_slice(), 200, result_stands) {
        Ok((atoms, rest)) => {
            let mut out = format!(in alloc; "{} left", rest.len())?;
            for atom in atoms.as_slice() {
                let part = atom_told(alloc, atom)?;
                out.push_str("; ")?;
                out.push_str(&part)?;
            }
            out
        }
        Err(stop) => format!(in alloc; "{stop:?}")?,
    };
    Ok(told)
}

#[test]
fn atoms_are_read(rt: HostRuntime) -> Result<(), Fail> {
    let alloc = rt.alloc();
    let rows = [
        ("x = y", "0 left; 0 = 4"),
        ("x @ int", "0 left; 0 @ int 4"),
        ("x @ = y", "0 left; 0 @ singleton 4 6"),
        (
            "x @ A { f = y } adopts d * y @ d",
            "0 left; 0 @ structure 4 8=12 adopts 23; 27 @ named 31",
        ),
        (
            "x @ int * y = z * z @ lock (y = z)",
            "0 left; 0 @ int 4; 10 = 14; 18 @ lock 22 of 1",
        ),
        ("x = y }", "1 left; 0 = 4"),
        ("x = y adopts d", "2 left; 0 = 4"),
        ("", "Unexpected(0)"),
        ("x", "Unexpected(0)"),
        ("x : int", "Unexpected(2)"),
        ("x @", "Unexpected(0)"),
        ("x =", "Unexpected(0)"),
        ("x = 1", "Unexpected(1)"),
        ("x = y *", "Unexpected(0)"),
        ("x = y * * z", "Unexpected(2)"),
        ("X @ int", "Unexpected(3)"),
        ("result = x", "Unexpected(3)"),
        ("x = result", "Unexpected(1)"),
    ];
    for (text, want) in rows {
        let told = atoms_told(alloc, text, false)?;
        assert_eq!(rt; told.as_str(), want, "at {text}");
    }
    Ok(())
}

#[test]
fn a_value_is_called_result(rt: HostRuntime) -> Result<(), Fail> {
    let alloc = rt.alloc();
    let rows = [
        ("result @ int", "0 left; 0 @ int 9"),
        ("result = x * x = result", "0 left; 0 = 9; 13 = 17"),
        ("result = result", "0 left; 0 = 9"),
        (
            "l @ lock (result @ lock (x = result))",
            "0 left; 0 @ lock 4 of 1",
        ),
        ("x @ result", "Unexpected(1)"),
        ("x @ = result", "Unexpected(1)"),
        ("x @ A { f = result }", "Unexpected(2)"),
        ("x @ A { result = x }", "Unexpected(4)"),
        ("x @ A { } adopts result", "Unexpected(1)"),
    ];
    for (text, want) in rows {
        let told = atoms_told(alloc, text, true)?;
        assert_eq!(rt; told.as_str(), want, "at {text}");
    }
    Ok(())
}

/// A type with so many brackets open at once, the innermost round or curly.
fn nested(alloc: Global, brackets: usize, curly: bool) -> Result<String, Fail> {
    let mut text = String::new(alloc);
    for i in 1..brackets {
        text.push_str("lock (x @ ")?;
    }
    text.push_str(if curly { "A { }" } else { "lock (x = x)" })?;
    for i in 1..brackets {
        text.push_str(")")?;
    }
    Ok(text)
}

#[test]
fn brackets_are_counted(rt: HostRuntime) -> Result<(), Fail> {
    let alloc = rt.alloc();
    let rows = [
        (1, false, 1, "0 left"),
        (1, true, 1, "0 left"),
        (1, false, 0, "TooDeep(5)"),
        (1, true, 0, "TooDeep(2)"),
        (2, true, 1, "TooDeep(3)"),
        (200, false, 200, "0 left"),
        (200, true, 200, "0 left"),
        (201, false, 200, "TooDeep(205)"),
        (201, true, 200, "TooDeep(202)"),
    ];
    for (brackets, curly, depth, want) in rows {
        let text = nested(alloc, brackets, curly)?;
        assert!(rt; text.len() < 10000);
        let found = tokens(alloc, text.as_bytes())?;
        let told = match read_type(alloc, found.items.as_slice(), depth, false) {
            Ok((_, rest)) => format!(in alloc; "{} left", rest.len())?,
            Err(stop) => format!(in alloc; "{stop:?}")?,
        };
        assert_eq!(rt; told.as_str(), want, "{brackets} brackets");
    }
    Ok(())
}

// where a bracket can't stand it is unexpected, whether or not one may be opened
#[test]
fn unexpected_comes_before_too_deep(rt: HostRuntime) -> Result<(), Fail> {
    let alloc = rt.alloc();
    let rows = [
        ("A (", "Unexpected(1)"),
        ("lock {", "Unexpected(1)"),
        ("(", "Unexpected(1)"),
        ("A { (", "TooDeep(2)"),
        ("lock ( (", "TooDeep(2)"),
    ];
    for (text, want) in rows {
        assert!(rt; text.len() < 1000);
        let found = tokens(alloc, text.as_bytes())?;
        let told = match read_type(alloc, found.items.as_slice(), 0, false) {
            Ok((_, rest)) => format!(in alloc; "{} left", rest.len())?,
            Err(stop) => format!(in alloc; "{stop:?}")?,
        };
        assert_eq!(rt; told.as_str(), want, "at {text}");
    }
    Ok(())
}
