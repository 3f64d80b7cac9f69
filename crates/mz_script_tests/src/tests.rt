//! What is answered to texts of derivations: the right text of each program, and what one change of it makes wrong.
ghost use Rattle.mz_tree.specs.Scoped.{Scoped};
ghost use Rattle.mz_tree.specs.View.{plain_program};

use crate::program::program;
use mz_script::{ScriptFault, read_script};
use mz_tree::Program;
use std::alloc::Global;
use std::test::Fail;
use table::{
    CELL, CELL_ROWS, CELL_SCRIPT, IF, IF_ROWS, IF_SCRIPT, MATCH, MATCH_ROWS, MATCH_SCRIPT, Row,
    STEPS, STEPS_ROWS, STEPS_SCRIPT,
};

mod table;

// The number of the line that is told; 0 where the bytes are a text of a derivation, and 1,000,000 without memory.
fn told(alloc: Global, program: &Program, bytes: &[u8]) -> u32
    requires scoped { Scoped (plain_program program.now) }
{
    if bytes.len() > 1_000_000 {
        return 1_000_000;
    }
    match read_script(alloc, program, bytes) {
        Ok(_) => 0,
        Err(ScriptFault::Line(line)) => line,
        Err(ScriptFault::Memory) => 1_000_000,
    }
}

// A text without one of its lines, which are counted from 1, and with another in its place.
fn changed(alloc: Global, text: &[u8], line: usize, other: &[u8]) -> Result<Vec<u8>, Fail> {
    let mut out = Vec::new(alloc);
    let mut at = 1;
    for byte in text {
        if at != line {
            out.push(*byte)?;
        }
        if *byte == b'\n' {
            if at == line {
                out.extend_from_slice(other)?;
            }
            at = at.wrapping_add(1);
        }
    }
    Ok(out)
}

// The first row that is told otherwise than it wants, by its place from 0.
fn wrong_row(
    alloc: Global,
    source: &[u8],
    script: &[u8],
    rows: &[Row],
) -> Result<Option<usize>, Fail> {
    let Some(program) = program(alloc, source) else {
        return Ok(Some(2_000));
    };
    if told(alloc, &program, script) != 0 {
        return Ok(Some(1_000));
    }
    for k in 0..rows.len() {
        let (line, other, want) = rows[k];
        let text = changed(alloc, script, line, other)?;
        if told(alloc, &program, text.as_slice()) != want {
            return Ok(Some(k));
        }
    }
    Ok(None)
}

#[test]
fn lines_of_one_cell(rt: HostRuntime) -> Result<(), Fail> {
    assert_eq!(rt; wrong_row(rt.alloc(), CELL, CELL_SCRIPT, &CELL_ROWS)?, None);
    Ok(())
}

#[test]
fn lines_of_an_if(rt: HostRuntime) -> Result<(), Fail> {
    assert_eq!(rt; wrong_row(rt.alloc(), IF, IF_SCRIPT, &IF_ROWS)?, None);
    Ok(())
}

#[test]
fn lines_of_a_match(rt: HostRuntime) -> Result<(), Fail> {
    assert_eq!(rt;
        wrong_row(rt.alloc(), MATCH, MATCH_SCRIPT, &MATCH_ROWS)?,
        None
    );
    Ok(())
}

#[test]
fn lines_of_steps(rt: HostRuntime) -> Result<(), Fail> {
    assert_eq!(rt;
        wrong_row(rt.alloc(), STEPS, STEPS_SCRIPT, &STEPS_ROWS)?,
        None
    );
    Ok(())
}

// A step with so many open brackets, as line 3 of the text for one cell.
fn brackets(alloc: Global, count: usize) -> Result<Vec<u8>, Fail> {
    let mut line = Vec::new(alloc);
    line.extend_from_slice(b"drop %0 @ ")?;
    for _ in 0..count {
        line.extend_from_slice(b"lock (%0 @ ")?;
    }
    line.extend_from_slice(b"int")?;
    for _ in 0..count {
        line.push(b')')?;
    }
    line.extend_from_slice(b"\ndo\n")?;
    changed(alloc, CELL_SCRIPT, 3, line.as_slice())
}

#[test]
fn brackets_are_at_most_two_hundred(rt: HostRuntime) -> Result<(), Fail> {
    let alloc = rt.alloc();
    let Some(program) = program(alloc, CELL) else {
        return Ok(());
    };
    let most = brackets(alloc, 200)?;
    assert_eq!(rt; told(alloc, &program, most.as_slice()), 0);
    let one_more = brackets(alloc, 201)?;
    assert_eq!(rt; told(alloc, &program, one_more.as_slice()), 3);
    Ok(())
}

#[test]
fn ends_of_a_text(rt: HostRuntime) -> Result<(), Fail> {
    let alloc = rt.alloc();
    let Some(program) = program(alloc, CELL) else {
        return Ok(());
    };
    // no text, and one that isn't ended
    assert_eq!(rt; told(alloc, &program, b""), 1);
    assert_eq!(rt; told(alloc, &program, b"%derivation 1"), 1);
    assert_eq!(rt; told(alloc, &program, b"%derivation 1\n"), 2);
    assert_eq!(rt; told(alloc, &program, b"%derivation 1\nfun main"), 2);
    assert_eq!(rt; told(alloc, &program, b"%derivation 1\nfun main\ndo\n"), 4);
    // bytes behind the end
    let mut text = CELL_SCRIPT.to_vec(alloc)?;
    text.push(b'\n')?;
    assert_eq!(rt; told(alloc, &program, text.as_slice()), 16);
    // a text for another program
    assert_eq!(rt; told(alloc, &program, IF_SCRIPT), 5);
    Ok(())
}
