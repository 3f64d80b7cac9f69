//! The code of sources, instruction by instruction. What is wanted was laid by hand, by the definition of the code of a program.
use mz_lower::lower;
use mz_parse::parse;
use mz_scope::resolve;
use mz_token::tokens;
use sources::{BRANCHES, BRANCHES_CODE, ONE_CELL, ONE_CELL_CODE, WORD_STEPS, WORD_STEPS_CODE};
use std::alloc::Global;
use std::test::Fail;
use words::told;

mod sources;
mod words;

/// The code of a text that can be read, in words; or why there is none.
fn code_of(alloc: Global, text: &[u8]) -> Result<String, Fail> {
    if text.len() > 1_000_000 {
        return Err("the text is too long")?;
    }
    let Ok(found) = tokens(alloc, text) else {
        return Err("no tokens")?;
    };
    if found.text.len() > 1_000_000 {
        return Err("the text is too long")?;
    }
    let Ok(surface) = parse(alloc, &found) else {
        return Err("no tree")?;
    };
    let Ok(program) = resolve(alloc, &surface) else {
        return Err("no program")?;
    };
    let Ok(code) = lower(alloc, &program) else {
        return Err("no code")?;
    };
    told(alloc, &code)
}

#[test]
fn one_cell_is_nine_instructions(rt: HostRuntime) -> Result<(), Fail> {
    let code = code_of(rt.alloc(), ONE_CELL.as_bytes())?;
    assert_eq!(rt; code.as_str(), ONE_CELL_CODE);
    Ok(())
}

#[test]
fn branches_stand_behind_one_another(rt: HostRuntime) -> Result<(), Fail> {
    let code = code_of(rt.alloc(), BRANCHES.as_bytes())?;
    assert_eq!(rt; code.as_str(), BRANCHES_CODE);
    Ok(())
}

#[test]
fn a_command_is_one_instruction(rt: HostRuntime) -> Result<(), Fail> {
    let code = code_of(rt.alloc(), WORD_STEPS.as_bytes())?;
    assert_eq!(rt; code.as_str(), WORD_STEPS_CODE);
    Ok(())
}
