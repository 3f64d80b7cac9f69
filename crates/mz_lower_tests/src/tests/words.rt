//! Code in words, for the tests.
use mz_tree::{Arith, Names, Place};
use mz_words::{Act, Code};
use std::alloc::Global;
use std::test::Fail;

fn sign(operator: Arith) -> &'static str {
    match operator {
        Arith::Add => "+",
        Arith::Sub => "-",
        Arith::Mul => "*",
        Arith::Div => "/",
        Arith::Rem => "%",
        Arith::Eq => "==",
        Arith::Ne => "!=",
        Arith::Lt => "<",
        Arith::Le => "<=",
        Arith::Gt => ">",
        Arith::Ge => ">=",
    }
}

/// Numbers with blanks between them, in brackets.
fn listed(alloc: Global, numbers: &Names) -> Result<String, Fail> {
    let mut out = String::from_str(alloc, "[")?;
    for number in numbers.as_slice() {
        if out.len() > 1 {
            out.push_str(" ")?;
        }
        let text = format!(in alloc; "{}", *number)?;
        out.push_str(&text)?;
    }
    out.push_str("]")?;
    Ok(out)
}

/// A word and three numbers, of which the last ones may be left out.
fn line(alloc: Global, word: &str, numbers: &[u32]) -> Result<String, Fail> {
    let mut out = String::from_str(alloc, word)?;
    for number in numbers {
        let text = format!(in alloc; " {}", *number)?;
        out.push_str(&text)?;
    }
    Ok(out)
}

/// An act that has a list, a sign or a large number.
fn long_act(alloc: Global, act: &Act) -> Result<String, Fail> {
    match act {
        Act::Const { to, value } => Ok(format!(in alloc; "const {} {}", *to, *value)?),
        Act::Arith {
            to,
            op,
            left,
            right,
        } => {
            let sign = sign(*op);
            Ok(format!(in alloc; "arith {} {} {} {}", *to, sign, *left, *right)?)
        }
        Act::New { to, con, fields } => {
            let fields = listed(alloc, fields)?;
            Ok(format!(in alloc; "new {} {} {}", *to, *con, fields.as_str())?)
        }
        Act::Switch {
            block,
            cons,
            targets,
        } => {
            let cons = listed(alloc, cons)?;
            let targets = listed(alloc, targets)?;
            Ok(format!(in alloc; "switch {} {} {}", *block, cons.as_str(), targets.as_str())?)
        }
        Act::Call { to, callee, args } => {
            let args = listed(alloc, args)?;
            Ok(format!(in alloc; "call {} {} {}", *to, *callee, args.as_str())?)
        }
        _ => Ok(String::new(alloc)),
    }
}

/// An act in words.
fn act_told(alloc: Global, act: &Act) -> Result<String, Fail> {
    match act {
        Act::Copy { to, from } => line(alloc, "copy", &[*to, *from]),
        Act::Read {
            to,
            block,
            con,
            field,
        } => line(alloc, "read", &[*to, *block, *con, *field]),
        Act::Write {
            to,
            block,
            con,
            field,
            from,
        } => line(alloc, "write", &[*to, *block, *con, *field, *from]),
        Act::Retag {
            to,
            block,
            from,
            con,
        } => line(alloc, "retag", &[*to, *block, *from, *con]),
        Act::Branch { test, zero } => line(alloc, "branch", &[*test, *zero]),
        Act::Jump { target } => line(alloc, "jump", &[*target]),
        Act::Return { from } => line(alloc, "return", &[*from]),
        Act::Give { to, block, adopter } => line(alloc, "give", &[*to, *block, *adopter]),
        Act::Take { to, block, adopter } => line(alloc, "take", &[*to, *block, *adopter]),
        Act::NewLock { to } => line(alloc, "newlock", &[*to]),
        Act::Acquire { to, lock } => line(alloc, "acquire", &[*to, *lock]),
        Act::Release { to, lock } => line(alloc, "release", &[*to, *lock]),
        Act::Spawn { to, callee, arg } => line(alloc, "spawn", &[*to, *callee, *arg]),
        Act::Print { to, from } => line(alloc, "print", &[*to, *from]),
        _ => long_act(alloc, act),
    }
}

/// The instruction of this place, on a line.
fn instr_told(alloc: Global, place: Place, act: &Act, out: &mut String) -> Result<(), Fail> {
    let act = act_told(alloc, act)?;
    let text = format!(in alloc; "{}:{} {}\n", place.line, place.col, act.as_str())?;
    out.push_str(&text)?;
    Ok(())
}

/// All of a code: the number of `main`, where each function begins with its parameters and registers, and the instructions.
pub(super) fn told(alloc: Global, code: &Code) -> Result<String, Fail> {
    let mut out = format!(in alloc; "main {}\n", code.main)?;
    for entry in code.entries.as_slice() {
        let text = format!(in alloc;
            "entry {} {} {}\n",
            entry.first, entry.params, entry.registers
        )?;
        out.push_str(&text)?;
    }
    for instr in code.instrs.as_slice() {
        instr_told(alloc, instr.place, &instr.act, &mut out)?;
    }
    Ok(out)
}
