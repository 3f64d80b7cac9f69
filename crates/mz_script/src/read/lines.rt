//! Lines, from the front of bytes.
ghost use Rattle.std.specs.Prelude.{◌≡◌, IfOk, length, option_map};
ghost use Rattle.mz_tree.specs.Scoped.{Scoped};
ghost use Rattle.mz_tree.specs.View.{plain_program};
ghost use Rattle.mz_script.specs.Cutting.{lines};
ghost use Rattle.mz_script.specs.ReadLines.{piece_of};
ghost use Rattle.mz_script.specs.Said.{Cuts, Tells, plain_line};

use crate::read::line::{Line, said};
use mz_tree::Program;
use std::alloc::{AllocError, Global};

/// The first line, its end included, and the bytes behind it.
pub(crate) fn cut(bytes: &[u8]) -> Option<(&[u8], &[u8])>
    ensures { Cuts (option_map (λ x. (x.0.now, x.1.now)) result) bytes.now }
{
    for i in 0..bytes.len() {
        if bytes[i] == 10 {
            return Some((&bytes[..i + 1], &bytes[i + 1..]));
        }
    }
    if bytes.len() == 0 {
        return None;
    }
    Some((bytes, &bytes[bytes.len()..]))
}

/// How many lines there are.
pub(crate) fn count(bytes: &[u8]) -> usize
    ensures { result ≡ length (lines bytes.now) }
{
    let mut rest = bytes;
    let mut lines = 0;
    for i in 0..bytes.len() {
        match cut(rest) {
            None => return lines,
            Some((_, more)) => {
                rest = more;
                lines += 1;
            }
        }
    }
    lines
}

/// What the first line says, and the bytes behind it.
pub(crate) fn next<'a>(
    alloc: Global,
    program: &Program,
    bytes: &'a [u8],
) -> Result<Option<(Line, &'a [u8])>, AllocError>
    requires scoped { Scoped (plain_program program.now) }
    ensures { IfOk result (λ o. Tells (piece_of (plain_program program.now)) (option_map (λ x. (plain_line x.0, x.1.now)) o) bytes.now) }
{
    match cut(bytes) {
        None => Ok(None),
        Some((line, rest)) => Ok(Some((said(alloc, program, line)?, rest))),
    }
}
