//! The call for a whole source.
ghost use Rattle.std.specs.Prelude.{◌≡◌, ◌<◌, ◌-◌, ◌^◌, length, IfOk, IfErr};
ghost use Rattle.mz_grammar.specs.Contract.{IsRight, Only};
ghost use Rattle.mz_types.specs.Stops.{cause};
ghost use Rattle.mz_types.specs.Words.{turn};
ghost use Rattle.mz_parse.specs.declared.tree.Surface.{Surface};
ghost use Rattle.mz_parse.specs.declared.tree.SyntaxFault.{SyntaxFault};
ghost use Rattle.mz_parse.specs.Grammar.{IsProgram};
ghost use Rattle.mz_parse.specs.Parses.{Parses, limit, WithinLimit, Faults, HasCause, Gives, Refuses, place_left};
ghost use Rattle.mz_parse.specs.Stops.{fault_at};

use crate::declarations::declarations;
use crate::{Declaration, Surface, SyntaxFault};
use mz_token::{Token, Tokens};
use mz_tree::Place;
use mz_types::Stop;
use sqlite_items::Items;
use std::alloc::Global;

/// How many brackets, `{` and `(` together, may be open at once.
const LIMIT: u32 = 200;

// The declarations that the tokens spell, all of them and within the limit.
fn all_declarations(alloc: Global, tokens: &[Token]) -> Result<Items<Declaration>, Stop>
    ensures right { IsRight turn limit IsProgram cause tokens.now result }
    ensures only { Only turn limit IsProgram cause tokens.now result }
{
    match declarations(alloc, tokens, LIMIT) {
        Err(stop) => Err(stop),
        Ok((declarations, rest)) => {
            if rest.len() == 0 {
                Ok(declarations)
            } else {
                Err(Stop::Unexpected(rest.len()))
            }
        }
    }
}

// The place from which so many tokens are left.
fn place(tokens: &Tokens, left: usize) -> Place
    requires { length tokens.now.text < 2 ^ 32 - 1 }
    ensures { result ≡ place_left tokens.now left }
{
    match tokens.items.get(tokens.items.len().saturating_sub(left)) {
        Some(token) => token.place,
        None => tokens.end_place(),
    }
}

// Where reading stopped, as a fault.
fn fault(tokens: &Tokens, stop: Stop) -> SyntaxFault
    requires { length tokens.now.text < 2 ^ 32 - 1 }
    ensures { result ≡ fault_at tokens.now stop }
{
    match stop {
        Stop::Unexpected(left) => SyntaxFault::Unexpected(place(tokens, left)),
        Stop::TooDeep(left) => SyntaxFault::TooDeep(place(tokens, left)),
        Stop::Memory => SyntaxFault::Memory,
    }
}

/// The tree of a source of fewer than 2^32-1 bytes, by the grammar of the language. No tokens have two trees.
///
/// It refuses tokens at the first that can't stand where it does: those up to and with it begin no program. Where they
/// begin one and end too early, the place is the one after the last byte. At most 200 brackets, `{` and `(` together, may
/// be open at once, and the first that would be one too many is refused, unless it can't stand there at all. It takes
/// memory for the tree and for a copy of the text, and may refuse for want of it.
pub fn parse(alloc: Global, tokens: &Tokens) -> Result<Surface, SyntaxFault>
    requires { length tokens.now.text < 2 ^ 32 - 1 }
    ensures parses { IfOk result (λ surface. Parses tokens.now surface) }
    ensures within { IfOk result (λ surface. WithinLimit tokens.now) }
    ensures cause { IfErr result (λ fault. HasCause tokens.now fault) }
    ensures gives { (surface : Surface) → Parses tokens.now surface → WithinLimit tokens.now → Gives result surface }
    ensures refuses { (fault : SyntaxFault) → Faults tokens.now fault → Refuses result fault }
{
    let declarations = match all_declarations(alloc, tokens.items.as_slice()) {
        Ok(declarations) => declarations,
        Err(stop) => return Err(fault(tokens, stop)),
    };
    let text = Items::from_slice(alloc, tokens.text.as_slice())?;
    Ok(Surface { text, declarations })
}
