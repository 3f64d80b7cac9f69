//! Why a text is refused.
use thiserror::Error;

/// Why bytes aren't the text of a derivation.
#[derive(Clone, Copy, Debug, PartialEq, Eq, Error)]
pub enum ScriptFault {
    /// The number of the first line that isn't lawful in its place, counted from 1: the lines before it begin the text of
    /// a derivation, and none goes on with it. Where the lines end too early it is the number behind the last.
    #[error("line {0} is not one of a derivation, in its place")]
    Line(u32),
    /// Memory is wanting.
    #[error("not enough memory to read the derivation")]
    Memory,
}
