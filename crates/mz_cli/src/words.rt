//! The words of the command line.
ghost use Rattle.mz_cli.specs.Words.{Tells, TellsMode};

/// What the program is asked to do.
#[derive(Clone, Copy, Debug, PartialEq, Eq)]
pub(crate) enum Mode {
    /// To run a source.
    Sched,
    /// To check the script of a derivation that follows its source.
    Verify,
}

/// The mode of the words, where they are taken: the program's name and the mode's word.
pub(crate) fn mode_of(words: &[String]) -> Option<Mode>
    ensures { Tells words.now result }
{
    match words {
        [_, mode] => named(mode.as_bytes()),
        _ => None,
    }
}

// the mode of this word
fn named(word: &[u8]) -> Option<Mode>
    ensures { TellsMode word.now result }
{
    if word == b"sched".as_slice() {
        return Some(Mode::Sched);
    }
    if word == b"verify".as_slice() {
        return Some(Mode::Verify);
    }
    None
}
