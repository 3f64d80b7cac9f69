//! Declarations by their names, and types that are one word.
ghost use Rattle.std.specs.Prelude.{◌≡◌, ◌≤◌, length, map, option_map};
ghost use Rattle.mz_tree.specs.Plain.{Function_type, Named_type};
ghost use Rattle.mz_tree.specs.Scoped.{Scoped};
ghost use Rattle.mz_tree.specs.View.{plain_con, plain_program, plain_sig, plain_ty, plain_variety};
ghost use Rattle.mz_script.specs.ReadWords.{as_type, con_named, con_of, data_at, data_of, known_type, or_else, sig_named, sig_of, variety_named, word_type};
ghost use Rattle.mz_script.specs.Stops.{Gives};

use crate::read::fronts::word;
use crate::read::stop::Stop;
use mz_tree::{Con, Program, Sig, Ty, Variety};

// The number of the data type of this name.
fn variety_of(varieties: &[Variety], name: &[u8]) -> Option<u32>
    requires few { length varieties.now ≤ 1000 }
    ensures { result ≡ variety_named (map plain_variety varieties.now) name.now }
{
    for (number, variety) in varieties.iter().enumerate() {
        if name == variety.name.as_slice() {
            return Some(number as u32);
        }
    }
    None
}

// The number of the signature of this name.
fn signature_of(sigs: &[Sig], name: &[u8]) -> Option<u32>
    requires few { length sigs.now ≤ 1000 }
    ensures { result ≡ sig_named (map plain_sig sigs.now) name.now }
{
    for (number, sig) in sigs.iter().enumerate() {
        if name == sig.name.as_slice() {
            return Some(number as u32);
        }
    }
    None
}

// The number of the constructor of this name.
fn constructor_of(cons: &[Con], name: &[u8]) -> Option<u32>
    requires few { length cons.now ≤ 1000 }
    ensures { result ≡ con_named (map plain_con cons.now) name.now }
{
    for (number, con) in cons.iter().enumerate() {
        if name == con.name.as_slice() {
            return Some(number as u32);
        }
    }
    None
}

/// The number of the data type of this name.
#[tactic(auto, unfolding(crate::specs::ReadWords::data_of))]
pub(crate) fn data_of(program: &Program, name: &[u8]) -> Option<u32>
    requires scoped { Scoped (plain_program program.now) }
    ensures { result ≡ data_of (plain_program program.now) name.now }
{
    variety_of(program.varieties.as_slice(), name)
}

/// The number of the signature of this name.
#[tactic(auto, unfolding(crate::specs::ReadWords::sig_of))]
pub(crate) fn sig_of(program: &Program, name: &[u8]) -> Option<u32>
    requires scoped { Scoped (plain_program program.now) }
    ensures { result ≡ sig_of (plain_program program.now) name.now }
{
    signature_of(program.sigs.as_slice(), name)
}

/// The number of the constructor of this name.
#[tactic(auto, unfolding(crate::specs::ReadWords::con_of))]
pub(crate) fn con_of(program: &Program, name: &[u8]) -> Option<u32>
    requires scoped { Scoped (plain_program program.now) }
    ensures { result ≡ con_of (plain_program program.now) name.now }
{
    constructor_of(program.cons.as_slice(), name)
}

// The types that are one word, whatever is declared.
fn word_type(word: &[u8]) -> Option<Ty>
    ensures { option_map plain_ty result ≡ word_type word.now }
{
    if word == b"int".as_slice() {
        Some(Ty::Int)
    } else if word == b"unknown".as_slice() {
        Some(Ty::Unknown)
    } else if word == b"dynamic".as_slice() {
        Some(Ty::Dynamic)
    } else if word == b"locked".as_slice() {
        Some(Ty::Locked)
    } else {
        None
    }
}

// The type that is a declared name.
fn named_type(program: &Program, word: &[u8]) -> Option<Ty>
    requires scoped { Scoped (plain_program program.now) }
    ensures { option_map plain_ty result ≡ or_else (as_type Named_type (data_of (plain_program program.now) word.now)) (as_type Function_type (sig_of (plain_program program.now) word.now)) }
{
    match data_of(program, word) {
        Some(number) => Some(Ty::Named(number)),
        None => match sig_of(program, word) {
            Some(number) => Some(Ty::Function(number)),
            None => None,
        },
    }
}

/// The type that a word is.
#[tactic(auto, unfolding(crate::specs::ReadWords::known_type))]
pub(crate) fn known_type(program: &Program, word: &[u8]) -> Option<Ty>
    requires scoped { Scoped (plain_program program.now) }
    ensures { option_map plain_ty result ≡ known_type (plain_program program.now) word.now }
{
    match word_type(word) {
        Some(ty) => Some(ty),
        None => named_type(program, word),
    }
}

/// A data type, by its name.
#[tactic(auto, unfolding(crate::specs::ReadWords::data_at))]
pub(crate) fn data<'a>(program: &Program, bytes: &'a [u8]) -> Result<(u32, &'a [u8]), Stop>
    requires scoped { Scoped (plain_program program.now) }
    ensures { Gives (λ x. (x.0, x.1.now)) result (data_at (plain_program program.now) bytes.now) }
{
    let (word, rest) = word(bytes);
    match data_of(program, word) {
        Some(number) => Ok((number, rest)),
        None => Err(Stop::Unexpected(bytes.len())),
    }
}
