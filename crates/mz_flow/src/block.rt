//! Permissions for blocks.
ghost use Rattle.std.specs.Prelude.{◌≡◌, option_copied};
ghost use Rattle.mz_tree.specs.View.{plain_atom};
ghost use Rattle.mz_flow.specs.Blocks.{AreFields, adopts_of};

use mz_tree::{Atom, Names, Ty};

/// The names of the fields, where the permission is for a block of this name with the tag of this constructor. It takes
/// no memory.
pub fn fields_of(atom: &Atom, block: u32, con: u32) -> Option<&Names>
    ensures { AreFields block con (plain_atom atom.now) (option_copied result) }
{
    match atom {
        Atom::Same { .. } => None,
        Atom::Has { name, ty } => match ty {
            Ty::Block {
                con: made,
                fields,
                ..
            } => {
                if *name == block && *made == con {
                    return Some(fields);
                }
                None
            }
            _ => None,
        },
    }
}

/// What the block of the permission adopts, if it is for a block that adopts anything. It takes no memory.
pub fn adopts_of(atom: &Atom) -> Option<u32>
    ensures { result ≡ adopts_of (plain_atom atom.now) }
{
    match atom {
        Atom::Same { .. } => None,
        Atom::Has { name: _, ty } => match ty {
            Ty::Block { adopts, .. } => *adopts,
            _ => None,
        },
    }
}
