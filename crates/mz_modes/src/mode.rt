//! What modes say of permissions and types.
ghost use Rattle.mz_tree.specs.View.{plain_atom, plain_ty};
ghost use Rattle.mz_decl.specs.Declarations.{Decls as PlainDecls};
ghost use Rattle.mz_modes.specs.Affine.{IsMutable, IsMutableCon, AffineAtom, ExclusiveTy};
ghost use Rattle.mz_tree.specs.Saying.{Says, Denies};
ghost use Rattle.mz_modes.specs.Modes.{AreModes};

use crate::marks::is_marked;
use mz_tree::{Atom, Memory, Place, Ty};
use sqlite_items::Items;
use thiserror::Error;

/// Why declarations have no modes.
#[derive(Clone, Copy, Debug, PartialEq, Eq, Error)]
pub enum ModeFault {
    /// An `adopts` names an immutable data type. Of all such places this is the first: that of a data type's own name,
    /// where it stands at a declaration, or that of the name after `adopts` of a structural type.
    #[error("adopts clause at {0} names an immutable data type")]
    NotExclusive(Place),
    /// Memory is wanting.
    #[error("not enough memory to mark the affine data types")]
    Memory,
}

impl From<Memory> for ModeFault {
    ghost use Rattle.std.specs.Prelude.{◌≡◌};
    ghost use Rattle.mz_modes.specs.declared.mode.ModeFault.TheVariants.{Memory as MemoryFault};

    ghost from_gives = { λ _ fault. fault ≡ MemoryFault };

    fn from(_: Memory) -> Self {
        ModeFault::Memory
    }
}

/// The modes of declarations: which data types are affine, and which data types and constructors are mutable.
#[derive(Drop)]
pub struct Modes {
    pub(crate) affine: Items<bool>,
    pub(crate) mutable: Items<bool>,
    pub(crate) mutable_cons: Items<bool>,
}

impl Modes {
    /// Whether the permission may be copied: an equation, or one whose type isn't affine. It takes no memory.
    pub fn duplicable(&self, atom: &Atom) -> bool
        ensures { (D : PlainDecls) → AreModes D self.now → Denies result (AffineAtom D (plain_atom atom.now)) }
    {
        match atom {
            Atom::Same { .. } => true,
            Atom::Has { name: _, ty } => match ty {
                Ty::Locked => false,
                Ty::Named(data) => {
                    if is_marked(self.affine.as_slice(), *data) {
                        return false;
                    }
                    true
                }
                Ty::Block { con, .. } => {
                    if is_marked(self.mutable_cons.as_slice(), *con) {
                        return false;
                    }
                    true
                }
                Ty::Int => true,
                Ty::Unknown => true,
                Ty::Dynamic => true,
                Ty::Function(_) => true,
                Ty::Lock(_) => true,
            },
        }
    }

    /// Whether the data type of this number is mutable. It takes no memory.
    pub fn is_mutable(&self, variety: u32) -> bool
        ensures { (D : PlainDecls) → AreModes D self.now → Says result (IsMutable D variety) }
    {
        if is_marked(self.mutable.as_slice(), variety) {
            return true;
        }
        false
    }

    /// Whether the constructor of this number is one of a mutable data type. It takes no memory.
    pub fn is_mutable_con(&self, con: u32) -> bool
        ensures { (D : PlainDecls) → AreModes D self.now → Says result (IsMutableCon D con) }
    {
        if is_marked(self.mutable_cons.as_slice(), con) {
            return true;
        }
        false
    }

    /// Whether the type is exclusive: a mutable data type, or a structural type of a mutable constructor. It takes no
    /// memory.
    pub fn exclusive(&self, ty: &Ty) -> bool
        ensures { (D : PlainDecls) → AreModes D self.now → Says result (ExclusiveTy D (plain_ty ty.now)) }
    {
        match ty {
            Ty::Named(data) => self.is_mutable(*data),
            Ty::Block { con, .. } => self.is_mutable_con(*con),
            Ty::Locked => false,
            Ty::Int => false,
            Ty::Unknown => false,
            Ty::Dynamic => false,
            Ty::Function(_) => false,
            Ty::Lock(_) => false,
        }
    }
}
