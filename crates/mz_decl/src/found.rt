//! Look-ups of numbers that may name nothing.
ghost use Rattle.std.specs.Prelude.{◌≡◌, option_copied};
ghost use Rattle.mz_tree.specs.View.{plain_con, plain_sig};
ghost use Rattle.mz_decl.specs.Declarations.{clause_of, only_of};
ghost use Rattle.mz_decl.specs.View.{plain_decls, Found};

use crate::Decls;
use mz_tree::{Con, Sig};

impl Decls {
    /// The constructor of this number, if there is one.
    pub fn con_at(&self, number: u32) -> Option<&Con>
        ensures { Found plain_con (plain_decls self.now).cons number (option_copied result) }
    {
        if number < self.cons() {
            return Some(self.con(number));
        }
        None
    }

    /// The signature of this number, if there is one.
    pub fn sig_at(&self, number: u32) -> Option<&Sig>
        ensures { Found plain_sig (plain_decls self.now).sigs number (option_copied result) }
    {
        if number < self.sigs() {
            return Some(self.sig(number));
        }
        None
    }

    /// What the data type of this number adopts, if anything; nothing where there is no such data type.
    pub fn clause_at(&self, number: u32) -> Option<u32>
        ensures { result ≡ clause_of (plain_decls self.now) number }
    {
        if number < self.varieties() {
            return self.clause(number);
        }
        None
    }

    /// The constructor of the data type of this number, where it has just one; none where there is no such data type.
    pub fn only_at(&self, number: u32) -> Option<u32>
        ensures { result ≡ only_of (plain_decls self.now) number }
    {
        if number < self.varieties() {
            return self.only_con(number);
        }
        None
    }
}
