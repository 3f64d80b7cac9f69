//! Whether code goes forward.
ghost use Rattle.std.specs.Prelude.{◌≡◌, true};
ghost use Rattle.mz_thread.specs.Keeping.{GoesForward, IsForward};

use mz_words::{Act, Code};

fn is_forward(at: usize, act: &Act) -> bool
    ensures { result ≡ true → IsForward at act.now }
{
    match act {
        Act::Branch { zero, .. } => at < *zero as usize,
        Act::Jump { target } => at < *target as usize,
        _ => true,
    }
}

/// Whether each target stands behind the instruction that names it.
#[tactic(auto, using(crate::proofs::Forwards::forward_on, crate::proofs::Forwards::forward_all))]
pub fn goes_forward(code: &Code) -> bool
    ensures { result ≡ true → GoesForward code.now }
{
    for i in 0..code.instrs.len() {
        match code.instrs.get(i) {
            Some(instr) => {
                if !is_forward(i, &instr.act) {
                    return false;
                }
            }
            None => return false,
        }
    }
    true
}
