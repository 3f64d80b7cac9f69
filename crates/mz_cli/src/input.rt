//! The two parts of an input of `verify`.
ghost use Rattle.std.specs.Prelude.{◌≡◌, ◌≤◌, length, take, drop};
ghost use Rattle.mz_cli.specs.Inputs.{source_part, script_part};

/// The most bytes of a whole input.
pub(crate) const INPUT_LIMIT: usize = 67_108_864;

// the head of a script, with its line end
const HEAD: &[u8] = b"%derivation 1\n";

/// Where the script of an input begins: at the first line that is exactly the head of a script, or else at the end.
pub(crate) fn script_start(bytes: &[u8]) -> usize
    ensures within { result ≤ length bytes.now }
    ensures source { take result bytes.now ≡ source_part bytes.now }
    ensures script { drop result bytes.now ≡ script_part bytes.now }
{
    let mut start = 0;
    for at in 0..bytes.len() {
        if bytes[at] == b'\n' {
            if &bytes[start..at + 1] == HEAD {
                return start;
            }
            start = at + 1;
        }
    }
    bytes.len()
}
