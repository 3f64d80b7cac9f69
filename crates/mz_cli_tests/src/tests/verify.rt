//! What `verify` answers to the script of one cell, whole and with one line left out.
use crate::tests::table::ONE_CELL;
use crate::tests::words_of;
use mz_base::{MemorySink, MemorySource};
use mz_cli::{Status, mezzo_plain};
use std::alloc::{AllocError, Global};
use std::test::Fail;

// a derivation of the program of one cell
const SCRIPT: &[u8] = b"%derivation 1
fun main
do
do
do %1 @ Cell { v = %0 }
do
equal %2 %0
rename %0 @ int to %2
do
do %1 @ Cell { v = %0 }
do %1 @ Cell { v = %4 }
equal %6 %4
rename %4 @ int to %6
do
end
";

// the number of a line that is left out, or 0 for none, and what is answered
const ROWS: [(u32, &[u8]); 6] = [
    (0, b"accepted\n"),
    (2, b"refused: line 2\n"),
    (5, b"refused: line 14\n"),
    (7, b"refused: 5:14: bad step 1\n"),
    (8, b"refused: 5:14: bad command\n"),
    (15, b"refused: line 15\n"),
];

// the source, and the script without that line
fn input(alloc: Global, without: u32) -> Result<Vec<u8>, AllocError> {
    let mut bytes = ONE_CELL.to_vec(alloc)?;
    bytes.push(b'\n')?;
    let mut line: u32 = 1;
    for byte in SCRIPT {
        if line != without {
            bytes.push(*byte)?;
        }
        if *byte == b'\n' {
            line = line.wrapping_add(1);
        }
    }
    Ok(bytes)
}

// the first row that isn't answered so
fn first_wrong(alloc: Global) -> Result<Option<u32>, Fail> {
    for k in 0..ROWS.len() {
        let (without, wanted) = ROWS[k];
        let mut source = MemorySource::new(input(alloc, without)?, 4096, Vec::new(alloc));
        let mut sink = MemorySink::new(Vec::with_capacity(alloc, 200)?, 4096, Vec::new(alloc));
        let status = mezzo_plain(alloc, &words_of(alloc, "verify")?, &mut source, &mut sink);
        let accepted = without == 0;
        if (status == Status::Done) != accepted || sink.bytes() != wanted {
            return Ok(Some(without));
        }
    }
    Ok(None)
}

#[test]
fn a_script_is_verified(rt: HostRuntime) -> Result<(), Fail> {
    assert_eq!(rt; first_wrong(rt.alloc())?, None);
    Ok(())
}
