//! What is answered to the sources of the tables.
use crate::answers::answer;
use accepted::ACCEPTED;
use refused::REFUSED;
use scripts::script_of;
use std::alloc::Global;
use std::test::Fail;

mod accepted;
mod refused;
mod scripts;

/// The rows whose source is answered by something else, with what that is.
fn missed(alloc: Global, rows: &[(&str, &str, &str)]) -> Result<String, Fail> {
    let mut text = String::new(alloc);
    for k in 0..rows.len() {
        let (name, source, wanted) = rows[k];
        let found = answer(alloc, source)?;
        if found.as_str() != wanted {
            text.push_str(format!(in alloc; "{name}: {found}\n")?.as_str())?;
        }
    }
    Ok(text)
}

#[test]
fn programs_are_derived(rt: HostRuntime) -> Result<(), Fail> {
    assert_eq!(rt; missed(rt.alloc(), ACCEPTED)?.as_str(), "");
    Ok(())
}

#[test]
fn the_first_permission_that_is_wanting_is_named(rt: HostRuntime) -> Result<(), Fail> {
    assert_eq!(rt; missed(rt.alloc(), REFUSED)?.as_str(), "");
    Ok(())
}

const ONE_CELL: &str = "data mutable cell = Cell { v: int }
sig start = () -> (r: unknown)
fun main : start = {
  let c = Cell { v = 41 };
  c.v <- c.v + 1;
  print c.v
}";

const ITS_SCRIPT: &str = "do
do
do %1 @ Cell { v = %0 }
do
equal %2 %0
rename %0 @ int to %2
do
do %1 @ Cell { v = %0 }
do %1 @ Cell { v = %4 }
equal %6 %4
rename %4 @ int to %6
do
";

#[test]
fn the_script_of_one_cell_says_what_is_new_alone(rt: HostRuntime) -> Result<(), Fail> {
    assert_eq!(rt; script_of(rt.alloc(), ONE_CELL)?.as_str(), ITS_SCRIPT);
    Ok(())
}
