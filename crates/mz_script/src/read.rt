//! Reading the text of a derivation: parts of a line from the front of its bytes, lines by their words, and bodies line by line.
mod bodies;
mod fronts;
mod line;
mod lines;
mod look_ups;
mod script;
mod steps;
mod stop;
mod types;

pub use script::read_script;
