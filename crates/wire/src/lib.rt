// Numbers, floats and samples as bytes, low byte first, one after the other from a slice's beginning on: what the programs of tools/compare are asked and answer with. A byte that the slice
// does not have reads as 0 and is not written, so that every call is defined whatever is lent.
#![tactic(auto)]

mod reading;
mod writing;

pub use reading::{floats, numbers, samples};
pub use writing::{put_floats, put_numbers, put_samples};
