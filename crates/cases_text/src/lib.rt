// The text of the cases: a text's lines, a line's cells and words by their places and by name, the numbers and floats that words hold, and floats and signed numbers written as the lists of the Rust's answers have them.
#![tactic(auto)]

mod behind;
mod lines;
mod places;
mod reading;
mod writing;

pub use behind::{count_behind, float_behind, names, place_behind};
pub use lines::{Lines, read_text};
pub use places::{begins, cell, word};
pub use reading::{decimal, float, hexadecimal, same_float, sample};
pub use writing::{end_line, put_count, put_float, put_floats, put_front, put_signed};
