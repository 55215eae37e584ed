// The house format of the two programs: a frame's symbols as a line of text and back, samples as bytes and back, the texts that name a bad line and a failure,
// and the rule by which a program accepts an offered window. All goes by value in arrays of fixed length: no caller can bring too little room.
#![tactic(auto)]

ghost use Rattle.std.specs.Prelude.{◌≡◌};
ghost use Rattle.house.specs.Line.{bits_of};

mod accept;
mod bad_line;
mod failing;
mod line;
mod outcome;
mod sample;

pub use accept::accepts;
pub use bad_line::bad_line_text;
pub use failing::trouble_text;
pub use line::{line_symbols, symbols_line};
pub use outcome::outcome_text;
pub use sample::{bytes_of_i16, i16_of_bytes};

// The first `length` bytes are the text, and zeros follow.
#[derive(Clone, Copy)]
pub struct Text {
    pub bytes: [u8; 40],
    pub length: usize,
}

// Which program speaks.
#[derive(Clone, Copy)]
pub enum Program {
    Receive,
    Send,
}

// Why a program stops before its input has ended.
#[derive(Clone, Copy)]
pub enum Trouble {
    Reading,
    Writing,
    Refused,
}

// What ends a line.
pub const LINE_FEED: u8 = 10;

// The slicer's two bits as one number, its first bit the higher.
fn two_bits(symbol: f32) -> u8
    ensures { result ≡ bits_of symbol }
{
    let bits = decode::decode_sample(symbol);
    2 * bits[0] + bits[1]
}
