// A frame as a line: 96 capital hexadecimal digits, two symbols each, and a line feed.
ghost use Rattle.std.specs.Prelude.{◌≡◌, true, ◌<◌};
ghost use Rattle.house.specs.Digits.{value_of, digit_of};
ghost use Rattle.house.specs.Line.{symbol_of, good_line, symbols_of_lem, LineSymbolsSays, SymbolsLineSays};

use crate::{LINE_FEED, two_bits};

// What stands for the value of a byte that is no digit.
const NO_DIGIT: u8 = 16;

const ONE_THIRD: f32 = 0.33333334;

// Capital digits only.
fn value(byte: u8) -> u8
    ensures { result ≡ value_of byte }
{
    match byte {
        b'0'..=b'9' => byte - b'0',
        b'A'..=b'F' => byte - b'A' + 10,
        _ => NO_DIGIT,
    }
}

fn digit(value: u8) -> u8
    requires { value < 16 }
    ensures { result ≡ digit_of value }
{
    if value < 10 {
        b'0' + value
    } else {
        b'A' + (value - 10)
    }
}

fn symbol(bits: u8) -> f32
    requires { bits < 4 }
    ensures { result ≡ symbol_of bits }
{
    match bits {
        0 => ONE_THIRD,
        1 => 1.0,
        2 => -ONE_THIRD,
        _ => -1.0,
    }
}

fn good(line: [u8; 97]) -> bool
    ensures { result ≡ good_line line }
{
    line[..96].iter().all(|byte| value(*byte) < NO_DIGIT) && line[96] == LINE_FEED
}

// Of a digit's two symbols the first is in the high bits.
fn symbols_of(line: [u8; 97]) -> [f32; 192]
    requires { good_line line ≡ true }
    ensures { result ≡ symbols_of_lem line }
{
    let mut symbols = [0.0f32; 192];
    for (i, place) in symbols.iter_mut().enumerate() {
        let four = value(line[i / 2]);
        let bits = if i % 2 == 0 { four / 4 } else { four % 4 };
        *place = symbol(bits);
    }
    symbols
}

// A bad line has no symbols. Where a caller asks only whether there are some, they are not worked out.
#[inline]
#[tactic(auto, unfolding(crate::specs::Line::read_line))]
pub fn line_symbols(line: [u8; 97]) -> Option<[f32; 192]>
    ensures { LineSymbolsSays line result }
{
    if good(line) {
        Some(symbols_of(line))
    } else {
        None
    }
}

// Each symbol is sliced: a line is written for any symbols.
pub fn symbols_line(symbols: [f32; 192]) -> [u8; 97]
    ensures { SymbolsLineSays symbols result }
{
    let mut line = [LINE_FEED; 97];
    for i in 0..96 {
        let high = two_bits(symbols[2 * i]);
        let low = two_bits(symbols[2 * i + 1]);
        line[i] = digit(4 * high + low);
    }
    line
}
