// Numbers and floats from a word.
ghost use Rattle.std.specs.Prelude.{◌≡◌, ◌<◌};
ghost use Rattle.cases_text.specs.Numbers.{Digit, appended, number_of, DecimalSays, HexadecimalSays, FloatSays, SameFloatSays, SampleSays};

use crate::begins;

fn digit(letter: u8) -> u64
    ensures { Digit letter result }
{
    match letter {
        b'0'..=b'9' => (letter - b'0') as u64,
        b'a'..=b'f' => (letter - b'a' + 10) as u64,
        _ => 0,
    }
}

// One digit more. A number that a u64 does not hold stays at the largest.
#[tactic(auto, unfolding(crate::specs::Numbers::appended))]
fn appended(base: u64, number: u64, digit: u64) -> u64
    ensures { result ≡ appended base number digit }
{
    number.saturating_mul(base).saturating_add(digit)
}

fn number(word: &[u8], base: u64) -> u64
    ensures { result ≡ number_of base word.now }
{
    let mut value: u64 = 0;
    for letter in word {
        value = appended(base, value, digit(*letter));
    }
    value
}

pub fn decimal(word: &[u8]) -> u64
    ensures { DecimalSays word.now result }
{
    number(word, 10)
}

pub fn hexadecimal(word: &[u8]) -> u64
    ensures { HexadecimalSays word.now result }
{
    number(word, 16)
}

// The eight digits of a bit pattern, or `nan`.
pub fn float(word: &[u8]) -> f32
    ensures { FloatSays word.now result }
{
    if begins(word, b'n') {
        return 0.0 / 0.0;
    }
    let pattern = number(word, 16) % 0x1_0000_0000;
    numbers::of_pattern(pattern as u32)
}

// Equal to the bit; one not-a-number is as good as another.
pub fn same_float(a: f32, b: f32) -> bool
    ensures { SameFloatSays a b result }
{
    if a != a {
        b != b
    } else if b != b {
        false
    } else {
        let pattern = f32::to_bits(a);
        let other = f32::to_bits(b);
        pattern == other
    }
}

// A sample in decimal, with `-` before it where it is below 0.
pub fn sample(word: &[u8]) -> i16
    ensures { SampleSays word.now result }
{
    if begins(word, b'-') {
        let size = number(&word[1..], 10);
        numbers::with_sign(true, size)
    } else {
        let size = number(word, 10);
        numbers::with_sign(false, size)
    }
}
