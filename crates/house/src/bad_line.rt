// What send writes at its first bad line.
ghost use Rattle.std.specs.Prelude.{◌≡◌, ◌^◌};
ghost use Rattle.house.specs.BadLine.{tens, BadLineTextSays};

use crate::{LINE_FEED, Text};

const HEADING: [u8; 40] =
    *b"bad line \0\0\0\0\0\0\0\0\0\0\0\0\0\0\0\0\0\0\0\0\0\0\0\0\0\0\0\0\0\0\0";

// The weight of a number's first decimal digit.
fn first_weight(n: u64) -> u64
    ensures { result ≡ 10 ^ tens n }
{
    let mut weight: u64 = 1;
    let mut rest = n;
    // The number says how many turns there are: no index is counted.
    while rest >= 10 {
        rest /= 10;
        weight *= 10;
    }
    weight
}

pub fn bad_line_text(n: u64) -> Text
    ensures { BadLineTextSays n result }
{
    let mut bytes = HEADING;
    let mut weight = first_weight(n);
    let mut at: usize = 9;
    // The weight says when the digits end, and `at` is needed after them: a `for` over places is no plainer.
    while weight > 0 {
        bytes[at] = b'0' + (n / weight % 10) as u8;
        weight /= 10;
        at += 1;
    }
    bytes[at] = LINE_FEED;
    let length = at + 1;
    Text { bytes, length }
}
