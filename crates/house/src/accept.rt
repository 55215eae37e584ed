// The receive program's rule for an offered window.
ghost use Rattle.std.specs.Prelude.{◌≡◌};
ghost use Rattle.protocol.specs.Bursts.{word_of};
ghost use Rattle.house.specs.Accept.{sliced_word_lem, AcceptsSays};

use crate::two_bits;
use protocol::Kind;

// The words of the M17 specification: numbers, as the promise (`word_of`) has them.
#[tactic(auto, unfolding(protocol::specs::Bursts::word_of))]
fn word(kind: Kind) -> u32
    ensures { result ≡ word_of kind }
{
    match kind {
        Kind::Lsf => 0x55f7,
        Kind::Bert => 0xdf55,
        Kind::Stream => 0xff5d,
        Kind::Packet => 0x75ff,
    }
}

// Eight symbols sliced, the first in the high bits.
fn sliced_word(symbols: [f32; 8]) -> u32
    ensures { result ≡ sliced_word_lem symbols }
{
    let mut read: u32 = 0;
    for symbol in &symbols {
        read = 4 * read + two_bits(*symbol) as u32;
    }
    read
}

// A window's first eight symbols are those of its burst.
#[tactic(auto, unfolding(crate::specs::Accept::accepted))]
pub fn accepts(kind: Kind, symbols: [f32; 8]) -> bool
    ensures { AcceptsSays kind symbols result }
{
    sliced_word(symbols) == word(kind)
}
