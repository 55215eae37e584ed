// The numbers by which the library tells what cannot cross to C as it is: a refusal, a kind of frame, a flag.
#![tactic(auto)]

ghost use Rattle.std.specs.Prelude.{◌≡◌, ◌≤◌};
ghost use Rattle.library_codes.specs.Codes.{place_share, RefusalCodeSays, KindCodeSays, FlagOfSays};

use protocol::{Kind, Place, Refusal};

// No more than this is told of a symbol's place; a frame's places are below 192.
const LAST_TOLD: usize = 65535;

fn share_of(place: Place) -> u32
    ensures { (result ≡ place_share place) × (result ≤ 4294901760) }
{
    match place {
        Place::Nothing => 0,
        Place::Symbol(at) => {
            if LAST_TOLD < at {
                return 4294901760;
            }
            65536 * (at as u32)
        }
        Place::Line(_) => 0,
    }
}

// The code of a refused call: 100 and the refusal's number, and a wrong symbol's place in the upper half.
pub fn refusal_code(why: Refusal) -> u32
    ensures { RefusalCodeSays why result }
{
    let number = why.number();
    let place = why.place();
    let upper = share_of(place);
    let lower = 100 + number;
    lower + upper
}

// The code of an offered frame's kind.
pub fn kind_code(kind: Kind) -> u32
    ensures { KindCodeSays kind result }
{
    match kind {
        Kind::Lsf => 1,
        Kind::Bert => 2,
        Kind::Stream => 3,
        Kind::Packet => 4,
    }
}

pub fn flag_of(b: bool) -> u64
    ensures { FlagOfSays b result }
{
    u64::from(b)
}
