// What the program receive does between its reads and its writes: bytes become samples, and accepted windows become lines.
#![tactic(auto)]

ghost use Rattle.std.specs.Prelude.{◌≡◌};
ghost use Rattle.receiving.specs.Hear.{NewSays, HearSays};
ghost use Rattle.receiving.specs.Parts.{looks_at};

use demodulator::SoftDemodulator;
use protocol::Refusal;

mod pairs;
mod windows;

#[derive(Clone, Copy)]
pub struct Receiving {
    pub demodulator: SoftDemodulator,
    pub odd: Option<u8>,
}

// The first `consumed` of the bytes count as given, and the caller gives the others again.
// The first `written` places of the lent room are the lines.
#[derive(Clone, Copy)]
pub struct AfterBytes {
    pub answer: Result<(), Refusal>,
    pub consumed: usize,
    pub written: usize,
    pub receiving: Receiving,
}

// The most bytes that a call looks at. With a byte that waits they are 8,192 samples.
const MOST_BYTES: usize = 16384;

// How many bytes a call looks at. Without room for a line no sample can go in.
fn look_at(bytes: usize, places: usize) -> usize
    ensures { result ≡ looks_at bytes places }
{
    if places < windows::LINE {
        0
    } else {
        bytes.min(MOST_BYTES)
    }
}

impl Receiving {
    pub fn new() -> Self
        ensures { NewSays result }
    {
        let begun = SoftDemodulator::new(48000);
        let demodulator = begun.demodulator;
        Receiving {
            demodulator,
            odd: None,
        }
    }

    // The next bytes of the input: samples go in while there is room for a line in `lines`, and the lines of the windows that are
    // accepted go to its front.
    pub fn hear(self, bytes: &[u8], lines: &mut [u8]) -> AfterBytes
        ensures { HearSays self bytes.now lines.old result lines.new }
    {
        let looked = look_at(bytes.len(), lines.len());
        let odd = self.odd;
        let mut samples = [0i16; 8192];
        let paired = pairs::pair_up(odd, &bytes[..looked], &mut samples);
        let count = paired.count;
        let demodulator = self.demodulator;
        let heard = windows::hear_samples(demodulator, &samples[..count], lines);
        let answer = heard.answer;
        let next = heard.demodulator;
        if answer.is_ok() && heard.fed == count {
            let left_over = paired.odd;
            return AfterBytes {
                answer,
                consumed: looked,
                written: heard.written,
                receiving: Receiving {
                    demodulator: next,
                    odd: left_over,
                },
            };
        }
        let part = pairs::measure_part(odd, heard.fed);
        let held = part.odd;
        AfterBytes {
            answer,
            consumed: part.consumed,
            written: heard.written,
            receiving: Receiving {
                demodulator: next,
                odd: held,
            },
        }
    }
}
