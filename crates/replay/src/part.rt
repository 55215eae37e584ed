// The part of a recording that is heard: a fresh receiver listens to it up to the first offer from a sample on.
ghost use Rattle.std.specs.Prelude.{◌≡◌};
ghost use Rattle.demodulator.specs.Calls.{heard_paper};
ghost use Rattle.replay.specs.Part.{found_from, FirstIn};

use demodulator::{Offer, SoftDemodulator};
use protocol::Refusal;

// With the symbols of the offer that is found.
#[derive(Clone, Copy)]
pub(crate) struct First {
    pub found: Option<Offer>,
    pub window: [f32; 192],
}

// An offer at the sample or after it.
#[tactic(auto, unfolding(crate::specs::Part::found_from))]
fn pick_offer(answer: Result<Option<Offer>, Refusal>, sample: u64) -> Option<Offer>
    ensures { result ≡ found_from sample (heard_paper answer) }
{
    match answer {
        Ok(Some(offer)) if sample <= offer.sample => Some(offer),
        _ => None,
    }
}

// Only an offer is followed by more samples.
pub(crate) fn find_offer(rate: u32, samples: &[i16], sample: u64) -> First
    ensures { FirstIn rate samples.now sample result }
{
    let begun = SoftDemodulator::new(rate);
    let mut left = begun.demodulator;
    let mut fed: usize = 0;
    // A turn takes the samples up to an offer, so no range gives the next one's place.
    while fed < samples.len() {
        let heard = listening::listen(left, &samples[fed..]);
        let answer = heard.answer;
        let window = heard.window;
        let found = pick_offer(answer, sample);
        if found.is_some() {
            return First { found, window };
        }
        if !listening::is_offered(answer) {
            return First {
                found: None,
                window,
            };
        }
        left = heard.demodulator;
        fed += heard.fed;
    }
    First {
        found: None,
        window: [0.0f32; 192],
    }
}
