// Listening to a receiver: samples go in up to an offer, which is judged by the receive program's rule and replied to before the next sample.
#![tactic(auto)]

ghost use Rattle.std.specs.Prelude.{◌≡◌};
ghost use Rattle.house.specs.Accept.{accepted, symbol_at};
ghost use Rattle.listening.specs.Verdict.{verdict};
ghost use Rattle.listening.specs.Listen.{IsOfferedSays, ListenSays};

use demodulator::{Offer, Reply, SoftDemodulator};
use protocol::{Kind, Refusal};

// What comes of samples up to an offer: `fed` of them went in. `window` has the offer's symbols, or noughts where there is none, so that an
// offer that is not shown touches nobody's room. `timer` is the carrier timer before the reply, and the record is the one after it.
#[derive(Clone, Copy)]
pub struct Listened {
    pub answer: Result<Option<Offer>, Refusal>,
    pub settled: Option<Reply>,
    pub fed: usize,
    pub window: [f32; 192],
    pub timer: Option<u64>,
    pub demodulator: SoftDemodulator,
}

#[tactic(auto, unfolding(crate::specs::Listen::is_offer))]
pub fn is_offered(answer: Result<Option<Offer>, Refusal>) -> bool
    ensures { IsOfferedSays answer result }
{
    matches!(answer, Ok(Some(_)))
}

fn is_accepted(kind: Kind, window: [f32; 192]) -> bool
    ensures { result ≡ accepted kind (symbol_at window) }
{
    let mut first = [0.0f32; 8];
    first.copy_from_slice(&window[..8]);
    house::accepts(kind, first)
}

// The reply to an offer.
fn judge(kind: Kind, window: [f32; 192]) -> Reply
    ensures { result ≡ verdict kind window }
{
    if is_accepted(kind, window) {
        return Reply::Accepted;
    }
    Reply::Rejected
}

// The samples up to the first offer, which is replied to, or up to one that would be refused.
#[tactic(auto, using(crate::proofs::Settlement::listens_refused, crate::proofs::Settlement::listens_quiet, crate::proofs::Settlement::listens_offered), unfolding(demodulator::specs::Singles::blank))]
pub fn listen(demodulator: SoftDemodulator, samples: &[i16]) -> Listened
    ensures { ListenSays demodulator samples.now result }
{
    let mut window = [0.0f32; 192];
    let after = demodulator.feed(samples, &mut window);
    let answer = after.answer;
    let fed = after.fed;
    let left = after.demodulator;
    let control = left.control;
    let timer = control.dcd;
    match answer {
        Err(_) | Ok(None) => Listened {
            answer,
            settled: None,
            fed,
            window,
            timer,
            demodulator: left,
        },
        Ok(Some(offer)) => {
            let reply = judge(offer.kind, window);
            Listened {
                answer,
                settled: Some(reply),
                fed,
                window,
                timer,
                demodulator: left.reply(reply).demodulator,
            }
        }
    }
}
