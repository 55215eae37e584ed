// The receiver's answers as numbers: the code, and what is told beside it.
ghost use Rattle.std.specs.Prelude.{◌≡◌};
ghost use Rattle.demodulator.specs.Calls.{heard_paper, done_paper, carrier_paper};
ghost use Rattle.library_receiver.specs.Memory.{reply_of, paper_code, told_after, gain_after};

use demodulator::{Offer, Reply};
use protocol::Refusal;

pub fn read_reply(accepted: u32) -> Reply
    ensures { result ≡ reply_of accepted }
{
    if accepted == 0 {
        Reply::Rejected
    } else {
        Reply::Accepted
    }
}

pub fn code_heard(answer: Result<Option<Offer>, Refusal>) -> u32
    ensures { result ≡ paper_code (heard_paper answer) }
{
    match answer {
        Err(why) => library_codes::refusal_code(why),
        Ok(None) => 0,
        Ok(Some(offer)) => library_codes::kind_code(offer.kind),
    }
}

pub fn code_replied(answer: Result<(), Refusal>) -> u32
    ensures { result ≡ paper_code (done_paper answer) }
{
    match answer {
        Err(why) => library_codes::refusal_code(why),
        Ok(()) => 0,
    }
}

pub fn code_carrier(answer: Result<bool, Refusal>) -> u32
    ensures { result ≡ paper_code (carrier_paper answer) }
{
    match answer {
        Err(why) => library_codes::refusal_code(why),
        Ok(yes) => if yes { 1 } else { 0 },
    }
}

// The five numbers after a stretch: how many samples went in, and an offer's own.
pub fn tell_offer(answer: Result<Option<Offer>, Refusal>, fed: usize, told: [u64; 5]) -> [u64; 5]
    ensures { result ≡ told_after (heard_paper answer) fed told }
{
    match answer {
        Err(_) => told,
        Ok(None) => [fed as u64, 0, 0, 0, 0],
        Ok(Some(offer)) => {
            let replaced = library_codes::flag_of(offer.replaced);
            [
                fed as u64,
                offer.sample,
                offer.taken_at,
                offer.age as u64,
                replaced,
            ]
        }
    }
}

// The gain after a stretch: an offer's, or what it was.
pub fn tell_gain(answer: Result<Option<Offer>, Refusal>, gain: [f32; 1]) -> [f32; 1]
    ensures { result ≡ gain_after (heard_paper answer) gain }
{
    match answer {
        Ok(Some(offer)) => [offer.gain],
        _ => gain,
    }
}
