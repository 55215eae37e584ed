// What a call is answered with, in a word.
use crate::answer;
use crate::answer::Found;
use demodulator::Offer;
use protocol::Refusal;

// An answer's word, the number of a refusal, and what an offer reports.
#[derive(Clone, Copy)]
pub(crate) struct Said {
    pub word: usize,
    pub number: u32,
    pub found: Found,
}

fn no_offer(word: usize, number: u32) -> Said {
    Said {
        word,
        number,
        found: answer::nothing_found(),
    }
}

fn refused(why: Refusal) -> Said {
    no_offer(answer::REFUSED, why.number())
}

pub(crate) fn heard(answer: Result<Option<Offer>, Refusal>) -> Said {
    match answer {
        Err(why) => refused(why),
        Ok(None) => no_offer(answer::QUIET, 0),
        Ok(Some(offer)) => Said {
            word: answer::OFFERED,
            number: 0,
            found: Found {
                at: offer.taken_at,
                kept: offer.age as u64,
                marked: offer.replaced,
            },
        },
    }
}

// The word of a call that is done, which gives back nothing but its record.
pub(crate) fn done(answer: Result<(), Refusal>, word: usize) -> Said {
    match answer {
        Err(why) => refused(why),
        Ok(()) => no_offer(word, 0),
    }
}

pub(crate) fn queried(answer: Result<bool, Refusal>) -> Said {
    match answer {
        Err(why) => refused(why),
        Ok(yes) => {
            let word = if yes { answer::YES } else { answer::NO };
            no_offer(word, 0)
        }
    }
}
