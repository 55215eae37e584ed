// The calls by their numbers. Each puts out what it left.
use crate::layout;
use crate::layout::{NO_KIND, Words};
use demodulator::{Offer, Reply, SoftDemodulator};
use protocol::Refusal;
use std::io::{self, Write};

const FRESH: u64 = 0;

const LISTEN: u64 = 1;

const FEED: u64 = 2;

const REPLY: u64 = 3;

fn told(refusal: u64, answer: u64) -> Words {
    Words {
        refusal,
        answer,
        at: 0,
        taken_at: 0,
        age: 0,
        mark: 0,
        gain: 0,
        carrier: 0,
        given: 0,
    }
}

// No offer.
fn of_samples(refusal: u64, answer: u64, carrier: u64, given: usize) -> Words {
    Words {
        refusal,
        answer,
        at: 0,
        taken_at: 0,
        age: 0,
        mark: 0,
        gain: 0,
        carrier,
        given,
    }
}

fn heard(answer: Result<Option<Offer>, Refusal>, carrier: u64, given: usize) -> Words {
    match answer {
        Err(why) => of_samples(why.number() as u64, NO_KIND, carrier, given),
        Ok(None) => of_samples(0, NO_KIND, carrier, given),
        Ok(Some(offer)) => {
            let kind = offer.kind;
            Words {
                refusal: 0,
                answer: layout::number_of(kind),
                at: offer.sample,
                taken_at: offer.taken_at,
                age: offer.age as u64,
                mark: offer.replaced as u64,
                gain: layout::pattern_of(offer.gain),
                carrier,
                given,
            }
        }
    }
}

// What a call came to that gives back nothing but its record.
fn done(answer: Result<(), Refusal>) -> Words {
    match answer {
        Err(why) => told(why.number() as u64, 0),
        Ok(()) => told(0, 0),
    }
}

// 0 for no, 1 for yes, 2 for a refusal.
fn carried(answer: Result<bool, Refusal>) -> Words {
    match answer {
        Err(why) => told(why.number() as u64, 2),
        Ok(yes) => told(0, yes as u64),
    }
}

fn note(
    out: &mut impl Write,
    m: SoftDemodulator,
    answer: Result<Option<Offer>, Refusal>,
) -> io::Result<()> {
    let carrier = carried(m.data_carrier_detect());
    layout::put_front(out, m, heard(answer, carrier.answer, 1))
}

// A call for each sample, until one is refused or brings an offer; that one is given too.
fn listen(
    out: &mut impl Write,
    fresh: SoftDemodulator,
    samples: &[i16],
    room: &mut [f32],
) -> io::Result<()> {
    let mut receiver = fresh;
    let mut given: usize = 0;
    for (i, sample) in samples.iter().enumerate() {
        let after = receiver.demod(*sample, room);
        receiver = after.demodulator;
        let answer = after.answer;
        note(out, receiver, answer)?;
        given = i + 1;
        if !matches!(answer, Ok(None)) {
            break;
        }
    }
    layout::put_record(out, receiver, of_samples(0, 0, 0, given))
}

fn feed(
    out: &mut impl Write,
    receiver: SoftDemodulator,
    samples: &[i16],
    room: &mut [f32],
) -> io::Result<()> {
    let after = receiver.feed(samples, room);
    let answer = after.answer;
    let next = after.demodulator;
    layout::put_record(out, next, heard(answer, 0, after.fed))
}

fn begin(out: &mut impl Write, rate: u32) -> io::Result<()> {
    let after = SoftDemodulator::new(rate);
    let answer = after.answer;
    let next = after.demodulator;
    layout::put_record(out, next, done(answer))
}

fn reply(out: &mut impl Write, receiver: SoftDemodulator, accepted: bool) -> io::Result<()> {
    let reply = if accepted {
        Reply::Accepted
    } else {
        Reply::Rejected
    };
    let after = receiver.reply(reply);
    let answer = after.answer;
    let next = after.demodulator;
    layout::put_record(out, next, done(answer))
}

// A fresh record of the given one's rate, the samples one by one, the samples at once, a reply, and otherwise the carrier query.
pub(crate) fn call(
    out: &mut impl Write,
    number: u64,
    receiver: SoftDemodulator,
    samples: &[i16],
    room: &mut [f32],
    accepted: bool,
) -> io::Result<()> {
    if number == FRESH {
        begin(out, receiver.rate)
    } else if number == LISTEN {
        listen(out, receiver, samples, room)
    } else if number == FEED {
        feed(out, receiver, samples, room)
    } else if number == REPLY {
        reply(out, receiver, accepted)
    } else {
        layout::put_record(out, receiver, carried(receiver.data_carrier_detect()))
    }
}
