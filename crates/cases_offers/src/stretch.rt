// A stream in stretches: the offers and the refusal inside many samples at once, and what can be seen of the receiver after them.
use crate::stream::Session;
use crate::{changes, stream};
use demodulator::{Offer, SoftDemodulator};
use std::io::{self, Write};

// A call of `feed`: how many samples went in, and whether the rest is given again; session and count are there either way.
#[derive(Clone, Copy)]
struct Turn {
    session: Session,
    fed: usize,
    more: bool,
}

// A fresh receiver with another count: no run comes near the last one.
pub(crate) fn at_count(session: Session, count: u64) -> Session {
    let mut receiver = session.receiver;
    let mut control = receiver.control;
    control.sample = count;
    receiver.control = control;
    let mut next = session;
    next.receiver = receiver;
    next
}

// The first samples, or all where they are fewer.
pub(crate) fn front(samples: &[i16], count: usize) -> &[i16] {
    &samples[..count.min(samples.len())]
}

// Those after them, none where they are fewer.
fn after(samples: &[i16], count: usize) -> &[i16] {
    &samples[count.min(samples.len())..]
}

fn put_left(out: &mut impl Write, receiver: SoftDemodulator) -> io::Result<()> {
    let seen = changes::look_at(receiver);
    let held = seen.held;
    let wait = seen.wait;
    write!(out, "{}", seen.count)?;
    out.write_all(b" left")?;
    changes::put_end(out, seen.timer)?;
    changes::put_held(out, held)?;
    changes::put_waited(out, wait)?;
    cases_text::end_line(out)
}

fn put_refused(out: &mut impl Write, receiver: SoftDemodulator, number: u32) -> io::Result<()> {
    let control = receiver.control;
    write!(out, "{}", control.sample)?;
    out.write_all(b" ")?;
    stream::put_refusal(out, number)
}

fn offered(
    out: &mut impl Write,
    session: Session,
    receiver: SoftDemodulator,
    offer: Offer,
    room: [f32; 192],
) -> io::Result<Session> {
    let accepted = stream::is_accepted(session);
    stream::put_offer(out, offer.sample.wrapping_sub(1), offer, room)?;
    stream::put_reply(out, accepted)?;
    let mut next = session;
    next.receiver = stream::settled(out, receiver, accepted)?;
    next.replies = next.replies.wrapping_add(1);
    Ok(next)
}

fn feed_some(out: &mut impl Write, session: Session, samples: &[i16]) -> io::Result<Turn> {
    let mut room = [0.0f32; 192];
    let receiver = session.receiver;
    let heard = receiver.feed(samples, &mut room);
    let fed = heard.fed;
    let answer = heard.answer;
    let after = heard.demodulator;
    match answer {
        Ok(None) => {
            let mut next = session;
            next.receiver = after;
            Ok(Turn {
                session: next,
                fed,
                more: true,
            })
        }
        Ok(Some(offer)) => Ok(Turn {
            session: offered(out, session, after, offer, room)?,
            fed,
            more: true,
        }),
        Err(why) => {
            put_refused(out, receiver, why.number())?;
            Ok(Turn {
                session,
                fed,
                more: false,
            })
        }
    }
}

// What did not go in is given again, until it is refused. Each other call takes a sample at least, so no stretch of a list needs more calls.
pub(crate) fn feed_all(
    out: &mut impl Write,
    session: Session,
    samples: &[i16],
) -> io::Result<Session> {
    let mut next = session;
    let mut rest = samples;
    for _ in 0..611 {
        let turn = feed_some(out, next, rest)?;
        next = turn.session;
        rest = after(rest, turn.fed);
        if !turn.more | rest.is_empty() {
            break;
        }
    }
    put_left(out, next.receiver)?;
    Ok(next)
}
