// A stream: a receiver from fresh, and the replies to its offers.
use crate::changes;
use crate::changes::Seen;
use demodulator::{Offer, Reply, SoftDemodulator};
use std::io::{self, Write};

#[derive(Clone, Copy)]
pub(crate) struct Session {
    pub receiver: SoftDemodulator,
    // What was last seen of it, and the letters of the replies with how many of them are used.
    pub seen: Seen,
    pub script: [u8; 16],
    pub replies: u64,
}

pub(crate) fn fresh(rate: u32, script: [u8; 16]) -> Session {
    let made = SoftDemodulator::new(rate);
    let receiver = made.demodulator;
    let seen = changes::look_at(receiver);
    Session {
        receiver,
        seen,
        script,
        replies: 0,
    }
}

// The sample is finished.
fn finished(
    out: &mut impl Write,
    session: Session,
    receiver: SoftDemodulator,
) -> io::Result<Session> {
    let before = session.seen;
    let now = changes::look_at(receiver);
    changes::put_changes(out, before, now)?;
    let mut next = session;
    next.receiver = receiver;
    next.seen = now;
    Ok(next)
}

pub(crate) fn put_offer(
    out: &mut impl Write,
    before: u64,
    offer: Offer,
    room: [f32; 192],
) -> io::Result<()> {
    let kind = offer.kind;
    changes::put_event(out, before, b"offer")?;
    changes::put_kind(out, changes::kind_number(kind))?;
    cases_text::put_count(out, offer.sample)?;
    cases_text::put_count(out, offer.taken_at)?;
    cases_text::put_count(out, offer.age as u64)?;
    cases_text::put_count(out, offer.replaced as u64)?;
    cases_text::put_float(out, offer.gain)?;
    cases_text::put_floats(out, &room)
}

// Past the script's end every offer is rejected.
pub(crate) fn is_accepted(session: Session) -> bool {
    session.script.get(session.replies as usize) == Some(&b'a')
}

pub(crate) fn put_refusal(out: &mut impl Write, number: u32) -> io::Result<()> {
    out.write_all(b"refused")?;
    cases_text::put_count(out, number as u64)?;
    cases_text::end_line(out)
}

pub(crate) fn settled(
    out: &mut impl Write,
    receiver: SoftDemodulator,
    accepted: bool,
) -> io::Result<SoftDemodulator> {
    let reply = if accepted {
        Reply::Accepted
    } else {
        Reply::Rejected
    };
    let left = receiver.reply(reply);
    let answer = left.answer;
    if let Err(why) = answer {
        put_refusal(out, why.number())?;
    }
    Ok(left.demodulator)
}

pub(crate) fn put_reply(out: &mut impl Write, accepted: bool) -> io::Result<()> {
    if accepted {
        out.write_all(b" accept\n")
    } else {
        out.write_all(b" reject\n")
    }
}

fn offered(
    out: &mut impl Write,
    session: Session,
    receiver: SoftDemodulator,
    offer: Offer,
    room: [f32; 192],
) -> io::Result<Session> {
    let before = session.seen;
    let accepted = is_accepted(session);
    put_offer(out, before.count, offer, room)?;
    put_reply(out, accepted)?;
    let after = settled(out, receiver, accepted)?;
    let mut next = finished(out, session, after)?;
    next.replies = next.replies.wrapping_add(1);
    Ok(next)
}

pub(crate) fn fed(out: &mut impl Write, session: Session, sample: i16) -> io::Result<Session> {
    let mut room = [0.0f32; 192];
    let receiver = session.receiver;
    let heard = receiver.demod(sample, &mut room);
    let answer = heard.answer;
    let after = heard.demodulator;
    match answer {
        Ok(None) => finished(out, session, after),
        Ok(Some(offer)) => offered(out, session, after, offer, room),
        Err(why) => {
            put_refusal(out, why.number())?;
            Ok(session)
        }
    }
}
