// What a call is answered with, written in words.
use demodulator::Offer;
use desk::{Fed, Line};
use protocol::{Kind, Refusal};
use std::io::{self, Write};

fn put_refused(out: &mut impl Write, why: Refusal) -> io::Result<()> {
    out.write_all(b" refused")?;
    cases_text::put_count(out, why.number() as u64)
}

// Of a call that tells nothing more: the word for it.
pub(crate) fn put_done(
    out: &mut impl Write,
    answer: Result<(), Refusal>,
    word: &[u8],
) -> io::Result<()> {
    match answer {
        Err(why) => put_refused(out, why),
        Ok(()) => out.write_all(word),
    }
}

pub(crate) fn put_carrier(out: &mut impl Write, answer: Result<bool, Refusal>) -> io::Result<()> {
    match answer {
        Err(why) => put_refused(out, why),
        Ok(true) => out.write_all(b" yes"),
        Ok(false) => out.write_all(b" no"),
    }
}

// The programs that write a kind share no crate that knows the type and writes.
fn put_kind(out: &mut impl Write, kind: Kind) -> io::Result<()> {
    match kind {
        Kind::Lsf => out.write_all(b" lsf"),
        Kind::Bert => out.write_all(b" bert"),
        Kind::Stream => out.write_all(b" stream"),
        Kind::Packet => out.write_all(b" packet"),
    }
}

// The programs that write an offer share no crate that knows the type and writes.
fn put_offer(out: &mut impl Write, offer: Offer, room: [f32; 200]) -> io::Result<()> {
    let kind = offer.kind;
    put_kind(out, kind)?;
    cases_text::put_count(out, offer.sample)?;
    cases_text::put_count(out, offer.taken_at)?;
    cases_text::put_count(out, offer.age as u64)?;
    cases_text::put_count(out, offer.replaced as u64)?;
    cases_text::put_float(out, offer.gain)?;
    cases_text::put_floats(out, &room[0..192])
}

// And how many samples went in, before what an offer reports.
pub(crate) fn put_fed(out: &mut impl Write, told: Fed, room: [f32; 200]) -> io::Result<()> {
    let answer = told.answer;
    let fed = told.fed as u64;
    match answer {
        Err(why) => {
            put_refused(out, why)?;
            cases_text::put_count(out, fed)
        }
        Ok(None) => {
            out.write_all(b" quiet")?;
            cases_text::put_count(out, fed)
        }
        Ok(Some(offer)) => {
            out.write_all(b" offered")?;
            cases_text::put_count(out, fed)?;
            put_offer(out, offer, room)
        }
    }
}

// `-` is a closed seat; an open one has its count, and `owed` where a reply is.
fn put_line(out: &mut impl Write, line: Option<Line>) -> io::Result<()> {
    let Some(open) = line else {
        return out.write_all(b" -");
    };
    cases_text::put_count(out, open.count)?;
    if open.owed {
        out.write_all(b" owed")?;
    }
    Ok(())
}

pub(crate) fn put_listed(
    out: &mut impl Write,
    answer: Result<[Option<Line>; 8], Refusal>,
) -> io::Result<()> {
    match answer {
        Err(why) => put_refused(out, why),
        Ok(lines) => {
            for line in lines {
                put_line(out, line)?;
            }
            Ok(())
        }
    }
}
