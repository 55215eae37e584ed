// What opening a replay is answered with, as the list has it.
use demodulator::Offer;
use protocol::{Kind, Refusal};
use std::io::{self, Write};

// What the room holds before: no symbol is so large.
pub(crate) const BLANK: f32 = 7.5;

// The programs that write a kind share no crate that knows the type and writes.
fn put_kind(out: &mut impl Write, kind: Kind) -> io::Result<()> {
    match kind {
        Kind::Lsf => out.write_all(b" lsf"),
        Kind::Bert => out.write_all(b" bert"),
        Kind::Stream => out.write_all(b" stream"),
        Kind::Packet => out.write_all(b" packet"),
    }
}

// The programs that write an offer share no crate that knows the type and writes.
fn put_offer(out: &mut impl Write, offer: Offer, room: [f32; 200]) -> io::Result<()> {
    let kind = offer.kind;
    put_kind(out, kind)?;
    cases_text::put_count(out, offer.sample)?;
    cases_text::put_count(out, offer.taken_at)?;
    cases_text::put_count(out, offer.age as u64)?;
    cases_text::put_count(out, offer.replaced as u64)?;
    cases_text::put_float(out, offer.gain)?;
    cases_text::put_floats(out, &room[0..192])
}

// The documents' words, and the refusal's number.
fn put_refusal(out: &mut impl Write, why: Refusal) -> io::Result<()> {
    match why {
        Refusal::WrongRate => {
            out.write_all(b" any rate but the two:")?;
        }
        Refusal::RoomTooSmall => {
            out.write_all(b" room for symbols below 192:")?;
        }
        Refusal::NoSuchSample => {
            out.write_all(b" sample number 0 or beyond the recording's end:")?;
        }
        _ => {}
    }
    cases_text::put_count(out, why.number() as u64)
}

// How many places are as they were.
fn put_kept(out: &mut impl Write, room: [f32; 200]) -> io::Result<()> {
    let kept = room.iter().filter(|place| **place == BLANK).count();
    out.write_all(b" kept")?;
    cases_text::put_count(out, kept as u64)
}

pub(crate) fn put_answer(
    out: &mut impl Write,
    opened: Result<Option<Offer>, Refusal>,
    room: [f32; 200],
) -> io::Result<()> {
    match opened {
        Err(why) => put_refusal(out, why)?,
        Ok(None) => {
            out.write_all(b" nothing")?;
        }
        Ok(Some(offer)) => put_offer(out, offer, room)?,
    }
    put_kept(out, room)
}
