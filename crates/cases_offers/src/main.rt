// Replays the lists `offers`, `stretches` and `carry-over` of both rates: reads their streams of samples with their scripts of replies,
// feeds them to the receiver, and writes each line again with what it led to.
#![tactic(auto)]

mod changes;
mod stream;
mod stretch;

use cases_text::Lines;
use std::io::{self, BufWriter, Write};
use stream::Session;

// The sample that a pattern of 16 bits is, in two's complement.
fn of_pattern(pattern: u64) -> i16 {
    ((pattern % 65536) as u16).cast_signed()
}

// Four digits are a sample.
fn feed_samples(out: &mut impl Write, session: Session, digits: &[u8]) -> io::Result<Session> {
    let mut next = session;
    for four in digits.chunks_exact(4) {
        next = stream::fed(out, next, of_pattern(cases_text::hexadecimal(four)))?;
    }
    Ok(next)
}

fn feed_zeros(out: &mut impl Write, session: Session, count: u64) -> io::Result<Session> {
    let mut next = session;
    for _ in 0..count {
        next = stream::fed(out, next, 0)?;
    }
    Ok(next)
}

fn script(letters: &[u8]) -> [u8; 16] {
    let mut script = [b'-'; 16];
    for (reply, letter) in script.iter_mut().zip(letters) {
        *reply = *letter;
    }
    script
}

// The samples of the digits, and 0 past their end. `cases_desk` has the same of another length: in `cases_text` it would need a promise of each sample, longer than itself.
fn samples_of(digits: &[u8]) -> [i16; 610] {
    let mut samples = [0i16; 610];
    for (sample, four) in samples.iter_mut().zip(digits.chunks_exact(4)) {
        *sample = of_pattern(cases_text::hexadecimal(four));
    }
    samples
}

// All samples of a line in one stretch.
fn feed_stretch(out: &mut impl Write, session: Session, digits: &[u8]) -> io::Result<Session> {
    let samples = samples_of(digits);
    stretch::feed_all(out, session, stretch::front(&samples, digits.len() / 4))
}

// A stream's line has its name, its rate and the replies; one in stretches has the count before them.
fn begun(line: &[u8]) -> Session {
    let rate = cases_text::decimal(cases_text::word(line, 2)) % 100_000;
    stream::fresh(rate as u32, script(cases_text::word(line, 3)))
}

fn begun_at(line: &[u8]) -> Session {
    let rate = cases_text::decimal(cases_text::word(line, 2)) % 100_000;
    let count = cases_text::decimal(cases_text::word(line, 3));
    stretch::at_count(
        stream::fresh(rate as u32, script(cases_text::word(line, 4))),
        count,
    )
}

fn put_end(out: &mut impl Write, session: Session) -> io::Result<()> {
    let receiver = session.receiver;
    let control = receiver.control;
    cases_text::put_count(out, control.sample)?;
    cases_text::put_count(out, receiver.filter_cursor as u64)?;
    cases_text::put_count(out, receiver.rx_cursor as u64)?;
    cases_text::end_line(out)
}

fn answer_line(out: &mut impl Write, session: Session, line: &[u8]) -> io::Result<Session> {
    let name = cases_text::word(line, 0);
    out.write_all(line)?;
    if name == b"end".as_slice() {
        put_end(out, session)?;
        return Ok(session);
    }
    cases_text::end_line(out)?;
    match name {
        b"samples" => feed_samples(out, session, cases_text::word(line, 1)),
        b"zeros" => feed_zeros(out, session, cases_text::decimal(cases_text::word(line, 1))),
        b"feed" => feed_stretch(out, session, cases_text::word(line, 1)),
        b"stretches" => Ok(begun_at(line)),
        _ => Ok(begun(line)),
    }
}

// What a line leaves goes to the next. A loop in `cases_text` that is handed both as a closure and a value would be no plainer.
fn replay(out: &mut impl Write, text: &[u8]) -> io::Result<()> {
    let mut session = stream::fresh(48_000, [b'-'; 16]);
    for line in Lines::of(text) {
        session = answer_line(out, session, line)?;
    }
    Ok(())
}

// A crate has a `main` of its own.
fn main(rt: HostRuntime) -> io::Result<()> {
    let mut out = BufWriter::new(rt.alloc(), io::writer(&rt))?;
    let text = cases_text::read_text(&rt, rt.alloc(), 524_288)?;
    replay(&mut out, &text)?;
    out.flush()
}
