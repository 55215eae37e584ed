// A session at the desk, call after call, on the desk that the call before left. A line has two cells, between them a bar: the phrase of
// document 02 n) or of document 01 that decides it, and the call in words. The line is written again, and after one more bar the answer.
// The answers of `session.txt` are written by hand from the documents; those of the list `desk`, which comes after it, are the old receiver's.
#![tactic(auto)]

mod answer;
mod lent;
mod stretch;

use cases_text::Lines;
use demodulator::Reply;
use desk::Desk;
use std::io::{self, BufWriter, Write};

// With room for so many symbols, up to 200.
fn feed(
    out: &mut impl Write,
    desk: Desk,
    seat: usize,
    samples: &[i16],
    places: usize,
) -> io::Result<Desk> {
    let mut room = [0.0f32; 200];
    let wide = places.min(room.len());
    let after = lent::feed(desk, seat, samples, &mut room[..wide]);
    answer::put_fed(out, after.told, room)?;
    Ok(after.desk)
}

// So many samples of 0, up to 480.
fn feed_zeros(
    out: &mut impl Write,
    desk: Desk,
    seat: usize,
    count: usize,
    places: usize,
) -> io::Result<Desk> {
    let samples = [0i16; 480];
    feed(out, desk, seat, stretch::front(&samples, count), places)
}

fn feed_samples(out: &mut impl Write, desk: Desk, seat: usize, digits: &[u8]) -> io::Result<Desk> {
    let samples = stretch::samples_of(digits);
    feed(
        out,
        desk,
        seat,
        stretch::front(&samples, digits.len() / 4),
        192,
    )
}

// Made up: a record of an open seat, or of a closed one, with another rate, or with a cursor past its ring, or owing a reply.
fn with_rate(desk: Desk, seat: usize, rate: u32) -> Desk {
    let mut next = desk;
    if seat < 8 {
        let mut receiver = next.receivers[seat];
        receiver.rate = rate;
        next.receivers[seat] = receiver;
    }
    next
}

fn with_cursor(desk: Desk, seat: usize, cursor: usize) -> Desk {
    let mut next = desk;
    if seat < 8 {
        let mut receiver = next.receivers[seat];
        receiver.rx_cursor = cursor;
        next.receivers[seat] = receiver;
    }
    next
}

fn with_owed(desk: Desk, seat: usize) -> Desk {
    let mut next = desk;
    if seat < 8 {
        let mut receiver = next.receivers[seat];
        let mut control = receiver.control;
        control.owed = true;
        receiver.control = control;
        next.receivers[seat] = receiver;
    }
    next
}

fn open(out: &mut impl Write, desk: Desk, seat: usize, rate: u32) -> io::Result<Desk> {
    let after = lent::open(desk, seat, rate);
    answer::put_done(out, after.answer, b" opened")?;
    Ok(after.desk)
}

fn close(out: &mut impl Write, desk: Desk, seat: usize) -> io::Result<Desk> {
    let after = lent::close(desk, seat);
    answer::put_done(out, after.answer, b" closed")?;
    Ok(after.desk)
}

fn reply(out: &mut impl Write, desk: Desk, seat: usize, reply: Reply) -> io::Result<Desk> {
    let after = lent::reply(desk, seat, reply);
    answer::put_done(out, after.answer, b" done")?;
    Ok(after.desk)
}

fn made_up(desk: Desk, call: &[u8], seat: usize, number: u64) -> Desk {
    match call {
        b"rate" => with_rate(desk, seat, (number % 100_000) as u32),
        b"cursor" => with_cursor(desk, seat, number as usize),
        _ => with_owed(desk, seat),
    }
}

fn answer_call(
    out: &mut impl Write,
    desk: Desk,
    call: &[u8],
    seat: usize,
    operand: &[u8],
    places: usize,
) -> io::Result<Desk> {
    let number = cases_text::decimal(operand);
    match call {
        b"open" => open(out, desk, seat, (number % 100_000) as u32),
        b"close" => close(out, desk, seat),
        b"feed" => feed_zeros(out, desk, seat, number as usize, places),
        b"samples" => feed_samples(out, desk, seat, operand),
        b"accept" => reply(out, desk, seat, Reply::Accepted),
        b"reject" => reply(out, desk, seat, Reply::Rejected),
        b"carrier" => {
            answer::put_carrier(out, lent::data_carrier_detect(desk, seat))?;
            Ok(desk)
        }
        b"list" => {
            answer::put_listed(out, lent::list(desk))?;
            Ok(desk)
        }
        _ => Ok(made_up(desk, call, seat, number)),
    }
}

// Words are counted from 1, since the space after a bar ends an empty one.
fn answer_line(out: &mut impl Write, desk: Desk, line: &[u8]) -> io::Result<Desk> {
    let words = cases_text::cell(line, 1);
    let seat = cases_text::decimal(cases_text::word(words, 2)) as usize;
    let operand = cases_text::word(words, 3);
    let places = cases_text::decimal(cases_text::word(words, 4)) as usize;
    out.write_all(line)?;
    out.write_all(b" |")?;
    let next = answer_call(out, desk, cases_text::word(words, 1), seat, operand, places)?;
    cases_text::end_line(out)?;
    Ok(next)
}

// What a line leaves goes to the next. A loop in `cases_text` that is handed both as a closure and a value would be no plainer.
fn replay(out: &mut impl Write, text: &[u8]) -> io::Result<()> {
    let mut desk = Desk::new();
    for line in Lines::of(text) {
        desk = answer_line(out, desk, line)?;
    }
    Ok(())
}

// A crate has a `main` of its own.
fn main(rt: HostRuntime) -> io::Result<()> {
    let mut out = BufWriter::new(rt.alloc(), io::writer(&rt))?;
    let text = cases_text::read_text(&rt, rt.alloc(), 196_608)?;
    replay(&mut out, &text)?;
    out.flush()
}
