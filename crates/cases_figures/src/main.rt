// Replays the list `figures` of both rates, and after it a table by hand: reads recordings, adds each to an empty report and to the month's,
// and writes each line again with the figures that it is to give. A line of the table has a cell with the phrase of document 02 that decides it,
// one with a report in words and one with a call: its answer is given, and whether a refused call kept the report.
#![tactic(auto)]

mod limits;
mod recording;
mod said;

use cases_text::Lines;
use figures::Report;
use std::io::{self, BufWriter, Write};

#[derive(Clone, Copy)]
struct Session {
    month: Report,
    rate: u32,
    // How many samples of the room are the recording.
    recorded: usize,
}

fn rate_in(line: &[u8], k: usize) -> u32 {
    (cases_text::decimal(cases_text::word(line, k)) % 100_000) as u32
}

// The recording is whole: its own figures, and it goes into the month's.
fn add_recording(out: &mut impl Write, session: Session, samples: &[i16]) -> io::Result<Session> {
    let rate = session.rate;
    let month = session.month;
    let empty = Report::new();
    let own = empty.add(rate, samples);
    let alone = own.report;
    said::put_side(out, alone, rate)?;
    let more = month.add(rate, samples);
    let sum = more.report;
    Ok(Session {
        month: sum,
        rate,
        recorded: session.recorded,
    })
}

// A line that is answered after an equals sign.
fn answer_asked(
    out: &mut impl Write,
    session: Session,
    line: &[u8],
    samples: &[i16],
) -> io::Result<Session> {
    out.write_all(b" =")?;
    match cases_text::word(line, 0) {
        b"figures" => return add_recording(out, session, samples),
        b"month" => said::put_side(out, session.month, rate_in(line, 1))?,
        _ => limits::put_answers(out, line, samples)?,
    }
    Ok(session)
}

fn with_samples(session: Session, recorded: usize) -> Session {
    let month = session.month;
    Session {
        month,
        rate: session.rate,
        recorded,
    }
}

fn begun(session: Session, line: &[u8]) -> Session {
    let month = session.month;
    Session {
        month,
        rate: rate_in(line, 2),
        recorded: 0,
    }
}

fn answer_line(
    out: &mut impl Write,
    session: Session,
    line: &[u8],
    room: &mut [i16],
) -> io::Result<Session> {
    out.write_all(line)?;
    let recorded = session.recorded;
    let next = match cases_text::word(line, 0) {
        b"samples" => {
            let longer = recording::append(room, recorded, cases_text::word(line, 1));
            with_samples(session, longer)
        }
        b"zeros" => {
            let zeros = cases_text::decimal(cases_text::word(line, 1));
            let longer = recording::append_zeros(room, recorded, zeros);
            with_samples(session, longer)
        }
        b"recording" => begun(session, line),
        _ => answer_asked(out, session, line, recording::front(room, recorded))?,
    };
    cases_text::end_line(out)?;
    Ok(next)
}

// What a line leaves goes to the next. A loop in `cases_text` that is handed both as a closure and a value would be no plainer.
fn replay(out: &mut impl Write, text: &[u8]) -> io::Result<()> {
    let month = Report::new();
    let mut session = Session {
        month,
        rate: 48_000,
        recorded: 0,
    };
    let mut room = recording::room();
    for line in Lines::of(text) {
        session = answer_line(out, session, line, &mut room)?;
    }
    Ok(())
}

// A crate has a `main` of its own.
fn main(rt: HostRuntime) -> io::Result<()> {
    let mut out = BufWriter::new(rt.alloc(), io::writer(&rt))?;
    let text = cases_text::read_text(&rt, rt.alloc(), 393_216)?;
    replay(&mut out, &text)?;
    out.flush()
}
