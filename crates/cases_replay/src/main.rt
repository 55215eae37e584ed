// Replays the list `replays` of both rates, and the refusals that are written by hand: reads recordings and the samples at which they are
// opened, and writes each line again with what it is answered.
#![tactic(auto)]

mod answer;

use cases_text::Lines;
use std::io::{self, BufWriter, Write};

// The recording's rate, and how many of its samples were read.
#[derive(Clone, Copy)]
struct Tape {
    rate: u32,
    count: usize,
}

// The sample that a pattern of 16 bits is, in two's complement.
fn of_pattern(pattern: u64) -> i16 {
    ((pattern % 65536) as u16).cast_signed()
}

// Four digits are a sample.
fn add_samples(digits: &[u8], samples: &mut [i16], count: usize) -> usize {
    let mut next = count;
    for four in digits.chunks_exact(4) {
        if next < samples.len() {
            samples[next] = of_pattern(cases_text::hexadecimal(four));
            next += 1;
        }
    }
    next
}

fn add_zeros(zeros: u64, samples: &mut [i16], count: usize) -> usize {
    let mut next = count;
    for _ in 0..zeros {
        if next < samples.len() {
            samples[next] = 0;
            next += 1;
        }
    }
    next
}

// A recording's line has its name and its rate.
fn begun(line: &[u8]) -> Tape {
    let rate = cases_text::decimal(cases_text::word(line, 2)) % 100_000;
    Tape {
        rate: rate as u32,
        count: 0,
    }
}

fn open_part(
    out: &mut impl Write,
    rate: u32,
    recording: &[i16],
    asked: u64,
    places: usize,
) -> io::Result<()> {
    let mut room = [answer::BLANK; 200];
    if places <= 200 {
        let opened = replay::open(rate, recording, asked, &mut room[..places]);
        answer::put_answer(out, opened, room)?;
    }
    Ok(())
}

// The line that opens has the sample, and how many places the room has.
fn open(out: &mut impl Write, tape: Tape, samples: &[i16], line: &[u8]) -> io::Result<()> {
    let asked = cases_text::decimal(cases_text::word(line, 1));
    let places = cases_text::decimal(cases_text::word(line, 2)) as usize;
    let count = tape.count;
    out.write_all(b" =")?;
    if count <= samples.len() {
        open_part(out, tape.rate, &samples[..count], asked, places)?;
    }
    Ok(())
}

fn answer_line(
    out: &mut impl Write,
    tape: Tape,
    samples: &mut [i16],
    line: &[u8],
) -> io::Result<Tape> {
    let name = cases_text::word(line, 0);
    out.write_all(line)?;
    if name == b"open".as_slice() {
        open(out, tape, samples, line)?;
        cases_text::end_line(out)?;
        return Ok(tape);
    }
    cases_text::end_line(out)?;
    match name {
        b"samples" => Ok(Tape {
            rate: tape.rate,
            count: add_samples(cases_text::word(line, 1), samples, tape.count),
        }),
        b"zeros" => {
            let zeros = cases_text::decimal(cases_text::word(line, 1));
            Ok(Tape {
                rate: tape.rate,
                count: add_zeros(zeros, samples, tape.count),
            })
        }
        _ => Ok(begun(line)),
    }
}

// What a line leaves goes to the next. A loop in `cases_text` that is handed both as a closure and a value would be no plainer.
fn replay(out: &mut impl Write, text: &[u8], samples: &mut [i16]) -> io::Result<()> {
    let mut tape = Tape { rate: 0, count: 0 };
    for line in Lines::of(text) {
        tape = answer_line(out, tape, samples, line)?;
    }
    Ok(())
}

fn main(rt: HostRuntime) -> io::Result<()> {
    let mut out = BufWriter::new(rt.alloc(), io::writer(&rt))?;
    let mut samples = [0i16; 16_384];
    let text = cases_text::read_text(&rt, rt.alloc(), 196_608)?;
    replay(&mut out, &text, &mut samples)?;
    out.flush()
}
