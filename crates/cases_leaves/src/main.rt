// Replays the lists `slices`, `numbers`, `correlations` and `differences`: reads the questions of their lines, and writes each line again with the port's answer.
#![tactic(auto)]

use cases_text::Lines;
use protocol::{Kind, SyncBurst};
use std::io::{self, BufWriter, Write};

fn operand(line: &[u8], k: usize) -> f32 {
    cases_text::float(cases_text::word(line, k))
}

fn slice(out: &mut impl Write, symbol: f32) -> io::Result<()> {
    let bits = decode::decode_sample(symbol);
    cases_text::put_count(out, bits[0] as u64)?;
    write!(out, "{}", bits[1] as u64)
}

fn saturating_sub(out: &mut impl Write, a: u64, b: u64) -> io::Result<()> {
    cases_text::put_count(out, numbers::saturating_sub(a as usize, b as usize) as u64)
}

fn burst_named(name: &[u8]) -> SyncBurst {
    match name {
        b"preamble" => SyncBurst::Preamble,
        b"lsf" => SyncBurst::Frame(Kind::Lsf),
        b"bert" => SyncBurst::Frame(Kind::Bert),
        b"stream" => SyncBurst::Frame(Kind::Stream),
        b"packet" => SyncBurst::Frame(Kind::Packet),
        _ => SyncBurst::EndOfTransmission,
    }
}

fn eight(line: &[u8]) -> [f32; 8] {
    let mut values = [0.0f32; 8];
    for (i, value) in values.iter_mut().enumerate() {
        *value = operand(line, i + 1);
    }
    values
}

fn correlate(out: &mut impl Write, line: &[u8]) -> io::Result<()> {
    let burst = burst_named(cases_text::word(line, 0));
    let values = eight(line);
    let answer = decode::sync_burst_correlation(burst, &values);
    match answer {
        Ok(found) => {
            cases_text::put_float(out, found.diff)?;
            cases_text::put_float(out, found.gain)?;
            cases_text::put_float(out, found.shift)
        }
        Err(why) => cases_text::put_count(out, why.number() as u64),
    }
}

// A line of one word asks the slicer. Any other names what it asks, or the burst that the correlator is to look for.
fn answer(out: &mut impl Write, line: &[u8]) -> io::Result<()> {
    let name = cases_text::word(line, 0);
    let first = cases_text::word(line, 1);
    let second = cases_text::word(line, 2);
    if first.is_empty() {
        return slice(out, cases_text::float(name));
    }
    match name {
        b"max" => cases_text::put_float(
            out,
            numbers::max(cases_text::float(first), cases_text::float(second)),
        ),
        b"min" => cases_text::put_float(
            out,
            numbers::min(cases_text::float(first), cases_text::float(second)),
        ),
        b"abs" => cases_text::put_float(out, numbers::abs(cases_text::float(first))),
        b"as_i16" => cases_text::put_signed(out, numbers::cut_to_i16(cases_text::float(first))),
        b"saturating_sub" => {
            saturating_sub(out, cases_text::decimal(first), cases_text::decimal(second))
        }
        _ => correlate(out, line),
    }
}

// One loop in `cases_text` that is handed `answer_line` as a closure would be no plainer than these three lines.
fn replay(out: &mut impl Write, text: &[u8]) -> io::Result<()> {
    for line in Lines::of(text) {
        answer_line(out, line)?;
    }
    Ok(())
}

fn answer_line(out: &mut impl Write, line: &[u8]) -> io::Result<()> {
    out.write_all(line)?;
    out.write_all(b" =")?;
    answer(out, line)?;
    cases_text::end_line(out)
}

// A crate has a `main` of its own.
fn main(rt: HostRuntime) -> io::Result<()> {
    let mut out = BufWriter::new(rt.alloc(), io::writer(&rt))?;
    let text = cases_text::read_text(&rt, rt.alloc(), 131_072)?;
    replay(&mut out, &text)?;
    out.flush()
}
