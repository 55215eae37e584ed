// What the correlator refuses, what it still takes, the payloads that the bit count refuses, the zeros whose sign Rust leaves open, and what a program says when it stops early. The expected
// text is written by hand, from the documents' refusals and the texts of `house`.
#![tactic(auto)]

use decode::Correlation;
use house::{Program, Trouble};
use protocol::{Kind, Refusal, SyncBurst};
use std::io::{self, BufWriter, Write};

// The paper's words, as far as they are the correlator's, and the refusal's number.
fn put_refusal(out: &mut impl Write, why: Refusal) -> io::Result<()> {
    match why {
        Refusal::WrongCount => {
            out.write_all(b" correlator values not exactly 8:")?;
        }
        Refusal::ValueOutside => {
            out.write_all(b" a correlator value not a number or beyond \xc2\xb11,000,000:")?;
        }
        _ => {}
    }
    cases_text::put_count(out, why.number() as u64)
}

fn put_correlation(out: &mut impl Write, found: Correlation) -> io::Result<()> {
    out.write_all(b" diff")?;
    cases_text::put_float(out, found.diff)?;
    out.write_all(b" gain")?;
    cases_text::put_float(out, found.gain)?;
    out.write_all(b" shift")?;
    cases_text::put_float(out, found.shift)
}

fn put_answer(out: &mut impl Write, values: &[f32]) -> io::Result<()> {
    out.write_all(b":")?;
    let answer = decode::sync_burst_correlation(SyncBurst::Frame(Kind::Lsf), values);
    match answer {
        Err(why) => put_refusal(out, why)?,
        Ok(found) => put_correlation(out, found)?,
    }
    cases_text::end_line(out)
}

// As many zeros as asked, the first of them another value.
fn put_many(out: &mut impl Write, name: &[u8], count: usize, first: f32) -> io::Result<()> {
    let mut values = [0.0f32; 9];
    values[0] = first;
    out.write_all(name)?;
    cases_text::put_count(out, count as u64)?;
    if count <= 9 {
        put_answer(out, &values[..count])?;
    }
    Ok(())
}

// Seven zeros and a value among them.
fn put_place(out: &mut impl Write, name: &[u8], value: f32, place: usize) -> io::Result<()> {
    let mut values = [0.0f32; 8];
    let at = place % 8;
    values[at] = value;
    out.write_all(name)?;
    out.write_all(b" in place")?;
    cases_text::put_count(out, place as u64)?;
    put_answer(out, &values)
}

fn put_places(out: &mut impl Write, name: &[u8], value: f32) -> io::Result<()> {
    for place in 0..8 {
        put_place(out, name, value, place)?;
    }
    Ok(())
}

fn put_zero(out: &mut impl Write, name: &[u8], zero: f32) -> io::Result<()> {
    out.write_all(name)?;
    cases_text::put_float(out, zero)?;
    cases_text::end_line(out)
}

fn put_counts(out: &mut impl Write, name: &[u8], first: f32) -> io::Result<()> {
    put_many(out, name, 0, first)?;
    put_many(out, name, 7, first)?;
    put_many(out, name, 8, first)?;
    put_many(out, name, 9, first)
}

fn put_outside(out: &mut impl Write) -> io::Result<()> {
    let nan: f32 = 0.0 / 0.0;
    let infinity: f32 = 1.0 / 0.0;
    put_counts(out, b"not-a-number and zeros, values", nan)?;
    put_places(out, b"not-a-number", nan)?;
    put_places(out, b"infinity", infinity)?;
    put_places(out, b"-infinity", -infinity)?;
    put_places(out, b"1000000.0625", 1000000.0625)?;
    put_places(out, b"-1000000.0625", -1000000.0625)
}

fn put_inside(out: &mut impl Write) -> io::Result<()> {
    put_counts(out, b"zeros, values", 0.0)?;
    put_places(out, b"1000000", 1000000.0)?;
    put_places(out, b"-1000000", -1000000.0)?;
    put_places(out, b"-0", -0.0)
}

// Document 02, b): "6 also for a payload that is not 184 symbols"; "whatever the symbols' values".
fn put_payloads(out: &mut impl Write, sent: &[f32], received: &[f32]) -> io::Result<()> {
    out.write_all(b"payloads of")?;
    cases_text::put_count(out, sent.len() as u64)?;
    out.write_all(b" and")?;
    cases_text::put_count(out, received.len() as u64)?;
    out.write_all(b" symbols:")?;
    let answer = bit_errors::bit_errors(sent, received);
    match answer {
        Err(why) => {
            out.write_all(b" a payload that is not 184 symbols:")?;
            cases_text::put_count(out, why.number() as u64)?;
        }
        Ok(n) => {
            out.write_all(b" differing bits")?;
            cases_text::put_count(out, n as u64)?;
        }
    }
    cases_text::end_line(out)
}

// A payload of not-a-numbers, whose bits are 11, beside one of zeros, whose bits are 10.
fn put_bit_errors(out: &mut impl Write) -> io::Result<()> {
    let nan: f32 = 0.0 / 0.0;
    let one = [nan; 1];
    let short = [nan; 183];
    let sent = [nan; 184];
    let received = [0.0f32; 184];
    let long = [0.0f32; 185];
    put_payloads(out, &one, &received)?;
    put_payloads(out, &short, &received)?;
    put_payloads(out, &sent, &one)?;
    put_payloads(out, &sent, &long)?;
    put_payloads(out, &long, &received)?;
    put_payloads(out, &short, &short)?;
    put_payloads(out, &long, &long)?;
    put_payloads(out, &sent, &received)
}

fn put_zeros(out: &mut impl Write) -> io::Result<()> {
    put_zero(out, b"max of 0 and -0:", numbers::max(0.0, -0.0))?;
    put_zero(out, b"max of -0 and 0:", numbers::max(-0.0, 0.0))?;
    put_zero(out, b"min of 0 and -0:", numbers::min(0.0, -0.0))?;
    put_zero(out, b"min of -0 and 0:", numbers::min(-0.0, 0.0))
}

fn put_text(
    out: &mut impl Write,
    name: &[u8],
    program: Program,
    trouble: Trouble,
) -> io::Result<()> {
    out.write_all(name)?;
    let text = house::trouble_text(program, trouble);
    let bytes = text.bytes;
    cases_text::put_front(out, &bytes, text.length)
}

fn put_troubles(out: &mut impl Write) -> io::Result<()> {
    put_text(out, b"a read fails: ", Program::Receive, Trouble::Reading)?;
    put_text(out, b"a write fails: ", Program::Receive, Trouble::Writing)?;
    put_text(
        out,
        b"a sample is refused: ",
        Program::Receive,
        Trouble::Refused,
    )?;
    put_text(out, b"a read fails: ", Program::Send, Trouble::Reading)?;
    put_text(out, b"a write fails: ", Program::Send, Trouble::Writing)?;
    put_text(
        out,
        b"a frame is refused: ",
        Program::Send,
        Trouble::Refused,
    )
}

fn main(rt: HostRuntime) -> io::Result<()> {
    let mut out = BufWriter::new(rt.alloc(), io::writer(&rt))?;
    put_outside(&mut out)?;
    put_inside(&mut out)?;
    put_bit_errors(&mut out)?;
    put_zeros(&mut out)?;
    put_troubles(&mut out)?;
    out.flush()
}
