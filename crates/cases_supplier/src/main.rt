// Replays the list `supplier`: holds stretches of samples, whole and damaged, beside what the sender sends of a text, and writes each line again with what the checker says.
#![tactic(auto)]

mod pieces;

use cases_text::Lines;
use protocol::{Place, Refusal};
use std::io::{self, BufWriter, Write};
use supplier::Checked;

// How many bytes the text has, and how many samples the recording.
#[derive(Clone, Copy)]
struct Lengths {
    text: usize,
    recording: usize,
}

fn decimal(line: &[u8], k: usize) -> usize {
    cases_text::decimal(cases_text::word(line, k)) as usize
}

// A bad line's number after the refusal's own.
fn put_refusal(out: &mut impl Write, why: Refusal) -> io::Result<()> {
    out.write_all(b" refused")?;
    cases_text::put_count(out, why.number() as u64)?;
    let place = why.place();
    match place {
        Place::Nothing => Ok(()),
        Place::Symbol(at) => cases_text::put_count(out, at as u64),
        Place::Line(number) => cases_text::put_count(out, number as u64),
    }
}

fn put_answer(out: &mut impl Write, answer: Result<Checked, Refusal>) -> io::Result<()> {
    out.write_all(b" =")?;
    match answer {
        Err(why) => put_refusal(out, why)?,
        Ok(Checked::Yes) => out.write_all(b" yes")?,
        Ok(Checked::Differs(sample)) => {
            out.write_all(b" differs")?;
            cases_text::put_count(out, sample as u64)?;
        }
        Ok(Checked::Short) => out.write_all(b" short")?,
        Ok(Checked::Long) => out.write_all(b" long")?,
    }
    cases_text::end_line(out)
}

// The padding that is stated; zeros, the recording after them, and zeros after it, up to a length; one sample of these raised.
fn check(
    out: &mut impl Write,
    line: &[u8],
    text: &[u8],
    recording: &[i16],
    stretch: &mut [i16],
) -> io::Result<()> {
    let padding = decimal(line, 1);
    let zeros = decimal(line, 2);
    let count = pieces::lay(stretch, recording, zeros, decimal(line, 3));
    pieces::raise(stretch, decimal(line, 4), decimal(line, 5));
    put_answer(
        out,
        supplier::check(padding, text, pieces::front(stretch, count)),
    )
}

fn answer_line(
    out: &mut impl Write,
    line: &[u8],
    text: &mut [u8],
    recording: &mut [i16],
    stretch: &mut [i16],
    lengths: Lengths,
) -> io::Result<Lengths> {
    out.write_all(line)?;
    let name = cases_text::word(line, 0);
    if name == b"check".as_slice() {
        check(
            out,
            line,
            pieces::front(text, lengths.text),
            pieces::front(recording, lengths.recording),
            stretch,
        )?;
        return Ok(lengths);
    }
    cases_text::end_line(out)?;
    match name {
        b"text" => Ok(Lengths {
            text: pieces::put_bytes(text, cases_text::word(line, 2)),
            recording: 0,
        }),
        b"samples" => Ok(Lengths {
            text: lengths.text,
            recording: pieces::put_samples(recording, lengths.recording, cases_text::word(line, 1)),
        }),
        _ => Ok(lengths),
    }
}

// Room for four lines, for what is sent of them, and for the longest padding before it.
// What a line leaves goes to the next. A loop in `cases_text` that is handed both as a closure and a value would be no plainer.
fn replay(out: &mut impl Write, list: &[u8]) -> io::Result<()> {
    let mut text = [0u8; 400];
    let mut recording = [0i16; 12_400];
    let mut stretch = [0i16; 134_900];
    let mut lengths = Lengths {
        text: 0,
        recording: 0,
    };
    for line in Lines::of(list) {
        lengths = answer_line(out, line, &mut text, &mut recording, &mut stretch, lengths)?;
    }
    Ok(())
}

// A crate has a `main` of its own.
fn main(rt: HostRuntime) -> io::Result<()> {
    let mut out = BufWriter::new(rt.alloc(), io::writer(&rt))?;
    let list = cases_text::read_text(&rt, rt.alloc(), 196_608)?;
    replay(&mut out, &list)?;
    out.flush()
}
