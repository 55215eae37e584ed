// A line: its calls one after the other.
use crate::answer::Answer;
use crate::{answer, calls, made, shown, turns};
use modulator::SoftModulator;
use std::io::{self, Write};

// In how many of the window's places the line's value brings this answer.
fn alike(answer: Answer, before: SoftModulator, parts: &[u8], call: usize) -> u64 {
    let mut alike: u64 = 0;
    for place in 0..81 {
        let left = calls::called(before, parts, call, place);
        alike = alike.wrapping_add((left.answer == answer) as u64);
    }
    alike
}

fn put_places(out: &mut impl Write, count: u64) -> io::Result<()> {
    out.write_all(b" in")?;
    cases_text::put_count(out, count)?;
    out.write_all(b" places")
}

fn call(
    out: &mut impl Write,
    before: SoftModulator,
    parts: &[u8],
    call: usize,
) -> io::Result<SoftModulator> {
    let left = calls::called(before, parts, call, 0);
    let answer = left.answer;
    answer::put(out, answer, parts)?;
    if cases_text::names(parts, b"places") {
        put_places(out, alike(answer, before, parts, call))?;
    }
    Ok(left.after)
}

fn put_mark(out: &mut impl Write, number: usize, k: usize) -> io::Result<()> {
    if (0 < number) & (1 < k) {
        out.write_all(b";")?;
    }
    Ok(())
}

// The cell begins with a space, so its first word is word 1, and it has fewer words than letters. A look is at what the line's last call left.
fn calls_of(
    out: &mut impl Write,
    before: SoftModulator,
    parts: &[u8],
    names: &[u8],
) -> io::Result<SoftModulator> {
    let mut last = before;
    for k in 1..names.len() {
        let number = calls::number(cases_text::word(names, k));
        put_mark(out, number, k)?;
        last = match number {
            0 => last,
            8 => shown::all(out, last)?,
            9 => shown::first(out, last)?,
            10 => turns::turn(out, made::start(before, parts, 0), parts)?,
            _ => call(out, before, parts, number)?,
        };
    }
    Ok(last)
}

// What the line's last call left goes to the next line.
pub(crate) fn answered(
    out: &mut impl Write,
    before: SoftModulator,
    line: &[u8],
) -> io::Result<SoftModulator> {
    out.write_all(line)?;
    out.write_all(b" |")?;
    let last = calls_of(
        out,
        before,
        cases_text::cell(line, 1),
        cases_text::cell(line, 2),
    )?;
    cases_text::end_line(out)?;
    Ok(last)
}
