// What the receiver refuses and what it still admits, on made-up records. A line of the table has three cells, between them bars: the phrase of
// document 01 or 02 that decides it, the record in words, and the calls in words, each made on that same record. The line is written again, and
// after one more bar the answers to its calls. The expected answers are written by hand from the documents, by the phrase in the first cell.
#![tactic(auto)]

mod answer;
mod calls;
mod layout;
mod made;
mod many;
mod places;
mod said;
mod same;

use cases_text::Lines;
use std::io::{self, BufWriter, Write};

// The calls from the second on. Words are counted from 1, since the space after a bar ends an empty one.
fn put_more(out: &mut impl Write, record: &[u8], calls: &[u8]) -> io::Result<()> {
    for k in 2..calls.len() {
        let call = cases_text::word(calls, k);
        if 0 < call.len() {
            answer::put_text(out, answer::NEXT)?;
            places::put_answer(out, record, call)?;
        }
    }
    Ok(())
}

fn answer_line(out: &mut impl Write, line: &[u8]) -> io::Result<()> {
    let record = cases_text::cell(line, 1);
    let calls = cases_text::cell(line, 2);
    out.write_all(line)?;
    out.write_all(b" | ")?;
    places::put_answer(out, record, cases_text::word(calls, 1))?;
    put_more(out, record, calls)?;
    cases_text::end_line(out)
}

// One loop in `cases_text` that is handed `answer_line` as a closure would be no plainer than these three lines.
fn replay(out: &mut impl Write, text: &[u8]) -> io::Result<()> {
    for line in Lines::of(text) {
        answer_line(out, line)?;
    }
    Ok(())
}

// A crate has a `main` of its own.
fn main(rt: HostRuntime) -> io::Result<()> {
    let mut out = BufWriter::new(rt.alloc(), io::writer(&rt))?;
    let text = cases_text::read_text(&rt, rt.alloc(), 65_536)?;
    replay(&mut out, &text)?;
    out.flush()
}
