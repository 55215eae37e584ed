// Replays the list `bit-errors`: reads the symbols of two payloads and writes each line again with the port's count.
#![tactic(auto)]

ghost use Rattle.std.specs.Prelude.{◌≤◌};

use cases_text::Lines;
use protocol::Refusal;
use std::io::{self, BufWriter, Write};

// The words from one on as symbols: a missing one is 0.
fn payload(line: &[u8], from: usize) -> [f32; 184]
    requires { from ≤ 184 }
{
    let mut symbols = [0.0f32; 184];
    for (i, symbol) in symbols.iter_mut().enumerate() {
        *symbol = cases_text::float(cases_text::word(line, from + i));
    }
    symbols
}

fn put_answer(out: &mut impl Write, answer: Result<u32, Refusal>) -> io::Result<()> {
    match answer {
        Err(why) => {
            out.write_all(b" refused")?;
            cases_text::put_count(out, why.number() as u64)
        }
        Ok(n) => cases_text::put_count(out, n as u64),
    }
}

fn answer_line(out: &mut impl Write, line: &[u8]) -> io::Result<()> {
    out.write_all(line)?;
    out.write_all(b" =")?;
    let sent = payload(line, 0);
    let received = payload(line, 184);
    put_answer(out, bit_errors::bit_errors(&sent, &received))?;
    cases_text::end_line(out)
}

// One loop in `cases_text` that is handed `answer_line` as a closure would be no plainer than these three lines.
fn replay(out: &mut impl Write, text: &[u8]) -> io::Result<()> {
    for line in Lines::of(text) {
        answer_line(out, line)?;
    }
    Ok(())
}

// A crate has a `main` of its own.
fn main(rt: HostRuntime) -> io::Result<()> {
    let mut out = BufWriter::new(rt.alloc(), io::writer(&rt))?;
    let text = cases_text::read_text(&rt, rt.alloc(), 65_536)?;
    replay(&mut out, &text)?;
    out.flush()
}
