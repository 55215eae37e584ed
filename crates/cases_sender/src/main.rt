// Replays the list `sender` of both rates: reads the calls of its sessions, makes them on the sender, and writes each line again with the answer and what the sender keeps.
#![tactic(auto)]

mod answers;
mod calls;

use cases_text::Lines;
use given_symbols::Traffic;
use modulator::{ModulatorFrame, SoftModulator};
use std::io::{self, BufWriter, Write};

fn answer(out: &mut impl Write, m: SoftModulator, line: &[u8]) -> io::Result<SoftModulator> {
    let name = cases_text::word(line, 0);
    match name {
        b"none" => calls::provided(out, m, ModulatorFrame::Nothing, line),
        b"preamble" => calls::preamble(out, m, Traffic::Ordinary, line),
        b"bert-preamble" => calls::preamble(out, m, Traffic::Bert, line),
        b"symbols" => calls::provided(out, m, ModulatorFrame::Symbols(Traffic::Ordinary), line),
        b"bert" => calls::provided(out, m, ModulatorFrame::Symbols(Traffic::Bert), line),
        b"end" => calls::provided(out, m, ModulatorFrame::EndOfTransmission, line),
        b"read" => calls::read(out, m, line),
        b"update" => calls::updated(out, m, line),
        b"run" => calls::ran(out, m),
        b"look" => {
            answers::put_window(out, m)?;
            Ok(m)
        }
        _ => Ok(calls::windowed(m, line)),
    }
}

// A session's line has its name and its rate.
fn begun(line: &[u8]) -> SoftModulator {
    let rate = cases_text::decimal(cases_text::word(line, 2)) % 100_000;
    let made = SoftModulator::new(rate as u32);
    made.modulator
}

// A line that names a session starts afresh.
fn answer_line(out: &mut impl Write, m: SoftModulator, line: &[u8]) -> io::Result<SoftModulator> {
    out.write_all(line)?;
    if cases_text::word(line, 0) == b"session".as_slice() {
        cases_text::end_line(out)?;
        return Ok(begun(line));
    }
    out.write_all(b" =")?;
    let next = answer(out, m, line)?;
    answers::put_kept(out, next)?;
    cases_text::end_line(out)?;
    Ok(next)
}

// What a line leaves goes to the next. A loop in `cases_text` that is handed both as a closure and a value would be no plainer.
fn replay(out: &mut impl Write, text: &[u8]) -> io::Result<()> {
    let mut m = begun(text);
    for line in Lines::of(text) {
        m = answer_line(out, m, line)?;
    }
    Ok(())
}

// A crate has a `main` of its own.
fn main(rt: HostRuntime) -> io::Result<()> {
    let mut out = BufWriter::new(rt.alloc(), io::writer(&rt))?;
    let text = cases_text::read_text(&rt, rt.alloc(), 262_144)?;
    replay(&mut out, &text)?;
    out.flush()
}
