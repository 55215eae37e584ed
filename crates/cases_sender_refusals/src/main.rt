// What the sender refuses and what it still takes, on made-up records, and sessions of several calls. A line of the table has three cells, ` | ` between them: the phrase of document 01 or 02 that
// decides the line; the record and the operands of its calls, so far as they are not those of `made`; and the calls, each of them made on that record. The line is written again, and
// after it a fourth cell, the answers, `; ` between them. The expected answers are written by hand from document 01, by the phrase in the first cell.
#![tactic(auto)]

mod answer;
mod calls;
mod line;
mod made;
mod same;
mod shown;
mod turns;

use cases_text::Lines;
use modulator::SoftModulator;
use std::io::{self, BufWriter, Write};

// What a line leaves goes to the next. A loop in `cases_text` that is handed both as a closure and a value would be no plainer.
fn replay(out: &mut impl Write, text: &[u8]) -> io::Result<()> {
    let begun = SoftModulator::new(48000);
    let mut m = begun.modulator;
    for line in Lines::of(text) {
        m = line::answered(out, m, line)?;
    }
    Ok(())
}

// A crate has a `main` of its own.
fn main(rt: HostRuntime) -> io::Result<()> {
    let mut out = BufWriter::new(rt.alloc(), io::writer(&rt))?;
    let text = cases_text::read_text(&rt, rt.alloc(), 65_536)?;
    replay(&mut out, &text)?;
    out.flush()
}
