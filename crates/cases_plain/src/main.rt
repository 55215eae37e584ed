// Replays the list `listings` of both rates: reads recordings, lists the offers of each with the replies and the rooms that a line names, and writes the line again with the answer.
#![tactic(auto)]

mod answer;
mod recording;

ghost use Rattle.std.specs.Prelude.{◌≡◌, ◌≤◌, IfOk, length};

use cases_text::Lines;
use std::io::{self, BufWriter, Write};

// A line adds samples, asks, or begins a recording. Gives how many samples there now are.
fn answer_line(
    out: &mut impl Write,
    line: &[u8],
    samples: &mut [i16],
    count: usize,
) -> io::Result<usize>
    requires { count ≤ length samples.old }
    ensures count { IfOk result (λ n. n ≤ length samples.new) }
    ensures room { length samples.new ≡ length samples.old }
{
    let name = cases_text::word(line, 0);
    out.write_all(line)?;
    match name {
        b"samples" => {
            cases_text::end_line(out)?;
            Ok(recording::add_samples(cases_text::word(line, 1), samples, count))
        }
        b"zeros" => {
            cases_text::end_line(out)?;
            let zeros = cases_text::decimal(cases_text::word(line, 1));
            Ok(recording::add_zeros(zeros, samples, count))
        }
        b"recording" => {
            cases_text::end_line(out)?;
            Ok(0)
        }
        _ => {
            answer::put_listing(out, line, &samples[..count], name == b"list".as_slice())?;
            Ok(count)
        }
    }
}

// What a line leaves goes to the next. A loop in `cases_text` that is handed both as a closure and a value would be no plainer.
fn replay(out: &mut impl Write, text: &[u8], samples: &mut [i16]) -> io::Result<()> {
    let mut count: usize = 0;
    for line in Lines::of(text) {
        count = answer_line(out, line, samples, count)?;
    }
    Ok(())
}

// Room for one sample more than a recording may have.
fn sample_room() -> [i16; 65_537]
    ensures { 65537 ≡ length result }
{
    [0; 65_537]
}

fn main(rt: HostRuntime) -> io::Result<()> {
    let mut out = BufWriter::new(rt.alloc(), io::writer(&rt))?;
    let mut samples = sample_room();
    let text = cases_text::read_text(&rt, rt.alloc(), 524_288)?;
    replay(&mut out, &text, &mut samples)?;
    out.flush()
}
