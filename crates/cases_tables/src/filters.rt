// The list `filters`: the samples of each run go into a window of its own, and each line is written again with the filtered value.
ghost use Rattle.std.specs.Prelude.{◌<◌, ◌≤◌};

use cases_text::Lines;
use std::io::{self, Write};

// The samples in a symbol are `p`.
#[derive(Clone, Copy)]
struct Window {
    p: usize,
    samples: [i16; 162],
    oldest: usize,
}

// At 24 kHz no sum reads past the 82 places: what is in the first and the last of the others would show.
fn fresh(p: usize) -> Window {
    let mut samples = [0i16; 162];
    if p != 10 {
        samples[82] = 12_345;
        samples[161] = 12_345;
    }
    Window {
        p,
        samples,
        oldest: 0,
    }
}

// A line that names a run has its name and its rate.
fn begun(line: &[u8]) -> Window {
    let rate = cases_text::decimal(cases_text::word(line, 2));
    fresh(if rate == 24_000 { 5 } else { 10 })
}

// The samples that a window keeps, each twice.
fn places_of(p: usize) -> usize
    ensures { (1 ≤ result) × (result ≤ 81) }
{
    if p == 10 { 81 } else { 41 }
}

fn place_in(places: usize, oldest: usize) -> usize
    requires { 1 ≤ places }
    ensures { result < places }
{
    if oldest < places { oldest } else { 0 }
}

// The newest sample takes the oldest's two places.
fn fed(window: Window, sample: i16) -> Window {
    let mut next = window;
    let places = places_of(next.p);
    let at = place_in(places, next.oldest);
    let again = at + places;
    next.samples[at] = sample;
    next.samples[again] = sample;
    next.oldest = at + 1;
    next
}

// A line that names a run starts afresh.
fn answer_line(out: &mut impl Write, window: Window, line: &[u8]) -> io::Result<Window> {
    out.write_all(line)?;
    if cases_text::begins(line, b'r') {
        cases_text::end_line(out)?;
        return Ok(begun(line));
    }
    let next = fed(window, cases_text::sample(line));
    let p = next.p;
    let oldest = next.oldest;
    let value = shaping::filter_samples(p, &next.samples, oldest);
    out.write_all(b" =")?;
    cases_text::put_float(out, value)?;
    cases_text::end_line(out)?;
    Ok(next)
}

// What a line leaves goes to the next. A loop in `cases_text` that is handed both as a closure and a value would be no plainer.
pub(crate) fn replay(out: &mut impl Write, text: &[u8]) -> io::Result<()> {
    let mut window = fresh(10);
    for line in Lines::of(text) {
        window = answer_line(out, window, line)?;
    }
    Ok(())
}
