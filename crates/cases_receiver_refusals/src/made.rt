// Made-up records: a fit one, which holds nothing, owes nothing and has taken a thousand samples, but for the parts that a line names.
ghost use Rattle.std.specs.Prelude.{◌≤◌};

use crate::layout;
use demodulator::{Candidate, Control, SoftDemodulator, Waiting};
use protocol::Kind;

// The line's rate, 48,000 if it is not named.
pub(crate) fn rate(words: &[u8]) -> u32 {
    let named = cases_text::count_behind(words, b"rate", 48000) % 0x1_0000_0000;
    named as u32
}

fn plain_ring(words: &[u8], p: usize, place: usize) -> [f32; 1920]
    requires { p ≤ 10 }
{
    let others = cases_text::float_behind(words, b"others", 0.0);
    let but = cases_text::count_behind(words, b"but", 1920) as usize;
    let mut ring = layout::laid(p, others, but, place);
    let at = place % 1920;
    ring[at] = cases_text::float_behind(words, b"value", ring[at]);
    ring
}

fn kind(words: &[u8]) -> Kind {
    if cases_text::names(words, b"bert") {
        return Kind::Bert;
    }
    Kind::Lsf
}

fn count(words: &[u8]) -> u64 {
    cases_text::count_behind(words, b"count", 1000)
}

// Taken at the last sample, where the words do not say at which.
fn candidate(words: &[u8]) -> Candidate {
    if !cases_text::names(words, b"held") {
        return Candidate::Nothing;
    }
    let age = cases_text::count_behind(words, b"age", 1) % 256;
    let last = count(words);
    Candidate::Held {
        kind: kind(words),
        age: age as u8,
        diff: cases_text::float_behind(words, b"diff", 1.0),
        gain: cases_text::float_behind(words, b"gain", 20.0),
        shift: cases_text::float_behind(words, b"shift", 5.0),
        taken_at: cases_text::count_behind(words, b"taken", last),
    }
}

fn wait(words: &[u8]) -> Option<Waiting> {
    let left = cases_text::count_behind(words, b"wait", 65536);
    let age = cases_text::count_behind(words, b"kept", 1) % 256;
    if left < 65536 {
        return Some(Waiting {
            left: left as u16,
            age: age as u8,
            replaced: cases_text::names(words, b"marked"),
        });
    }
    None
}

fn timer(words: &[u8]) -> Option<u64> {
    if cases_text::names(words, b"timer") {
        return Some(cases_text::count_behind(words, b"timer", 0));
    }
    None
}

fn control(words: &[u8]) -> Control {
    Control {
        candidate: candidate(words),
        wait: wait(words),
        dcd: timer(words),
        owed: cases_text::names(words, b"owed"),
        sample: count(words),
    }
}

// With the value that the words name, if any, in this place of the ring; where they name others, the places that those leave out lie back from it.
fn laid_out(words: &[u8], place: usize) -> SoftDemodulator {
    let rate = rate(words);
    let p = layout::samples_in(rate);
    let burst = cases_text::names(words, b"burst");
    let word = cases_text::names(words, b"word");
    let headed = layout::headed(p, word, plain_ring(words, p, place));
    SoftDemodulator {
        rate,
        filter_win: layout::unlike(
            layout::window(p, burst),
            cases_text::count_behind(words, b"unlike", 162),
        ),
        filter_cursor: cases_text::count_behind(words, b"filter_cursor", 0) as usize,
        rx_win: layout::searched(p, burst, headed),
        rx_cursor: cases_text::count_behind(words, b"ring_cursor", 0) as usize,
        control: control(words),
    }
}

// A fresh record of the line's rate, whatever it is, or one that the words lay out.
pub(crate) fn record(words: &[u8], place: usize) -> SoftDemodulator {
    if cases_text::names(words, b"fresh") {
        let begun = SoftDemodulator::new(rate(words));
        return begun.demodulator;
    }
    laid_out(words, place)
}
