// A line of the table by hand. A report in words: `at` its rate, `total` at `place`, `smallest` and `largest` by their bits; what is not said is
// nothing, and a total without a place is put at each of the 24 in turn. A call: `add` with the rate, of the last recording or of `silence`, or
// `merge` with another report.
use crate::said;
use figures::{AfterAdd, Figures, Report};
use std::io::{self, Write};

fn gain_behind(words: &[u8], name: &[u8]) -> Option<f32> {
    let place = cases_text::place_behind(words, name);
    if 0 < place {
        return Some(cases_text::float(cases_text::word(words, place)));
    }
    None
}

fn figures_of(words: &[u8], place: usize) -> Figures {
    let mut totals = [0u64; 24];
    let total = cases_text::count_behind(words, b"total", 0);
    if place < 24 {
        totals[place] = total;
    }
    let smallest = gain_behind(words, b"smallest");
    let largest = gain_behind(words, b"largest");
    Figures {
        totals,
        smallest,
        largest,
    }
}

fn report_of(words: &[u8], place: usize) -> Report {
    let made = figures_of(words, place);
    let empty = Report::new();
    let first = empty.at_48;
    let second = empty.at_24;
    if cases_text::count_behind(words, b"at", 48_000) == 24_000 {
        return Report {
            at_48: first,
            at_24: made,
        };
    }
    Report {
        at_48: made,
        at_24: second,
    }
}

fn place_behind(words: &[u8], own: usize) -> usize {
    cases_text::count_behind(words, b"place", own as u64) as usize
}

fn called(report: Report, call: &[u8], place: usize, samples: &[i16]) -> AfterAdd {
    if cases_text::names(call, b"merge") {
        return report.merge(report_of(call, place_behind(call, place)));
    }
    let rate = (cases_text::count_behind(call, b"add", 0) % 100_000) as u32;
    if cases_text::names(call, b"silence") {
        return report.add(rate, &[]);
    }
    report.add(rate, samples)
}

fn put_one(
    out: &mut impl Write,
    words: &[u8],
    call: &[u8],
    place: usize,
    samples: &[i16],
) -> io::Result<()> {
    let report = report_of(words, place);
    let after = called(report, call, place, samples);
    let answer = after.answer;
    said::put_answer(out, report, answer, after.report)
}

fn put_each(out: &mut impl Write, words: &[u8], call: &[u8], samples: &[i16]) -> io::Result<()> {
    for place in 0..24 {
        put_one(out, words, call, place, samples)?;
    }
    Ok(())
}

pub(crate) fn put_answers(out: &mut impl Write, line: &[u8], samples: &[i16]) -> io::Result<()> {
    let words = cases_text::cell(line, 2);
    let call = cases_text::cell(line, 3);
    let place = place_behind(words, 24);
    if place < 24 {
        put_one(out, words, call, place, samples)
    } else if cases_text::names(words, b"total") {
        put_each(out, words, call, samples)
    } else {
        put_one(out, words, call, 24, samples)
    }
}
