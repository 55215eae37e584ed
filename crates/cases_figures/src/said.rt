// Figures and answers on standard output, and whether two reports are the same.
use figures::{Figures, Report};
use protocol::Refusal;
use std::io::{self, Write};

fn put_totals(out: &mut impl Write, totals: [u64; 24]) -> io::Result<()> {
    for total in &totals {
        cases_text::put_count(out, *total)?;
    }
    Ok(())
}

fn put_gain(out: &mut impl Write, gain: Option<f32>) -> io::Result<()> {
    match gain {
        None => out.write_all(b" none"),
        Some(x) => cases_text::put_float(out, x),
    }
}

fn put_figures(out: &mut impl Write, figures: Figures) -> io::Result<()> {
    let totals = figures.totals;
    let smallest = figures.smallest;
    let largest = figures.largest;
    put_totals(out, totals)?;
    put_gain(out, smallest)?;
    put_gain(out, largest)
}

// The figures of one rate.
pub(crate) fn put_side(out: &mut impl Write, report: Report, rate: u32) -> io::Result<()> {
    let first = report.at_48;
    let second = report.at_24;
    if rate == 24_000 {
        put_figures(out, second)
    } else {
        put_figures(out, first)
    }
}

// Gains are held to each other by their bits, as `==` does not.
fn same_gain(a: Option<f32>, b: Option<f32>) -> bool {
    match (a, b) {
        (None, None) => true,
        (Some(x), Some(y)) => cases_text::same_float(x, y),
        _ => false,
    }
}

fn same_figures(a: Figures, b: Figures) -> bool {
    a.totals == b.totals && same_gain(a.smallest, b.smallest) && same_gain(a.largest, b.largest)
}

fn same_report(a: Report, b: Report) -> bool {
    same_figures(a.at_48, b.at_48) && same_figures(a.at_24, b.at_24)
}

// `done`, or the refusal's number and whether the report is as it was.
pub(crate) fn put_answer(
    out: &mut impl Write,
    before: Report,
    answer: Result<(), Refusal>,
    after: Report,
) -> io::Result<()> {
    match answer {
        Ok(()) => {
            out.write_all(b" done")?;
        }
        Err(why) => {
            cases_text::put_count(out, why.number() as u64)?;
            if !same_report(before, after) {
                out.write_all(b" changed")?;
            }
        }
    }
    Ok(())
}
