// What makes figures fit, and two in one: totals, gains, the figures of a rate and whole reports.
ghost use Rattle.std.specs.Prelude.{◌≡◌, true, false};
ghost use Rattle.figures.specs.Totals.{no_figures_lem, gain_fit, gains_fit, totals_fit, figures_fit, report_fit_lem, would_pass, summed, lesser, greater, plus, Fit};
ghost use Rattle.figures.specs.Answers.{JoinSays};

use super::{AfterAdd, Figures, Report};
use protocol::Refusal;

const MOST: u64 = 9223372036854775808;

pub(crate) fn no_figures() -> Figures
    ensures { result ≡ no_figures_lem }
{
    Figures {
        totals: [0; 24],
        smallest: None,
        largest: None,
    }
}

fn is_gain_fit(gain: f32) -> bool
    ensures { result ≡ gain_fit gain }
{
    (16.0 <= gain) & (gain <= 1000000.0)
}

// None, or both and each within its limits.
fn is_pair_fit(smallest: Option<f32>, largest: Option<f32>) -> bool
    ensures { result ≡ gains_fit smallest largest }
{
    match (smallest, largest) {
        (None, None) => true,
        (Some(low), Some(high)) => is_gain_fit(low) & is_gain_fit(high),
        _ => false,
    }
}

fn has_fit_totals(totals: [u64; 24]) -> bool
    ensures { result ≡ totals_fit totals }
{
    totals.iter().all(|total| *total <= MOST)
}

fn is_fit(figures: Figures) -> bool
    ensures { result ≡ figures_fit figures }
{
    let smallest = figures.smallest;
    let largest = figures.largest;
    let totals = figures.totals;
    has_fit_totals(totals) & is_pair_fit(smallest, largest)
}

#[tactic(auto, unfolding(crate::specs::Totals::report_fit_lem))]
pub(crate) fn is_report_fit(report: Report) -> bool
    ensures { result ≡ report_fit_lem report }
{
    let first = report.at_48;
    let second = report.at_24;
    is_fit(first) & is_fit(second)
}

// Whether a total would pass 2^63.
#[tactic(auto, using(crate::proofs::TotalLaws::passes))]
fn is_too_large(a: [u64; 24], b: [u64; 24]) -> bool
    requires { (totals_fit a ≡ true) × (totals_fit b ≡ true) }
    ensures { result ≡ would_pass a b }
{
    for (total, more) in a.iter().zip(b.iter()) {
        let room = MOST - *total;
        if room < *more {
            return true;
        }
    }
    false
}

fn sum_totals(a: [u64; 24], b: [u64; 24]) -> [u64; 24]
    requires { (totals_fit a ≡ true) × (totals_fit b ≡ true) × (would_pass a b ≡ false) }
    ensures { result ≡ summed a b }
{
    let mut both = a;
    for (i, total) in both.iter_mut().enumerate() {
        *total += b[i];
    }
    both
}

#[tactic(auto, unfolding(crate::specs::Totals::lesser))]
fn lesser_gain(a: Option<f32>, b: Option<f32>) -> Option<f32>
    ensures { result ≡ lesser a b }
{
    match (a, b) {
        (None, _) => b,
        (_, None) => a,
        (Some(x), Some(y)) => if y < x { b } else { a },
    }
}

#[tactic(auto, unfolding(crate::specs::Totals::greater))]
fn greater_gain(a: Option<f32>, b: Option<f32>) -> Option<f32>
    ensures { result ≡ greater a b }
{
    match (a, b) {
        (None, _) => b,
        (_, None) => a,
        (Some(x), Some(y)) => if x < y { b } else { a },
    }
}

#[tactic(auto, unfolding(crate::specs::Totals::plus))]
pub(crate) fn add_figures(a: Figures, b: Figures) -> Figures
    requires { Fit a b }
    ensures { result ≡ plus a b }
{
    let low_a = a.smallest;
    let low_b = b.smallest;
    let high_a = a.largest;
    let high_b = b.largest;
    let totals_a = a.totals;
    let totals_b = b.totals;
    let totals = sum_totals(totals_a, totals_b);
    Figures {
        totals,
        smallest: lesser_gain(low_a, low_b),
        largest: greater_gain(high_a, high_b),
    }
}

// Two fit reports in one, unless a total would pass 2^63.
pub(crate) fn join(a: Report, b: Report) -> AfterAdd
    requires { (report_fit_lem a ≡ true) × (report_fit_lem b ≡ true) }
    ensures { JoinSays a b result }
{
    let a_48 = a.at_48;
    let b_48 = b.at_48;
    let a_24 = a.at_24;
    let b_24 = b.at_24;
    let first_a = a_48.totals;
    let first_b = b_48.totals;
    let second_a = a_24.totals;
    let second_b = b_24.totals;
    if is_too_large(first_a, first_b) {
        return AfterAdd {
            answer: Err(Refusal::TotalTooLarge),
            report: a,
        };
    }
    if is_too_large(second_a, second_b) {
        return AfterAdd {
            answer: Err(Refusal::TotalTooLarge),
            report: a,
        };
    }
    let at_48 = add_figures(a_48, b_48);
    let at_24 = add_figures(a_24, b_24);
    AfterAdd {
        answer: Ok(()),
        report: Report { at_48, at_24 },
    }
}
