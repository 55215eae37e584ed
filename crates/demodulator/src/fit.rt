// Whether a record is fit: no phrase of 'Unfit receiver' applies to it. Tests are joined by `&`: none depends on another, but for those of the ring's places, which wait for its cursor.
ghost use Rattle.std.specs.Prelude.{◌≡◌};
ghost use Rattle.demodulator.specs.Fit.{halves_agree_lem, places_read_lem};
ghost use Rattle.demodulator.specs.Parts.{TestsRecord, TestsForSample, TestsForReply};

use crate::ring;
use search::{Control, Waiting};
use shaping::PerSymbol;

// Whether the window's two halves are the same. All pairs, 81 or 41, are compared, whatever the first ones are: so several are compared at a time.
pub(crate) fn halves_agree(p: PerSymbol, filter_win: &[i16; 162]) -> bool
    ensures { result ≡ halves_agree_lem p filter_win.now }
{
    let count = 8 * p.samples() + 1;
    let mut all = true;
    for i in 0..count {
        all &= filter_win[i] == filter_win[i + count];
    }
    all
}

// All but the filtered values.
pub(crate) fn record_fit(
    p: PerSymbol,
    halves: bool,
    filter_cursor: usize,
    rx_cursor: usize,
    control: Control,
) -> bool
    ensures { TestsRecord p halves filter_cursor rx_cursor control result }
{
    let per = p.samples();
    let symbol = per as u8;
    halves
        & ((filter_cursor < 8 * per + 1) & (rx_cursor < 192 * per))
        & search::control_fit(symbol, control)
}

// How many filtered values a sample could read besides its own: those of a search, or of a window that is due.
fn places_read(wait: Option<Waiting>) -> usize
    ensures { result ≡ places_read_lem wait }
{
    match wait {
        Some(w) if w.left == 1 => 191,
        _ => 7,
    }
}

pub(crate) fn fit_for_sample(
    p: PerSymbol,
    halves: bool,
    rx_win: &[f32; 1920],
    filter_cursor: usize,
    rx_cursor: usize,
    control: Control,
) -> bool
    ensures { TestsForSample p halves rx_win.now filter_cursor rx_cursor control result }
{
    if !record_fit(p, halves, filter_cursor, rx_cursor, control) {
        return false;
    }
    let count = places_read(control.wait);
    let newest = p.samples() - 1;
    ring::places_in_range(p, rx_win, rx_cursor, newest, count)
}

pub(crate) fn fit_for_reply(
    p: PerSymbol,
    halves: bool,
    rx_win: &[f32; 1920],
    filter_cursor: usize,
    rx_cursor: usize,
    control: Control,
) -> bool
    ensures { TestsForReply p halves rx_win.now filter_cursor rx_cursor control result }
{
    if !record_fit(p, halves, filter_cursor, rx_cursor, control) {
        return false;
    }
    ring::places_in_range(p, rx_win, rx_cursor, 0, 8)
}
