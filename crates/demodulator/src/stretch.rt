// Quiet stretches: many of a call's samples at once, at p samples a symbol, over a window and a ring that the caller lends. A sample that is due, or that would be refused, ends one.
ghost use Rattle.std.specs.Prelude.{◌≡◌, true, ◌≤◌, min, length};
ghost use Rattle.quiet.specs.Walk.{before_due};
ghost use Rattle.demodulator.specs.Fit.{halves_agree_lem};
ghost use Rattle.demodulator.specs.Stretch.{Inside, StoresKnown, HasValues, StoresAll, Lent, StretchesFirst, Stretches};

use crate::step::Places;
use crate::{ring, row};
use search::{Control, Waiting};
use shaping::PerSymbol;

// The most samples at once: 13 blocks of 48. At either rate a frame that is found in them is not due in them.
const MOST: usize = 624;

// Fewer samples are cheaper one by one.
pub(crate) const FEW: usize = 12;

// How many samples went in, and all of the record that is not lent.
#[derive(Clone, Copy)]
pub(crate) struct Stretched {
    pub fed: usize,
    pub places: Places,
    pub control: Control,
}

// A sample whose filtered value is known.
fn store_known(
    p: PerSymbol,
    filter_win: &mut [i16; 162],
    rx_win: &mut [f32; 1920],
    places: Places,
    sample: i16,
    filtered: f32,
) -> Places
    requires { Inside p places }
    ensures { StoresKnown p filter_win.old rx_win.old places sample filtered filter_win.new rx_win.new result }
{
    let filter_cursor = places.filter_cursor;
    let rx_cursor = places.rx_cursor;
    let per = p.samples();
    filter_win[filter_cursor] = sample;
    let again = filter_cursor + (8 * per + 1);
    filter_win[again] = sample;
    rx_win[rx_cursor] = filtered;
    let filter_next = ring::place_after(8 * per + 1, filter_cursor);
    let rx_next = ring::place_after(192 * per, rx_cursor);
    Places {
        filter_cursor: filter_next,
        rx_cursor: rx_next,
    }
}

// The first `n` samples of the stretch, with their filtered values.
fn store_all(
    p: PerSymbol,
    filter_win: &mut [i16; 162],
    rx_win: &mut [f32; 1920],
    places: Places,
    samples: &[i16],
    row: &[f32],
    n: usize,
) -> Places
    requires { HasValues p filter_win.old rx_win.old places samples.now row.now n }
    ensures { StoresAll p filter_win.old rx_win.old places samples.now n filter_win.new rx_win.new result }
{
    let before = 7 * p.samples();
    let mut next = places;
    for (k, sample) in samples[..n].iter().enumerate() {
        next = store_known(p, filter_win, rx_win, next, *sample, row[before + k]);
    }
    next
}

// How many of the samples to try: those before the one at which an awaited frame is due, but a stretch's most.
#[tactic(auto, unfolding(quiet::specs::Walk::before_due))]
fn count_quiet(left: usize, wait: Option<Waiting>) -> usize
    ensures { result ≡ before_due wait (min left 624) }
{
    let most = left.min(MOST);
    match wait {
        None => most,
        Some(w) => numbers::saturating_sub(w.left as usize, 1).min(most),
    }
}

// The filtered values in a row say how many of the samples are quiet; these are stored.
fn walk_stretch(
    p: PerSymbol,
    filter_win: &mut [i16; 162],
    rx_win: &mut [f32; 1920],
    places: Places,
    control: Control,
    samples: &[i16],
) -> Stretched
    requires { (Lent p filter_win.old rx_win.old) × (halves_agree_lem p filter_win.old ≡ true) × (Inside p places) × (length samples.now ≤ 624) }
    ensures { StretchesFirst p filter_win.old rx_win.old places control samples.now result filter_win.new rx_win.new }
{
    let mut straight = [0.0f32; 704];
    let mut values = [0.0f32; 742];
    row::lay_row(
        p,
        &*filter_win,
        &*rx_win,
        places,
        samples,
        &mut straight,
        &mut values,
    );
    let walked = quiet::walk(p.samples(), &values, samples.len(), control);
    let fed = walked.fed;
    let control = walked.control;
    let places = store_all(p, filter_win, rx_win, places, samples, &values, fed);
    Stretched {
        fed,
        places,
        control,
    }
}

// As many of the samples as are quiet and cannot be refused, up to a stretch's most; none where they are few, or where stretches are not tried.
pub(crate) fn advance_stretch(
    p: PerSymbol,
    filter_win: &mut [i16; 162],
    rx_win: &mut [f32; 1920],
    places: Places,
    control: Control,
    plain: bool,
    samples: &[i16],
) -> Stretched
    requires { (Lent p filter_win.old rx_win.old) × (plain ≡ true → halves_agree_lem p filter_win.old ≡ true) }
    ensures { Stretches p plain filter_win.old rx_win.old places control samples.now result filter_win.new rx_win.new }
{
    let none = Stretched {
        fed: 0,
        places,
        control,
    };
    if !plain {
        return none;
    }
    let wait = control.wait;
    let n = count_quiet(samples.len(), wait);
    if n < FEW {
        return none;
    }
    let per = p.samples();
    let count = 8 * per + 1;
    let ring = 192 * per;
    if count <= places.filter_cursor {
        return none;
    }
    if ring <= places.rx_cursor {
        return none;
    }
    walk_stretch(p, filter_win, rx_win, places, control, &samples[..n])
}
