// The figures of a recording with a fresh receiver, by the receive program's rule of reply.
ghost use Rattle.std.specs.Prelude.{◌≡◌, true, ◌≤◌, ◌^◌, length};
ghost use Rattle.shaping.specs.Rate.{rate_fit};
ghost use Rattle.demodulator.specs.Record.{fresh};
ghost use Rattle.figures.specs.Totals.{no_figures_lem};
ghost use Rattle.figures.specs.FullList.{record_figures};
ghost use Rattle.figures.specs.Turn.{NextCount};

use super::sums::{add_figures, no_figures};
use super::{Figures, hear};
use demodulator::SoftDemodulator;

// How many samples to give, of those that are left: no more than rest; or than `most`, and than the timer lasts where it lasts.
fn count_next(demodulator: SoftDemodulator, left: usize, most: usize) -> usize
    requires { (1 ≤ left) × (1 ≤ most) }
    ensures { NextCount demodulator left most result }
{
    let control = demodulator.control;
    let wait = control.wait;
    let rest = hear::rests(wait);
    if 0 < rest {
        if (left as u64) < rest {
            return left;
        }
        return rest as usize;
    }
    let few = left.min(most);
    let timer = control.dcd;
    let lasts = hear::lasts(timer, control.sample);
    if lasts == 0 {
        return few;
    }
    if lasts < few as u64 {
        return lasts as usize;
    }
    few
}

pub(crate) fn count_recording(rate: u32, samples: &[i16]) -> Figures
    requires { (rate_fit rate ≡ true) × (length samples.now ≤ 2 ^ 63) }
    ensures { result ≡ record_figures no_figures_lem (fresh rate) samples.now }
{
    let begun = SoftDemodulator::new(rate);
    let span = 24 * shaping::samples_in(rate);
    let mut left = begun.demodulator;
    let mut figures = no_figures();
    let mut fed: usize = 0;
    let mut most = span;
    // A turn takes as many samples as it hears, so no range gives the next one's place.
    while fed < samples.len() {
        let n = count_next(left, samples.len() - fed, most);
        let end = fed + n;
        let turn = hear::take_turn(left, &samples[fed..end]);
        match turn.figures {
            Some(more) => {
                if turn.fed == 0 {
                    return figures;
                }
                figures = add_figures(figures, more);
                left = turn.demodulator;
                fed += turn.fed;
                most = span;
            }
            None => most = n / 2,
        }
    }
    figures
}
