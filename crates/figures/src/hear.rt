// A turn: samples up to an offer and the reply to it, and what they add to the figures where the carrier's part of them is known.
ghost use Rattle.std.specs.Prelude.{◌≡◌};
ghost use Rattle.figures.specs.Turn.{lasting, resting, carrier_in, with_total, Short, TurnSays};

use super::Figures;
use super::offered::count_answer;
use demodulator::SoftDemodulator;
use search::Waiting;

// No figures where the carrier of all samples that went in is not known: then the samples are tried again, fewer of them.
#[derive(Clone, Copy)]
pub(crate) struct Turn {
    pub fed: usize,
    pub figures: Option<Figures>,
    pub demodulator: SoftDemodulator,
}

// For how many samples the timer lasts, whatever they are.
pub(crate) fn lasts(timer: Option<u64>, count: u64) -> u64
    ensures { result ≡ lasting timer count }
{
    match timer {
        None => 0,
        Some(end) => end.saturating_sub(count),
    }
}

// For how many samples none is searched, since a frame is awaited.
pub(crate) fn rests(wait: Option<Waiting>) -> u64
    ensures { result ≡ resting wait }
{
    match wait {
        None => 0,
        Some(awaited) => u64::from(awaited.left).saturating_sub(1),
    }
}

fn set_carrier(figures: Figures, held: u64) -> Figures
    ensures { result ≡ with_total 23 held figures }
{
    let mut more = figures;
    more.totals[23] = held;
    more
}

// After how many of the samples the carrier is held: where they rest, as many as the timer lasts; where it lasts over them, all;
// else none but the last, whose reply may have set it.
fn count_carrier(rested: bool, lasts: u64, fed: usize, after: Option<u64>) -> u64
    ensures { result ≡ carrier_in rested lasts fed after }
{
    if rested {
        if (fed as u64) < lasts {
            return fed as u64;
        }
        return lasts;
    }
    if 0 < lasts {
        return fed as u64;
    }
    if fed == 0 {
        return 0;
    }
    if after.is_some() { 1 } else { 0 }
}

// The samples rest, or are at most 24 symbols and no more than the timer lasts where it lasts: a search sets it to 24 symbols at least.
pub(crate) fn take_turn(demodulator: SoftDemodulator, samples: &[i16]) -> Turn
    requires { Short demodulator samples.now }
    ensures { TurnSays demodulator samples.now result }
{
    let before = demodulator.control;
    let timer = before.dcd;
    let last = lasts(timer, before.sample);
    let wait = before.wait;
    let rested = samples.len() as u64 <= rests(wait);
    let heard = listening::listen(demodulator, samples);
    let answer = heard.answer;
    let settled = heard.settled;
    let fed = heard.fed;
    let unreplied = heard.timer;
    let left = heard.demodulator;
    let replied = left.control;
    let after = replied.dcd;
    let known = rested | (0 < last) | (samples.len() <= 1) | unreplied.is_none();
    let offered = count_answer(answer, settled);
    let held = count_carrier(rested, last, fed, after);
    Turn {
        fed,
        figures: known.then_some(set_carrier(offered, held)),
        demodulator: left,
    }
}
