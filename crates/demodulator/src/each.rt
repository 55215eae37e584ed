// All samples of a call, over a window and a ring that the caller lends: quiet stretches of them at once, and the others one by one.
ghost use Rattle.std.specs.Prelude.{◌≡◌, ◌&&◌, leb};
ghost use Rattle.demodulator.specs.Fit.{halves_agree_lem};
ghost use Rattle.demodulator.specs.Feed.{is_quiet_lem, went_in, told_after};
ghost use Rattle.demodulator.specs.Stretch.{Lent, FeedsEach};

use crate::step::Places;
use crate::{Offer, step, stretch};
use protocol::Refusal;
use search::Control;
use shaping::PerSymbol;

// What became of the samples, with all of the record that is not lent.
#[derive(Clone, Copy)]
pub(crate) struct Fed {
    pub answer: Result<Option<Offer>, Refusal>,
    pub fed: usize,
    pub places: Places,
    pub control: Control,
}

fn is_quiet(answer: Result<Option<Offer>, Refusal>) -> bool
    ensures { result ≡ is_quiet_lem answer }
{
    matches!(answer, Ok(None))
}

// How many samples go in with such an answer.
fn count_in(answer: Result<Option<Offer>, Refusal>) -> usize
    ensures { result ≡ went_in answer }
{
    match answer {
        Err(_) => 0,
        Ok(_) => 1,
    }
}

// Once samples went in, a refusal is left to the call that gives the rest.
fn tell(answer: Result<Option<Offer>, Refusal>, fed: usize) -> Result<Option<Offer>, Refusal>
    ensures { result ≡ told_after fed answer }
{
    match answer {
        Err(_) if fed != 0 => Ok(None),
        _ => answer,
    }
}

// Whether stretches are tried: the record's halves agree, the room is large enough for an offer, and the samples are not few.
fn is_plain(halves: bool, room: usize, count: usize) -> bool
    ensures { result ≡ (halves && leb 192 room && leb 12 count) }
{
    halves & (192 <= room) & (stretch::FEW <= count)
}

// The samples one after the other, until one brings an offer or would be refused. After each stretch one sample goes by itself: so the turn ends, whatever it is.
pub(crate) fn feed_each(
    p: PerSymbol,
    filter_win: &mut [i16; 162],
    rx_win: &mut [f32; 1920],
    places: Places,
    control: Control,
    halves: bool,
    samples: &[i16],
    room: &mut [f32],
) -> Fed
    requires { (Lent p filter_win.old rx_win.old) × (halves ≡ halves_agree_lem p filter_win.old) }
    ensures { FeedsEach p filter_win.old rx_win.old places control samples.now room.old result filter_win.new rx_win.new room.new }
{
    let plain = is_plain(halves, room.len(), samples.len());
    let mut next = places;
    let mut now = control;
    let mut fed: usize = 0;
    // A stretch takes as many samples as are quiet, so no range gives the next one's place.
    while fed < samples.len() {
        let stretched = stretch::advance_stretch(
            p,
            filter_win,
            rx_win,
            next,
            now,
            plain,
            &samples[fed..],
        );
        next = stretched.places;
        now = stretched.control;
        fed += stretched.fed;
        if fed == samples.len() {
            return Fed {
                answer: Ok(None),
                fed,
                places: next,
                control: now,
            };
        }
        let sample = samples[fed];
        let stepped = step::step(p, filter_win, rx_win, next, now, halves, sample, room);
        next = stepped.places;
        now = stepped.control;
        let answer = stepped.answer;
        if !is_quiet(answer) {
            let last = count_in(answer);
            let count = fed + last;
            return Fed {
                answer: tell(answer, fed),
                fed: count,
                places: next,
                control: now,
            };
        }
        fed += 1;
    }
    Fed {
        answer: Ok(None),
        fed,
        places: next,
        control: now,
    }
}
