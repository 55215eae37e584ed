// Many samples in one call: window and ring are copied, and the window's halves compared, once for the stretch.
ghost use Rattle.std.specs.Prelude.{◌≡◌, true};
ghost use Rattle.shaping.specs.Rate.{rate_fit, samples_in_lem};
ghost use Rattle.demodulator.specs.Record.{assembled};
ghost use Rattle.demodulator.specs.Feed.{FeedsNothing, FeedSays};

use crate::step::Places;
use crate::{AfterStretch, SoftDemodulator, each, fit};
use protocol::Refusal;
use search::Control;
use shaping::PerSymbol;

// No sample is given, so no filtered value is tested.
fn feed_nothing(p: PerSymbol, demodulator: SoftDemodulator) -> AfterStretch
    requires { (rate_fit demodulator.rate ≡ true) × (p ≡ samples_in_lem demodulator.rate) }
    ensures { FeedsNothing demodulator result }
{
    let control = demodulator.control;
    let halves = fit::halves_agree(p, &demodulator.filter_win);
    if !fit::record_fit(
        p,
        halves,
        demodulator.filter_cursor,
        demodulator.rx_cursor,
        control,
    ) {
        return AfterStretch {
            answer: Err(Refusal::RecordUnfit),
            fed: 0,
            demodulator,
        };
    }
    AfterStretch {
        answer: Ok(None),
        fed: 0,
        demodulator,
    }
}

fn rebuild(
    rate: u32,
    filter_win: [i16; 162],
    rx_win: [f32; 1920],
    places: Places,
    control: Control,
) -> SoftDemodulator
    ensures { result ≡ assembled rate filter_win places.filter_cursor rx_win places.rx_cursor control }
{
    SoftDemodulator {
        rate,
        filter_win,
        filter_cursor: places.filter_cursor,
        rx_win,
        rx_cursor: places.rx_cursor,
        control,
    }
}

impl SoftDemodulator {
    // The samples one after the other, until one brings an offer or would be refused. Only the first can be refused:
    // a later one does not go in, and is left to the caller.
    pub fn feed(self, samples: &[i16], room: &mut [f32]) -> AfterStretch
        ensures { FeedSays self samples.now room.old result room.new }
    {
        let rate = self.rate;
        let Some(p) = PerSymbol::of(rate) else {
            return AfterStretch {
                answer: Err(Refusal::WrongRate),
                fed: 0,
                demodulator: self,
            };
        };
        if samples.len() == 0 {
            return feed_nothing(p, self);
        }
        let mut filter_win = self.filter_win;
        let halves = fit::halves_agree(p, &filter_win);
        let mut rx_win = self.rx_win;
        let control = self.control;
        let places = Places {
            filter_cursor: self.filter_cursor,
            rx_cursor: self.rx_cursor,
        };
        let done = each::feed_each(
            p,
            &mut filter_win,
            &mut rx_win,
            places,
            control,
            halves,
            samples,
            room,
        );
        let next = done.places;
        let control = done.control;
        let answer = done.answer;
        AfterStretch {
            answer,
            fed: done.fed,
            demodulator: rebuild(rate, filter_win, rx_win, next, control),
        }
    }
}
