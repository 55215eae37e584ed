// One sample at p samples a symbol, over a window and a ring that the caller lends: nothing large is copied.
ghost use Rattle.std.specs.Prelude.{◌≡◌};
ghost use Rattle.demodulator.specs.Fit.{halves_agree_lem};
ghost use Rattle.demodulator.specs.Steps.{Accepts, Steps, unmoved};

use crate::{Offer, fit, ring};
use protocol::Refusal;
use search::{Control, LAST_COUNT, Turn};
use shaping::PerSymbol;

// Where the window and the ring are written next.
#[derive(Clone, Copy)]
pub(crate) struct Places {
    pub filter_cursor: usize,
    pub rx_cursor: usize,
}

// An answer, with all of the record that is not lent.
#[derive(Clone, Copy)]
pub(crate) struct Stepped {
    pub answer: Result<Option<Offer>, Refusal>,
    pub places: Places,
    pub control: Control,
}

// The sample is taken: nothing refuses it.
fn advance(
    p: PerSymbol,
    filter_win: &mut [i16; 162],
    rx_win: &mut [f32; 1920],
    places: Places,
    control: Control,
    sample: i16,
    room: &mut [f32],
) -> Stepped
    requires { Accepts p filter_win.old rx_win.old places control room.old }
    ensures { Steps p filter_win.old rx_win.old places control sample room.old result filter_win.new rx_win.new room.new }
{
    let filter_cursor = places.filter_cursor;
    let rx_cursor = places.rx_cursor;
    ring::store(p, filter_win, filter_cursor, rx_win, rx_cursor, sample);
    let per = p.samples();
    let filter_next = ring::place_after(8 * per + 1, filter_cursor);
    let rx_next = ring::place_after(192 * per, rx_cursor);
    let places = Places {
        filter_cursor: filter_next,
        rx_cursor: rx_next,
    };
    let number = control.sample + 1;
    let turn = search::turn_of(control, number);
    match turn {
        Turn::Rest(rested) => Stepped {
            answer: Ok(None),
            places,
            control: rested,
        },
        Turn::Offer {
            shown,
            control: owing,
        } => {
            ring::write_window(p, &*rx_win, rx_next, shown, room);
            let kind = shown.kind;
            Stepped {
                answer: Ok(Some(Offer {
                    kind,
                    sample: owing.sample,
                    taken_at: shown.taken_at,
                    age: shown.age,
                    replaced: shown.replaced,
                    gain: shown.gain,
                })),
                places,
                control: owing,
            }
        }
        Turn::Look(looking) => {
            let values = ring::eight(p, &*rx_win, rx_next);
            let symbol = per as u8;
            let found = search::searched(symbol, looking, values);
            Stepped {
                answer: Ok(None),
                places,
                control: found,
            }
        }
    }
}

fn refused(why: Refusal, places: Places, control: Control) -> Stepped
    ensures { result ≡ unmoved why places control }
{
    Stepped {
        answer: Err(why),
        places,
        control,
    }
}

// All that can refuse a sample is tested before anything is written; whether the window's halves agree is the caller's to test, once for all its samples.
pub(crate) fn step(
    p: PerSymbol,
    filter_win: &mut [i16; 162],
    rx_win: &mut [f32; 1920],
    places: Places,
    control: Control,
    halves: bool,
    sample: i16,
    room: &mut [f32],
) -> Stepped
    requires { halves ≡ halves_agree_lem p filter_win.old }
    ensures { Steps p filter_win.old rx_win.old places control sample room.old result filter_win.new rx_win.new room.new }
{
    if !fit::fit_for_sample(
        p,
        halves,
        &*rx_win,
        places.filter_cursor,
        places.rx_cursor,
        control,
    ) {
        return refused(Refusal::RecordUnfit, places, control);
    }
    if control.owed {
        return refused(Refusal::ReplyOwed, places, control);
    }
    if room.len() < 192 {
        return refused(Refusal::RoomTooSmall, places, control);
    }
    if control.sample == LAST_COUNT {
        return refused(Refusal::CountAtItsEnd, places, control);
    }
    advance(p, filter_win, rx_win, places, control, sample, room)
}
