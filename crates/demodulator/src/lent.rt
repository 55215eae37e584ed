// The calls over a window and a ring that the caller lends, changed in place: nothing of the record's 8 KB is copied.
ghost use Rattle.std.specs.Prelude.{◌≡◌};
ghost use Rattle.demodulator.specs.Lent.{kept_parts, FeedLentSays, ReplyLentSays, CarrierLentSays};

use crate::step::Places;
use crate::{Offer, Reply, each, fit, ring};
use protocol::Refusal;
use search::Control;
use shaping::PerSymbol;

// What became of the samples, with all of the record that is not lent.
#[derive(Clone, Copy)]
pub struct FedLent {
    pub answer: Result<Option<Offer>, Refusal>,
    pub fed: usize,
    pub filter_cursor: usize,
    pub rx_cursor: usize,
    pub control: Control,
}

// What became of a reply: of the record the control alone changes.
#[derive(Clone, Copy)]
pub struct RepliedLent {
    pub answer: Result<(), Refusal>,
    pub control: Control,
}

// No sample went in.
fn keep(
    answer: Result<Option<Offer>, Refusal>,
    filter_cursor: usize,
    rx_cursor: usize,
    control: Control,
) -> FedLent
    ensures { result ≡ kept_parts answer filter_cursor rx_cursor control }
{
    FedLent {
        answer,
        fed: 0,
        filter_cursor,
        rx_cursor,
        control,
    }
}

// The samples one after the other, until one brings an offer or would be refused. Only the first can be refused:
// a later one does not go in, and is left to the caller.
pub fn feed_lent(
    rate: u32,
    filter_win: &mut [i16; 162],
    rx_win: &mut [f32; 1920],
    filter_cursor: usize,
    rx_cursor: usize,
    control: Control,
    samples: &[i16],
    room: &mut [f32],
) -> FedLent
    ensures { FeedLentSays rate filter_win.old rx_win.old filter_cursor rx_cursor control samples.now room.old result filter_win.new rx_win.new room.new }
{
    let Some(p) = PerSymbol::of(rate) else {
        return keep(Err(Refusal::WrongRate), filter_cursor, rx_cursor, control);
    };
    let halves = fit::halves_agree(p, &*filter_win);
    if samples.len() == 0 {
        if !fit::record_fit(p, halves, filter_cursor, rx_cursor, control) {
            return keep(Err(Refusal::RecordUnfit), filter_cursor, rx_cursor, control);
        }
        return keep(Ok(None), filter_cursor, rx_cursor, control);
    }
    let places = Places {
        filter_cursor,
        rx_cursor,
    };
    let done = each::feed_each(
        p, filter_win, rx_win, places, control, halves, samples, room,
    );
    let next = done.places;
    let control = done.control;
    let answer = done.answer;
    FedLent {
        answer,
        fed: done.fed,
        filter_cursor: next.filter_cursor,
        rx_cursor: next.rx_cursor,
        control,
    }
}

// The reply to an offer: accepted, the sample is finished; rejected, it is searched.
pub fn reply_lent(
    rate: u32,
    filter_win: &[i16; 162],
    rx_win: &[f32; 1920],
    filter_cursor: usize,
    rx_cursor: usize,
    control: Control,
    reply: Reply,
) -> RepliedLent
    ensures { ReplyLentSays rate filter_win.now rx_win.now filter_cursor rx_cursor control reply result }
{
    let Some(p) = PerSymbol::of(rate) else {
        return RepliedLent {
            answer: Err(Refusal::WrongRate),
            control,
        };
    };
    let halves = fit::halves_agree(p, filter_win);
    if !fit::fit_for_reply(p, halves, rx_win, filter_cursor, rx_cursor, control) {
        return RepliedLent {
            answer: Err(Refusal::RecordUnfit),
            control,
        };
    }
    if !control.owed {
        return RepliedLent {
            answer: Err(Refusal::NoReplyOwed),
            control,
        };
    }
    let values = ring::eight(p, rx_win, rx_cursor);
    let symbol = p.samples() as u8;
    let settled = search::replied(symbol, control, reply, values);
    RepliedLent {
        answer: Ok(()),
        control: settled,
    }
}

// Whether the carrier timer is held. The ring is not read.
pub fn carrier_lent(
    rate: u32,
    filter_win: &[i16; 162],
    filter_cursor: usize,
    rx_cursor: usize,
    control: Control,
) -> Result<bool, Refusal>
    ensures { CarrierLentSays rate filter_win.now filter_cursor rx_cursor control result }
{
    let Some(p) = PerSymbol::of(rate) else {
        return Err(Refusal::WrongRate);
    };
    let halves = fit::halves_agree(p, filter_win);
    if !fit::record_fit(p, halves, filter_cursor, rx_cursor, control) {
        return Err(Refusal::RecordUnfit);
    }
    Ok(control.dcd.is_some())
}
