// The receiver: SoftDemodulator of the Rust's modem.rs as a record by value, which says its rate in samples a second. Samples go in one by one, and windows of 192 symbols are offered to the caller, who replies.
#![tactic(auto)]

ghost use Rattle.demodulator.specs.Calls.{NewSays, DemodSays, ReplySays, DataCarrierDetectSays};

use protocol::{Kind, Refusal};
use shaping::PerSymbol;
use step::Places;

mod each;
mod feed;
mod fit;
mod lent;
mod ring;
mod row;
mod step;
mod stretch;

pub use lent::{FedLent, RepliedLent, carrier_lent, feed_lent, reply_lent};
pub use search::{Candidate, Control, Reply, Waiting};

// At 24 kHz the first 82 places of the window and the first 960 of the ring are used.
#[derive(Clone, Copy)]
pub struct SoftDemodulator {
    pub rate: u32,
    pub filter_win: [i16; 162],
    pub filter_cursor: usize,
    pub rx_win: [f32; 1920],
    pub rx_cursor: usize,
    pub control: Control,
}

// A frame that is due: its kind, and the number of the sample at which it is. Its symbols are in the caller's room.
// It was taken at sample `taken_at`; `age` is the age at which its wait was set. The mark, `replaced`: on the sample that set the wait
// a later-listed kind replaced the candidate, and the frame is that kind's. `gain` is what its symbols were divided by.
#[derive(Clone, Copy)]
pub struct Offer {
    pub kind: Kind,
    pub sample: u64,
    pub taken_at: u64,
    pub age: u8,
    pub replaced: bool,
    pub gain: f32,
}

// A call's answer, or why it is refused, and the record that the next call is given.
#[derive(Clone, Copy)]
pub struct After<A> {
    pub answer: Result<A, Refusal>,
    pub demodulator: SoftDemodulator,
}

// `fed` counts the samples that went in, the one that brought an offer among them. A refused stretch has none;
// after a quiet one that is shorter than what was given, the rest would be refused.
#[derive(Clone, Copy)]
pub struct AfterStretch {
    pub answer: Result<Option<Offer>, Refusal>,
    pub fed: usize,
    pub demodulator: SoftDemodulator,
}

impl SoftDemodulator {
    // A fresh record of a rate. A rate that is none is refused, and beside the refusal comes a fresh record that says it: every call refuses that.
    pub fn new(rate: u32) -> After<()>
        ensures { NewSays rate result }
    {
        let demodulator = SoftDemodulator {
            rate,
            filter_win: [0i16; 162],
            filter_cursor: 0,
            rx_win: [0.0f32; 1920],
            rx_cursor: 0,
            control: Control {
                candidate: Candidate::Nothing,
                wait: None,
                dcd: None,
                owed: false,
                sample: 0,
            },
        };
        if !shaping::is_rate(rate) {
            return After {
                answer: Err(Refusal::WrongRate),
                demodulator,
            };
        }
        After {
            answer: Ok(()),
            demodulator,
        }
    }

    // A sample: refused, quiet, or a frame offered, whose symbols are then the room's first 192. Window and ring are copied, lent to the step, and built into the record again.
    pub fn demod(self, sample: i16, room: &mut [f32]) -> After<Option<Offer>>
        ensures { DemodSays self sample room.old result room.new }
    {
        let rate = self.rate;
        let Some(p) = PerSymbol::of(rate) else {
            return After {
                answer: Err(Refusal::WrongRate),
                demodulator: self,
            };
        };
        let mut filter_win = self.filter_win;
        let halves = fit::halves_agree(p, &filter_win);
        let mut rx_win = self.rx_win;
        let control = self.control;
        let places = Places {
            filter_cursor: self.filter_cursor,
            rx_cursor: self.rx_cursor,
        };
        let stepped = step::step(
            p,
            &mut filter_win,
            &mut rx_win,
            places,
            control,
            halves,
            sample,
            room,
        );
        let next = stepped.places;
        let control = stepped.control;
        let answer = stepped.answer;
        After {
            answer,
            demodulator: SoftDemodulator {
                rate,
                filter_win,
                filter_cursor: next.filter_cursor,
                rx_win,
                rx_cursor: next.rx_cursor,
                control,
            },
        }
    }

    // The reply to an offer: accepted, the sample is finished; rejected, it is searched.
    pub fn reply(self, reply: Reply) -> After<()>
        ensures { ReplySays self reply result }
    {
        let rate = self.rate;
        let Some(p) = PerSymbol::of(rate) else {
            return After {
                answer: Err(Refusal::WrongRate),
                demodulator: self,
            };
        };
        let control = self.control;
        let halves = fit::halves_agree(p, &self.filter_win);
        if !fit::fit_for_reply(
            p,
            halves,
            &self.rx_win,
            self.filter_cursor,
            self.rx_cursor,
            control,
        ) {
            return After {
                answer: Err(Refusal::RecordUnfit),
                demodulator: self,
            };
        }
        if !control.owed {
            return After {
                answer: Err(Refusal::NoReplyOwed),
                demodulator: self,
            };
        }
        let values = ring::eight(p, &self.rx_win, self.rx_cursor);
        let symbol = p.samples() as u8;
        let settled = search::replied(symbol, control, reply, values);
        let mut demodulator = self;
        demodulator.control = settled;
        After {
            answer: Ok(()),
            demodulator,
        }
    }

    // Whether the carrier timer is held. The Rust always says no.
    pub fn data_carrier_detect(self) -> Result<bool, Refusal>
        ensures { DataCarrierDetectSays self result }
    {
        let rate = self.rate;
        let Some(p) = PerSymbol::of(rate) else {
            return Err(Refusal::WrongRate);
        };
        let control = self.control;
        let halves = fit::halves_agree(p, &self.filter_win);
        if !fit::record_fit(p, halves, self.filter_cursor, self.rx_cursor, control) {
            return Err(Refusal::RecordUnfit);
        }
        Ok(control.dcd.is_some())
    }
}
