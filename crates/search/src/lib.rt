// The receiver's control: the candidate, the wait, the carrier timer, whether a reply is owed, and the count. What a sample, a search and a reply do to it reads no ring. Where a span is a number of symbols, the samples in a symbol, p, are handed in.
#![tactic(auto)]

use protocol::Kind;

mod bursts;
mod fit;
mod turns;

pub use bursts::searched;
pub use fit::{control_fit, is_held};
pub use turns::{replied, turn_of};

// The largest count.
pub const LAST_COUNT: u64 = 9223372036854775808;

// A frame is due so many symbols after its burst was heard whole, and the carrier is taken to last so many.
pub(crate) const FRAME_REST: u16 = 184;

pub(crate) const FRAME_CARRIER: u64 = 384;

// A place that may be decoded, or none. `taken_at` is the number of the sample at which it was taken.
// An enum of its own and no Option: the project's scope names this form.
#[derive(Clone, Copy)]
pub enum Candidate {
    Nothing,
    Held {
        kind: Kind,
        age: u8,
        diff: f32,
        gain: f32,
        shift: f32,
        taken_at: u64,
    },
}

// How many samples are still to come before a frame is due, the candidate's age when the wait was set,
// and whether a later-listed kind replaced the candidate on that sample.
#[derive(Clone, Copy)]
pub struct Waiting {
    pub left: u16,
    pub age: u8,
    pub replaced: bool,
}

// All but the two rings, so that a search takes and gives back no array.
#[derive(Clone, Copy)]
pub struct Control {
    pub candidate: Candidate,
    pub wait: Option<Waiting>,
    pub dcd: Option<u64>,
    pub owed: bool,
    pub sample: u64,
}

// What a due frame shows: its kind, the gain and the shift of its symbols, the sample at which it was taken,
// and what was kept with the wait.
#[derive(Clone, Copy)]
pub struct Shown {
    pub kind: Kind,
    pub gain: f32,
    pub shift: f32,
    pub taken_at: u64,
    pub age: u8,
    pub replaced: bool,
}

// What is left to do once a sample is stored and counted: nothing, an offer, or a search.
#[derive(Clone, Copy)]
pub enum Turn {
    Rest(Control),
    Offer { shown: Shown, control: Control },
    Look(Control),
}

// What an offer is replied with.
#[derive(Clone, Copy)]
pub enum Reply {
    Accepted,
    Rejected,
}
