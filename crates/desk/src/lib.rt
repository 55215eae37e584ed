// The exercise desk of a classroom: eight seats share one record, and each seat has a receiver of its own, started anew when its exercise opens and changed in place.
// Every call but `Desk::new` is lent the desk.
#![tactic(auto)]

ghost use Rattle.desk.specs.Desk.{DeskNewSays};

use demodulator::{Offer, SoftDemodulator};
use protocol::Refusal;

mod exercise;
mod lent;
mod listing;
mod passage;
mod query;

pub use exercise::{close, open};
pub use lent::{feed, reply};
pub use listing::list;
pub use query::data_carrier_detect;

// Which seats are open, and each seat's receiver. A closed seat's receiver is kept as it was, and no call reads it.
#[derive(Clone, Copy)]
pub struct Desk {
    pub opened: [bool; 8],
    pub receivers: [SoftDemodulator; 8],
}

// What a stretch of samples is answered with, and how many of them went in, as of a single receiver.
#[derive(Clone, Copy)]
pub struct Fed {
    pub answer: Result<Option<Offer>, Refusal>,
    pub fed: usize,
}

// An open seat in the listing: the count of its samples and whether a reply is owed.
#[derive(Clone, Copy)]
pub struct Line {
    pub count: u64,
    pub owed: bool,
}

impl Desk {
    // A desk with all its seats closed.
    pub fn new() -> Desk
        ensures { DeskNewSays result }
    {
        let made = SoftDemodulator::new(48000);
        let unread = made.demodulator;
        Desk {
            opened: [false; 8],
            receivers: [unread; 8],
        }
    }
}
