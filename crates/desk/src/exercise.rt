// An exercise opens at a seat, and is closed. A flag changes beside a receiver, so that the desk goes by value; the lent calls take it out and put back what that leaves.
ghost use Rattle.desk.specs.Calls.{Opens, DeskOpenSays, Closes, DeskCloseSays};

use crate::{Desk, passage};
use demodulator::SoftDemodulator;
use protocol::Refusal;

// What an open or a close answers, and the desk that it leaves.
#[derive(Clone, Copy)]
struct After {
    answer: Result<(), Refusal>,
    desk: Desk,
}

fn open_desk(desk: Desk, seat: usize, rate: u32) -> After
    ensures { Opens desk seat rate result }
{
    if 7 < seat {
        return After {
            answer: Err(Refusal::NoSuchSeat),
            desk,
        };
    }
    if desk.opened[seat] {
        return After {
            answer: Err(Refusal::SeatOpen),
            desk,
        };
    }
    if !shaping::is_rate(rate) {
        return After {
            answer: Err(Refusal::WrongRate),
            desk,
        };
    }
    let made = SoftDemodulator::new(rate);
    let fresh = made.demodulator;
    let mut next = desk;
    next.opened[seat] = true;
    next.receivers[seat] = fresh;
    After {
        answer: Ok(()),
        desk: next,
    }
}

// A close gives no sample and no reply: it tests of the record what the carrier query does, and that refuses exactly where a close is to.
fn close_desk(desk: Desk, seat: usize) -> After
    ensures { Closes desk seat result }
{
    let flags = desk.opened;
    let passed = passage::pass(flags, seat);
    match passed {
        Err(why) => After {
            answer: Err(why),
            desk,
        },
        Ok(()) => {
            let receiver = desk.receivers[seat];
            let tested = receiver.data_carrier_detect();
            match tested {
                Err(why) => After {
                    answer: Err(why),
                    desk,
                },
                Ok(_) => {
                    let mut shut = desk;
                    shut.opened[seat] = false;
                    After {
                        answer: Ok(()),
                        desk: shut,
                    }
                }
            }
        }
    }
}

// An exercise at a closed seat: a fresh receiver of the stated rate. No record is tested.
pub fn open(desk: &mut Desk, seat: usize, rate: u32) -> Result<(), Refusal>
    ensures { DeskOpenSays desk.old seat rate result desk.new }
{
    let after = open_desk(*desk, seat, rate);
    *desk = after.desk;
    after.answer
}

// The end of a seat's exercise. A reply that is owed does not hinder it.
pub fn close(desk: &mut Desk, seat: usize) -> Result<(), Refusal>
    ensures { DeskCloseSays desk.old seat result desk.new }
{
    let after = close_desk(*desk, seat);
    *desk = after.desk;
    after.answer
}
