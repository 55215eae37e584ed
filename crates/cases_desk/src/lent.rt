// The desk's calls, made: each is given a desk, lends it to the call, and gives back what the call left beside its answer.
ghost use Rattle.desk.specs.Calls.{DeskFeedSays, DeskReplySays, DeskOpenSays, DeskCloseSays, DeskCarrierSays};
ghost use Rattle.desk.specs.Listing.{DeskListSays};

use demodulator::Reply;
use desk::{Desk, Fed, Line};
use protocol::Refusal;

#[derive(Clone, Copy)]
pub struct AfterFeed {
    pub told: Fed,
    pub desk: Desk,
}

#[derive(Clone, Copy)]
pub struct After {
    pub answer: Result<(), Refusal>,
    pub desk: Desk,
}

pub fn open(desk: Desk, seat: usize, rate: u32) -> After
    ensures { DeskOpenSays desk seat rate result.answer result.desk }
{
    let mut lent = desk;
    let answer = desk::open(&mut lent, seat, rate);
    After { answer, desk: lent }
}

pub fn close(desk: Desk, seat: usize) -> After
    ensures { DeskCloseSays desk seat result.answer result.desk }
{
    let mut lent = desk;
    let answer = desk::close(&mut lent, seat);
    After { answer, desk: lent }
}

pub fn reply(desk: Desk, seat: usize, reply: Reply) -> After
    ensures { DeskReplySays desk seat reply result.answer result.desk }
{
    let mut lent = desk;
    let answer = desk::reply(&mut lent, seat, reply);
    After { answer, desk: lent }
}

pub fn data_carrier_detect(desk: Desk, seat: usize) -> Result<bool, Refusal>
    ensures { DeskCarrierSays desk seat result }
{
    desk::data_carrier_detect(&desk, seat)
}

pub fn list(desk: Desk) -> Result<[Option<Line>; 8], Refusal>
    ensures { DeskListSays desk result }
{
    desk::list(&desk)
}

pub fn feed(desk: Desk, seat: usize, samples: &[i16], room: &mut [f32]) -> AfterFeed
    ensures { DeskFeedSays desk seat samples.now room.old result.told result.desk room.new }
{
    let mut lent = desk;
    let told = desk::feed(&mut lent, seat, samples, room);
    AfterFeed { told, desk: lent }
}
