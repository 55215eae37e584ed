// Samples and replies for a seat. Its receiver is lent to a thin function, which takes the record out, calls the receiver's own call on it by value, and puts back what that leaves.
ghost use Rattle.desk.specs.Lent.{FeedInSays, ReplyInSays};
ghost use Rattle.desk.specs.Calls.{DeskFeedSays, DeskReplySays};

use crate::{Desk, Fed, passage};
use demodulator::{Reply, SoftDemodulator};
use protocol::Refusal;

fn feed_in(receiver: &mut SoftDemodulator, samples: &[i16], room: &mut [f32]) -> Fed
    ensures { FeedInSays receiver.old samples.now room.old result receiver.new room.new }
{
    let after = (*receiver).feed(samples, room);
    *receiver = after.demodulator;
    Fed {
        answer: after.answer,
        fed: after.fed,
    }
}

fn reply_in(receiver: &mut SoftDemodulator, reply: Reply) -> Result<(), Refusal>
    ensures { ReplyInSays receiver.old reply result receiver.new }
{
    let after = (*receiver).reply(reply);
    *receiver = after.demodulator;
    after.answer
}

// A stretch of samples for a seat; the room is the receiver's, for an offer's symbols.
pub fn feed(desk: &mut Desk, seat: usize, samples: &[i16], room: &mut [f32]) -> Fed
    ensures { DeskFeedSays desk.old seat samples.now room.old result desk.new room.new }
{
    match passage::pass(desk.opened, seat) {
        Ok(()) => feed_in(&mut desk.receivers[seat], samples, room),
        Err(why) => Fed {
            answer: Err(why),
            fed: 0,
        },
    }
}

// The reply to the offer that a seat's receiver has made.
pub fn reply(desk: &mut Desk, seat: usize, reply: Reply) -> Result<(), Refusal>
    ensures { DeskReplySays desk.old seat reply result desk.new }
{
    passage::pass(desk.opened, seat)?;
    reply_in(&mut desk.receivers[seat], reply)
}
