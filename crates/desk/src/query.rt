// Whether a seat's receiver hears a carrier: the receiver's own query.
ghost use Rattle.desk.specs.Calls.{DeskCarrierSays};

use crate::{Desk, passage};
use protocol::Refusal;

fn carrier_at(desk: Desk, seat: usize) -> Result<bool, Refusal>
    ensures { DeskCarrierSays desk seat result }
{
    passage::pass(desk.opened, seat)?;
    desk.receivers[seat].data_carrier_detect()
}

pub fn data_carrier_detect(desk: &Desk, seat: usize) -> Result<bool, Refusal>
    ensures { DeskCarrierSays desk.now seat result }
{
    carrier_at(*desk, seat)
}
