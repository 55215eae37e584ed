// Whether a call for an open seat goes to its receiver: 18 for a seat above 7, then 19 for a closed one, before all that the receiver refuses.
ghost use Rattle.std.specs.Prelude.{◌≡◌, ◌<◌, OnOk};
ghost use Rattle.desk.specs.Passage.{gate_paper, entered};

use protocol::Refusal;

#[tactic(auto, unfolding(crate::specs::Passage::entered))]
pub fn pass(flags: [bool; 8], seat: usize) -> Result<(), Refusal>
    ensures gate { gate_paper result ≡ entered flags seat }
    ensures below { OnOk result (seat < 8) }
{
    if 7 < seat {
        return Err(Refusal::NoSuchSeat);
    }
    if !flags[seat] {
        return Err(Refusal::SeatClosed);
    }
    Ok(())
}
