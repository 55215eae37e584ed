// What the sender asks of its caller: the next action.
ghost use Rattle.std.specs.Prelude.{◌≡◌};
ghost use Rattle.modulator.specs.Control.{reported};
ghost use Rattle.modulator.specs.Calls.{RunSays};

use super::fit::{record_fit, unfit_for};
use super::{After, ModulatorAction, Pending, SoftModulator};

// What is pending once the end is reported: no end.
fn reported(pending: Pending) -> Pending
    ensures { result ≡ reported pending }
{
    Pending {
        report_tx_end: None,
        ..pending
    }
}

impl SoftModulator {
    // The next thing for the caller to do. A report of an end, and idle, are cleared once they are told.
    pub fn run(mut self) -> After<ModulatorAction>
        ensures { RunSays self result }
    {
        if !record_fit(self) {
            return After {
                answer: Err(unfit_for(self)),
                modulator: self,
            };
        }
        let mut pending = self.pending;
        if let Some(end) = pending.report_tx_end {
            self.pending = reported(pending);
            return After {
                answer: Ok(ModulatorAction::TransmissionWillEnd(end)),
                modulator: self,
            };
        }
        let progress = self.progress;
        if progress.next_read < progress.next_len {
            return After {
                answer: Ok(ModulatorAction::ReadOutput),
                modulator: self,
            };
        }
        if pending.update_idle {
            pending.update_idle = false;
            self.pending = pending;
            return After {
                answer: Ok(ModulatorAction::SetIdle(true)),
                modulator: self,
            };
        }
        if pending.try_get_frame {
            return After {
                answer: Ok(ModulatorAction::GetNextFrame),
                modulator: self,
            };
        }
        After {
            answer: Ok(ModulatorAction::Nothing),
            modulator: self,
        }
    }
}
