// What a caller is told of an answer: the code, and the number beside it.
ghost use Rattle.std.specs.Prelude.{◌≡◌};
ghost use Rattle.modulator.specs.Paper.{done_paper, read_paper, action_paper};
ghost use Rattle.library_sender.specs.Memory.{paper_code, tells};

use library_codes::{flag_of, refusal_code};
use modulator::{ModulatorAction, SampleCount};
use protocol::Refusal;

pub fn code_done(answer: Result<(), Refusal>) -> u32
    ensures { result ≡ paper_code (done_paper answer) }
{
    match answer {
        Err(why) => refusal_code(why),
        Ok(()) => 0,
    }
}

pub fn code_read(answer: Result<SampleCount, Refusal>) -> u32
    ensures { result ≡ paper_code (read_paper answer) }
{
    match answer {
        Err(why) => refusal_code(why),
        Ok(_) => 0,
    }
}

pub fn tell_read(answer: Result<SampleCount, Refusal>, told: u64) -> u64
    ensures { result ≡ tells (read_paper answer) told }
{
    answer.map_or(told, |count| count.0 as u64)
}

pub fn code_action(answer: Result<ModulatorAction, Refusal>) -> u32
    ensures { result ≡ paper_code (action_paper answer) }
{
    match answer {
        Err(why) => refusal_code(why),
        Ok(ModulatorAction::TransmissionWillEnd(_)) => 1,
        Ok(ModulatorAction::ReadOutput) => 2,
        Ok(ModulatorAction::SetIdle(_)) => 3,
        Ok(ModulatorAction::GetNextFrame) => 4,
        Ok(ModulatorAction::Nothing) => 0,
    }
}

pub fn tell_action(answer: Result<ModulatorAction, Refusal>, told: u64) -> u64
    ensures { result ≡ tells (action_paper answer) told }
{
    match answer {
        Err(_) => told,
        Ok(ModulatorAction::TransmissionWillEnd(end)) => end.0 as u64,
        Ok(ModulatorAction::ReadOutput) => told,
        Ok(ModulatorAction::SetIdle(idle)) => flag_of(idle),
        Ok(ModulatorAction::GetNextFrame) => told,
        Ok(ModulatorAction::Nothing) => told,
    }
}
