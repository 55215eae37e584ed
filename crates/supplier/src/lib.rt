// Document 02 m), the checker of a transmitter box: holds a stretch of samples beside what the sender sends of a text of frames, from a
// fresh start at 48 kHz. The sender makes one part after the other, in room for one: nothing of the text or of the stretch is copied whole.
#![tactic(auto)]

ghost use Rattle.supplier.specs.Check.{CheckSays};

use protocol::Refusal;

mod beside;
mod part;
mod text;

// `Differs` has the number of the first sample that differs, from 1, the padding's zeros counted.
#[derive(Clone, Copy)]
pub enum Checked {
    Yes,
    Differs(usize),
    Short,
    Long,
}

// The padding's zeros, preamble, a frame for each line, and end of transmission: yes exactly if the samples are these.
// All lines are judged before any sample is looked at.
#[tactic(auto, using(crate::proofs::CheckLaws::checking))]
pub fn check(padding: usize, lines: &[u8], samples: &[i16]) -> Result<Checked, Refusal>
    ensures { CheckSays padding lines.now samples.now result }
{
    if 122400 < padding {
        return Err(Refusal::CountTooLarge);
    }
    match text::first_bad(lines) {
        Some(number) => Err(Refusal::BadLine(number)),
        None => Ok(part::compare(padding, lines, samples)),
    }
}
