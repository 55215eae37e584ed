// What a program says after a turn: why it stops, or nothing where all went well.
ghost use Rattle.house.specs.Trouble.{OutcomeTextSays};

use crate::failing::trouble_text;
use crate::{Program, Text, Trouble};

#[tactic(auto, unfolding(crate::specs::Trouble::outcome_text_lem, crate::specs::BadLine::in_room))]
pub fn outcome_text(program: Program, read: bool, written: bool, admitted: bool) -> Text
    ensures { OutcomeTextSays program read written admitted result }
{
    if !read {
        return trouble_text(program, Trouble::Reading);
    }
    if !written {
        return trouble_text(program, Trouble::Writing);
    }
    if !admitted {
        return trouble_text(program, Trouble::Refused);
    }
    Text {
        bytes: [0; 40],
        length: 0,
    }
}
