// What a program says when it stops before its input has ended: its name, and why.
ghost use Rattle.house.specs.Trouble.{TroubleTextSays};

use crate::{Program, Text, Trouble};

const RECEIVE_READING: [u8; 40] = *b"receive: cannot read standard input\n\0\0\0\0";

const RECEIVE_WRITING: [u8; 40] = *b"receive: cannot write standard output\n\0\0";

const RECEIVE_REFUSED: [u8; 40] = *b"receive: a call was refused\n\0\0\0\0\0\0\0\0\0\0\0\0";

const SEND_READING: [u8; 40] = *b"send: cannot read standard input\n\0\0\0\0\0\0\0";

const SEND_WRITING: [u8; 40] = *b"send: cannot write standard output\n\0\0\0\0\0";

const SEND_REFUSED: [u8; 40] = *b"send: a call was refused\n\0\0\0\0\0\0\0\0\0\0\0\0\0\0\0";

pub fn trouble_text(program: Program, trouble: Trouble) -> Text
    ensures { TroubleTextSays program trouble result }
{
    match program {
        Program::Receive => match trouble {
            Trouble::Reading => Text {
                bytes: RECEIVE_READING,
                length: 36,
            },
            Trouble::Writing => Text {
                bytes: RECEIVE_WRITING,
                length: 38,
            },
            Trouble::Refused => Text {
                bytes: RECEIVE_REFUSED,
                length: 28,
            },
        },
        Program::Send => match trouble {
            Trouble::Reading => Text {
                bytes: SEND_READING,
                length: 33,
            },
            Trouble::Writing => Text {
                bytes: SEND_WRITING,
                length: 35,
            },
            Trouble::Refused => Text {
                bytes: SEND_REFUSED,
                length: 25,
            },
        },
    }
}
