// What the program `send` does between its reads and its writes: preamble, a frame for each good line and the end of transmission,
// each as the bytes that are to be written. All goes by value in arrays of fixed length: no caller can bring too little room.
#![tactic(auto)]

ghost use Rattle.sending.specs.Calls.{moved, Says, TurnSays, IsAdmittedSays, LastWordsSays};

use house::{Program, Text};
use modulator::SoftModulator;
use protocol::Refusal;

mod line;
mod part;

// The sender, the line at hand, of which the first `have` bytes are there, and the line's number, from 1.
#[derive(Clone, Copy)]
pub struct Sending {
    pub modulator: SoftModulator,
    pub line: [u8; 97],
    pub have: usize,
    pub number: u64,
}

// What the sender answered, what the next call is given, and what is to be written: the first `length` bytes, zeros after them. `taken`
// bytes of the read went into the line. `bad` says that the line at hand is a bad one, `last` that the transmission has ended.
#[derive(Clone, Copy)]
pub struct AfterPart {
    pub answer: Result<(), Refusal>,
    pub sending: Sending,
    pub bytes: [u8; 5440],
    pub length: usize,
    pub taken: usize,
    pub bad: bool,
    pub last: bool,
}

// No bytes are the end of the input; it and a bad line end the transmission.
fn move_on(s: Sending, bytes: &[u8]) -> AfterPart
    ensures { Says (moved s bytes.now) result }
{
    if bytes.is_empty() {
        return part::close(s);
    }
    let after = line::take(s, bytes);
    if after.bad {
        let ended = after.sending;
        return part::close(ended);
    }
    after
}

impl Sending {
    // What a read gave, the first n of the bytes. The record decides whether they are taken, whatever they are: a refused turn leaves all
    // as it was.
    pub fn turn(self, bytes: [u8; 97], n: usize) -> AfterPart
        ensures { TurnSays self bytes n result }
    {
        if let Err(why) = part::test_record(self) {
            return line::write_nothing(Err(why), self, false);
        }
        let taken = line::count_taken(self, n);
        let mut after = move_on(self, &bytes[..n.min(97)]);
        after.taken = taken;
        after
    }
}

impl AfterPart {
    pub fn is_admitted(self) -> bool
        ensures { IsAdmittedSays self result }
    {
        self.answer.is_ok()
    }

    // What is said if the program stops here: what went wrong, or a bad line's text, or nothing. `read` and `written` say whether its read
    // and its write went well.
    pub fn last_words(self, read: bool, written: bool) -> Text
        ensures { LastWordsSays self read written result }
    {
        let admitted = self.is_admitted();
        if read & written & admitted & self.bad {
            return house::bad_line_text(self.sending.number);
        }
        house::outcome_text(Program::Send, read, written, admitted)
    }
}
