// Reads lines of the house format from standard input, and writes the samples of their transmission to standard output, two bytes each,
// the low one first. Where a read or a write fails it stops and says so on standard error; what it wrote by then begins the right output.
#![tactic(auto)]

ghost use Rattle.std.specs.Prelude.{◌≤◌};

use house::Text;
use sending::{AfterPart, Sending};
use std::io::{Read, Write};

// The part that came last, whether all went well until here, and what is said if the program stops with it. Part and words are there either way,
// so that a Result would hold them twice.
#[derive(Clone, Copy)]
struct Turn {
    part: AfterPart,
    fine: bool,
    words: Text,
}

// From a fresh start no turn is refused. A refused one has taken no byte of its read and gives nothing to be written: the program cannot go on.
fn put(out: &mut impl Write, part: AfterPart) -> Turn
    requires { part.length ≤ 5440 }
{
    let bytes = part.bytes;
    let length = part.length;
    let written = out.write_all(&bytes[..length]).is_ok();
    let words = part.last_words(true, written);
    let admitted = part.is_admitted();
    Turn {
        part,
        fine: written & admitted,
        words,
    }
}

// Reads once, no more than the line at hand lacks.
fn next_turn(input: &mut impl Read, out: &mut impl Write, before: AfterPart) -> Turn {
    let sending = before.sending;
    let mut bytes = [0u8; 97];
    let wanted = sending.lacks();
    let Ok(count) = input.read(&mut bytes[..wanted]) else {
        let words = before.last_words(false, true);
        return Turn {
            part: before,
            fine: false,
            words,
        };
    };
    put(out, sending.turn(bytes, count))
}

// A proved loop has to end, and nothing says that the input does: the turns are counted, to a number that no run comes to.
fn main(rt: HostRuntime) {
    let mut input = rt.stdin();
    let mut out = rt.stdout();
    let mut turn = put(&mut out, Sending::open());
    for _ in 0..u64::MAX {
        if !turn.fine || turn.part.last {
            break;
        }
        turn = next_turn(&mut input, &mut out, turn.part);
    }
    telling::tell(&mut rt.stderr(), turn.words);
}
