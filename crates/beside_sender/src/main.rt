// The sender as tools/compare asks it, beside the old one: a call for each request on standard input, on the record that comes with it, and on standard output what the call left. All is laid
// as the library wire lays it, so that whoever asks sees the whole record and can make one up.
// A request is four numbers, the record, and the symbols that go with a frame. The numbers are the call and, for a fresh record, its rate; for a frame its number, its steps and how many symbols there are, 400 at most;
// for a read the size of the room, 130,000 places at most; for an update fill, capacity and latency. An answer is the record, with what the call told, and after a read the room.
#![tactic(auto)]

ghost use Rattle.std.specs.Prelude.{◌*◌, ◌≤◌, length};

use std::io::{self, Read, Write};

mod calls;
mod layout;
mod room;

// A number of the request, within what there is.
fn count(number: u64, most: usize) -> usize
    ensures { result ≤ most }
{
    (number as usize).min(most)
}

// The bytes are room to read into.
fn read_symbols(input: &mut impl Read, count: usize, bytes: &mut [u8], symbols: &mut [f32])
    requires { (4 * count ≤ length bytes.old) × (count ≤ length symbols.old) }
{
    let end = 4 * count;
    let _ = input.read_exact(&mut bytes[0..end]);
    wire::floats(bytes, &mut symbols[0..count]);
}

// Whether there was a request. What is missing of one that ends early counts as 0.
fn answer_one(input: &mut impl Read, out: &mut impl Write) -> io::Result<bool> {
    let mut head = [0u8; 32];
    if input.read_exact(&mut head).is_err() {
        return Ok(false);
    }
    let mut asked = [0u64; 4];
    wire::numbers(&head, &mut asked);
    let mut record = [0u8; 8452];
    let _ = input.read_exact(&mut record);
    let given = calls::symbols_given(asked);
    let mut bytes = [0u8; 1600];
    let mut symbols = [0.0f32; 400];
    read_symbols(input, given, &mut bytes, &mut symbols);
    let sender = layout::record_of(&record);
    calls::call(out, sender, asked, &symbols[0..given])?;
    Ok(true)
}

// A proved loop has to end, and nothing says that the input does: the turns are counted, to a number that no run comes to.
fn main(rt: HostRuntime) -> io::Result<()> {
    let mut input = rt.stdin();
    let mut out = rt.stdout();
    for _ in 0..u64::MAX {
        if !answer_one(&mut input, &mut out)? {
            break;
        }
    }
    Ok(())
}
