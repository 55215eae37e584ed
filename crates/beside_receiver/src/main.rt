// The receiver as tools/compare asks it, beside the old one: a call for each request on standard input, on the record that comes with it, and on standard output what the call left. All is
// laid as the library wire lays it, so that whoever asks sees the whole record and can make one up.
// A request is four numbers: the call, how many samples there are, how many places of the room are lent, and whether a reply accepts; then the record, the room's 200 floats, and the
// samples, 4,096 at most. An answer is the record, with what the call told, and the room. Where samples are heard one by one, a note of each comes before it. A request that lists is
// another: src/listing.rt has it.
#![tactic(auto)]

ghost use Rattle.std.specs.Prelude.{◌*◌, ◌≤◌, length};

use std::io::{self, Read, Write};

mod calls;
mod layout;
mod listing;

// The call that is on no record.
const LIST: u64 = 5;

// A number of the request, within what there is.
fn count(number: u64, most: usize) -> usize
    ensures { result ≤ most }
{
    (number as usize).min(most)
}

fn put_room(out: &mut impl Write, room: [f32; 200]) -> io::Result<()> {
    let mut bytes = [0u8; 800];
    wire::put_floats(&mut bytes, &room);
    out.write_all(&bytes)
}

// The bytes are room to read into.
pub(crate) fn read_samples(
    input: &mut impl Read,
    count: usize,
    bytes: &mut [u8],
    samples: &mut [i16],
)
    requires { (2 * count ≤ length bytes.old) × (count ≤ length samples.old) }
{
    let end = 2 * count;
    let _ = input.read_exact(&mut bytes[0..end]);
    wire::samples(bytes, &mut samples[0..count]);
}

// Whether there was a request. What is missing of one that ends early counts as 0.
fn answer_one(input: &mut impl Read, out: &mut impl Write) -> io::Result<bool> {
    let mut head = [0u8; 32];
    if input.read_exact(&mut head).is_err() {
        return Ok(false);
    }
    let mut asked = [0u64; 4];
    wire::numbers(&head, &mut asked);
    if asked[0] == LIST {
        listing::answer(
            input,
            out,
            count(asked[1], listing::SAMPLES),
            count(asked[2], listing::OFFERS),
            count(asked[3], listing::OFFERS),
        )?;
        return Ok(true);
    }
    // The record, and after it the room.
    let mut body = [0u8; 9004];
    let _ = input.read_exact(&mut body);
    let mut room = [0.0f32; 200];
    wire::floats(&body[8204..], &mut room);
    let given = count(asked[1], 4096);
    let mut bytes = [0u8; 8192];
    let mut samples = [0i16; 4096];
    read_samples(input, given, &mut bytes, &mut samples);
    let lent = count(asked[2], 200);
    let receiver = layout::record_of(&body);
    calls::call(
        out,
        asked[0],
        receiver,
        &samples[0..given],
        &mut room[0..lent],
        asked[3] != 0,
    )?;
    put_room(out, room)?;
    Ok(true)
}

// A proved loop has to end, and nothing says that the input does: the turns are counted, to a number that no run comes to.
fn main(rt: HostRuntime) -> io::Result<()> {
    let mut input = rt.stdin();
    let mut out = rt.stdout();
    for _ in 0..u64::MAX {
        if !answer_one(&mut input, &mut out)? {
            break;
        }
    }
    Ok(())
}
