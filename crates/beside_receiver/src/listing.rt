// The slow engine. A request that lists has in its head the call, how many samples there are, how many replies, and for how many offers there is room; then come the rate, a byte for each of
// 32 replies, 1 to accept, and the samples, 65,537 at most. An answer is the refusal's number or 0, how many offers are listed, and both rooms whole, for 32 offers.
ghost use Rattle.std.specs.Prelude.{◌≡◌, ◌≤◌, length};

use std::io::{self, Read, Write};

pub(crate) const SAMPLES: usize = 65_537;

pub(crate) const OFFERS: usize = 32;

// What the rooms hold before the call.
const UNUSED: u64 = 7_777_777;

const BLANK: f32 = 0.125;

// Room for the samples, and for their bytes. Only their lengths are told, which lending them as slices needs.
fn sample_room() -> [i16; 65_537]
    ensures { 65537 ≡ length result }
{
    [0; 65_537]
}

fn byte_room() -> [u8; 131_074]
    ensures { 131074 ≡ length result }
{
    [0; 131_074]
}

fn replies_of(bytes: [u8; 40]) -> [bool; 32] {
    let mut replies = [false; 32];
    for (reply, byte) in replies.iter_mut().zip(&bytes[8..]) {
        *reply = *byte == 1;
    }
    replies
}

fn lay_numbers(to: &mut [u8], refusal: u64, count: usize, numbers: [u64; 160])
    requires { 25872 ≤ length to.old }
    ensures { length to.new ≡ length to.old }
{
    let told = [refusal, count as u64];
    wire::put_numbers(to, &told);
    wire::put_numbers(&mut to[16..], &numbers);
}

fn lay_symbols(to: &mut [u8], symbols: [f32; 6144])
    requires { 25872 ≤ length to.old }
    ensures { length to.new ≡ length to.old }
{
    wire::put_floats(&mut to[1296..], &symbols);
}

fn put_listing(
    out: &mut impl Write,
    refusal: u64,
    count: usize,
    numbers: [u64; 160],
    symbols: [f32; 6144],
) -> io::Result<()> {
    let mut bytes = [0u8; 25_872];
    lay_numbers(&mut bytes, refusal, count, numbers);
    lay_symbols(&mut bytes, symbols);
    out.write_all(&bytes)
}

fn list(
    out: &mut impl Write,
    rate: u32,
    samples: &[i16],
    replies: &[bool],
    offers: usize,
) -> io::Result<()>
    requires { offers ≤ 32 }
{
    let mut numbers = [UNUSED; 160];
    let mut symbols = [BLANK; 6144];
    let numbered = 5 * offers;
    let written = 192 * offers;
    let listing = plain::list_offers(
        rate,
        samples,
        replies,
        &mut numbers[0..numbered],
        &mut symbols[0..written],
    );
    match listing {
        Err(why) => put_listing(out, why.number() as u64, 0, numbers, symbols),
        Ok(count) => put_listing(out, 0, count, numbers, symbols),
    }
}

pub(crate) fn answer(
    input: &mut impl Read,
    out: &mut impl Write,
    given: usize,
    replied: usize,
    offers: usize,
) -> io::Result<()>
    requires { (given ≤ 65537) × (replied ≤ 32) × (offers ≤ 32) }
{
    let mut head = [0u8; 40];
    let _ = input.read_exact(&mut head);
    let mut rate = [0u64; 1];
    wire::numbers(&head, &mut rate);
    let replies = replies_of(head);
    let mut bytes = byte_room();
    let mut samples = sample_room();
    crate::read_samples(input, given, &mut bytes, &mut samples);
    list(
        out,
        (rate[0] % 0x1_0000_0000) as u32,
        &samples[0..given],
        &replies[0..replied],
        offers,
    )
}
