// What the slow engine answers to a line, and what the rooms then hold.
ghost use Rattle.std.specs.Prelude.{◌≤◌, ◌<◌};

use protocol::Refusal;
use std::io::{self, Write};

// The rooms' content before a call: of no offer.
const UNUSED: u64 = 7_777_777;

const BLANK: f32 = 0.125;

// The most offers that a line's rooms are for.
const OFFERS: usize = 12;

// A number of the line, within what there is.
fn at_most(number: u64, most: usize) -> usize
    ensures { result ≤ most }
{
    (number as usize).min(most)
}

// A letter for each reply, `a` to accept.
fn replies_of(letters: &[u8]) -> [bool; 16] {
    let mut replies = [false; 16];
    for (reply, letter) in replies.iter_mut().zip(letters) {
        *reply = *letter == b'a';
    }
    replies
}

fn reply_count(letters: &[u8]) -> usize
    ensures { result ≤ 16 }
{
    match letters {
        b"-" => 0,
        _ => letters.len().min(16),
    }
}

// A kind by its number. The programs that write one share `cases_text` alone, which knows no kinds.
fn put_kind(out: &mut impl Write, kind: u64) -> io::Result<()> {
    match kind {
        0 => out.write_all(b" lsf"),
        1 => out.write_all(b" bert"),
        2 => out.write_all(b" stream"),
        3 => out.write_all(b" packet"),
        _ => out.write_all(b" none"),
    }
}

fn put_offer(
    out: &mut impl Write,
    offer: usize,
    numbers: [u64; 60],
    symbols: [f32; 2304],
) -> io::Result<()>
    requires { offer < 12 }
{
    let at = 5 * offer;
    put_kind(out, numbers[at])?;
    for number in &numbers[at + 1..at + 5] {
        cases_text::put_count(out, *number)?;
    }
    let window = 192 * offer;
    cases_text::put_floats(out, &symbols[window..window + 192])
}

fn put_offers(
    out: &mut impl Write,
    count: usize,
    numbers: [u64; 60],
    symbols: [f32; 2304],
) -> io::Result<()> {
    for offer in 0..count.min(OFFERS) {
        put_offer(out, offer, numbers, symbols)?;
    }
    Ok(())
}

fn are_unused(numbers: [u64; 60], from: usize) -> bool {
    numbers.iter().skip(from).all(|number| *number == UNUSED)
}

fn are_blank(symbols: [f32; 2304], from: usize) -> bool {
    symbols.iter().skip(from).all(|symbol| *symbol == BLANK)
}

// Whether the places after those of `count` offers are as they were.
fn is_rest_kept(count: usize, numbers: [u64; 60], symbols: [f32; 2304]) -> bool {
    let listed = count.min(OFFERS);
    are_unused(numbers, 5 * listed) & are_blank(symbols, 192 * listed)
}

fn put_answer(
    out: &mut impl Write,
    listing: Result<usize, Refusal>,
    in_full: bool,
    numbers: [u64; 60],
    symbols: [f32; 2304],
) -> io::Result<()> {
    match listing {
        Err(why) => {
            out.write_all(b" = refused")?;
            cases_text::put_count(out, why.number() as u64)?;
            put_kept(out, is_rest_kept(0, numbers, symbols))
        }
        Ok(count) => {
            out.write_all(b" = listed")?;
            cases_text::put_count(out, count as u64)?;
            if in_full {
                put_offers(out, count, numbers, symbols)?;
            }
            put_kept(out, is_rest_kept(count, numbers, symbols))
        }
    }
}

// No stored line has the word.
fn put_kept(out: &mut impl Write, kept: bool) -> io::Result<()> {
    if !kept {
        out.write_all(b" and changed")?;
    }
    cases_text::end_line(out)
}

// A line has the rate, the replies, and how many numbers and symbols there is room for.
pub(crate) fn put_listing(
    out: &mut impl Write,
    line: &[u8],
    recording: &[i16],
    in_full: bool,
) -> io::Result<()> {
    let rate = cases_text::decimal(cases_text::word(line, 1)) % 100_000;
    let letters = cases_text::word(line, 2);
    let replies = replies_of(letters);
    let replied = reply_count(letters);
    let numbered = at_most(cases_text::decimal(cases_text::word(line, 3)), 60);
    let written = at_most(cases_text::decimal(cases_text::word(line, 4)), 2304);
    let mut numbers = [UNUSED; 60];
    let mut symbols = [BLANK; 2304];
    let listing = plain::list_offers(
        rate as u32,
        recording,
        &replies[0..replied],
        &mut numbers[0..numbered],
        &mut symbols[0..written],
    );
    put_answer(out, listing, in_full, numbers, symbols)
}
