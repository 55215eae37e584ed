// Where the parts of a line begin and end.
ghost use Rattle.std.specs.Prelude.{◌≡◌, ◌+◌, ◌≤◌, min, length};
ghost use Rattle.cases_text.specs.Places.{PartBegins, end_of, part_of, BeginsSays, WordSays, CellSays};

pub fn begins(word: &[u8], letter: u8) -> bool
    ensures { BeginsSays word.now letter result }
{
    word.first() == Some(&letter)
}

// The next such letter from a place on, or the line's end.
pub(crate) fn find(line: &[u8], letter: u8, at: usize) -> usize
    requires { at ≤ length line.now }
    ensures value { result ≡ end_of letter line.now at }
    ensures low { at ≤ result }
    ensures high { result ≤ length line.now }
{
    let rest = &line[at..];
    at + rest
        .iter()
        .position(|other| *other == letter)
        .unwrap_or(rest.len())
}

// The place after one, at most the line's end.
pub(crate) fn next(line: &[u8], at: usize) -> usize
    requires { at ≤ length line.now }
    ensures { result ≡ min (at + 1) (length line.now) }
{
    line.len().min(at + 1)
}

// A part begins after the letter that ends the part before it; one that is missing, at the line's end.
fn begin(line: &[u8], letter: u8, k: usize) -> usize
    ensures { PartBegins letter line.now k result }
{
    let mut at: usize = 0;
    for _i in 0..k {
        at = next(line, find(line, letter, at));
    }
    at
}

fn part(line: &[u8], letter: u8, k: usize) -> &[u8]
    ensures { result.now ≡ part_of letter line.now k }
{
    let at = begin(line, letter, k);
    let end = find(line, letter, at);
    &line[at..end]
}

// Word k of a line whose words stand one space apart, from 0; an empty one past the last.
pub fn word(line: &[u8], k: usize) -> &[u8]
    ensures { WordSays line.now k result.now }
{
    part(line, b' ', k)
}

// Cell k of a line whose cells stand between bars, from 0, with the spaces at its sides; an empty one past the last.
pub fn cell(line: &[u8], k: usize) -> &[u8]
    ensures { CellSays line.now k result.now }
{
    part(line, b'|', k)
}
