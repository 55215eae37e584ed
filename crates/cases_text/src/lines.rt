// A program's input, and its lines.
ghost use Rattle.std.specs.Prelude.{◌≡◌, length};
ghost use Rattle.std.specs.Iterator.{at_most};

use crate::places::{find, next};
use std::alloc::Global;
use std::io::{self, Read};

// What is on standard input, up to `most` bytes: what follows them is not read.
pub fn read_text(rt: &impl Input, alloc: Global, most: u64) -> io::Result<Vec<u8>> {
    let mut text = Vec::new(alloc);
    rt.reader().take(most).read_to_end(&mut text)?;
    Ok(text)
}

// What is left of a text: its lines, each without the letter that ends it.
#[derive(Drop)]
pub struct Lines<'a>(&'a [u8]);

impl<'a> Lines<'a> {
    pub fn of(text: &'a [u8]) -> Lines<'a>
        ensures { result.0.now ≡ text.now }
    {
        Lines(text)
    }
}

impl<'a> Iterator for Lines<'a> {
    type Item = &'a [u8];

    ghost remaining = { λ s. at_most (length s.0.now) };

    fn next(&mut self) -> Option<&'a [u8]> {
        let text = self.0;
        if text.is_empty() {
            return None;
        }
        let end = find(text, b'\n', 0);
        self.0 = &text[next(text, end)..];
        Some(&text[..end])
    }
}
