// Triples of key, block and result, a line each: hexadecimal digits three times, a space or the line's end after each.
ghost use Rattle.std.specs.Prelude.{length};
ghost use Rattle.std.specs.Iterator.{at_most};

use crate::hex::bytes;

// A line: the key, which has `size` bytes, the block and the result; and the text from the line on.
#[derive(Clone, Copy, Debug)]
pub struct Line<'a> {
    keys: [u8; 32],
    size: usize,
    pub plain: [u8; 16],
    pub cipher: [u8; 16],
    pub text: &'a [u8],
}

impl Line<'_> {
    pub fn key(&self) -> &[u8] {
        self.keys.get(..self.size).unwrap_or_default()
    }
}

// The lines of a text whose keys have `size` bytes, in order. A line that is cut short is none.
#[derive(Drop)]
pub struct Lines<'a> {
    pub text: &'a [u8],
    pub size: usize,
}

impl<'a> Iterator for Lines<'a> {
    type Item = Line<'a>;

    ghost remaining = { λ s. at_most (length s.text.now) };

    fn next(&mut self) -> Option<Line<'a>> {
        let text = self.text;
        let (key, rest) = text.split_at_checked(self.size.checked_mul(2)?)?;
        let (blocks, rest) = rest.split_first_chunk::<67>()?;
        self.text = rest;
        Some(Line {
            keys: bytes(key),
            size: self.size,
            plain: bytes(&blocks[1..]),
            cipher: bytes(&blocks[34..]),
            text,
        })
    }
}
