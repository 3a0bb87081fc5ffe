// The columns of a line: words, which spaces part, and the numbers that they spell.
ghost use Rattle.std.specs.Prelude.{◌≤◌, length, IfSome};

// The most bytes of a key, an IV, a message or a run, which has 2,048 blocks, and a lent output, which has room for a record of as many.
pub const KEY: usize = 64;

pub const IV: usize = 32;

pub const TEXT: usize = 32768;

pub const ROOM: usize = 32816;

// The most bytes that a line spells in digits.
pub const SPELT: usize = 96;

// The most that a byte in a column may be.
const BYTE: usize = 254;

// The number that digits spell.
fn number(digits: &[u8]) -> Option<usize> {
    digits.iter().try_fold(0usize, |number, digit| {
        let digit = char::from(*digit).to_digit(10)?;
        number.checked_mul(10)?.checked_add(digit as usize)
    })
}

// A line up to its first space, and from there on.
fn split_word(line: &[u8]) -> (&[u8], &[u8])
    ensures { length result.0.now ≤ length line.now }
{
    let size = line
        .iter()
        .position(|byte| *byte == b' ')
        .unwrap_or(line.len());
    line.split_at(size)
}

// The part of a line that is still to be read.
#[derive(Clone, Copy, Debug)]
pub struct Columns<'a> {
    rest: &'a [u8],
}

impl<'a> Columns<'a> {
    pub fn of(line: &'a [u8]) -> Columns<'a> {
        Columns { rest: line }
    }

    // The name that a line starts with, and the columns behind it.
    pub fn of_call(line: &'a [u8]) -> (&'a [u8], Columns<'a>) {
        let (name, rest) = split_word(line);
        (name, Columns { rest })
    }

    // The line from its next word on.
    fn at_word(&self) -> Option<&'a [u8]> {
        let from = self.rest.iter().position(|byte| *byte != b' ')?;
        Some(&self.rest[from..])
    }

    // Each of these takes the next word. Where there is none, or one that does not fit, there is no answer.

    pub fn word(&mut self) -> Option<&'a [u8]> {
        let (word, rest) = split_word(self.at_word()?);
        self.rest = rest;
        Some(word)
    }

    // A number of bytes.
    pub fn length(&mut self, most: usize) -> Option<usize>
        ensures { IfSome result (λ length. length ≤ most) }
    {
        let length = number(self.word()?)?;
        if length <= most { Some(length) } else { None }
    }

    // A block number or a count.
    pub fn number(&mut self) -> Option<u32> {
        u32::try_from(number(self.word()?)?).ok()
    }

    // A byte, as a refusal or bits to be flipped.
    pub fn byte(&mut self) -> Option<u8> {
        u8::try_from(self.length(BYTE)?).ok()
    }

    // A distance, which has a minus where it goes back.
    pub fn distance(&mut self) -> Option<i32> {
        let word = self.word()?;
        let Some(digits) = word.strip_prefix(b"-") else {
            return i32::try_from(number(word)?).ok();
        };
        let back = i64::try_from(number(digits)?).ok()?;
        i32::try_from(back.checked_neg()?).ok()
    }

    // Digits of at most 96 bytes, together with what stands behind them.
    pub fn digits(&mut self) -> Option<&'a [u8]>
        ensures { IfSome result (λ digits. length digits.now ≤ 192) }
    {
        let line = self.at_word()?;
        if SPELT * 2 < line.len() {
            return None;
        }
        let (digits, rest) = split_word(line);
        self.rest = rest;
        Some(digits)
    }

    // That no word is left.
    pub fn end(&self) -> Option<()> {
        match self.at_word() {
            None => Some(()),
            Some(_) => None,
        }
    }
}
