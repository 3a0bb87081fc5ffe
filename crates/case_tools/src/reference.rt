// Records that a second program sealed (docs/CASES.md), a line each: key, IV, message and record in hexadecimal digits, a space after each but the
// last. Where the message is empty no digits stand for it. The IV is taken from the record, which starts with it.
use crate::open;
use case_records::answer::answered;
use case_records::keyed::Keyed;
use case_text::columns::Columns;
use case_text::hex::bytes;
use case_text::{file, report};
use mode::Refusal;
use mode::finish::{Finish, tag_length};
use std::io;
use std::rt::Files;

// The most bytes of a record.
const SEALED: usize = 192;

// ---- one record

// Sealing the message gives the record.
fn seals(finish: Finish, key: &[u8], message: &[u8], sealed: &[u8]) -> bool {
    let iv = sealed.get(..16).unwrap_or(sealed);
    let mut out = [0u8; SEALED];
    let given = Keyed { key, iv }.seal(finish, message, &mut out);
    answered(given, Ok(sealed), &out)
}

// Opening the record gives the message, or a refusal.
pub fn opens(finish: Finish, key: &[u8], sealed: &[u8], expected: Result<&[u8], Refusal>) -> bool {
    open::opens(finish, key, sealed, &mut [0u8; SEALED], expected)
}

// Opening the record into an output of the message's length gives the message.
fn opens_exactly(finish: Finish, key: &[u8], sealed: &[u8], message: &[u8]) -> bool {
    match [0u8; SEALED].get_mut(..message.len()) {
        Some(out) => open::opens(finish, key, sealed, out, Ok(message)),
        None => false,
    }
}

// Testing a sealed record's tag against the record of its ciphertext, once that is checked: it passes, or is refused. A record without a
// block is neither.
pub fn tests(finish: Finish, key: &[u8], sealed: &[u8], expected: Result<(), Refusal>) -> bool {
    if sealed.len() < 36 {
        return false;
    }
    let (iv, rest) = sealed.split_at(16);
    let Some(stop) = rest.len().checked_sub(tag_length(finish)) else {
        return false;
    };
    let (text, tag) = rest.split_at(stop);
    let keyed = Keyed { key, iv };
    match keyed.check_run(0, text) {
        Ok(run) => keyed.test(finish, run, tag) == expected,
        Err(_) => false,
    }
}

// What agreed of one record: sealed, opened into a long output, opened into one of the message's length, and tested.
#[derive(Clone, Copy, Debug, PartialEq, Eq)]
pub struct Compared {
    pub sealed: bool,
    pub opened: bool,
    pub exact: bool,
    pub tested: bool,
}

impl Compared {
    pub fn of(finish: Finish, key: &[u8], message: &[u8], sealed: &[u8]) -> Compared {
        Compared {
            sealed: seals(finish, key, message, sealed),
            opened: opens(finish, key, sealed, Ok(message)),
            exact: opens_exactly(finish, key, sealed, message),
            tested: tests(finish, key, sealed, Ok(())),
        }
    }
}

// ---- the lines of a file

// The front of room that digits fill. Where they have not enough room it is empty.
fn filled<'a, const N: usize>(room: &'a [u8; N], digits: &[u8]) -> &'a [u8] {
    room.get(..digits.len() / 2).unwrap_or_default()
}

fn of_line(finish: Finish, line: &[u8]) -> Compared {
    let mut columns = Columns::of(line);
    let mut next = || columns.word().unwrap_or_default();
    let key = next();
    next();
    let third = next();
    let fourth = next();
    let (message, sealed) = if fourth.is_empty() {
        (fourth, third)
    } else {
        (third, fourth)
    };
    Compared::of(
        finish,
        filled(&bytes::<32>(key), key),
        filled(&bytes::<SEALED>(message), message),
        filled(&bytes::<SEALED>(sealed), sealed),
    )
}

// How many records agreed, by what was tried.
#[derive(Clone, Copy, Debug, PartialEq, Eq)]
pub struct Agreed {
    pub sealed: usize,
    pub opened: usize,
    pub exact: usize,
    pub tested: usize,
}

impl Agreed {
    // With one record more.
    fn with(self, one: Compared) -> Agreed {
        Agreed {
            sealed: self.sealed.saturating_add(usize::from(one.sealed)),
            opened: self.opened.saturating_add(usize::from(one.opened)),
            exact: self.exact.saturating_add(usize::from(one.exact)),
            tested: self.tested.saturating_add(usize::from(one.tested)),
        }
    }
}

// The records of the lines of a text.
pub fn run(finish: Finish, text: &[u8]) -> Agreed {
    let mut agreed = Agreed {
        sealed: 0,
        opened: 0,
        exact: 0,
        tested: 0,
    };
    for line in text.split(|byte| *byte == b'\n') {
        agreed = agreed.with(of_line(finish, line));
    }
    agreed
}

// Says of the lines of a data file, of which there are `all`, how many agreed, by what was tried.
pub fn run_file<R: Files + Print + Alloc>(
    rt: &R,
    finish: Finish,
    path: &str,
    all: usize,
) -> io::Result<()> {
    let text = file::read(rt, path)?;
    let agreed = run(finish, &text);
    report(rt, "reference records, sealed", agreed.sealed, all)?;
    report(rt, "reference records, opened", agreed.opened, all)?;
    report(
        rt,
        "reference records, into their length",
        agreed.exact,
        all,
    )?;
    report(rt, "reference records, tested", agreed.tested, all)
}
