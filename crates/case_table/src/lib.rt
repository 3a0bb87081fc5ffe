#![tactic(auto)]
// A table of cases in a data file. A line is a case: the name of a call, numbers and digits, and what the call gets. Lines that start with
// `group` part the cases into groups; empty lines and those that start with # say nothing.
ghost use Rattle.std.specs.Prelude.{◌<◌, length, IfSome};

use crate::keys::lengthened;
use case_records::keyed::Keyed;
use case_records::{jump, record};
use case_text::columns::{Columns, IV, KEY};
use case_text::{file, report};
use mode::finish::Finish;
use std::io;
use std::rt::Files;

mod keys; // keys.rt: keys and IVs, by their lengths
mod seal; // seal.rt: lines that seal a message or a run, or check a run
mod sealed; // sealed.rt: records that the library seals
mod open; // open.rt: lines that open a record

pub use keys::Keys;

// The finish of a table's calls, and their keys and IVs.
#[derive(Clone, Copy)]
pub struct Table {
    pub finish: Finish,
    pub keys: Keys,
}

// ---- one case

impl Table {
    // Whether the call gets what the line says. A line that is no case has no answer.
    fn case(&self, line: &[u8]) -> Option<bool> {
        let (name, columns) = Columns::of_call(line);
        match name {
            b"join" => record::join(columns),
            b"empty" => record::beside_empty(columns),
            b"jump" => jump::jump(columns),
            b"mask" => jump::mask(columns),
            _ => self.with_key(name, columns),
        }
    }

    // The key's length stands in the first column of all other lines.
    fn with_key(&self, name: &[u8], mut columns: Columns) -> Option<bool> {
        let size = columns.length(KEY)?;
        let iv = self.keys.iv(size);
        let keys = self.keys.bytes();
        let key = &keys[..size];
        match name {
            b"noise" => open::noise(self.finish, key, iv, columns),
            b"record" => open::given(self.finish, key, columns),
            b"opened" => open::message(self.finish, key, columns),
            b"blocks" => open::blocks(self.finish, key, columns),
            _ => self.with_iv(name, key, iv, columns),
        }
    }

    // The IV's length stands in the next.
    fn with_iv(&self, name: &[u8], key: &[u8], iv: [u8; 16], mut columns: Columns) -> Option<bool> {
        let ivs = lengthened(iv);
        let iv = &ivs[..columns.length(IV)?];
        let keyed = Keyed { key, iv };
        match name {
            b"seal" => seal::message(self.finish, keyed, columns),
            b"middle" => seal::run(keyed, false, columns),
            b"last" => seal::run(keyed, true, columns),
            b"check" => seal::check(keyed, columns),
            b"close" => record::close(self.finish, keyed, columns),
            b"test" => record::test(self.finish, keyed, columns),
            _ => None,
        }
    }

    fn agrees(&self, line: &[u8]) -> bool {
        self.case(line).unwrap_or(false)
    }
}

// ---- all cases

// What a line starts with whose rest is the name of a group.
const GROUP: &[u8] = b"group ";

// Whether a line of a group is a case, though maybe one that no call takes.
fn is_case(line: &[u8]) -> bool {
    !line.is_empty() && !line.starts_with(b"#")
}

// A text up to the line of its next group, where that is not the first line, and the rest from that line on.
fn split_group(text: &[u8]) -> Option<(&[u8], &[u8])>
    ensures { IfSome result (λ parts. length parts.1.now < length text.now) }
{
    let at = text
        .windows(GROUP.len() + 1)
        .position(|window| match window {
            [b'\n', line @ ..] => line == GROUP,
            _ => false,
        })?;
    Some((&text[..at], &text[at + 1..]))
}

// A text up to the end of its first line, and from there on.
fn split_line(text: &[u8]) -> (&[u8], &[u8]) {
    let size = text
        .iter()
        .position(|byte| *byte == b'\n')
        .unwrap_or(text.len());
    text.split_at(size)
}

// How many cases agreed, and how many there are.
#[derive(Clone, Copy)]
struct Counts {
    agreed: usize,
    all: usize,
}

impl Table {
    // The lines of a group, behind that which names it.
    fn counts(&self, lines: &[u8]) -> Counts {
        let mut counts = Counts { agreed: 0, all: 0 };
        for line in lines.split(|byte| *byte == b'\n') {
            if is_case(line) {
                let agrees = usize::from(self.agrees(line));
                counts = Counts {
                    agreed: counts.agreed.saturating_add(agrees),
                    all: counts.all.saturating_add(1),
                };
            }
        }
        counts
    }

    // The cases of a group, whose line comes first. Before the first group there is no such line, and none to report where there is no case.
    fn run_group(&self, rt: &impl Print, group: &[u8]) -> io::Result<()> {
        let Some(rest) = group.strip_prefix(GROUP) else {
            let all = self.counts(group).all;
            if all == 0 {
                return Ok(());
            }
            return report(rt, "no group", 0, all);
        };
        let (name, lines) = split_line(rest);
        let counts = self.counts(lines);
        report(rt, name, counts.agreed, counts.all)
    }

    // Runs the cases of a data file, a group at a time, so that nothing is kept of its lines.
    pub fn run<R: Files + Print + Alloc>(&self, rt: &R, path: &str) -> io::Result<()> {
        let text = file::read(rt, path)?;
        let mut left: &[u8] = &text;
        while let Some((group, rest)) = split_group(left) {
            self.run_group(rt, group)?;
            left = rest;
        }
        self.run_group(rt, left)
    }
}
