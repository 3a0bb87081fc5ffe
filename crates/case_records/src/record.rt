// Lines that join, close or test records made by hand. Each answers whether the call gets what the line says; a line whose columns are not
// those of its call has no answer.
use crate::answer::{outcome, record, tagged};
use crate::keyed::Keyed;
use case_text::bytes::flip_last;
use case_text::columns::{Columns, KEY, SPELT};
use case_text::hex::{block, bytes};
use mode::RunRecord;
use mode::finish::Finish;

// A record whose first block and count stand in the next two columns.
fn made(columns: &mut Columns, preauthenticator: [u8; 16]) -> Option<RunRecord> {
    let first = columns.number()?;
    let count = columns.number()?;
    Some(record(first, count, preauthenticator))
}

// The pre-authenticators of a record made by hand, and of one on the right of it.
fn left() -> [u8; 16] {
    block(b"5BD1E995C6EF3720A54FF53A1F83D9AB")
}

fn right() -> [u8; 16] {
    block(b"243F6A8885A308D313198A2E03707344")
}

// ---- join

// join FIRST COUNT FIRST COUNT REFUSAL COUNT DIGITS: the count of the joined record, and the digits of its pre-authenticator
pub fn join(mut columns: Columns) -> Option<bool> {
    let run = made(&mut columns, left())?;
    let next = made(&mut columns, right())?;
    let outcome = outcome(&mut columns)?;
    let count = columns.number()?;
    let all = record(run.first, count, bytes(columns.digits()?));
    columns.end()?;
    Some(run.join(next) == outcome.map(|_| all))
}

// empty FIRST COUNT BLOCK: a record stays as it is beside an empty one at its start or its end, whose pre-authenticator is zero.
pub fn beside_empty(mut columns: Columns) -> Option<bool> {
    let run = made(&mut columns, left())?;
    let none = record(columns.number()?, 0, [0u8; 16]);
    columns.end()?;
    let joined = if none.first == run.first {
        none.join(run)
    } else {
        run.join(none)
    };
    Some(joined == Ok(run))
}

// ---- close and test, whose first two columns, KEY and IV, were read before

// close KEY IV FIRST COUNT REFUSAL DIGITS: the digits of the tag
pub fn close(finish: Finish, keyed: Keyed, mut columns: Columns) -> Option<bool> {
    let run = made(&mut columns, left())?;
    let outcome = outcome(&mut columns)?;
    let digits = columns.digits()?;
    columns.end()?;
    let spelt: [u8; SPELT] = bytes(digits);
    let tag = &spelt[..digits.len() / 2];
    Some(tagged(keyed.close(finish, run), outcome.map(|_| tag)))
}

// test KEY IV FIRST COUNT TAG FLIPPED REFUSAL DIGITS: the first TAG bytes of those that the digits spell, with bits of the last one flipped
pub fn test(finish: Finish, keyed: Keyed, mut columns: Columns) -> Option<bool> {
    let run = made(&mut columns, left())?;
    let size = columns.length(KEY)?;
    let flipped = columns.byte()?;
    let outcome = outcome(&mut columns)?;
    let mut tag: [u8; SPELT] = bytes(columns.digits()?);
    columns.end()?;
    flip_last(&mut tag, size, flipped);
    Some(keyed.test(finish, run, &tag[..size]) == outcome)
}
