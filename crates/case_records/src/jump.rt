// Lines that jump a mask: one of bytes 05, and one in digits.
use crate::answer::{answered, outcome, written};
use case_text::columns::{Columns, KEY, SPELT};
use case_text::hex::bytes;
use case_text::random::noise;
use mode::Refusal;

// The call, into an output that held noise.
fn call(mask: &[u8], distance: i32, out: &mut [u8]) -> Result<usize, Refusal> {
    noise(out);
    tags::jump::jump(mask, distance, out)
}

// jump MASK DISTANCE ROOM REFUSAL DIGITS: the digits of the mask that it jumps to. A distance back has a minus.
pub fn jump(mut columns: Columns) -> Option<bool> {
    let size = columns.length(KEY)?;
    let distance = columns.distance()?;
    let room = columns.length(KEY)?;
    let outcome = outcome(&mut columns)?;
    let digits = columns.digits()?;
    columns.end()?;
    let spelt: [u8; SPELT] = bytes(digits);
    let answer = &spelt[..digits.len() / 2];
    let mut output = [0u8; KEY];
    let out = &mut output[..room];
    let given = call(&[5u8; KEY][..size], distance, out);
    Some(answered(given, outcome.map(|_| answer), out))
}

// A mask jumped. Where the answer is not as it should be, the mask is zero, and so is each that it jumps to.
pub fn jumped(mask: [u8; 16], distance: i32) -> [u8; 16] {
    let mut out = [0u8; 32];
    let given = call(&mask, distance, &mut out);
    if written(given, Ok(()), 16, &out) {
        return blocks::block::load(&out, 0);
    }
    [0u8; 16]
}

// The mask that digits spell. Where they are more than 32 it is zero.
fn spelt(digits: &[u8]) -> [u8; 16] {
    if digits.len() / 2 <= 16 {
        bytes(digits)
    } else {
        [0u8; 16]
    }
}

// mask DIGITS DISTANCE DIGITS: a mask in digits jumped by a distance
pub fn mask(mut columns: Columns) -> Option<bool> {
    let from = spelt(columns.digits()?);
    let distance = columns.distance()?;
    let to = spelt(columns.digits()?);
    columns.end()?;
    Some(jumped(from, distance) == to)
}
