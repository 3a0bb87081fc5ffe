// What calls give, held to what a case says of it.
use blocks::words::Words;
use case_text::bytes::all_zero;
use case_text::columns::Columns;
use mode::finish::LONGEST_TAG;
use mode::{Refusal, RunRecord};

// The 16 bytes of a slice from a place on. Where it has not so many, zeros.
pub fn block_from(bytes: &[u8], at: usize) -> [u8; 16] {
    bytes
        .get(at..)
        .and_then(|rest| rest.first_chunk::<16>())
        .copied()
        .unwrap_or([0u8; 16])
}

// A record whose pre-authenticator is given as bytes.
pub fn record(first: u32, count: u32, preauthenticator: [u8; 16]) -> RunRecord {
    RunRecord {
        first,
        count,
        preauthenticator: Words::from(preauthenticator),
    }
}

// A record whose pre-authenticator is one byte 16 times.
pub fn run(first: u32, count: u32, byte: u8) -> RunRecord {
    record(first, count, [byte; 16])
}

// ---- refusals

const REFUSALS: [Refusal; 10] = [
    Refusal::KeyLength,
    Refusal::IvLength,
    Refusal::Length,
    Refusal::BeyondLimit,
    Refusal::OutputTooShort,
    Refusal::TagDiffers,
    Refusal::Padding,
    Refusal::NotNeighbours,
    Refusal::NotWhole,
    Refusal::ZeroMask,
];

// Whether a call is to answer, where 0 stands in a column, or to refuse, where the refusal's number stands there.
pub fn outcome(columns: &mut Columns) -> Option<Result<(), Refusal>> {
    let number = columns.byte()?;
    if number == 0 {
        return Some(Ok(()));
    }
    let refusal = REFUSALS.iter().find(|refusal| refusal.number() == number)?;
    Some(Err(*refusal))
}

// ---- answers

// Whether bytes start with an answer, and are zero behind it.
pub fn holds(bytes: &[u8], answer: &[u8]) -> bool {
    bytes.strip_prefix(answer).is_some_and(all_zero)
}

// Whether the length and the refusal are as they should be, and the lent output is zero beyond the answer. Beside a refusal the length is 0.
pub fn written(
    given: Result<usize, Refusal>,
    outcome: Result<(), Refusal>,
    length: usize,
    out: &[u8],
) -> bool {
    given.map(|_| ()) == outcome
        && given.unwrap_or(0) == length
        && out.get(length..).is_some_and(all_zero)
}

// Whether the answer is as it should be, with zeros behind it in the lent output, or the refusal, with zeros alone.
pub fn answered(
    given: Result<usize, Refusal>,
    expected: Result<&[u8], Refusal>,
    out: &[u8],
) -> bool {
    match expected {
        Ok(answer) => given == Ok(answer.len()) && holds(out, answer),
        Err(refusal) => given == Err(refusal) && holds(out, b""),
    }
}

// Whether a tag is as it should be, with zeros behind it, or the refusal.
pub fn tagged(given: Result<[u8; LONGEST_TAG], Refusal>, expected: Result<&[u8], Refusal>) -> bool {
    match (given, expected) {
        (Ok(held), Ok(tag)) => holds(&held, tag),
        (Err(refusal), Err(wanted)) => refusal == wanted,
        _ => false,
    }
}
