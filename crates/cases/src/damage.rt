// A sealed record with each of its bits flipped in turn.
use case_records::keyed::Keyed;
use case_text::bytes::with_bit;
use case_text::hex::bytes;
use case_text::{agreed, paper};
use case_tools::reference::{Compared, opens};
use mode::finish::Finish;
use mode::{Refusal, RunRecord};

// The record of a message of 20 bytes, as vectors/make-mode-vectors seals it: IV, two blocks, tag.
fn sealed() -> [u8; 64] {
    bytes(
        b"0123456789ABCDEF0123456789ABCDEF15E1DB963E0C1EC0B281E610483D1D69F2BC1D6DC4A61430FAC5F6EEAB692DB8F80C6DD44A859AE2B6EBFDB7F04CB5AD",
    )
}

// ---- opened

// With a bit flipped the tag differs, and the output is zero from end to end.
pub fn opened() -> usize {
    let (whole, key) = (sealed(), paper::key());
    let expected = Err(Refusal::TagDiffers);
    (0..512)
        .filter(|bit| opens(Finish::Cipher, &key, &with_bit(whole, *bit), expected))
        .count()
}

// ---- checked as two runs, joined and tested

// The record of two blocks.
fn checked(keyed: Keyed, c1: &[u8], c2: &[u8]) -> Result<RunRecord, Refusal> {
    let left = keyed.check_run(0, c1)?;
    let right = keyed.check_run(1, c2)?;
    left.join(right)
}

// Whether the test of a record's tag gives what it should. Where no record comes to be tested, it does not.
fn test(sealed: &[u8; 64], expected: Result<(), Refusal>) -> bool {
    let key = paper::key();
    let keyed = Keyed {
        key: &key,
        iv: &sealed[..16],
    };
    match checked(keyed, &sealed[16..32], &sealed[32..48]) {
        Ok(run) => keyed.test(Finish::Cipher, run, &sealed[48..]) == expected,
        Err(_) => false,
    }
}

// The record as it is: sealed, opened, into an output of the message's length too, and tested.
pub fn undamaged() -> usize {
    let whole = sealed();
    let message = b"twenty bytes of list";
    let compared = Compared::of(Finish::Cipher, &paper::key(), message, &whole);
    agreed(&[
        compared.sealed,
        compared.opened,
        compared.exact,
        test(&whole, Ok(())),
    ])
}

pub fn tested() -> usize {
    let whole = sealed();
    let expected = Err(Refusal::TagDiffers);
    (0..512)
        .filter(|bit| test(&with_bit(whole, *bit), expected))
        .count()
}
