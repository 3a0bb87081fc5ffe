// Pairs next to those that are refused: they are sealed, and opened again. The records are those that vectors/make-mode-vectors prints.
ghost use Rattle.std.specs.Prelude.{◌≤◌};

use crate::pair;
use case_records::answer::{answered, written};
use case_records::keyed::Keyed;
use case_text::agreed;
use case_text::bytes::{flip, with_bit};
use case_text::hex::bytes;
use case_tools::open::opens;
use mode::Refusal;
use mode::finish::Finish;

// The record of a message, in digits: sealed and opened again.
fn both_ways(key: &[u8], iv: [u8; 16], digits: &[u8; 128]) -> usize
    ensures { result ≤ 2 }
{
    let record: [u8; 64] = bytes(digits);
    let message = b"twenty bytes of list";
    let mut sealed = [0u8; 80];
    let given = Keyed { key, iv: &iv }.seal(Finish::Cipher, message, &mut sealed);
    agreed(&[
        answered(given, Ok(&record), &sealed),
        opens(Finish::Cipher, key, &record, &mut [0u8; 64], Ok(message)),
    ])
}

// A key, and its IV with the last bit flipped.
fn flipped(key: &[u8], digits: &[u8; 128]) -> usize
    ensures { result ≤ 2 }
{
    let mut iv = pair::iv_of(key);
    iv[15] ^= 1;
    both_ways(key, iv, digits)
}

// The zero keys of both lengths, and the key of which the first half is zero.
pub fn another_iv() -> usize {
    let zeros = [0u8; 32];
    let half = pair::half_zero();
    flipped(
        &zeros[0..16],
        b"140F0F1011B5223D79587717FFD9EC3B076785FDFD437E044EC26EC9B0EC4B3B3FF63497A290478B659159754FDC80E343EF01C7EB706384AFEA6A5A1824E495",
    ) + flipped(
        &zeros,
        b"67671CE1FA91DDEB0F8FBBB366B531B57BAD1D1B6AE7664B1DA324940BB93E6AFABD88EAC9D1386F972D27ACFDF74DDB21785B361D6A890BA1E0BFA1021458BC",
    ) + flipped(
        &half,
        b"2F2F1823901D914B8ABD3A4A09B20EB3DA42737495C6CE61B28807B94923BCAE45709BBA4D6BF59F9BB2086DF19BE14A4B9C3F3D51310DDDC517ADAC9E17E97E",
    )
}

// A key with the last bit of its first 16 bytes set, and the IV of the key as it was.
fn with_a_bit(key: [u8; 32], size: usize, digits: &[u8; 128]) -> usize
    requires { size ≤ 32 }
    ensures { result ≤ 2 }
{
    let iv = pair::iv_of(&key[0..size]);
    let mut other = key;
    flip(&mut other, 15, 1);
    both_ways(&other[0..size], iv, digits)
}

// Of the long ones the first ends as the zero key does.
pub fn another_key() -> usize {
    with_a_bit(
        [0u8; 32],
        16,
        b"140F0F1011B5223D79587717FFD9EC3AA6AB226CC37B79E6ADD1893ADC5C849B1DC667A3CC934B9AFB2246CF44BA21F8ECA531931F5AEFDFC06775F0AB4C66BD",
    ) + with_a_bit(
        [0u8; 32],
        32,
        b"67671CE1FA91DDEB0F8FBBB366B531B4E50BF5675F898DBF7FFB9492512846A48784175F06D5DC182335F63CD531E571C7824A946E25278570A27C6C81ADAD33",
    ) + with_a_bit(
        pair::half_zero(),
        32,
        b"2F2F1823901D914B8ABD3A4A09B20EB292F22A801E49C39C237B9147975D5C66F887F95653DAA856A768129A412823D765A5F0D4D6BE84B5EFEF2DD40EFFC983",
    )
}

// ---- an empty message, in an output that held noise

// What it gets under a key and an IV: a refusal, or a record of `size` bytes.
fn empty_gets(key: &[u8], iv: [u8; 16], outcome: Result<(), Refusal>, size: usize) -> bool {
    let mut out = [0u8; 64];
    let given = Keyed { key, iv: &iv }.seal(Finish::Cipher, b"", &mut out);
    written(given, outcome, size, &out)
}

// Under the key of which the first half is zero it is refused under its own IV, and sealed under those of the zero keys.
pub fn half_zero() -> usize {
    let zeros = [0u8; 32];
    let key = pair::half_zero();
    agreed(&[
        empty_gets(&key, pair::iv_of(&key), Err(Refusal::ZeroMask), 0),
        empty_gets(&key, pair::iv_of(&zeros), Ok(()), 48),
        empty_gets(&key, pair::iv_of(&zeros[..16]), Ok(()), 48),
    ])
}

// Under a zero key it is sealed, under the key's IV with each of its bits flipped in turn.
pub fn other_ivs(key: &[u8]) -> usize {
    let iv = pair::iv_of(key);
    (0..128)
        .filter(|bit| empty_gets(key, with_bit(iv, *bit), Ok(()), 48))
        .count()
}
