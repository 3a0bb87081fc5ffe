#![tactic(auto)]
// SHA-1 by FIPS 180-4, for texts of up to 64,032 bytes. Nothing is claimed of its strength.
mod compress; // compress.rt: the message schedule, the rounds, blocks
mod padding; // padding.rt: the last blocks, and the bytes of the digest

ghost use Rattle.std.specs.Prelude.{◌≡◌, ◌≤◌, length};
ghost use Rattle.fips180.specs.Sha1.{sha1, longest_text};

// The longest text, in bytes.
pub const LONGEST_TEXT: usize = 64032;

// A hash value, five words; also the five working variables of a round.
#[derive(Clone, Copy)]
pub struct Hash {
    pub a: u32,
    pub b: u32,
    pub c: u32,
    pub d: u32,
    pub e: u32,
}

// The digest of a text.
pub fn digest(text: &[u8]) -> [u8; 20]
    requires { length text.now ≤ longest_text }
    ensures { result ≡ sha1 text.now }
{
    let start = Hash {
        a: 0x67452301,
        b: 0xefcdab89,
        c: 0x98badcfe,
        d: 0x10325476,
        e: 0xc3d2e1f0,
    };
    let n = text.len() / 64;
    let left = text.len() % 64;
    let h = compress::blocks(start, text, n);
    // what is left, nine bytes of padding at least, and up to a whole block
    let more = (left + 72) / 64;
    let last = padding::last_blocks(text, n * 64, more * 64);
    let r = compress::blocks(h, &last, more);
    padding::digest_bytes(r)
}
