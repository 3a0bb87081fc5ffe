// Two 64-bit words for the sixteen bytes of a block: the first eight bytes are the upper word, most significant byte first.
ghost use Rattle.std.specs.Prelude.{◌≡◌, ◌++◌, ◌+◌, ◌≤◌, length, take, drop};
ghost use Rattle.blocks.specs.Bytes.{xor_bytes};
ghost use Rattle.blocks.specs.Num.{low_bytes};
ghost use Rattle.blocks.specs.Words.{bytes_of, Proper};

use std::ops::BitXor;

#[derive(Clone, Copy, PartialEq, Eq)]
pub struct Words {
    pub high: u64,
    pub low: u64,
}

// The words of sixteen bytes.
impl From<[u8; 16]> for Words {
    ghost from_gives = { λ b w. bytes_of w ≡ b };

    fn from(b: [u8; 16]) -> Words {
        let high = u64::from_be_bytes([b[0], b[1], b[2], b[3], b[4], b[5], b[6], b[7]]);
        let low = u64::from_be_bytes([b[8], b[9], b[10], b[11], b[12], b[13], b[14], b[15]]);
        Words { high, low }
    }
}

// The sixteen bytes of two words.
impl From<Words> for [u8; 16] {
    ghost from_gives = { λ w b. b ≡ bytes_of w };

    fn from(w: Words) -> [u8; 16] {
        let mut b = [0u8; 16];
        b[..8].copy_from_slice(&w.high.to_be_bytes());
        b[8..].copy_from_slice(&w.low.to_be_bytes());
        b
    }
}

// The exclusive or.
impl BitXor for Words {
    type Output = Words;

    ghost bitxor_gives = { λ a b r. bytes_of r ≡ xor_bytes (bytes_of a) (bytes_of b) };

    fn bitxor(self, other: Words) -> Words {
        Words {
            high: self.high ^ other.high,
            low: self.low ^ other.low,
        }
    }
}

// The block of a slice at an offset.
pub fn load(s: &[u8], at: usize) -> Words
    requires { at + 16 ≤ length s.now }
    ensures { bytes_of result ≡ take 16 (drop at s.now) }
{
    Words::from(crate::block::load(s, at))
}

// Two words into a slice at an offset.
pub fn store(d: &mut [u8], at: usize, w: Words)
    requires { at + 16 ≤ length d.old }
    ensures { d.new ≡ take at d.old ++ bytes_of w ++ drop (at + 16) d.old }
{
    crate::block::store(d, at, w.into());
}

// Eight bytes into a slice at an offset. They stand here and not in bytes.rt, where bytes are compared: host/tests/table_free.rs reads this file.
fn put_eight(d: &mut [u8], at: usize, b: [u8; 8])
    requires { at + 8 ≤ length d.old }
    ensures { d.new ≡ take at d.old ++ b ++ drop (at + 8) d.old }
{
    d[at..at + 8].copy_from_slice(&b);
}

// One word into a slice at an offset, most significant byte first.
pub fn store_word(d: &mut [u8], at: usize, w: u64)
    requires { at + 8 ≤ length d.old }
    ensures { d.new ≡ take at d.old ++ low_bytes 8 w ++ drop (at + 8) d.old }
{
    put_eight(d, at, w.to_be_bytes());
}
