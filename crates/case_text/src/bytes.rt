// Bytes that a case lends or compares.
ghost use Rattle.std.specs.Prelude.{◌≡◌, ◌↔◌, All, IsTrue};

pub fn all_zero(bytes: &[u8]) -> bool
    ensures { IsTrue result ↔ All (λ byte. byte ≡ 0) bytes.now }
{
    bytes.iter().all(|byte| *byte == 0)
}

// Flips bits of a byte.
pub fn flip(bytes: &mut [u8], at: usize, bits: u8) {
    if let Some(byte) = bytes.get_mut(at) {
        *byte ^= bits;
    }
}

// Flips bits of the last of the first `size` bytes.
pub fn flip_last(bytes: &mut [u8], size: usize, bits: u8) {
    if let Some(last) = size.checked_sub(1) {
        flip(bytes, last, bits);
    }
}

// Bytes with one bit flipped: 0 is the lowest of the first byte.
pub fn with_bit<const N: usize>(mut bytes: [u8; N], bit: usize) -> [u8; N] {
    flip(&mut bytes, bit / 8, 1 << (bit % 8));
    bytes
}
