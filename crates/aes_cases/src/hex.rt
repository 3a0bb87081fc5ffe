// Bytes from lower-case hexadecimal digits.
ghost use Rattle.std.specs.Prelude.{◌<◌};

use case_text::hex::{bytes_by, digit};

// What a digit stands for. What is no lower-case digit counts as 0, an upper-case one too, which the other programs take: so this one is apart.
fn lower(c: u8) -> u8
    ensures { result < 16 }
{
    match c {
        b'A'..=b'F' => 0,
        _ => digit(c),
    }
}

// The bytes that digits spell, two digits each, as many as there is room for. Behind them stand zeros.
pub fn bytes<const N: usize>(digits: &[u8]) -> [u8; N] {
    bytes_by(digits, lower)
}

// The block that 32 digits spell.
pub fn block(digits: &[u8; 32]) -> [u8; 16] {
    bytes(digits)
}
