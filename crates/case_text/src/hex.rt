// Bytes from hexadecimal digits, of either case.
ghost use Rattle.std.specs.Prelude.{◌<◌};

// What a digit stands for. What is no digit counts as 0.
pub fn digit(c: u8) -> u8
    ensures { result < 16 }
{
    match c {
        b'0'..=b'9' => c - b'0',
        b'a'..=b'f' => c - b'a' + 10,
        b'A'..=b'F' => c - b'A' + 10,
        _ => 0,
    }
}

// The bytes that digits spell, two digits each, as many as there is room for. Behind them stand zeros. What a digit stands for is handed in.
pub fn bytes_by<const N: usize, F: Fn(u8) -> u8>(digits: &[u8], digit: F) -> [u8; N]
    requires { F.IsAlwaysCallable digit }
{
    let mut bytes = [0u8; N];
    for (byte, pair) in bytes.iter_mut().zip(digits.chunks_exact(2)) {
        if let [high, low] = pair {
            *byte = (digit(*high) << 4) | digit(*low);
        }
    }
    bytes
}

// The same of digits of either case.
pub fn bytes<const N: usize>(digits: &[u8]) -> [u8; N] {
    bytes_by(digits, digit)
}

// The block that 32 digits spell.
pub fn block(digits: &[u8; 32]) -> [u8; 16] {
    bytes(digits)
}
