// Blocks of 16 bytes, and slices that hold them.
ghost use Rattle.std.specs.Prelude.{◌≡◌, ◌++◌, ◌+◌, ◌≤◌, length, take, drop};
ghost use Rattle.blocks.specs.Bytes.{xor_bytes, zeros};

// The exclusive or of two blocks.
pub fn xor(a: [u8; 16], b: [u8; 16]) -> [u8; 16]
    ensures { result ≡ xor_bytes a b }
{
    let mut r = [0u8; 16];
    for i in 0..16 {
        r[i] = a[i] ^ b[i];
    }
    r
}

// The block of a slice at an offset.
pub fn load(s: &[u8], at: usize) -> [u8; 16]
    requires { at + 16 ≤ length s.now }
    ensures { result ≡ take 16 (drop at s.now) }
{
    let mut block = [0u8; 16];
    block.copy_from_slice(&s[at..at + 16]);
    block
}

// A block into a slice at an offset.
pub fn store(d: &mut [u8], at: usize, b: [u8; 16])
    requires { at + 16 ≤ length d.old }
    ensures { d.new ≡ take at d.old ++ b ++ drop (at + 16) d.old }
{
    d[at..at + 16].copy_from_slice(&b);
}

// A slice filled with zeros.
pub fn clear(d: &mut [u8])
    ensures { d.new ≡ zeros (length d.old) }
{
    d.fill(0);
}
