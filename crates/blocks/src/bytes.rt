// Slices of any length.
ghost use Rattle.std.specs.Prelude.{◌≡◌, ◌++◌, ◌+◌, ◌≤◌, length, take, drop};
ghost use Rattle.blocks.specs.Bytes.{same};

// The bytes of a slice into another at an offset.
pub fn put(d: &mut [u8], at: usize, s: &[u8])
    requires { at + length s.now ≤ length d.old }
    ensures { d.new ≡ take at d.old ++ s.now ++ drop (at + length s.now) d.old }
{
    d[at..at + s.len()].copy_from_slice(s);
}

// Whether two slices of one length are equal. All bytes are read, and nothing branches on them: `==` would stop at the first that differs.
pub fn equal(a: &[u8], b: &[u8]) -> bool
    requires { length a.now ≡ length b.now }
    ensures { result ≡ same a.now b.now }
{
    let mut difference: u8 = 0;
    for (x, y) in a.iter().zip(b) {
        difference |= x ^ y;
    }
    difference == 0
}
