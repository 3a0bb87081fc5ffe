// FIPS 180-4, 5.1.1: padding; and the bytes of the digest.
ghost use Rattle.std.specs.Prelude.{◌≡◌, ◌+◌, ◌-◌, ◌≤◌, ◌++◌, length, drop};
ghost use Rattle.blocks.specs.Bytes.{zeros};
ghost use Rattle.fips180.specs.Sha1.{digest_of};
ghost use Rattle.fips180.specs.Parts.{last_part, Ends};

use crate::Hash;

// The rest of a text from byte n on, in front of zeros.
fn rest(text: &[u8], n: usize) -> [u8; 128]
    requires n_in_bounds { n ≤ length text.now }
    requires text_len_bound { length text.now ≤ n + 128 }
    ensures { result ≡ drop n text.now ++ zeros (n + 128 - length text.now) }
{
    let mut r = [0u8; 128];
    blocks::bytes::put(&mut r, 0, &text[n..]);
    r
}

// The last one or two blocks: the rest of a text from byte n on and its padding, up to a byte of the array.
pub fn last_blocks(text: &[u8], n: usize, end: usize) -> [u8; 128]
    requires { Ends text.now n end }
    ensures { result ≡ last_part text.now n end }
{
    let mut r = rest(text, n);
    let left = text.len() - n;
    r[left] = 0x80;
    blocks::words::store_word(&mut r, end - 8, text.len() as u64 * 8);
    r
}

// A hash value as 20 bytes.
pub fn digest_bytes(h: Hash) -> [u8; 20]
    ensures { result ≡ digest_of h }
{
    let a = h.a.to_be_bytes();
    let b = h.b.to_be_bytes();
    let c = h.c.to_be_bytes();
    let d = h.d.to_be_bytes();
    let e = h.e.to_be_bytes();
    [
        a[0], a[1], a[2], a[3], b[0], b[1], b[2], b[3], c[0], c[1], c[2], c[3], d[0], d[1], d[2],
        d[3], e[0], e[1], e[2], e[3],
    ]
}
