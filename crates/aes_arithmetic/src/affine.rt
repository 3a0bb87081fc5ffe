// FIPS 197, 5.1.1 and 5.3.2: the affine step of the S-box and its inverse. Bit i of a byte turned by n is bit i - n of the byte.
ghost use Rattle.std.specs.Prelude.{◌≡◌, get_or};
ghost use Rattle.blocks.specs.Tab.{tab};
ghost use Rattle.fips197.specs.Sbox.{affine as affine_of, inv_affine};

fn affine(x: u8) -> u8
    ensures { result ≡ affine_of x }
{
    x ^ x.rotate_left(1) ^ x.rotate_left(2) ^ x.rotate_left(3) ^ x.rotate_left(4) ^ 0x63
}

fn inv_affine(x: u8) -> u8
    ensures { result ≡ inv_affine x }
{
    x.rotate_left(1) ^ x.rotate_left(3) ^ x.rotate_left(6) ^ 0x05
}

// The affine step at each byte.
pub(crate) fn affines(s: [u8; 16]) -> [u8; 16]
    ensures { result ≡ tab 16 (λ i. affine_of (get_or s i 0)) }
{
    let mut r = [0u8; 16];
    for i in 0..16 {
        r[i] = affine(s[i]);
    }
    r
}

// The same undone.
pub(crate) fn inv_affines(s: [u8; 16]) -> [u8; 16]
    ensures { result ≡ tab 16 (λ i. inv_affine (get_or s i 0)) }
{
    let mut r = [0u8; 16];
    for i in 0..16 {
        r[i] = inv_affine(s[i]);
    }
    r
}
