// FIPS 197, 4.2 and 4.4: products of bytes and the inverse, in each byte of a block.
ghost use Rattle.std.specs.Prelude.{◌≡◌, ◌*◌, ◌≤◌, get_or};
ghost use Rattle.blocks.specs.Tab.{tab};
ghost use Rattle.fips197.specs.Gf256.{gmul, inverse};

// A byte where the bit is set, and zero where it is not.
fn where_set(bit: u8, b: u8) -> u8
    requires { bit ≤ 1 }
    ensures { result ≡ bit * b }
{
    bit * b
}

// The product of two bytes: of b, b times x, b times x^2 and so on those for which the bit of a is set, added.
fn product(a: u8, b: u8) -> u8
    ensures { result ≡ gmul a b }
{
    let mut r: u8 = 0;
    let mut multiple = b;
    for i in 0..8u32 {
        r ^= where_set((a >> i) % 2, multiple);
        multiple = aes_steps::state::double(multiple);
    }
    r
}

// The square of a byte: of 1, x^2, x^4 and so on those for which the bit is set, added.
fn square(a: u8) -> u8
    ensures { result ≡ gmul a a }
{
    let mut r: u8 = 0;
    let mut even: u8 = 1;
    for i in 0..8u32 {
        r ^= where_set((a >> i) % 2, even);
        even = aes_steps::state::double(aes_steps::state::double(even));
    }
    r
}

// The product at each byte.
fn products(a: [u8; 16], b: [u8; 16]) -> [u8; 16]
    ensures { result ≡ tab 16 (λ i. gmul (get_or a i 0) (get_or b i 0)) }
{
    let mut r = [0u8; 16];
    for i in 0..16 {
        r[i] = product(a[i], b[i]);
    }
    r
}

// The square at each byte.
fn squares(a: [u8; 16]) -> [u8; 16]
    ensures { result ≡ tab 16 (λ i. gmul (get_or a i 0) (get_or a i 0)) }
{
    let mut r = [0u8; 16];
    for i in 0..16 {
        r[i] = square(a[i]);
    }
    r
}

// The inverse at each byte: the power 254, by seven squares and four products.
pub(crate) fn inverses(s: [u8; 16]) -> [u8; 16]
    ensures { result ≡ tab 16 (λ i. inverse (get_or s i 0)) }
{
    let s2 = squares(s);
    let s3 = products(s2, s);
    let s6 = squares(s3);
    let s12 = squares(s6);
    let s15 = products(s12, s3);
    let s30 = squares(s15);
    let s60 = squares(s30);
    let s120 = squares(s60);
    let s240 = squares(s120);
    let s252 = products(s240, s12);
    products(s252, s2)
}
