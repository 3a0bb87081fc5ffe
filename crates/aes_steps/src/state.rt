// FIPS 197, 5.1 and 5.3: the steps of a round. A state is 16 bytes, column after column.
ghost use Rattle.std.specs.Prelude.{◌≡◌, ◌+◌, ◌*◌, ◌%◌, ◌<◌, ◌≤◌, get_or};
ghost use Rattle.std.specs.Int.Bits.{bit_xor};
ghost use Rattle.blocks.specs.Tab.{tab};
ghost use Rattle.fips197.specs.Gf256.{xtimes, gmul};
ghost use Rattle.fips197.specs.State.{shift_rows, inv_shift_rows, mix as mix_of, mix_columns, inv_mix_columns};

// A byte times x.
pub fn double(x: u8) -> u8
    ensures { result ≡ xtimes x }
{
    (x << 1) ^ ((x >> 7) * 0x1b)
}

// Row r goes r times so many places down the list, which is taken round: four places are a column.
fn turn_rows(s: [u8; 16], places: usize) -> [u8; 16]
    requires { places ≤ 12 }
    ensures { result ≡ tab 16 (λ i. get_or s ((i + i % 4 * places) % 16) 0) }
{
    let mut r = [0u8; 16];
    for i in 0..16 {
        r[i] = s[(i + i % 4 * places) % 16];
    }
    r
}

pub fn shift_rows(s: [u8; 16]) -> [u8; 16]
    ensures { result ≡ shift_rows s }
{
    turn_rows(s, 4)
}

// Three columns to the left are one to the right.
pub fn inv_shift_rows(s: [u8; 16]) -> [u8; 16]
    ensures { result ≡ inv_shift_rows s }
{
    turn_rows(s, 12)
}

// 02 a + 03 b + c + d, with one doubling.
fn mix(a: u8, b: u8, c: u8, d: u8) -> u8
    ensures { result ≡ mix_of a b c d }
{
    double(a ^ b) ^ (b ^ (c ^ d))
}

pub fn mix_columns(s: [u8; 16]) -> [u8; 16]
    ensures { result ≡ mix_columns s }
{
    let mut r = [0u8; 16];
    for i in 0..4 {
        let at = i * 4;
        let a = s[at];
        let b = s[at + 1];
        let c = s[at + 2];
        let d = s[at + 3];
        r[at] = mix(a, b, c, d);
        r[at + 1] = mix(b, c, d, a);
        r[at + 2] = mix(c, d, a, b);
        r[at + 3] = mix(d, a, b, c);
    }
    r
}

// 05 a + 04 c, with two doublings.
fn even(a: u8, c: u8) -> u8
    ensures { result ≡ bit_xor (gmul 0x05 a) (gmul 0x04 c) }
{
    a ^ double(double(a ^ c))
}

// The matrix of InvMixColumns is that of MixColumns times the circulant of 05, 00, 04, 00.
pub fn inv_mix_columns(s: [u8; 16]) -> [u8; 16]
    ensures { result ≡ inv_mix_columns s }
{
    let mut r = [0u8; 16];
    for i in 0..4 {
        let at = i * 4;
        let a = even(s[at], s[at + 2]);
        let b = even(s[at + 1], s[at + 3]);
        let c = even(s[at + 2], s[at]);
        let d = even(s[at + 3], s[at + 1]);
        r[at] = mix(a, b, c, d);
        r[at + 1] = mix(b, c, d, a);
        r[at + 2] = mix(c, d, a, b);
        r[at + 3] = mix(d, a, b, c);
    }
    r
}
