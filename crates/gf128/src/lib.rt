#![tactic(auto)]
// A block as a polynomial over GF(2) of degree below 128, modulo x^128 + x^7 + x^2 + x + 1, in two words: the top bit of the upper word is
// the coefficient of x^127. Each contract is about the bytes of the words, by document 01's formulas over bytes.
ghost use Rattle.std.specs.Prelude.{◌≡◌, ◌*◌, ◌/◌, ◌^◌, ◌≤◌, ◌<◌};
ghost use Rattle.std.specs.Int.Bits.{bit_xor};
ghost use Rattle.blocks.specs.Field.{step, steps, times};
ghost use Rattle.blocks.specs.Num.{num};
ghost use Rattle.blocks.specs.Words.{bytes_of};
ghost use Rattle.gf128.specs.Gf128.{times_x, over_x, jump as jump_of, jump_by, signed, product, power as power_of};
ghost use Rattle.gf128.specs.Spread.{spread as spread_of};

use blocks::words::Words;

// A block times x: the upper word takes the top bit of the lower, and the bit that falls out selects 87.
pub fn times_x(b: Words) -> Words
    ensures { bytes_of result ≡ times_x (bytes_of b) }
{
    Words {
        high: (b.high << 1) ^ (b.low >> 63),
        low: (b.low << 1) ^ ((b.high >> 63) * 0x87),
    }
}

// A block over x. Where its low bit is set the polynomial is added first: 87 to the lower word, and a one above the upper. Then the lower
// word takes the low bit of the upper.
pub fn over_x(b: Words) -> Words
    ensures { bytes_of result ≡ over_x (bytes_of b) }
{
    let odd = b.low % 2;
    Words {
        high: (odd << 63) ^ (b.high >> 1),
        low: (b.high << 63) ^ ((b.low ^ (odd * 0x87)) >> 1),
    }
}

// ---- the product of two blocks, the first one's bits from the top

// x r, and b added where the bit is set.
fn take_bit(r: Words, bit: u64, b: Words) -> Words
    requires { bit < 2 }
    ensures { num (bytes_of result) ≡ bit_xor (bit * num (bytes_of b)) (step 127 0x87 (num (bytes_of r))) }
{
    let t = times_x(r);
    Words {
        high: (bit * b.high) ^ t.high,
        low: (bit * b.low) ^ t.low,
    }
}

// x^bits r, and b times the low bits of v added.
fn take_bits(r: Words, v: u64, b: Words, bits: u32) -> Words
    requires { bits ≤ 64 }
    ensures { num (bytes_of result) ≡ bit_xor (times 127 0x87 bits v (num (bytes_of b))) (steps 127 0x87 bits (num (bytes_of r))) }
{
    let mut q = r;
    for left in (0..bits).rev() {
        q = take_bit(q, (v >> left) % 2, b);
    }
    q
}

// b times the word v. The zeros above its highest one add nothing and are passed over.
fn times_word(v: u64, b: Words) -> Words
    ensures { num (bytes_of result) ≡ times 127 0x87 64 v (num (bytes_of b)) }
{
    let zero = Words { high: 0, low: 0 };
    take_bits(zero, v, b, 64 - v.leading_zeros())
}

// A low power of x, by which short runs are joined and jumped over, has an upper word of zero.
pub fn multiply(a: Words, b: Words) -> Words
    ensures { bytes_of result ≡ product (bytes_of a) (bytes_of b) }
{
    if a.high == 0 {
        return times_word(a.low, b);
    }
    let upper = times_word(a.high, b);
    take_bits(upper, a.low, b, 64)
}

// ---- squares: the bits moved apart, then reduced

// The 32 bits of x at the even places of a word: halves of it, quarters, and so on are moved apart.
fn spread(x: u64) -> u64
    requires { x < 2 ^ 32 }
    ensures { result ≡ spread_of 32 x }
{
    let a = (x ^ (x << 16)) & 0x0000ffff0000ffff;
    let b = (a ^ (a << 8)) & 0x00ff00ff00ff00ff;
    let c = (b ^ (b << 4)) & 0x0f0f0f0f0f0f0f0f;
    let d = (c ^ (c << 2)) & 0x3333333333333333;
    (d ^ (d << 1)) & 0x5555555555555555
}

// A block times x^64: the lower word moves up, and the upper one, times x^128, which is x^7 + x^2 + x + 1, is added.
fn times_x64(b: Words) -> Words
    ensures { bytes_of result ≡ jump_of 64 (bytes_of b) }
{
    let h = b.high;
    Words {
        high: b.low ^ (h >> 63) ^ (h >> 62) ^ (h >> 57),
        low: h ^ (h << 1) ^ (h << 2) ^ (h << 7),
    }
}

pub fn square(b: Words) -> Words
    ensures { bytes_of result ≡ product (bytes_of b) (bytes_of b) }
{
    let upper = Words {
        high: spread(b.high >> 32),
        low: spread(b.high % 4294967296),
    };
    let lower = Words {
        high: spread(b.low >> 32),
        low: spread(b.low % 4294967296),
    };
    lower ^ times_x64(times_x64(upper))
}

// ---- powers of x, by repeated squaring; of 1/x where `back` is set

// The square of q, and times x, or over x, where the bit is set.
fn next_power(q: Words, bit: u32, back: bool) -> Words
    requires { bit < 2 }
    ensures { bytes_of result ≡ jump_by (signed back bit) (product (bytes_of q) (bytes_of q)) }
{
    let s = square(q);
    if bit == 0 {
        return s;
    }
    if back { over_x(s) } else { times_x(s) }
}

// From the power n / 2 to the power n. While there is no bit yet, nothing is squared.
fn take_power(q: Words, n: u32, back: bool) -> Words
    requires { bytes_of q ≡ power_of (signed back (n / 2)) }
    ensures { bytes_of result ≡ power_of (signed back n) }
{
    if n == 0 {
        return q;
    }
    next_power(q, n % 2, back)
}

// x^n, or x^-n, by the bits of n from the top.
pub fn power(n: u32, back: bool) -> Words
    ensures { bytes_of result ≡ power_of (signed back n) }
{
    let mut q = Words { high: 0, low: 1 };
    for left in (0..32u32).rev() {
        q = take_power(q, n >> left, back);
    }
    q
}

// ---- jumps: one product, with a power of x

// The block b jumped by n blocks, forward or back. A run from block 0 needs no product.
fn jump_towards(b: Words, n: u32, back: bool) -> Words
    ensures { bytes_of result ≡ jump_by (signed back n) (bytes_of b) }
{
    if n == 0 {
        return b;
    }
    multiply(power(n, back), b)
}

// The block b, multiplied by x n times.
pub fn jump(b: Words, n: u32) -> Words
    ensures { bytes_of result ≡ jump_of n (bytes_of b) }
{
    jump_towards(b, n, false)
}

// The block b jumped by a signed distance.
pub fn jump_by(b: Words, distance: i32) -> Words
    ensures { bytes_of result ≡ jump_by distance (bytes_of b) }
{
    let back = distance < 0;
    jump_towards(b, distance.unsigned_abs(), back)
}
