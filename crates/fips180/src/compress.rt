// FIPS 180-4, 6.1.2: the message schedule and the rounds, four words at a time; a block; blocks one after another.
ghost use Rattle.std.specs.Prelude.{◌≡◌, ◌+◌, ◌*◌, ◌≤◌, ◌++◌, length, drop};
ghost use Rattle.blocks.specs.Tab.{tab_from};
ghost use Rattle.fips180.specs.Sha1.{add as add_words, rotl, round as round_of, rounds, word as word_of, parse, sums, compress, hash};
ghost use Rattle.fips180.specs.Parts.{next_four};

use crate::Hash;

// A round with the value of its function, its constant and its word.
fn step(s: Hash, f: u32, k: u32, w: u32) -> Hash
    ensures { result ≡ record { a = add_words (add_words (add_words (add_words (rotl 5 s.a) f) s.e) k) w; b = s.a; c = rotl 30 s.b; d = s.c; e = s.d } }
{
    let rotated = s.a.rotate_left(5);
    Hash {
        a: rotated
            .wrapping_add(f)
            .wrapping_add(s.e)
            .wrapping_add(k)
            .wrapping_add(w),
        b: s.a,
        c: s.b.rotate_left(30),
        d: s.c,
        e: s.d,
    }
}

// Round t, with its word.
fn round(s: Hash, t: u32, w: u32) -> Hash
    ensures { result ≡ round_of t w s }
{
    if t < 20 {
        return step(s, s.b & s.c ^ !s.b & s.d, 0x5a827999, w);
    }
    if t < 40 {
        return step(s, s.b ^ s.c ^ s.d, 0x6ed9eba1, w);
    }
    if t < 60 {
        return step(s, s.b & s.c ^ s.b & s.d ^ s.c & s.d, 0x8f1bbcdc, w);
    }
    step(s, s.b ^ s.c ^ s.d, 0xca62c1d6, w)
}

// Four rounds from round t on, with their words.
fn four_rounds(s: Hash, t: u32, w: [u32; 4]) -> Hash
    requires { t + 4 ≤ 80 }
    ensures { result ≡ rounds t w s }
{
    let a = round(s, t, w[0]);
    let b = round(a, t + 1, w[1]);
    let c = round(b, t + 2, w[2]);
    round(c, t + 3, w[3])
}

// The four words of the schedule after sixteen.
fn next_four(a: [u32; 4], b: [u32; 4], c: [u32; 4], d: [u32; 4]) -> [u32; 4]
    ensures { result ≡ next_four (a ++ (b ++ (c ++ d))) }
{
    let first = (d[1] ^ c[0] ^ a[2] ^ a[0]).rotate_left(1);
    let second = (d[2] ^ c[1] ^ a[3] ^ a[1]).rotate_left(1);
    let third = (d[3] ^ c[2] ^ b[0] ^ a[2]).rotate_left(1);
    let fourth = (first ^ c[3] ^ b[1] ^ a[3]).rotate_left(1);
    [first, second, third, fourth]
}

// Word i of the block of a slice at an offset.
fn word_at(s: &[u8], at: usize, i: usize) -> u32
    requires { at + (i * 4 + 4) ≤ length s.now }
    ensures { result ≡ word_of (drop at s.now) i }
{
    let p = at + i * 4;
    u32::from_be_bytes([s[p], s[p + 1], s[p + 2], s[p + 3]])
}

// Words i to i + 3 of it.
fn four_at(s: &[u8], at: usize, i: usize) -> [u32; 4]
    requires { at + (i * 4 + 16) ≤ length s.now }
    ensures { result ≡ tab_from i 4 (word_of (drop at s.now)) }
{
    let a = word_at(s, at, i);
    let b = word_at(s, at, i + 1);
    let c = word_at(s, at, i + 2);
    let d = word_at(s, at, i + 3);
    [a, b, c, d]
}

// The working variables added to the hash value.
fn sum(s: Hash, h: Hash) -> Hash
    ensures { result ≡ sums s h }
{
    Hash {
        a: s.a.wrapping_add(h.a),
        b: s.b.wrapping_add(h.b),
        c: s.c.wrapping_add(h.c),
        d: s.d.wrapping_add(h.d),
        e: s.e.wrapping_add(h.e),
    }
}

// The block of a slice at an offset, from a hash value to the next.
fn block(h: Hash, s: &[u8], at: usize) -> Hash
    requires { at + 64 ≤ length s.now }
    ensures { result ≡ compress (parse (drop at s.now)) h }
{
    let w0 = four_at(s, at, 0);
    let w1 = four_at(s, at, 4);
    let w2 = four_at(s, at, 8);
    let w3 = four_at(s, at, 12);
    let w4 = next_four(w0, w1, w2, w3);
    let w5 = next_four(w1, w2, w3, w4);
    let w6 = next_four(w2, w3, w4, w5);
    let w7 = next_four(w3, w4, w5, w6);
    let w8 = next_four(w4, w5, w6, w7);
    let w9 = next_four(w5, w6, w7, w8);
    let w10 = next_four(w6, w7, w8, w9);
    let w11 = next_four(w7, w8, w9, w10);
    let w12 = next_four(w8, w9, w10, w11);
    let w13 = next_four(w9, w10, w11, w12);
    let w14 = next_four(w10, w11, w12, w13);
    let w15 = next_four(w11, w12, w13, w14);
    let w16 = next_four(w12, w13, w14, w15);
    let w17 = next_four(w13, w14, w15, w16);
    let w18 = next_four(w14, w15, w16, w17);
    let w19 = next_four(w15, w16, w17, w18);
    let s1 = four_rounds(h, 0, w0);
    let s2 = four_rounds(s1, 4, w1);
    let s3 = four_rounds(s2, 8, w2);
    let s4 = four_rounds(s3, 12, w3);
    let s5 = four_rounds(s4, 16, w4);
    let s6 = four_rounds(s5, 20, w5);
    let s7 = four_rounds(s6, 24, w6);
    let s8 = four_rounds(s7, 28, w7);
    let s9 = four_rounds(s8, 32, w8);
    let s10 = four_rounds(s9, 36, w9);
    let s11 = four_rounds(s10, 40, w10);
    let s12 = four_rounds(s11, 44, w11);
    let s13 = four_rounds(s12, 48, w12);
    let s14 = four_rounds(s13, 52, w13);
    let s15 = four_rounds(s14, 56, w14);
    let s16 = four_rounds(s15, 60, w15);
    let s17 = four_rounds(s16, 64, w16);
    let s18 = four_rounds(s17, 68, w17);
    let s19 = four_rounds(s18, 72, w18);
    let s20 = four_rounds(s19, 76, w19);
    sum(s20, h)
}

// The first n blocks of a slice.
pub fn blocks(h: Hash, s: &[u8], n: usize) -> Hash
    requires { n * 64 ≤ length s.now }
    ensures { result ≡ hash n s.now h }
{
    let mut r = h;
    for i in 0..n {
        r = block(r, s, i * 64);
    }
    r
}
