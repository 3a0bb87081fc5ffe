// FIPS 197, 5.2: the words of the key schedule. A schedule is up to fifteen round keys in 240 bytes, zeros behind them, and the number of rounds
// in a last byte.
ghost use Rattle.std.specs.Prelude.{◌≡◌, cond, ◌++◌, ◌+◌, ◌-◌, ◌*◌, ◌/◌, ◌%◌, ◌<◌, ◌≤◌, eqb, length, take, drop};
ghost use Rattle.blocks.specs.Bytes.{xor_bytes};
ghost use Rattle.fips197.specs.KeyExpansion.{word, rot_word, rcon};
ghost use Rattle.fips197.specs.Aes.{KeyLength};
ghost use Rattle.aes_steps.specs.Words.{KeyWords, begun};

// The bytes of a schedule.
pub const BYTES: usize = 241;

// Where the number of rounds stands.
pub(crate) const ROUNDS: usize = 240;

// The round constants, by the round of the schedule, from 0.
const ROUND_CONSTANTS: [u8; 10] = [0x01, 0x02, 0x04, 0x08, 0x10, 0x20, 0x40, 0x80, 0x1b, 0x36];

// The key in front, and the number of its rounds: what there is before the first word is worked out.
pub fn first_words(key: &[u8]) -> [u8; BYTES]
    requires { KeyLength key.now }
    ensures { result ≡ begun key.now }
{
    let mut w = [0u8; BYTES];
    let end = key.len();
    w[ROUNDS] = (end / 4 + 6) as u8;
    w[..end].copy_from_slice(key);
    w
}

pub fn word_at(w: &[u8; BYTES], i: usize) -> [u8; 4]
    requires { i < 60 }
    ensures { result ≡ word w.now i }
{
    let at = i * 4;
    [w[at], w[at + 1], w[at + 2], w[at + 3]]
}

fn put_word(w: &mut [u8; BYTES], i: usize, x: [u8; 4])
    requires { i < 60 }
    ensures { w.new ≡ take (i * 4) w.old ++ x ++ drop (i * 4 + 4) w.old }
{
    let at = i * 4;
    w[at] = x[0];
    w[at + 1] = x[1];
    w[at + 2] = x[2];
    w[at + 3] = x[3];
}

fn xor_word(a: [u8; 4], b: [u8; 4]) -> [u8; 4]
    ensures { result ≡ xor_bytes a b }
{
    [a[0] ^ b[0], a[1] ^ b[1], a[2] ^ b[2], a[3] ^ b[3]]
}

// Word i is word i - nk and what the word before has become.
pub fn next_word(w: &mut [u8; BYTES], i: usize, nk: usize, temp: [u8; 4])
    requires nk_le_i { nk ≤ i }
    requires i_bound { i < 60 }
    ensures { w.new ≡ take (i * 4) w.old ++ xor_bytes (word w.old (i - nk)) temp ++ drop (i * 4 + 4) w.old }
{
    let v = word_at(w, i - nk);
    let x = xor_word(v, temp);
    put_word(w, i, x);
}

// A word turned by one, and the constant of a round of the schedule.
fn turned(subbed: [u8; 4], round: usize) -> [u8; 4]
    requires le_round { 1 ≤ round }
    requires round_bound { round ≤ 10 }
    ensures { result ≡ xor_bytes (rot_word subbed) (rcon round) }
{
    [
        subbed[1] ^ ROUND_CONSTANTS[round - 1],
        subbed[2],
        subbed[3],
        subbed[0],
    ]
}

// What word i - 1 becomes where i is a multiple of 4, from its bytes after the S-box. Where it is one of nk too, the word is turned; where it
// is not, under a key of eight words, nothing more is done. Each division is by a number that the compiler knows.
pub fn after_sub(subbed: [u8; 4], i: usize, nk: usize) -> [u8; 4]
    requires key_words { KeyWords nk i }
    requires i_value { i % 4 ≡ 0 }
    ensures { result ≡ cond (eqb (i % nk) 0) (xor_bytes (rot_word subbed) (rcon (i / nk))) subbed }
{
    if nk == 4 {
        return turned(subbed, i / 4);
    }
    if i % 8 == 0 {
        return turned(subbed, i / 8);
    }
    subbed
}
