#![tactic(auto)]
// Groups: up to 32 blocks in an array of 64-bit words, two to a block. Each function works on the first n blocks of a group. The array and the
// number are no struct, since the functions of `cipher` take them so, whose signatures stand.
ghost use Rattle.std.specs.Prelude.{◌≡◌, ◌*◌, ◌<◌, ◌≤◌, length};
ghost use Rattle.blocks.specs.Bytes.{xor_bytes};
ghost use Rattle.blocks.specs.Words.{bytes_of};
ghost use Rattle.groups.specs.Group.{block_at, block_of, Holds, Put, InGroup, in_front};

use blocks::words::Words;

// The blocks of a group, and its words.
pub const BLOCKS: usize = 32;

pub const WORDS: usize = 64;

// How many of the blocks that are left go into the next group.
pub fn in_group(left: usize) -> usize
    requires { 0 < left }
    ensures { InGroup left result }
{
    left.min(BLOCKS)
}

// Block i.
pub fn get(group: &[u64; WORDS], i: usize) -> Words
    requires { i < 32 }
    ensures { bytes_of result ≡ block_at group.now i }
{
    Words {
        high: group[i * 2],
        low: group[i * 2 + 1],
    }
}

// Block i is set. The other blocks stay.
pub fn put(group: &mut [u64; WORDS], i: usize, w: Words)
    requires { i < 32 }
    ensures { Put i (bytes_of w) group.old group.new }
{
    group[i * 2] = w.high;
    group[i * 2 + 1] = w.low;
}

// The blocks of a slice.
pub fn load(s: &[u8], n: usize, group: &mut [u64; WORDS])
    requires n_bound { n ≤ 32 }
    requires n_in_bounds { n * 16 ≤ length s.now }
    ensures { Holds n (block_of s.now) group.new }
{
    for i in 0..n {
        let w = blocks::words::load(s, i * 16);
        put(group, i, w);
    }
}

// The blocks of another group.
pub fn copy(from: &[u64; WORDS], n: usize, group: &mut [u64; WORDS])
    requires n_bound { n ≤ 32 }
    ensures { Holds n (block_at from.now) group.new }
{
    for i in 0..n {
        let w = get(from, i);
        put(group, i, w);
    }
}

// The exclusive or of each block with that of another group.
pub fn xor(group: &mut [u64; WORDS], other: &[u64; WORDS], n: usize)
    requires n_bound { n ≤ 32 }
    ensures { Holds n (λ i. xor_bytes (block_at group.old i) (block_at other.now i)) group.new }
{
    for i in 0..n {
        let a = get(group, i);
        let b = get(other, i);
        let sum = a ^ b;
        put(group, i, sum);
    }
}

// The blocks into the front of a slice. It goes word by word: two words in one turn are compiled into sixteen writes of a byte.
pub fn store(group: &[u64; WORDS], n: usize, d: &mut [u8])
    requires n_bound { n ≤ 32 }
    requires n_in_bounds { n * 16 ≤ length d.old }
    ensures { d.new ≡ in_front n (block_at group.now) d.old }
{
    for i in 0..n * 2 {
        blocks::words::store_word(d, i * 8, group[i]);
    }
}
