#![tactic(auto)]
// AES-128 or AES-256 of each block of a slice by itself, for programs in C and Rust: to compare it with others, and to measure it. It is no
// mode: equal blocks give equal blocks.
ghost use Rattle.std.specs.Prelude.{◌≡◌, ◌++◌, ◌*◌, ◌/◌, ◌≤◌, length, drop};
ghost use Rattle.fips197.specs.Aes.{encrypt, decrypt};
ghost use Rattle.groups.specs.Group.{block_of, in_front};
ghost use Rattle.cipher.specs.Keys.{key_of, Expanded};
ghost use Rattle.aes_blocks.specs.EachBlock.{each, refusal as refusal_of, output};
ghost use Rattle.aes_blocks.specs.Answer.{answered};

mod direction; // direction.rt: the two ciphers
mod refusal; // refusal.rt: why a call refuses

use direction::{Decrypt, Direction, Encrypt};
use refusal::Refusal;

// ---- a group

// The first n blocks of a text, to the front of an output.
fn step<D: Direction>(keys: &[u8; cipher::KEYS], text: &[u8], n: usize, out: &mut [u8])
    requires expanded { Expanded keys.now }
    requires n_bound { n ≤ 32 }
    requires n_in_bounds { n * 16 ≤ length text.now }
    requires n_in_bounds_2 { n * 16 ≤ length out.old }
    ensures { out.new ≡ in_front n (λ i. D.cipher (key_of keys.now) (block_of text.now i)) out.old }
{
    let mut group = [0u64; groups::WORDS];
    let mut middle = [0u64; groups::WORDS];
    groups::load(text, n, &mut group);
    D::through(&mut group, &mut middle, n, keys);
    groups::store(&group, n, out);
}

// ---- all blocks

// Each block of a text, to the front of an output, a group at a time.
fn each_block<D: Direction>(keys: &[u8; cipher::KEYS], text: &[u8], out: &mut [u8])
    requires expanded { Expanded keys.now }
    requires text_in_bounds { length text.now ≤ length out.old }
    ensures { out.new ≡ each (D.cipher (key_of keys.now)) text.now ++ drop (length text.now / 16 * 16) out.old }
{
    let count = text.len() / 16;
    // Counted by hand: a step is as long as the group that it takes, and `step_by` would end behind the last block.
    let mut i: usize = 0;
    while i < count {
        let n = groups::in_group(count - i);
        let at = i * 16;
        step::<D>(keys, &text[at..], n, &mut out[at..]);
        i += n;
    }
}

// ---- a call

// Clears the output; then refuses, or makes the key schedule and does each block.
fn call<D: Direction>(key: &[u8], text: &[u8], out: &mut [u8]) -> Result<(), Refusal>
    ensures answer { answered result ≡ refusal_of key.now text.now (length out.old) }
    ensures output { out.new ≡ output D.cipher key.now text.now (length out.old) }
{
    blocks::block::clear(out);
    refusal::check(key, text, out.len())?;
    let keys = cipher::expand(key);
    each_block::<D>(&keys, text, out);
    Ok(())
}

// ENCRYPT each block.
pub fn aes_blocks_encrypt(key: &[u8], text: &[u8], out: &mut [u8]) -> u8
    ensures answer { result ≡ refusal_of key.now text.now (length out.old) }
    ensures output { out.new ≡ output encrypt key.now text.now (length out.old) }
{
    refusal::answer(call::<Encrypt>(key, text, out))
}

// DECRYPT each block.
pub fn aes_blocks_decrypt(key: &[u8], text: &[u8], out: &mut [u8]) -> u8
    ensures answer { result ≡ refusal_of key.now text.now (length out.old) }
    ensures output { out.new ≡ output decrypt key.now text.now (length out.old) }
{
    refusal::answer(call::<Decrypt>(key, text, out))
}
