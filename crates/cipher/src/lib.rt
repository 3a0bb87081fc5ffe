#![tactic(auto)]
// AES-128 and AES-256 as the mode takes them: a key schedule, one block, a group of blocks. Which engine does the work shows nowhere above this crate: its
// contracts speak of FIPS 197 alone.
ghost use Rattle.std.specs.Prelude.{◌≡◌, ◌≤◌, take};
ghost use Rattle.fips197.specs.Aes.{KeyLength, not_key, encrypt as encrypt_of, decrypt as decrypt_of};
ghost use Rattle.cipher.specs.Keys.{key_of, Expanded, Expands};
ghost use Rattle.cipher.specs.Group.{Enciphered, Deciphered, Middletexts};

pub mod engine; // engine.rt: the engines
pub mod by; // by.rt: the same functions, by an engine

use engine::Engine;

// THE ENGINE that everything above runs on.
pub const ENGINE: Engine = Engine::Tables;

// The bytes of a key schedule: up to fifteen round keys, and the number of rounds.
pub const KEYS: usize = aes_steps::schedule::BYTES;

// Whether a key has neither 16 bytes nor 32.
pub fn not_key(key: &[u8]) -> bool
    ensures { result ≡ not_key key.now }
{
    (key.len() != 16) & (key.len() != 32)
}

// The key schedule of a key of 16 or 32 bytes.
pub fn expand(key: &[u8]) -> [u8; KEYS]
    requires { KeyLength key.now }
    ensures { Expands key.now result }
{
    by::expand(ENGINE, key)
}

// The first 16 bytes of a schedule's key.
pub fn key_block(keys: &[u8; KEYS]) -> [u8; 16]
    requires { Expanded keys.now }
    ensures { result ≡ take 16 (key_of keys.now) }
{
    blocks::block::load(keys, 0)
}

// One block through the whole cipher.
pub fn encrypt_block(block: [u8; 16], keys: &[u8; KEYS]) -> [u8; 16]
    requires { Expanded keys.now }
    ensures { result ≡ encrypt_of (key_of keys.now) block }
{
    by::encrypt_block(ENGINE, block, keys)
}

// The same undone.
pub fn decrypt_block(block: [u8; 16], keys: &[u8; KEYS]) -> [u8; 16]
    requires { Expanded keys.now }
    ensures { result ≡ decrypt_of (key_of keys.now) block }
{
    by::decrypt_block(ENGINE, block, keys)
}

// n blocks of a group through the cipher. `middle` gets their middletexts.
pub fn encrypt(
    group: &mut [u64; groups::WORDS],
    middle: &mut [u64; groups::WORDS],
    n: usize,
    keys: &[u8; KEYS],
)
    requires n_bound { n ≤ 32 }
    requires expanded { Expanded keys.now }
    ensures { Enciphered n (key_of keys.now) group.old group.new middle.new }
{
    by::encrypt(ENGINE, group, middle, n, keys);
}

// The same undone, with the middletexts on the way.
pub fn decrypt(
    group: &mut [u64; groups::WORDS],
    middle: &mut [u64; groups::WORDS],
    n: usize,
    keys: &[u8; KEYS],
)
    requires n_bound { n ≤ 32 }
    requires expanded { Expanded keys.now }
    ensures { Deciphered n (key_of keys.now) group.old group.new middle.new }
{
    by::decrypt(ENGINE, group, middle, n, keys);
}

// The middletexts of n blocks of ciphertext, in place.
pub fn middletexts(group: &mut [u64; groups::WORDS], n: usize, keys: &[u8; KEYS])
    requires n_bound { n ≤ 32 }
    requires expanded { Expanded keys.now }
    ensures { Middletexts n (key_of keys.now) group.old group.new }
{
    by::middletexts(ENGINE, group, n, keys);
}
