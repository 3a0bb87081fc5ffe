// The face, by an engine, or by what names one, as a number does.
ghost use Rattle.std.specs.Prelude.{◌≡◌, ◌≤◌};
ghost use Rattle.fips197.specs.Aes.{KeyLength, encrypt as encrypt_of, decrypt as decrypt_of};
ghost use Rattle.cipher.specs.Keys.{key_of, Expanded, Expands};
ghost use Rattle.cipher.specs.Group.{Enciphered, Deciphered, Middletexts};

use crate::engine::Engine;
use aes_arithmetic::sbox::Arithmetic;
use aes_steps::cipher::Cipher;
use aes_tables::tables::Tables;

// The key schedule of a key of 16 or 32 bytes.
pub fn expand<E: Into<Engine>>(engine: E, key: &[u8]) -> [u8; crate::KEYS]
    requires { KeyLength key.now }
    ensures { Expands key.now result }
{
    match engine.into() {
        Engine::Arithmetic => aes_steps::key::expand(key, &Arithmetic),
        Engine::Tables => aes_steps::key::expand(key, &Tables),
    }
}

// One block through the whole cipher.
#[tactic(auto, using(crate::proofs::ByKey::encrypt_is, crate::proofs::Keys::is_schedule))]
pub fn encrypt_block<E: Into<Engine>>(
    engine: E,
    block: [u8; 16],
    keys: &[u8; crate::KEYS],
) -> [u8; 16]
    requires { Expanded keys.now }
    ensures { result ≡ encrypt_of (key_of keys.now) block }
{
    match engine.into() {
        Engine::Arithmetic => Cipher::new(keys, Arithmetic).encrypt_block(block),
        Engine::Tables => Cipher::new(keys, Tables).encrypt_block(block),
    }
}

// The same undone.
#[tactic(auto, using(crate::proofs::ByKey::decrypt_is, crate::proofs::Keys::is_schedule))]
pub fn decrypt_block<E: Into<Engine>>(
    engine: E,
    block: [u8; 16],
    keys: &[u8; crate::KEYS],
) -> [u8; 16]
    requires { Expanded keys.now }
    ensures { result ≡ decrypt_of (key_of keys.now) block }
{
    match engine.into() {
        Engine::Arithmetic => Cipher::new(keys, Arithmetic).decrypt_block(block),
        Engine::Tables => Cipher::new(keys, Tables).decrypt_block(block),
    }
}

// n blocks of a group through the cipher. `middle` gets their middletexts.
#[tactic(auto, using(crate::proofs::Keys::is_schedule))]
pub fn encrypt<E: Into<Engine>>(
    engine: E,
    group: &mut [u64; groups::WORDS],
    middle: &mut [u64; groups::WORDS],
    n: usize,
    keys: &[u8; crate::KEYS],
)
    requires n_bound { n ≤ 32 }
    requires expanded { Expanded keys.now }
    ensures { Enciphered n (key_of keys.now) group.old group.new middle.new }
{
    match engine.into() {
        Engine::Arithmetic => Cipher::new(keys, Arithmetic).encrypt(group, middle, n),
        Engine::Tables => Cipher::new(keys, Tables).encrypt(group, middle, n),
    }
}

// The same undone, with the middletexts on the way.
#[tactic(auto, using(crate::proofs::Keys::is_schedule))]
pub fn decrypt<E: Into<Engine>>(
    engine: E,
    group: &mut [u64; groups::WORDS],
    middle: &mut [u64; groups::WORDS],
    n: usize,
    keys: &[u8; crate::KEYS],
)
    requires n_bound { n ≤ 32 }
    requires expanded { Expanded keys.now }
    ensures { Deciphered n (key_of keys.now) group.old group.new middle.new }
{
    match engine.into() {
        Engine::Arithmetic => Cipher::new(keys, Arithmetic).decrypt(group, middle, n),
        Engine::Tables => Cipher::new(keys, Tables).decrypt(group, middle, n),
    }
}

// The middletexts of n blocks of ciphertext, in place.
#[tactic(auto, using(crate::proofs::Keys::is_schedule))]
pub fn middletexts<E: Into<Engine>>(
    engine: E,
    group: &mut [u64; groups::WORDS],
    n: usize,
    keys: &[u8; crate::KEYS],
)
    requires n_bound { n ≤ 32 }
    requires expanded { Expanded keys.now }
    ensures { Middletexts n (key_of keys.now) group.old group.new }
{
    match engine.into() {
        Engine::Arithmetic => Cipher::new(keys, Arithmetic).middletexts(group, n),
        Engine::Tables => Cipher::new(keys, Tables).middletexts(group, n),
    }
}
