// What a case checks, on the engine that it is given.
ghost use Rattle.std.specs.Prelude.{◌≡◌, ◌≤◌, length, false};
ghost use Rattle.fips197.specs.Aes.{not_key};
ghost use Rattle.cipher.specs.Keys.{Expanded};

use case_text::agreed;
use cipher::engine::Engine;

// A key of 16 or 32 bytes, and an engine.
#[derive(Clone, Copy)]
pub struct Keyed<'a> {
    engine: Engine,
    key: &'a [u8],
    ghost taken: { not_key key.now ≡ false },
}

// A group that has one block.
fn group_of(block: [u8; 16]) -> [u64; groups::WORDS]
    ensures { length result ≡ 64 }
{
    let mut group = [0u64; groups::WORDS];
    groups::load(&block, 1, &mut group);
    group
}

impl<'a> Keyed<'a> {
    // A key of any other length has none.
    pub fn of(engine: Engine, key: &'a [u8]) -> Option<Keyed<'a>> {
        if cipher::not_key(key) {
            return None;
        }
        Some(Keyed { engine, key })
    }

    #[tactic(auto, using(fips197::proofs::Keys::has_key))]
    pub fn schedule(&self) -> [u8; cipher::KEYS]
        ensures { Expanded result }
    {
        cipher::by::expand(self.engine, self.key)
    }

    // ---- one block, both ways

    fn encrypted(&self, block: [u8; 16]) -> [u8; 16] {
        cipher::by::encrypt_block(self.engine, block, &self.schedule())
    }

    fn decrypted(&self, block: [u8; 16]) -> [u8; 16] {
        cipher::by::decrypt_block(self.engine, block, &self.schedule())
    }

    // ---- the state after half of the rounds, where the two halves of the cipher meet

    fn from_plaintext(&self, block: [u8; 16]) -> [u8; 16] {
        let mut group = group_of(block);
        let mut middle = [0u64; groups::WORDS];
        cipher::by::encrypt(self.engine, &mut group, &mut middle, 1, &self.schedule());
        groups::get(&middle, 0).into()
    }

    fn from_ciphertext(&self, block: [u8; 16]) -> [u8; 16] {
        let mut group = group_of(block);
        cipher::by::middletexts(self.engine, &mut group, 1, &self.schedule());
        groups::get(&group, 0).into()
    }
}

// ---- cases

// What agreed of a key, a block and its encryption: the block encrypted and decrypted; and the two halves, the first from the plaintext and the
// second undone from the ciphertext, which come to the same state.
#[derive(Clone, Copy, Debug, PartialEq, Eq)]
pub struct Triple {
    pub encrypted: bool,
    pub decrypted: bool,
    pub met: bool,
}

impl Triple {
    // Under a key of any other length none agrees.
    pub fn of(engine: Engine, key: &[u8], plain: [u8; 16], cipher: [u8; 16]) -> Triple {
        match Keyed::of(engine, key) {
            Some(keyed) => Triple {
                encrypted: keyed.encrypted(plain) == cipher,
                decrypted: keyed.decrypted(cipher) == plain,
                met: keyed.from_plaintext(plain) == keyed.from_ciphertext(cipher),
            },
            None => Triple {
                encrypted: false,
                decrypted: false,
                met: false,
            },
        }
    }
}

// The first half from the plaintext, and the second undone from the ciphertext, each come to a state.
pub fn middles(
    engine: Engine,
    key: &[u8],
    plain: [u8; 16],
    cipher: [u8; 16],
    middle: [u8; 16],
) -> usize
    ensures { result ≤ 2 }
{
    match Keyed::of(engine, key) {
        Some(keyed) => agreed(&[
            keyed.from_plaintext(plain) == middle,
            keyed.from_ciphertext(cipher) == middle,
        ]),
        None => 0,
    }
}
