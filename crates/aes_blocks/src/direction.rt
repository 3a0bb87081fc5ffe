// The two ways through AES.
ghost use Rattle.std.specs.Prelude.{◌≡◌, List, ℕ, ◌≤◌, length};
ghost use Rattle.fips197.specs.Aes.{KeyLength, encrypt, decrypt};
ghost use Rattle.groups.specs.Group.{block_at, Holds};
ghost use Rattle.cipher.specs.Keys.{key_of, Expanded};
ghost use Rattle.aes_blocks.specs.Lengths.{length-encrypt, length-decrypt};

pub(crate) trait Direction {
    // By the key, then the block.
    ghost cipher: { List ℕ → List ℕ → List ℕ };

    // n blocks through the cipher. `middle` is only room to work in.
    fn through(
        group: &mut [u64; groups::WORDS],
        middle: &mut [u64; groups::WORDS],
        n: usize,
        keys: &[u8; cipher::KEYS],
    )
        requires n_bound { n ≤ 32 }
        requires expanded { Expanded keys.now }
        ensures { Holds n (λ i. cipher (key_of keys.now) (block_at group.old i)) group.new };

    // It takes 16 bytes to 16.
    ghost long: { (key s : List ℕ) → KeyLength key → length s ≡ 16 → length (cipher key s) ≡ 16 };
}

pub(crate) struct Encrypt;

impl Direction for Encrypt {
    ghost cipher = { encrypt };

    fn through(
        group: &mut [u64; groups::WORDS],
        middle: &mut [u64; groups::WORDS],
        n: usize,
        keys: &[u8; cipher::KEYS],
    ) {
        cipher::encrypt(group, middle, n, keys);
    }

    ghost long = { length-encrypt };
}

pub(crate) struct Decrypt;

impl Direction for Decrypt {
    ghost cipher = { decrypt };

    fn through(
        group: &mut [u64; groups::WORDS],
        middle: &mut [u64; groups::WORDS],
        n: usize,
        keys: &[u8; cipher::KEYS],
    ) {
        cipher::decrypt(group, middle, n, keys);
    }

    ghost long = { length-decrypt };
}
