// One block under a key of 16 or 32 bytes, by the library's own cipher. Under a key of any other length it is zero.
ghost use Rattle.std.specs.Prelude.{IfSome};
ghost use Rattle.cipher.specs.Keys.{Expanded};

// The key schedule. A key of any other length has none.
#[tactic(auto, using(fips197::proofs::Keys::has_key))]
fn expanded(key: &[u8]) -> Option<[u8; cipher::KEYS]>
    ensures { IfSome result Expanded }
{
    if cipher::not_key(key) {
        return None;
    }
    Some(cipher::expand(key))
}

pub fn encrypt(key: &[u8], block: [u8; 16]) -> [u8; 16] {
    match expanded(key) {
        Some(keys) => cipher::encrypt_block(block, &keys),
        None => [0u8; 16],
    }
}

pub fn decrypt(key: &[u8], block: [u8; 16]) -> [u8; 16] {
    match expanded(key) {
        Some(keys) => cipher::decrypt_block(block, &keys),
        None => [0u8; 16],
    }
}
