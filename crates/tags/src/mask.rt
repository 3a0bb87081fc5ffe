// Document 01, steps 1 and 3, by the cipher.
ghost use Rattle.std.specs.Prelude.{◌≡◌};
ghost use Rattle.blocks.specs.Words.{bytes_of};
ghost use Rattle.mode.specs.Mode.{start_mask, encrypted_tag};
ghost use Rattle.mode.specs.Aes.{aes};
ghost use Rattle.cipher.specs.Keys.{key_of, Expanded};

use blocks::words::Words;

// Step 1: encrypt (IV plus key), add the key. If that is zero, the start mask is the key. A key of 32 bytes is added, and is the mask, by its
// first 16.
pub fn start_mask(iv: [u8; 16], keys: &[u8; cipher::KEYS]) -> Words
    requires { Expanded keys.now }
    ensures { bytes_of result ≡ start_mask aes (key_of keys.now) iv }
{
    let key = cipher::key_block(keys);
    let block = blocks::block::xor(iv, key);
    let encrypted = cipher::encrypt_block(block, keys);
    let sum = blocks::block::xor(encrypted, key);
    if blocks::bytes::equal(&sum, &[0u8; 16]) {
        return Words::from(key);
    }
    Words::from(sum)
}

// Step 3: the encryption of (pre-authenticator plus the mask after the last block), plus the pre-authenticator.
pub fn encrypted_tag(preauthenticator: Words, mask: Words, keys: &[u8; cipher::KEYS]) -> [u8; 16]
    requires { Expanded keys.now }
    ensures { result ≡ encrypted_tag aes (key_of keys.now) (bytes_of preauthenticator) (bytes_of mask) }
{
    let sum = preauthenticator ^ mask;
    let encrypted = cipher::encrypt_block(sum.into(), keys);
    blocks::block::xor(encrypted, preauthenticator.into())
}
