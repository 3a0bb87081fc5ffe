// The bare cipher.
ghost use Rattle.std.specs.Prelude.{◌≡◌, length};
ghost use Rattle.fips197.specs.Aes.{encrypt as encrypted, decrypt as decrypted};
ghost use Rattle.aes_blocks.specs.EachBlock.{refusal, output};

pub fn encrypt(key: &[u8], text: &[u8], out: &mut [u8]) -> u8
    ensures answer { result ≡ refusal key.now text.now (length out.old) }
    ensures output { out.new ≡ output encrypted key.now text.now (length out.old) }
{
    aes_blocks::aes_blocks_encrypt(key, text, out)
}

pub fn decrypt(key: &[u8], text: &[u8], out: &mut [u8]) -> u8
    ensures answer { result ≡ refusal key.now text.now (length out.old) }
    ensures output { out.new ≡ output decrypted key.now text.now (length out.old) }
{
    aes_blocks::aes_blocks_decrypt(key, text, out)
}
