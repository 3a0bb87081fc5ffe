#![tactic(auto)]
// The functions of `aes_blocks` under their names in C, each with the clauses that it has there.
ghost use Rattle.std.specs.Prelude.{◌≡◌, length};
ghost use Rattle.fips197.specs.Aes.{encrypt, decrypt};
ghost use Rattle.aes_blocks.specs.EachBlock.{refusal as refusal_of, output};

// ENCRYPT each block.
#[unsafe(no_mangle)]
pub extern "C" fn aes_blocks_encrypt(key: &[u8], text: &[u8], out: &mut [u8]) -> u8
    ensures answer { result ≡ refusal_of key.now text.now (length out.old) }
    ensures output { out.new ≡ output encrypt key.now text.now (length out.old) }
{
    aes_blocks::aes_blocks_encrypt(key, text, out)
}

// DECRYPT each block.
#[unsafe(no_mangle)]
pub extern "C" fn aes_blocks_decrypt(key: &[u8], text: &[u8], out: &mut [u8]) -> u8
    ensures answer { result ≡ refusal_of key.now text.now (length out.old) }
    ensures output { out.new ≡ output decrypt key.now text.now (length out.old) }
{
    aes_blocks::aes_blocks_decrypt(key, text, out)
}
