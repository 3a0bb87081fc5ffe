// What every call under a key and an IV begins with.
ghost use Rattle.std.specs.Prelude.{◌≡◌, length};
ghost use Rattle.blocks.specs.Words.{bytes_of};
ghost use Rattle.fips197.specs.Aes.{KeyLength};
ghost use Rattle.mode.specs.Aes.{aes};
ghost use Rattle.mode.specs.Table.{zero_mask};
ghost use Rattle.tags.specs.Work.{Prepares};

use blocks::words::Words;

#[derive(Clone, Copy)]
pub struct Prepared {
    pub keys: [u8; cipher::KEYS],
    pub start: Words,
}

// The key schedule, and the start mask.
pub fn prepare(key: &[u8], iv: &[u8]) -> Prepared
    requires key_length { KeyLength key.now }
    requires iv_len { length iv.now ≡ 16 }
    ensures { Prepares key.now iv.now result.keys (bytes_of result.start) }
{
    let v = blocks::block::load(iv, 0);
    let keys = cipher::expand(key);
    let start = crate::mask::start_mask(v, &keys);
    Prepared { keys, start }
}

// Refusal 10: the start mask is still zero after its replacement. That replacement is the key's first 16 bytes, so only a key that starts with
// 16 zeros can have one: under any other key nothing is worked out.
pub fn zero_mask(key: &[u8], iv: &[u8]) -> bool
    requires key_length { KeyLength key.now }
    requires iv_len { length iv.now ≡ 16 }
    ensures { result ≡ zero_mask aes key.now iv.now }
{
    let k = blocks::block::load(key, 0);
    if !blocks::bytes::equal(&k, &[0u8; 16]) {
        return false;
    }
    let p = prepare(key, iv);
    let start = <[u8; 16]>::from(p.start);
    blocks::bytes::equal(&start, &[0u8; 16])
}
