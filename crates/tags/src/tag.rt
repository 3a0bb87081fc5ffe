// Document 01, step 3, by either finish (ticket P4). A tag is held in 20 bytes, with zeros behind it where it is shorter.
ghost use Rattle.std.specs.Prelude.{◌≡◌, ◌++◌, ◌+◌, ◌-◌, ◌≤◌, length, take, drop};
ghost use Rattle.blocks.specs.Bytes.{same, zeros};
ghost use Rattle.blocks.specs.Words.{bytes_of};
ghost use Rattle.fips197.specs.Aes.{KeyLength};
ghost use Rattle.cipher.specs.Keys.{Expands};
ghost use Rattle.mode.specs.Mode.{hashed_tag, finish_named};
ghost use Rattle.mode.specs.Aes.{aes};
ghost use Rattle.mode.specs.Calls.{held_tag};

use blocks::words::Words;
use mode::finish::Finish;

// A tag of 16 bytes as it is held.
fn held(tag: [u8; 16]) -> [u8; mode::finish::LONGEST_TAG]
    ensures { result ≡ held_tag tag }
{
    let mut r = [0u8; mode::finish::LONGEST_TAG];
    blocks::block::store(&mut r, 0, tag);
    r
}

// The whole key, the pre-authenticator and the mask after the last block, over 64 zeros.
fn lay_out(key: &[u8], preauthenticator: Words, mask: Words, text: &mut [u8])
    requires key_length { KeyLength key.now }
    requires text_value { text.old ≡ zeros 64 }
    ensures { text.new ≡ key.now ++ bytes_of preauthenticator ++ bytes_of mask ++ zeros (32 - length key.now) }
{
    let size = key.len();
    blocks::bytes::put(text, 0, key);
    blocks::words::store(text, size, preauthenticator);
    blocks::words::store(text, size + 16, mask);
}

// SHA-1 of these.
fn hashed_tag(key: &[u8], preauthenticator: Words, mask: Words) -> [u8; mode::finish::LONGEST_TAG]
    requires { KeyLength key.now }
    ensures { result ≡ hashed_tag key.now (bytes_of preauthenticator) (bytes_of mask) }
{
    let mut text = [0u8; 64];
    lay_out(key, preauthenticator, mask, &mut text);
    let size = key.len() + 32;
    fips180::digest(&text[..size])
}

// Step 3. The schedule is the key's.
pub fn tag(
    finish: Finish,
    key: &[u8],
    preauthenticator: Words,
    mask: Words,
    keys: &[u8; cipher::KEYS],
) -> [u8; mode::finish::LONGEST_TAG]
    requires { Expands key.now keys.now }
    ensures { result ≡ held_tag ((finish_named finish).tag_from aes key.now (bytes_of preauthenticator) (bytes_of mask)) }
{
    match finish {
        Finish::Cipher => held(crate::mask::encrypted_tag(preauthenticator, mask, keys)),
        Finish::Sha1 => hashed_tag(key, preauthenticator, mask),
    }
}

// Whether a tag that is held is the one that is given. All its bytes are compared.
pub fn is_tag(tag: [u8; mode::finish::LONGEST_TAG], given: &[u8]) -> bool
    requires { length given.now ≤ 20 }
    ensures { result ≡ same (take (length given.now) tag) given.now }
{
    let size = given.len();
    blocks::bytes::equal(&tag[..size], given)
}

// A tag that is held into an output at an offset.
pub fn put(finish: Finish, tag: [u8; mode::finish::LONGEST_TAG], out: &mut [u8], at: usize)
    requires { at + (finish_named finish).tag_length ≤ length out.old }
    ensures { out.new ≡ take at out.old ++ take (finish_named finish).tag_length tag ++ drop (at + (finish_named finish).tag_length) out.old }
{
    let size = mode::finish::tag_length(finish);
    blocks::bytes::put(out, at, &tag[..size]);
}
