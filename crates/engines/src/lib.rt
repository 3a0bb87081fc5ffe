#![tactic(auto)]
// Any two engines are equal: specs/Engines has the theorem. Here it is brought to the code. `equal` runs two engines on the same key, of 16 or 32 bytes, and the same
// blocks and compares all that they give, and is proved to answer true for every two engines and every input. Its contract would also be met by
// a function that looks at nothing, so what is compared is to be read here.
ghost use Rattle.std.specs.Prelude.{◌≡◌, true, ◌≤◌};
ghost use Rattle.blocks.specs.Bytes.{same as same_of, zeros};
ghost use Rattle.groups.specs.Group.{block_at, in_front};
ghost use Rattle.fips197.specs.Aes.{KeyLength};
ghost use Rattle.cipher.specs.Keys.{key_of, Expanded};
ghost use Rattle.cipher.specs.Group.{Enciphered, Deciphered};
ghost use Rattle.engines.specs.Engines.{Agree};

use cipher::engine::Engine;

// ---- what is compared

// Whether n blocks of two groups are the same.
fn same_blocks(x: &[u64; groups::WORDS], y: &[u64; groups::WORDS], n: usize) -> bool
    requires { n ≤ 32 }
    ensures compared { result ≡ same_of (in_front n (block_at x.now) (zeros 512)) (in_front n (block_at y.now) (zeros 512)) }
    ensures agree { Agree n x.now y.now → result ≡ true }
{
    let mut one = [0u8; 512];
    let mut other = [0u8; 512];
    groups::store(x, n, &mut one);
    groups::store(y, n, &mut other);
    blocks::bytes::equal(&one, &other)
}

// What an engine gives of a group: its blocks after the cipher, and their middletexts.
#[derive(Clone, Copy)]
struct Given {
    blocks: [u64; groups::WORDS],
    middle: [u64; groups::WORDS],
}

impl Given {
    // Whether another gives the same of the first n blocks.
    fn agrees(&self, other: &Given, n: usize) -> bool
        requires { n ≤ 32 }
        ensures { Agree n self.now.blocks other.now.blocks → Agree n self.now.middle other.now.middle → result ≡ true }
    {
        same_blocks(&self.blocks, &other.blocks, n) && same_blocks(&self.middle, &other.middle, n)
    }
}

// n blocks of a group enciphered, and their middletexts: the first half.
fn encipher(
    engine: Engine,
    group: [u64; groups::WORDS],
    n: usize,
    keys: &[u8; cipher::KEYS],
) -> Given
    requires n_bound { n ≤ 32 }
    requires expanded { Expanded keys.now }
    ensures { Enciphered n (key_of keys.now) group result.blocks result.middle }
{
    let mut blocks = group;
    let mut middle = [0u64; groups::WORDS];
    cipher::by::encrypt(engine, &mut blocks, &mut middle, n, keys);
    Given { blocks, middle }
}

// n blocks of a group deciphered, and their middletexts: the second half undone. Beside `encipher` it is no closure's body: what it gives is
// another record of specs/Group.antt, and a closure with both clauses is as long.
fn decipher(
    engine: Engine,
    group: [u64; groups::WORDS],
    n: usize,
    keys: &[u8; cipher::KEYS],
) -> Given
    requires n_bound { n ≤ 32 }
    requires expanded { Expanded keys.now }
    ensures { Deciphered n (key_of keys.now) group result.blocks result.middle }
{
    let mut blocks = group;
    let mut middle = [0u64; groups::WORDS];
    cipher::by::decrypt(engine, &mut blocks, &mut middle, n, keys);
    Given { blocks, middle }
}

// ---- two engines

fn schedules(a: Engine, b: Engine, key: &[u8]) -> bool
    requires { KeyLength key.now }
    ensures { result ≡ true }
{
    let one = cipher::by::expand(a, key);
    let other = cipher::by::expand(b, key);
    one == other
}

// One block, both ways.
fn single_blocks(a: Engine, b: Engine, block: [u8; 16], keys: &[u8; cipher::KEYS]) -> bool
    requires { Expanded keys.now }
    ensures { result ≡ true }
{
    let one = cipher::by::encrypt_block(a, block, keys);
    let other = cipher::by::encrypt_block(b, block, keys);
    let back_one = cipher::by::decrypt_block(a, block, keys);
    let back_other = cipher::by::decrypt_block(b, block, keys);
    one == other && back_one == back_other
}

// n blocks of a group enciphered, and their middletexts.
fn enciphered(
    a: Engine,
    b: Engine,
    group: &[u64; groups::WORDS],
    n: usize,
    keys: &[u8; cipher::KEYS],
) -> bool
    requires n_bound { n ≤ 32 }
    requires expanded { Expanded keys.now }
    ensures { result ≡ true }
{
    let one = encipher(a, *group, n, keys);
    let other = encipher(b, *group, n, keys);
    one.agrees(&other, n)
}

// n blocks of a group deciphered, and their middletexts.
fn deciphered(
    a: Engine,
    b: Engine,
    group: &[u64; groups::WORDS],
    n: usize,
    keys: &[u8; cipher::KEYS],
) -> bool
    requires n_bound { n ≤ 32 }
    requires expanded { Expanded keys.now }
    ensures { result ≡ true }
{
    let one = decipher(a, *group, n, keys);
    let other = decipher(b, *group, n, keys);
    one.agrees(&other, n)
}

// The middletexts of n blocks of ciphertext.
fn middletexts(
    a: Engine,
    b: Engine,
    group: &[u64; groups::WORDS],
    n: usize,
    keys: &[u8; cipher::KEYS],
) -> bool
    requires n_bound { n ≤ 32 }
    requires expanded { Expanded keys.now }
    ensures { result ≡ true }
{
    let mut one = *group;
    let mut other = *group;
    cipher::by::middletexts(a, &mut one, n, keys);
    cipher::by::middletexts(b, &mut other, n, keys);
    same_blocks(&one, &other, n)
}

// ---- all of it

// The schedules of a key, a block both ways, and n blocks of a group both ways with what lies between the halves.
pub fn equal<A: Into<Engine>, B: Into<Engine>>(
    a: A,
    b: B,
    key: &[u8],
    block: [u8; 16],
    group: &[u64; groups::WORDS],
    n: usize,
) -> bool
    requires key_length { KeyLength key.now }
    requires n_bound { n ≤ 32 }
    ensures { result ≡ true }
{
    let a = a.into();
    let b = b.into();
    let keys = cipher::by::expand(a, key);
    schedules(a, b, key)
        && single_blocks(a, b, block, &keys)
        && enciphered(a, b, group, n, &keys)
        && deciphered(a, b, group, n, &keys)
        && middletexts(a, b, group, n, &keys)
}
