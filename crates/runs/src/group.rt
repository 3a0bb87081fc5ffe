// A group of up to 32 blocks on its way through a run, in words.
ghost use Rattle.std.specs.Prelude.{◌≡◌, ◌+◌, ◌*◌, ◌/◌, ◌<◌, ◌≤◌, length};
ghost use Rattle.blocks.specs.Bytes.{xor_bytes};
ghost use Rattle.blocks.specs.Words.{bytes_of};
ghost use Rattle.groups.specs.Group.{block_at, block_of, Holds, in_front};
ghost use Rattle.mode.specs.Mode.{padded};
ghost use Rattle.runs.specs.Group.{Masked, taken_up};

use blocks::words::Words;

// ---- load

// The last bytes of a text, fewer than a block, with the padding: a byte 80 and zeros.
fn padded_block(rest: &[u8]) -> Words
    requires { length rest.now < 16 }
    ensures { bytes_of result ≡ padded rest.now }
{
    let mut block = [0u8; 16];
    let end = rest.len();
    block[..end].copy_from_slice(rest);
    block[end] = 0x80;
    Words::from(block)
}

// n blocks of a text with its padding.
fn load_text(text: &[u8], n: usize, group: &mut [u64; groups::WORDS])
    requires n_bound { n ≤ 32 }
    requires n_in_bounds { n ≤ length text.now / 16 + 1 }
    ensures { Holds n (block_of (padded text.now)) group.new }
{
    let whole = text.len() / 16;
    if n <= whole {
        groups::load(text, n, group);
        return;
    }
    groups::load(text, whole, group);
    let at = whole * 16;
    let last = padded_block(&text[at..]);
    groups::put(group, whole, last);
}

// n blocks masked, the first with this mask, each next one with the mask times x. The masks are kept; the answer is the mask after them.
fn mask_each(
    mask: Words,
    n: usize,
    group: &mut [u64; groups::WORDS],
    masks: &mut [u64; groups::WORDS],
) -> Words
    requires { n ≤ 32 }
    ensures { Masked n (block_at group.old) (bytes_of mask) group.new masks.new (bytes_of result) }
{
    let mut m = mask;
    for i in 0..n {
        let block = groups::get(group, i);
        let masked = block ^ m;
        groups::put(group, i, masked);
        groups::put(masks, i, m);
        let next = gf128::times_x(m);
        m = next;
    }
    m
}

// LOAD n blocks of a text with its padding, and their masks, which are added. The answer is the mask after them.
pub(crate) fn load(
    text: &[u8],
    n: usize,
    mask: Words,
    group: &mut [u64; groups::WORDS],
    masks: &mut [u64; groups::WORDS],
) -> Words
    requires n_bound { n ≤ 32 }
    requires n_in_bounds { n ≤ length text.now / 16 + 1 }
    ensures { Masked n (block_of (padded text.now)) (bytes_of mask) group.new masks.new (bytes_of result) }
{
    load_text(text, n, group);
    mask_each(mask, n, group, masks)
}

// ---- take up

// TAKE UP n middletexts: for each the pre-authenticator is multiplied by x, and the middletext added.
pub(crate) fn take_up(preauthenticator: Words, middle: &[u64; groups::WORDS], n: usize) -> Words
    requires { n ≤ 32 }
    ensures { bytes_of result ≡ taken_up n (block_at middle.now) (bytes_of preauthenticator) }
{
    let mut p = preauthenticator;
    for i in 0..n {
        let moved = gf128::times_x(p);
        let added = groups::get(middle, i);
        let next = moved ^ added;
        p = next;
    }
    p
}

// ---- store

// STORE n blocks with their masks added, to the front of an output.
pub(crate) fn store(
    group: &mut [u64; groups::WORDS],
    masks: &[u64; groups::WORDS],
    n: usize,
    out: &mut [u8],
)
    requires n_bound { n ≤ 32 }
    requires n_in_bounds { n * 16 ≤ length out.old }
    ensures { out.new ≡ in_front n (λ i. xor_bytes (block_at group.old i) (block_at masks.now i)) out.old }
{
    groups::xor(group, masks, n);
    groups::store(group, n, out);
}
