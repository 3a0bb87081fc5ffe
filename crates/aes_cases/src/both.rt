// Both engines on the same keys and blocks, compared in all that they give.
use crate::lines::{Line, Lines};
use cipher::engine::Engine;

// Whether they agree under the key of a line, of 16 or 32 bytes, on its block, and as a group on up to 32 blocks of the text from that line on.
#[tactic(auto, using(fips197::proofs::Keys::has_key))]
fn equal_on(line: &Line) -> bool {
    let key = line.key();
    if cipher::not_key(key) {
        return false;
    }
    let n = groups::BLOCKS.min(line.text.len() / 16);
    let mut group = [0u64; groups::WORDS];
    groups::load(line.text, n, &mut group);
    engines::equal(
        Engine::Tables,
        Engine::Arithmetic,
        key,
        line.plain,
        &group,
        n,
    )
}

// How many lines they agree on.
pub fn run(text: &[u8], size: usize) -> usize {
    Lines { text, size }.filter(equal_on).count()
}
