// The first pass over a ciphertext, for the tag and the padding: nothing is written.
ghost use Rattle.std.specs.Prelude.{◌≡◌};
ghost use Rattle.blocks.specs.Words.{bytes_of};
ghost use Rattle.cipher.specs.Keys.{Expands};
ghost use Rattle.mode.specs.Mode.{finish_named};
ghost use Rattle.opening.specs.Work.{Ciphertext, Checks};

use blocks::words::Words;
use mode::finish::Finish;
use runs::run::Task;

// The tag that a ciphertext gives, as it is held, and the plaintext of its last block.
#[derive(Clone, Copy)]
pub(crate) struct Checked {
    pub(crate) tag: [u8; mode::finish::LONGEST_TAG],
    pub(crate) last: [u8; 16],
}

// CHECK a ciphertext, from its start mask. The last block is a run of its own, since its plaintext is wanted: what it gives is joined to what the
// blocks before it give. The output is as it was: a check writes nothing.
pub(crate) fn check(
    finish: Finish,
    key: &[u8],
    start: Words,
    keys: &[u8; cipher::KEYS],
    text: &[u8],
    out: &mut [u8],
) -> Checked
    requires expands { Expands key.now keys.now }
    requires ciphertext { Ciphertext text.now }
    ensures answer { Checks (finish_named finish) key.now (bytes_of start) text.now result.tag result.last }
    ensures output { out.new ≡ out.old }
{
    let front = text.len() - 16;
    let before = runs::run::run(Task::Check, start, keys, text, front / 16, out);
    let mut last = [0u8; 16];
    let end = runs::run::run(Task::Open, before.mask, keys, &text[front..], 1, &mut last);
    let preauthenticator = gf128::times_x(before.preauthenticator) ^ end.preauthenticator;
    let tag = tags::tag::tag(finish, key, preauthenticator, end.mask, keys);
    Checked { tag, last }
}
