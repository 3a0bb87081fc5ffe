// Document 01, step 2, over the blocks of a slice, a group at a time: each block is masked, goes through one half to the middletext and
// through the other on, and is masked again; the pre-authenticator takes up the middletext, and the mask is multiplied by x.
ghost use Rattle.std.specs.Prelude.{◌≡◌, ◌+◌, ◌*◌, ◌/◌, ◌≤◌, length};
ghost use Rattle.blocks.specs.Bytes.{first_blocks};
ghost use Rattle.blocks.specs.Words.{bytes_of};
ghost use Rattle.cipher.specs.Keys.{key_of, Expanded};
ghost use Rattle.mode.specs.Mode.{padded, zero_block};
ghost use Rattle.runs.specs.Task.{writes as writes_of, wrote};
ghost use Rattle.runs.specs.Group.{Through, Stored, Done};
ghost use Rattle.runs.specs.Run.{ran, Ran, Room};

use blocks::words::Words;

// What is done with the blocks of a text: plaintext is sealed, ciphertext opened, or only checked. It is an enum and no closure, since `ran`
// (specs/Run.antt) and all that is proved of a run over it go by it.
#[derive(Clone, Copy)]
pub enum Task {
    Seal,
    Open,
    Check,
}

// The mask after a run's last block, and the pre-authenticator.
#[derive(Clone, Copy)]
pub struct Chain {
    pub mask: Words,
    pub preauthenticator: Words,
}

// ---- a group

// n masked blocks through the cipher, with their middletexts.
fn through(
    task: Task,
    group: &mut [u64; groups::WORDS],
    middle: &mut [u64; groups::WORDS],
    n: usize,
    keys: &[u8; cipher::KEYS],
)
    requires n_bound { n ≤ 32 }
    requires expanded { Expanded keys.now }
    ensures { Through task n (key_of keys.now) group.old group.new middle.new }
{
    match task {
        Task::Seal => cipher::encrypt(group, middle, n, keys),
        Task::Open => cipher::decrypt(group, middle, n, keys),
        Task::Check => {
            cipher::middletexts(group, n, keys);
            groups::copy(group, n, middle);
        }
    }
}

fn writes(task: Task) -> bool
    ensures { result ≡ writes_of task }
{
    match task {
        Task::Seal => true,
        Task::Open => true,
        Task::Check => false,
    }
}

// The blocks of a group into an output at an offset, where the task writes.
fn put(
    task: Task,
    group: &mut [u64; groups::WORDS],
    masks: &[u64; groups::WORDS],
    n: usize,
    at: usize,
    out: &mut [u8],
)
    requires n_bound { n ≤ 32 }
    requires room { Room (writes_of task) (at + n * 16) (length out.old) }
    ensures { Stored task n group.old masks.now at out.old out.new }
{
    if writes(task) {
        crate::group::store(group, masks, n, &mut out[at..]);
    }
}

// One group of a run: the first n blocks of a text, and an output at an offset.
fn step(
    task: Task,
    start: Chain,
    keys: &[u8; cipher::KEYS],
    text: &[u8],
    n: usize,
    at: usize,
    out: &mut [u8],
) -> Chain
    requires expanded { Expanded keys.now }
    requires n_bound { n ≤ 32 }
    requires n_in_bounds { n ≤ length text.now / 16 + 1 }
    requires room { Room (writes_of task) (at + n * 16) (length out.old) }
    ensures { Done task n (key_of keys.now) (padded text.now) (bytes_of start.mask) (bytes_of start.preauthenticator) at out.old out.new (bytes_of result.mask) (bytes_of result.preauthenticator) }
{
    let mut group = [0u64; groups::WORDS];
    let mut masks = [0u64; groups::WORDS];
    let mut middle = [0u64; groups::WORDS];
    let first = start.mask;
    let before = start.preauthenticator;
    let mask = crate::group::load(text, n, first, &mut group, &mut masks);
    through(task, &mut group, &mut middle, n, keys);
    put(task, &mut group, &masks, n, at, out);
    let preauthenticator = crate::group::take_up(before, &middle, n);
    Chain {
        mask,
        preauthenticator,
    }
}

// ---- a run

// RUN over the first `count` blocks of a text with its padding, from the mask of the first one. What is written goes to the front of an
// output; a check writes nothing.
pub fn run(
    task: Task,
    mask: Words,
    keys: &[u8; cipher::KEYS],
    text: &[u8],
    count: usize,
    out: &mut [u8],
) -> Chain
    requires expanded { Expanded keys.now }
    requires count_in_bounds { count ≤ length text.now / 16 + 1 }
    requires room { Room (writes_of task) (count * 16) (length out.old) }
    ensures { Ran (wrote task count) (ran task (key_of keys.now) (first_blocks count (padded text.now)) (bytes_of mask) zero_block) out.old out.new (bytes_of result.mask) (bytes_of result.preauthenticator) }
{
    let mut chain = Chain {
        mask,
        preauthenticator: Words { high: 0, low: 0 },
    };
    // Counted by hand: a step is as long as the group that it takes, and `step_by` would end behind the last block.
    let mut i: usize = 0;
    while i < count {
        let n = groups::in_group(count - i);
        let at = i * 16;
        let next = step(task, chain, keys, &text[at..], n, at, out);
        chain = next;
        i += n;
    }
    chain
}
