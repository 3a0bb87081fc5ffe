// All 1,000,000 blocks, in runs of at most 2,048: what was sealed a block at a time is sealed again as one run, and checked as one run.
ghost use Rattle.std.specs.Prelude.{◌+◌, ◌<◌, ◌≤◌};

use crate::chain::{BLOCKS, fill};
use case_records::answer::record;
use case_records::keyed::Keyed;
use case_tools::held::{checks, seals};
use mode::RunRecord;

// What blocks have come to: the last one, its ciphertext, which is the next block of the message, and their record; and how much of their runs
// agreed, sealed again and checked. It is given for one run, and for all so far.
#[derive(Clone, Copy)]
pub struct Whole {
    pub block: [u8; 16],
    pub next: [u8; 16],
    pub run: RunRecord,
    pub sealed: usize,
    pub checked: usize,
}

fn no_record() -> RunRecord {
    record(0, 0, [0u8; 16])
}

// ---- one run

// The most bytes of a run, and of one block more.
const TEXT: usize = 32784;

// A run of `count` blocks from a number on. Sealing it again gives a ciphertext and a record, checking it a record.
fn one_run(keyed: Keyed, first: [u8; 16], number: u32, count: u32) -> Whole
    requires number_bound { number ≤ 1000000 }
    requires count_bound { count ≤ 2048 }
    ensures { (result.sealed ≤ 2) × (result.checked ≤ 1) }
{
    let size = count as usize;
    let mut blocks = [first; BLOCKS];
    let run = fill(keyed, number, count, &mut blocks);
    let all = blocks.as_slice();
    let text = &all[..size];
    let cipher = &all[1..size + 1];
    let mut out = [0u8; TEXT];
    Whole {
        block: text.last().copied().unwrap_or(first),
        next: blocks[size],
        run,
        sealed: seals(
            keyed,
            text.as_flattened(),
            cipher.as_flattened(),
            run,
            &mut out,
        ),
        checked: usize::from(checks(keyed, cipher.as_flattened(), run)),
    }
}

// ---- all runs

impl Whole {
    // No block yet, before the first one of the message.
    fn none(first: [u8; 16]) -> Whole
        ensures { (result.sealed ≤ 0) × (result.checked ≤ 0) }
    {
        Whole {
            block: [0u8; 16],
            next: first,
            run: no_record(),
            sealed: 0,
            checked: 0,
        }
    }

    // All blocks so far with those of one run more. Where the two records do not join, that of all is blank.
    fn with(self, one: Whole) -> Whole
        requires sealed_bound { self.sealed ≤ 2000000 }
        requires checked_bound { self.checked ≤ 1000000 }
        requires sealed_bound_2 { one.sealed ≤ 2 }
        requires checked_bound_2 { one.checked ≤ 1 }
        ensures { (result.sealed ≤ self.sealed + 2) × (result.checked ≤ self.checked + 1) }
    {
        Whole {
            run: self.run.join(one.run).unwrap_or(no_record()),
            sealed: self.sealed + one.sealed,
            checked: self.checked + one.checked,
            ..one
        }
    }
}

const ALL: u32 = 1000000;

// The most blocks of a run, and the runs.
const MOST: u32 = 2048;

const RUNS: u32 = 489;

// All runs, from the first block of the message on.
pub fn run(keyed: Keyed, first: [u8; 16]) -> Whole {
    let mut so_far = Whole::none(first);
    for n in 0..RUNS {
        let number = n * MOST;
        let count = MOST.min(ALL - number);
        let one = one_run(keyed, so_far.next, number, count);
        so_far = so_far.with(one);
    }
    so_far
}
