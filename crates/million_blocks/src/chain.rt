// The rule of the paper's second vector: each ciphertext block is the next block of the message. So the blocks are sealed one at a time, each as
// a run of its own at its block number.
ghost use Rattle.std.specs.Prelude.{◌≤◌};

use case_records::answer::record;
use case_records::keyed::Keyed;
use mode::RunRecord;

// The most blocks of a run, and one more.
pub const BLOCKS: usize = 2049;

// The last ciphertext block, which is the next block of the message, and the record of the blocks so far.
#[derive(Clone, Copy)]
pub struct Link {
    pub block: [u8; 16],
    pub run: RunRecord,
}

impl Link {
    // A block of the message, with none before it: its number is the first of the record.
    pub fn none(block: [u8; 16], number: u32) -> Link {
        Link {
            block,
            run: record(number, 0, [0u8; 16]),
        }
    }

    // One block sealed and joined to those before it. Where an answer is not as it should be there is none.
    pub fn next(self, keyed: Keyed, number: u32) -> Option<Link> {
        let mut out = [0u8; 32];
        let run = keyed.record_sealed(number, false, &self.block, 16, &mut out)?;
        Some(Link {
            block: blocks::block::load(&out, 0),
            run: self.run.join(run).ok()?,
        })
    }
}

// Behind a block, which has this number, the ciphertext of `count` blocks from it on, in order. The answer is their record. Where a call does not
// answer as it should, block and record are zero, so that it shows in all that is counted after it.
pub fn fill(keyed: Keyed, number: u32, count: u32, blocks: &mut [[u8; 16]; BLOCKS]) -> RunRecord
    requires number_bound { number ≤ 1000000 }
    requires count_bound { count ≤ 2048 }
{
    let mut last = Link::none(blocks[0], number);
    for n in 0..count {
        last = last
            .next(keyed, number + n)
            .unwrap_or(Link::none([0u8; 16], 0));
        let block = last.block;
        blocks[n as usize + 1] = block;
    }
    last.run
}
