#![tactic(auto)]
// Cipher-State mode as definitions (specs/), laws and the demands' theorems (proofs/), over any block cipher that is cut into two
// halves. The calls stand above this crate. What they answer is declared here, so that the definitions speak of the very types; and
// here is the join of two run records.
pub mod finish; // finish.rt: what makes a tag
pub mod power; // power.rt: a power of x that is kept
pub mod refusal; // refusal.rt: why a call refuses

ghost use Rattle.std.specs.Prelude.{◌≡◌, ◌+◌};
ghost use Rattle.mode.specs.Mode.{in_words};
ghost use Rattle.mode.specs.Table.{first_row};
ghost use Rattle.mode.specs.Calls.{joined, join_two, join_two_rows, record_of_answer};
ghost use Rattle.mode.specs.Refusals.{passed};
ghost use Rattle.mode.specs.Powers.{Keeps, Joinable, join_keeping};

use blocks::words::Words;
use power::LastPower;
pub use refusal::Refusal;

// The most blocks that a list may have.
pub const LIMIT: u64 = 1048576;

// So the longest ciphertext, and the longest message, whose padding fills the last block.
pub const LONGEST_CIPHERTEXT: usize = 16 * LIMIT as usize;

pub const LONGEST_MESSAGE: usize = LONGEST_CIPHERTEXT - 1;

// Document 01's run record: the number of the run's first block, its block count, and the pre-authenticator of the run alone, in two words.
#[derive(Clone, Copy, PartialEq, Eq)]
pub struct RunRecord {
    pub first: u32,
    pub count: u32,
    pub preauthenticator: Words,
}

// What sealing a run gives: the number of answer bytes, and the record.
#[derive(Clone, Copy, PartialEq, Eq)]
pub struct SealedRun {
    pub length: usize,
    pub run: RunRecord,
}

// The answer of a join, and the power of x that is kept for the next one.
#[derive(Clone, Copy)]
pub struct KeptAnswer {
    pub answer: Result<RunRecord, Refusal>,
    pub last: LastPower,
}

impl RunRecord {
    // The number of the block after the run's last, at 64 bits: a caller may hand in any two numbers.
    fn end(self) -> u64
        ensures { result ≡ self.first + self.count }
    {
        self.first as u64 + self.count as u64
    }

    // The first row of the table that holds of this run and its right neighbour: 4 where either is beyond the limit, 8 where they do not
    // adjoin.
    fn join_refusal(self, right: RunRecord) -> Result<(), Refusal>
        ensures { result ≡ passed (first_row (join_two_rows in_words self right)) }
    {
        let left_end = self.end();
        let right_end = right.end();
        if LIMIT < left_end {
            return Err(Refusal::BeyondLimit);
        }
        if LIMIT < right_end {
            return Err(Refusal::BeyondLimit);
        }
        if left_end != right.first as u64 {
            return Err(Refusal::NotNeighbours);
        }
        Ok(())
    }

    // The record of this run and its right neighbour, with x to the neighbour's count handed in.
    fn join_by(self, right: RunRecord, power: Words) -> RunRecord
        requires { Joinable self right power }
        ensures { result ≡ joined in_words self right }
    {
        let left = self.preauthenticator;
        let moved = gf128::multiply(power, left);
        let added = right.preauthenticator;
        let preauthenticator = moved ^ added;
        RunRecord {
            first: self.first,
            count: self.count + right.count,
            preauthenticator,
        }
    }

    // The join with a kept power of x handed in. A refusal works out no power, and keeps the one there was.
    pub fn join_keeping(self, right: RunRecord, last: LastPower) -> KeptAnswer
        requires { Keeps last }
        ensures { result ≡ join_keeping self right last }
    {
        if let Err(refusal) = self.join_refusal(right) {
            return KeptAnswer {
                answer: Err(refusal),
                last,
            };
        }
        let (power, last) = last.for_count(right.count);
        let run = self.join_by(right, power);
        KeptAnswer {
            answer: Ok(run),
            last,
        }
    }

    // The record of this run and its right neighbour, or a refusal.
    pub fn join(self, right: RunRecord) -> Result<RunRecord, Refusal>
        ensures { result ≡ record_of_answer (join_two in_words self right) }
    {
        self.join_keeping(right, LastPower::none()).answer
    }
}
